// The clauses of a log as lines of text, in their order. `specs/Line.antt` says of any bytes what is printed.
#![tactic(auto)]

ghost use mathlib.Core.List.{map, flat_map};
ghost use Rattle.std.specs.Prelude.{◌≤◌, length};
ghost use Rattle.sizes.specs.Sizes.{most_bytes};
ghost use Rattle.places.specs.Walk.{numbers_left, clause_at};
ghost use Rattle.text.specs.Text.{page, Prints, spaced};
ghost use Rattle.listing.specs.Line.{line, lines_at};

use places::Numbers;

// Numbers of a log, each after a space.
fn all_spaced(numbers: Numbers<'_>, out: &mut [u8], at: usize) -> usize
    ensures { Prints (page out.old at) (flat_map spaced (numbers_left numbers.entry)) (page out.new result) }
{
    let mut end = at;
    for x in numbers {
        end = text::spaced(out, end, x);
    }
    end
}

// The line of the clause whose count is at a place.
fn put_line(log: &[u8], place: usize, out: &mut [u8], at: usize) -> usize
    ensures { Prints (page out.old at) (line (clause_at log.now place)) (page out.new result) }
{
    let mut literals = places::literals(log, place);
    let Some(first) = literals.next() else {
        return text::put(out, at, b'\n');
    };
    let after_first = text::decimal(out, at, first);
    let after_all = all_spaced(literals, out, after_first);
    text::put(out, after_all, b'\n')
}

// The lines of the clauses at places, in their order.
fn put_lines(log: &[u8], places: &[u32], out: &mut [u8], at: usize) -> usize
    ensures { Prints (page out.old at) (flat_map line (map (clause_at log.now) places.now)) (page out.new result) }
{
    let mut end = at;
    for place in places {
        end = put_line(log, *place as usize, out, end);
    }
    end
}

// The lines of all the clauses of a log.
pub fn all_lines(log: &[u8], out: &mut [u8], at: usize) -> usize
    requires { length log.now ≤ most_bytes }
    ensures { Prints (page out.old at) (lines_at log.now) (page out.new result) }
{
    let mut room = [0u32; places::MOST_CLAUSES];
    let n = places::collect(log, &mut room);
    let places = &mut room[..n];
    sorting::sort(log, places);
    put_lines(log, places, out, at)
}
