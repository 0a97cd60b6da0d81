// The sheet of a script: the header and the lines of its clauses, or the refusal. `specs/Sheet.antt` says its bytes.
#![tactic(auto)]

ghost use Rattle.std.specs.Prelude.{◌++◌};
ghost use Rattle.text.specs.Text.{page, Prints, spaced};
ghost use Rattle.lines.specs.Sheet;

use answer::Answer;

// No sheet is longer.
pub const MOST_SHEET: usize = 4 * sizes::MOST_BYTES + 64;

// A label and a number.
fn labelled(out: &mut [u8], at: usize, label: &[u8], x: u32) -> usize
    ensures { Prints (page out.old at) (label.now ++ spaced x) (page out.new result) }
{
    let end = text::word(out, at, label);
    text::spaced(out, end, x)
}

// `nodes N steps S clauses C`
fn header(out: &mut [u8], answer: Answer) -> usize
    ensures { Prints (page out.old 0) (Sheet.header answer.nodes answer.steps answer.clauses) (page out.new result) }
{
    let nodes = labelled(out, 0, b"nodes", answer.nodes);
    let steps = labelled(out, nodes, b" steps", answer.steps);
    let clauses = labelled(out, steps, b" clauses", answer.clauses);
    text::put(out, clauses, b'\n')
}

// `refused N at C`
fn refusal(out: &mut [u8], answer: Answer) -> usize
    ensures { Prints (page out.old 0) (Sheet.refusal answer.number answer.place) (page out.new result) }
{
    let refused = labelled(out, 0, b"refused", answer.number);
    let at = labelled(out, refused, b" at", answer.place);
    text::put(out, at, b'\n')
}

// The sheet, as far as `out` reaches, and how many bytes of it are there.
pub fn sheet(script: &[u8], out: &mut [u8]) -> usize
    ensures { Sheet.Wrote script.now out.old result out.new }
{
    let mut log = [0u8; sizes::MOST_BYTES];
    let answer = totlog::play_into(script, &mut log);
    if answer.number != 0 {
        return refusal(out, answer);
    }
    let end = header(out, answer);
    listing::all_lines(&log[..answer.length as usize], out, end)
}
