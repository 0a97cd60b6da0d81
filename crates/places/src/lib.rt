// The clauses of a log by their places. Any bytes are read to their end: `specs/Walk.antt` says as what. Log and place are two values:
// each reading is an equation with a definition of both.
#![tactic(auto)]

ghost use Rattle.std.specs.Prelude.{◌≡◌, cond, Some, None, ◌+◌, ◌*◌, ◌≤◌, length, take};
ghost use Rattle.sizes.specs.Sizes.{most_bytes};
ghost use Rattle.std.specs.Iterator.{YieldsFirst, item_count};
ghost use Rattle.places.specs.Walk.{item_at, numbers_left, clause_at, skip, after_number, after_token, after_record, is_clause, count_place, clause_places};

use record::{codes, kinds};

// The clauses of a log are no more than this: a clause takes three bytes, or is cut off by the end.
pub const MOST_CLAUSES: usize = (sizes::MOST_BYTES + 2) / 3;

// A number of a log, with the place after it.
#[derive(Clone, Copy)]
pub struct Item {
    pub value: u32,
    pub end: usize,
}

// The number at a place.
pub fn number_at(log: &[u8], at: usize) -> Item
    ensures { result ≡ item_at log.now at }
{
    let (value, end) = number::read(log, at).unwrap_or((0, log.len()));
    Item { value, end }
}

// So many numbers of a log, from a place on.
#[derive(Drop)]
pub struct Numbers<'a> {
    log: &'a [u8],
    left: u32,
    at: usize,
}

impl<'a> Iterator for Numbers<'a> {
    type Item = u32;

    ghost next_gives = { YieldsFirst numbers_left };

    ghost remaining = { item_count numbers_left };

    fn next(&mut self) -> Option<u32> {
        self.left = self.left.checked_sub(1)?;
        let x = number_at(self.log, self.at);
        self.at = x.end;
        Some(x.value)
    }
}

// The literals of the clause whose count is at a place.
pub fn literals(log: &[u8], place: usize) -> Numbers<'_>
    ensures { numbers_left result ≡ clause_at log.now place }
{
    let count = number_at(log, place);
    Numbers {
        log,
        left: count.value,
        at: count.end,
    }
}

// The place after k numbers. This and `after_tokens` are one fold each: a function of the step would be `fold` again.
fn after_numbers(log: &[u8], k: u64, at: usize) -> usize
    ensures { result ≡ skip (after_number log.now) k at }
{
    (0..k).fold(at, |at, _| number_at(log, at).end)
}

// The place after a token.
fn after_token(log: &[u8], at: usize) -> usize
    ensures { result ≡ after_token log.now at }
{
    let t = number_at(log, at);
    // These two stand alone.
    if t.value == codes::ADD || t.value == codes::SATURATE {
        return t.end;
    }
    number_at(log, t.end).end
}

// The place after k tokens.
fn after_tokens(log: &[u8], k: u32, at: usize) -> usize
    ensures { result ≡ skip (after_token log.now) k at }
{
    (0..k).fold(at, |at, _| after_token(log, at))
}

// The place after a record.
fn after_record(log: &[u8], at: usize) -> usize
    ensures { result ≡ after_record log.now at }
{
    let kind = number_at(log, at);
    let first = number_at(log, kind.end);
    // A derivation has no second number.
    if kind.value == kinds::DERIVATION {
        return after_tokens(log, first.value, first.end);
    }
    let second = number_at(log, first.end);
    match kind.value {
        kinds::SUM => after_numbers(log, 2 * u64::from(second.value) + 1, second.end),
        kinds::CLAUSE => after_numbers(log, u64::from(second.value), second.end),
        _ => after_numbers(log, u64::from(first.value), first.end),
    }
}

// The place of the clause of the record at a place, if it has one.
fn clause_place(log: &[u8], at: usize) -> Option<usize>
    ensures { result ≡ cond (is_clause log.now at) (Some (count_place log.now at)) None }
{
    let kind = number_at(log, at);
    if kind.value != kinds::CLAUSE {
        return None;
    }
    let step = number_at(log, kind.end);
    Some(step.end)
}

// Collects the places of the clauses of a log, in its order; what stands after them is open. It answers how many they are, and no part
// of the slice, since its promise is of the slice. A loop: where a record ends is known once it is read, and how many clauses there
// are at the end.
pub fn collect(log: &[u8], places: &mut [u32]) -> usize
    requires { (length log.now ≤ most_bytes) × (length log.now + 2 ≤ 3 * length places.old) }
    ensures { (result ≤ length places.old) × (take result places.new ≡ clause_places log.now) }
{
    let mut at = 0;
    let mut n = 0;
    while at < log.len() {
        if let Some(place) = clause_place(log, at) {
            places[n] = place as u32;
            n += 1;
        }
        at = after_record(log, at);
    }
    n
}
