// The clauses of a value in one direction, one for each split of a sum over the two sides.
#![tactic(auto)]

ghost use Rattle.std.specs.Prelude.{◌≡◌, List, ℕ, ◌≤◌, ◌<◌, ◌+◌, length, get_or};
ghost use Rattle.sizes.specs.Sizes.{width, step_stop, store_at};
ghost use Rattle.memo.specs.Visit.{each};
ghost use Rattle.cert.specs.Requests.{request, clauses_of};
ghost use Rattle.cert.specs.State.{write_clause, write};
ghost use Rattle.derivation.specs.Operands.{clause_room};
ghost use Rattle.define.specs.Store.{direction, clause_counted};
ghost use Rattle.define.specs.Represents.{memory, Represented, Simulates};
ghost use Rattle.clauses.specs.Firsts.{real_step, has_first};
ghost use Rattle.clauses.specs.Joins.{JoinIn, ClauseIn, SideRoom, ClauseReach, clause_of};
ghost use Rattle.splits.specs.Splits.{split_sum, left_value};
ghost use Rattle.splits.specs.Ready.{is_long, are_long, has_both, is_ready, BothParts};

use clauses::Split;
use derivation::Whole;
use rows::{Join, Shown};

// The sum that is split over the two sides: in an only-if clause each has one more.
fn split_sum(value: usize, only_if: bool) -> usize
    requires { 1 ≤ value }
    ensures { result ≡ split_sum value only_if }
{
    if only_if { value - 1 } else { value }
}

// The left side's value in the clause of the split a.
fn left_value(a: usize, only_if: bool) -> usize
    requires { a ≤ width }
    ensures { result ≡ left_value a only_if }
{
    if only_if { a + 1 } else { a }
}

// ---- clauses with both parts, over plain sides of two values or more, whose definitions are stored, as most are

// Whether a side is plain and has two values or more.
fn is_long(s: Shown) -> bool
    ensures { result ≡ is_long s }
{
    let side = s.side;
    1 < s.len && side.is_plain()
}

// Whether both sides are such.
fn are_long(x: Join) -> bool
    ensures { result ≡ are_long x }
{
    is_long(x.left) && is_long(x.right)
}

// Whether the clause has both parts.
fn has_both(x: Join, k: Split) -> bool
    ensures { result ≡ has_both x k }
{
    // One test of the direction, for both sides: a test by side makes a play of balanced-41 take 4% more instructions.
    if k.only_if {
        k.left <= x.left.len && k.right <= x.right.len
    } else {
        0 < k.left && 0 < k.right
    }
}

// The first step at a value of a side's node, 0 where it is missing. Of a plain side it is the value's own.
fn first_of(store: &[u32], s: Shown, a: usize) -> u32
    requires { SideRoom store.now s a }
    ensures { result ≡ get_or store.now (store_at s.side.node + a) 0 }
{
    let side = s.side;
    store[rows::store_at(side.node) + a]
}

fn has_first_of(store: &[u32], s: Shown, a: usize) -> bool
    requires { SideRoom store.now s a }
    ensures { result ≡ has_first store.now (store_at s.side.node + a) }
{
    first_of(store, s, a) != 0
}

// Whether the clause is such, and there is room for it in a log of so many bytes.
fn is_ready(store: &[u32], length: usize, at: usize, x: Join, k: Split, long: bool) -> bool
    requires { ClauseReach store.now x k }
    ensures { result ≡ is_ready store.now length at x k long }
{
    long && has_both(x, k)
        && record::fits(length, at, derivation::CLAUSE_ROOM)
        && clauses::has_first(store, rows::store_at(x.node) + k.value)
        && has_first_of(store, x.left, k.left)
        && has_first_of(store, x.right, k.right)
}

// The step of a definition of a value above 0, by its first.
fn later_step(first: u32, only_if: bool) -> u32
    requires { first < step_stop }
    ensures { (v : ℕ) → 0 < v → result ≡ real_step first v only_if }
{
    if only_if { first + 1 } else { first }
}

// Such a clause, with its step, which is still to be counted.
fn push_split(store: &[u32], log: &mut [u8], at: usize, x: Join, k: Split) -> usize
    requires both_parts { BothParts x k × (at + clause_room ≤ length log.old) }
    requires represented { (ns : List ℕ) × Represented ns (λ t s. ClauseIn t x k) (memory store.now log.old at) }
    ensures { (ns : List ℕ) → Simulates ns (λ t s. ClauseIn t x k) (λ t s. write t (clause_of t x k) s)
        (memory store.now log.old at) (memory (clause_counted store.now) log.new result) }
{
    let this = store[rows::store_at(x.node) + k.value];
    let left = first_of(store, x.left, k.left);
    let right = first_of(store, x.right, k.right);
    let w = Whole {
        this: later_step(this, k.only_if),
        left: later_step(left, !k.only_if),
        right: later_step(right, !k.only_if),
        step: store[sizes::STEP],
        left_part: clauses::part_literal(x.left, k.left, k.only_if),
        right_part: clauses::part_literal(x.right, k.right, k.only_if),
        output: clauses::own_literal(x, k.value, k.only_if),
    };
    derivation::push_whole(log, at, w)
}

// ---- the clauses

// The clause of a split. `long`, which is found once for all splits of a join, says that its sides are plain and have two values or
// more.
fn write_split(
    nodes: &[u32],
    store: &mut [u32],
    log: &mut [u8],
    at: usize,
    x: Join,
    k: Split,
    long: bool,
) -> usize
    requires long_value { long ≡ are_long x }
    requires represented { Represented nodes.now (λ t s. ClauseIn t x k) (memory store.old log.old at) }
    ensures { Simulates nodes.now (λ t s. ClauseIn t x k) (λ t s. write_clause t (clause_of t x k) s)
        (memory store.old log.old at) (memory store.new log.new result) }
{
    if is_ready(store, log.len(), at, x, k, long) {
        let end = push_split(store, log, at, x, k);
        define::count_clause(store);
        return end;
    }
    clauses::write_clause(nodes, store, log, at, x, k)
}

// The clauses of a value in one direction.
pub fn write_clauses(
    nodes: &[u32],
    store: &mut [u32],
    log: &mut [u8],
    at: usize,
    x: Join,
    value: usize,
    only_if: bool,
) -> usize
    requires { Represented nodes.now (λ t s. JoinIn t x value) (memory store.old log.old at) }
    ensures { Simulates nodes.now (λ t s. JoinIn t x value)
        (λ t s. each (write_clause t) (clauses_of t (request x.node value (direction only_if))) s)
        (memory store.old log.old at) (memory store.new log.new result) }
{
    let l = x.left;
    let r = x.right;
    let sum = split_sum(value, only_if);
    let low = sum.saturating_sub(r.len);
    let high = sum.min(l.len);
    let long = are_long(x);
    let mut p = at;
    for a in low..high + 1 {
        let k = Split {
            value,
            left: left_value(a, only_if),
            right: value - a,
            only_if,
        };
        p = write_split(nodes, store, log, p, x, k, long);
    }
    p
}
