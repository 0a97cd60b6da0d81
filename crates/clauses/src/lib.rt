// A clause of a join, with the definitions that it looks up.
#![tactic(auto)]

ghost use Rattle.std.specs.Prelude.{◌≡◌, List, [], ◌∷◌, ℕ, ◌≤◌, ◌<◌, ◌+◌, ◌-◌, ◌*◌, ◌^◌, length, get_or};
ghost use Rattle.sizes.specs.Sizes.{most_nodes, width, store_row, store_at};
ghost use Rattle.memo.specs.Visit.{each};
ghost use Rattle.totdb.specs.Nodes.{Node, node_at, output};
ghost use Rattle.cert.specs.Definitions.{Direction, side_def, Key, one_def, real};
ghost use Rattle.cert.specs.Requests.{key_of, looks_of};
ghost use Rattle.cert.specs.State.{look_up, write_clause, Stored, step_in, write};
ghost use Rattle.derivation.specs.Operands.{operand};
ghost use Rattle.derivation.specs.declared.SemDefinition.TheVariants.{Step};
ghost use Rattle.rows.specs.Rows.{Bounded};
ghost use Rattle.define.specs.Store.{direction, clause_counted};
ghost use Rattle.define.specs.Represents.{memory, Represented, Simulates};
ghost use Rattle.define.specs.Lookups.{SideIn, RealOf};
ghost use Rattle.clauses.specs.Firsts.{real_step, window_step, SideRead, has_first, side_stored, sides_stored};
ghost use Rattle.clauses.specs.Joins.{JoinIn, ClauseIn, SideReach, SideRoom, ClauseValue, clause_of, clause_part, last_literal};

use derivation::{Clause, SemDefinition};
use rows::{Join, Shown};

// A split of a sum over the two sides of a join: the value, what each side has of it, and the direction of its clause. The
// direction is a value and no closure, since literals, steps and parts all turn on it; a bool, since there are two, and the sides
// of a clause take the other.
#[derive(Clone, Copy)]
pub struct Split {
    pub value: usize,
    pub left: usize,
    pub right: usize,
    pub only_if: bool,
}

// A leaf, or a window of length 1: its one literal, at 0, at its own value and above.
fn one_definition(literal: u32, value: usize) -> SemDefinition
    ensures { (at_step : Key → ℕ → ℕ) → result ≡ operand at_step (one_def literal value) }
{
    if 1 < value {
        return SemDefinition::Axiom(pb::neg(literal));
    }
    if value == 0 {
        return SemDefinition::Axiom(literal);
    }
    SemDefinition::None
}

// The real definition of a value, which is stored: only-if is the second step, at value 0 the one.
fn real_definition(store: &[u32], node: usize, value: usize, only_if: bool) -> SemDefinition
    requires { (node < most_nodes) × (store_at node + store_row ≤ length store.now) × (value ≤ width + 1) }
    ensures { result ≡ Step (real_step (get_or store.now (store_at node + value) 0) value only_if) }
{
    let first = store[rows::store_at(node) + value];
    if value == 0 {
        return SemDefinition::Step(first);
    }
    if only_if {
        return SemDefinition::Step(derivation::next_step(first));
    }
    SemDefinition::Step(first)
}

// The definition of a window that is stored, by the place of its first steps and the key of a value: 0 is the sum of value 0,
// after that if and only-if in turn.
fn window_definition(
    store: &[u32],
    slot: usize,
    offset: usize,
    key: usize,
    only_if: bool,
) -> SemDefinition
    requires { (slot + 1 < length store.now) × (0 < key → offset < key) × (key ≤ offset + width + 1) × (offset ≤ width) }
    ensures { result ≡ Step (window_step (get_or store.now slot 0) (get_or store.now (slot + 1) 0) offset key only_if) }
{
    if key == 0 {
        return SemDefinition::Step(store[slot]);
    }
    let first = store[slot + 1];
    let k = 2 * (key - offset - 1) as u32;
    if only_if {
        return SemDefinition::Step(derivation::step_after(first, k + 1));
    }
    SemDefinition::Step(derivation::step_after(first, k))
}

// The definition of the a-th value of a side, once it is looked up. `SideRoom` stays a clause, here and below: it speaks of the store,
// which each call changes.
fn side_definition(store: &[u32], s: Shown, a: usize, only_if: bool) -> SemDefinition
    requires side_room { SideRoom store.now s a }
    requires side_read { (t : List Node) × (es : List Stored) × SideRead store.now t es s a }
    ensures { (t : List Node) (es : List Stored) → SideRead store.now t es s a
        → result ≡ operand (step_in es) (side_def t s.side a (direction only_if)) }
{
    let side = s.side;
    if s.len <= 1 {
        return one_definition(side.literal(s.first, 1), a);
    }
    // The key is found in each case by itself: of a plain side, whose offset is 0, it comes to the value.
    if side.is_plain() {
        return real_definition(store, side.node, side.key(a), only_if);
    }
    window_definition(store, s.window, side.offset, side.key(a), only_if)
}

// The literal of a clause at the a-th value of a side, in an if clause negated.
pub fn part_literal(s: Shown, a: usize, only_if: bool) -> u32
    requires { SideReach s a × (1 ≤ a) × (a ≤ s.len) }
    ensures { (t : List Node) → Bounded t → SideIn t s a → result ∷ [] ≡ clause_part only_if t s.side a }
{
    let side = s.side;
    let literal = side.literal(s.first, a);
    if only_if { literal } else { pb::neg(literal) }
}

// The part of a clause at the a-th value of a side: absent in an if clause at 0, in an only-if clause above the side's length.
fn part(s: Shown, a: usize, only_if: bool) -> Option<u32>
    requires side_reach { SideReach s a × ClauseValue only_if s.len a }
    requires bounded { (t : List Node) × Bounded t × SideIn t s a }
    ensures { (t : List Node) → Bounded t → SideIn t s a
        → Rattle.derivation.specs.Operands.part result ≡ clause_part only_if t s.side a }
{
    if only_if {
        if s.len < a {
            return None;
        }
        return Some(part_literal(s, a, true));
    }
    if a == 0 {
        return None;
    }
    Some(part_literal(s, a, false))
}

// The last literal of a clause: the output, in an only-if clause negated.
pub fn own_literal(x: Join, value: usize, only_if: bool) -> u32
    requires limits { (x.first ≤ 2 ^ 30) × (1 ≤ value) × (value ≤ width) }
    requires join_in { (t : List Node) × JoinIn t x value }
    ensures { (t : List Node) → JoinIn t x value → result ≡ last_literal only_if (output (node_at t x.node) value) }
{
    let o = x.first + 2 * (value as u32 - 1);
    if only_if { pb::neg(o) } else { o }
}

// A clause's step and the clause, once its definitions are looked up. The step is still to be counted.
fn put_clause(store: &[u32], log: &mut [u8], at: usize, x: Join, k: Split) -> usize
    requires { (ns : List ℕ) × Represented ns (λ t s. ClauseIn t x k) (memory store.now log.old at) }
    ensures { (ns : List ℕ) → Simulates ns (λ t s. ClauseIn t x k) (λ t s. write t (clause_of t x k) s)
        (memory store.now log.old at) (memory (clause_counted store.now) log.new result) }
{
    if log.len() < at {
        return at;
    }
    let this = real_definition(store, x.node, k.value, k.only_if);
    let left = side_definition(store, x.left, k.left, !k.only_if);
    let right = side_definition(store, x.right, k.right, !k.only_if);
    // The parts come first: with the step first a play of balanced-41 takes 2% more instructions.
    let c = Clause {
        left: part(x.left, k.left, k.only_if),
        right: part(x.right, k.right, k.only_if),
        step: store[sizes::STEP],
        output: own_literal(x, k.value, k.only_if),
    };
    derivation::put_clause(log, at, this, left, right, c)
}

// Whether a definition is stored, by its slot.
pub fn has_first(store: &[u32], slot: usize) -> bool
    requires { slot < length store.now }
    ensures { result ≡ has_first store.now slot }
{
    store[slot] != 0
}

// Whether what the a-th value of a side looks up is stored.
fn is_side_stored(store: &[u32], s: Shown, a: usize) -> bool
    requires { SideRoom store.now s a }
    ensures { result ≡ side_stored store.now s a }
{
    if s.len <= 1 {
        return true;
    }
    let side = s.side;
    if side.is_plain() {
        return has_first(store, rows::store_at(side.node) + side.key(a));
    }
    has_first(store, s.window + 1)
}

// Whether what both sides of a clause look up is stored.
fn are_sides_stored(store: &[u32], x: Join, k: Split) -> bool
    requires { SideRoom store.now x.left k.left × SideRoom store.now x.right k.right }
    ensures { result ≡ sides_stored store.now x k.left k.right }
{
    is_side_stored(store, x.left, k.left) && is_side_stored(store, x.right, k.right)
}

// The definition of the value itself. Where it is stored, the test spares a call: without this test and those of the next and of
// `look_up` a play of balanced-41 takes 8% more instructions.
fn look_up_this(
    nodes: &[u32],
    store: &mut [u32],
    log: &mut [u8],
    at: usize,
    node: usize,
    value: usize,
) -> usize
    requires { Represented nodes.now (λ t s. RealOf t node value) (memory store.old log.old at) }
    ensures { Simulates nodes.now (λ t s. RealOf t node value) (λ t s. look_up t (real node value) s)
        (memory store.old log.old at) (memory store.new log.new result) }
{
    if has_first(store, rows::store_at(node) + value) {
        return at;
    }
    define::look_up_real(nodes, store, log, at, node, value)
}

// The same of the a-th value of a side.
fn look_up_side(
    nodes: &[u32],
    store: &mut [u32],
    log: &mut [u8],
    at: usize,
    s: Shown,
    a: usize,
) -> usize
    requires { Represented nodes.now (λ t u. SideIn t s a) (memory store.old log.old at) }
    ensures { (d : Direction) → Simulates nodes.now (λ t u. SideIn t s a)
        (λ t u. each (look_up t) (key_of (side_def t s.side a d)) u)
        (memory store.old log.old at) (memory store.new log.new result) }
{
    if is_side_stored(store, s, a) {
        return at;
    }
    define::look_up_side(nodes, store, log, at, s, a)
}

// What a clause looks up: left, right, this.
fn look_up_each(
    nodes: &[u32],
    store: &mut [u32],
    log: &mut [u8],
    at: usize,
    x: Join,
    k: Split,
) -> usize
    requires { Represented nodes.now (λ t s. ClauseIn t x k) (memory store.old log.old at) }
    ensures { Simulates nodes.now (λ t s. ClauseIn t x k) (λ t s. each (look_up t) (looks_of t (clause_of t x k)) s)
        (memory store.old log.old at) (memory store.new log.new result) }
{
    let a = look_up_side(nodes, store, log, at, x.left, k.left);
    let b = look_up_side(nodes, store, log, a, x.right, k.right);
    look_up_this(nodes, store, log, b, x.node, k.value)
}

// What a clause looks up. Where that of the sides is stored, the test spares two calls.
fn look_up(nodes: &[u32], store: &mut [u32], log: &mut [u8], at: usize, x: Join, k: Split) -> usize
    requires { Represented nodes.now (λ t s. ClauseIn t x k) (memory store.old log.old at) }
    ensures { Simulates nodes.now (λ t s. ClauseIn t x k) (λ t s. each (look_up t) (looks_of t (clause_of t x k)) s)
        (memory store.old log.old at) (memory store.new log.new result) }
{
    if are_sides_stored(store, x, k) {
        return look_up_this(nodes, store, log, at, x.node, k.value);
    }
    look_up_each(nodes, store, log, at, x, k)
}

// A clause, with what it looks up.
pub fn write_clause(
    nodes: &[u32],
    store: &mut [u32],
    log: &mut [u8],
    at: usize,
    x: Join,
    k: Split,
) -> usize
    requires { Represented nodes.now (λ t s. ClauseIn t x k) (memory store.old log.old at) }
    ensures { Simulates nodes.now (λ t s. ClauseIn t x k) (λ t s. write_clause t (clause_of t x k) s)
        (memory store.old log.old at) (memory store.new log.new result) }
{
    let found = look_up(nodes, store, log, at, x, k);
    let end = put_clause(store, log, found, x, k);
    define::count_clause(store);
    end
}
