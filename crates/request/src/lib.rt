// Requests, down the tree: a node turns to its join's sides and a side to its node.
#![tactic(auto)]

ghost use Rattle.std.specs.Prelude.{◌≡◌, ◌+◌, ◌-◌, ◌≤◌, ◌<◌, min, max, eqb, length, get_or, set};
ghost use Rattle.sizes.specs.Sizes.{most_nodes, width, row, row_at, kind_at, held_at};
ghost use Rattle.memo.specs.Visit.{each};
ghost use Rattle.cert.specs.Requests.{request, needs, below, named};
ghost use Rattle.cert.specs.State.{requests, serve, write_request};
ghost use Rattle.define.specs.Store.{direction};
ghost use Rattle.define.specs.Represents.{memory, Represented, Simulates};
ghost use Rattle.clauses.specs.Joins.{JoinIn};
ghost use Rattle.request.specs.declared.Directions.TheVariants.{Both};
ghost use Rattle.request.specs.Directions.{number_of, Named};
ghost use Rattle.request.specs.Asked.{ask_for, ask_both, write_both, is_held, held_with, RequestIn, SideAsked, HeldRoom};

use rows::{Join, Shown};

// The directions that a request names.
#[derive(Clone, Copy)]
pub enum Directions {
    If,
    OnlyIf,
    Both,
}

// A number that names no directions.
#[derive(Clone, Copy)]
pub struct UnknownDirections(pub u32);

impl TryFrom<u32> for Directions {
    type Error = UnknownDirections;

    ghost try_from_gives = { Named };

    fn try_from(number: u32) -> Result<Self, UnknownDirections> {
        match number {
            1 => Ok(Directions::If),
            2 => Ok(Directions::OnlyIf),
            3 => Ok(Directions::Both),
            _ => Err(UnknownDirections(number)),
        }
    }
}

// Whether a node is a leaf.
fn is_leaf(nodes: &[u32], node: usize) -> bool
    requires { (node < most_nodes) × (row_at node + row ≤ length nodes.now) }
    ensures { result ≡ eqb (get_or nodes.now (kind_at node) 0) 0 }
{
    nodes[rows::row_at(node) + sizes::KIND] == 0
}

// The place of the directions held of a value.
fn held_at(node: usize, value: usize) -> usize
    requires { (node < most_nodes) × (value ≤ width) }
    ensures { result ≡ held_at node value }
{
    rows::store_at(node) + sizes::HELD + value
}

// Whether a direction is among those held: 1 if, 2 only-if, 3 both. They stay a number, as the store has them, whose tables are
// lent as numbers; 0 holds none.
fn has_direction(held: u32, only_if: bool) -> bool
    ensures { result ≡ is_held only_if held }
{
    if only_if { 2 <= held } else { held % 2 == 1 }
}

// Whether a request is held.
fn is_held(store: &[u32], node: usize, value: usize, only_if: bool) -> bool
    requires { HeldRoom store.now node value }
    ensures { result ≡ is_held only_if (get_or store.now (held_at node value) 0) }
{
    has_direction(store[held_at(node, value)], only_if)
}

// One direction put to those that are held.
fn with_direction(held: u32, only_if: bool) -> u32
    ensures { result ≡ held_with only_if held }
{
    if has_direction(held, !only_if) {
        return 3;
    }
    if only_if { 2 } else { 1 }
}

// A request is held from now on.
fn hold(store: &mut [u32], node: usize, value: usize, only_if: bool)
    requires { HeldRoom store.old node value }
    ensures { store.new
        ≡ set store.old (held_at node value) (held_with only_if (get_or store.old (held_at node value) 0)) }
{
    let slot = held_at(node, value);
    store[slot] = with_direction(store[slot], only_if);
}

// The clauses of a request, which is then held.
fn write_request(
    nodes: &[u32],
    store: &mut [u32],
    log: &mut [u8],
    at: usize,
    x: Join,
    value: usize,
    only_if: bool,
) -> usize
    requires { Represented nodes.now (λ t s. JoinIn t x value) (memory store.old log.old at) }
    ensures { Simulates nodes.now (λ t s. JoinIn t x value)
        (λ t s. write_request t (request x.node value (direction only_if)) s)
        (memory store.old log.old at) (memory store.new log.new result) }
{
    let p = splits::write_clauses(nodes, store, log, at, x, value, only_if);
    hold(store, x.node, value, only_if);
    p
}

// A request, skipped where it is held: what it needs, left side and then right, then its clauses. A leaf has none.
// Node, value and direction are no struct: a call makes each anew, and the contract's `request` names them.
#[cycle(node_request_side_request)]
fn node_request(
    nodes: &[u32],
    store: &mut [u32],
    log: &mut [u8],
    at: usize,
    node: usize,
    value: usize,
    only_if: bool,
) -> usize
    requires { Represented nodes.now (λ t s. RequestIn t node value) (memory store.old log.old at) }
    ensures { Simulates nodes.now (λ t s. RequestIn t node value)
        (λ t s. ask_for t (request node value (direction only_if)) s)
        (memory store.old log.old at) (memory store.new log.new result) }
{
    if log.len() < at || is_leaf(nodes, node) || is_held(store, node, value, only_if) {
        return at;
    }
    let x = rows::join_at(nodes, node);
    let l = x.left;
    let r = x.right;
    let a = side_request(nodes, store, log, at, l, r.len, value, only_if);
    let b = side_request(nodes, store, log, a, r, l.len, value, only_if);
    write_request(nodes, store, log, b, x, value, only_if)
}

// The literals that a value names on a side, from the lowest to the highest, one request each; the other side has q. A leaf
// has none. Not inlined, it makes a play of the script balanced-41 take 2% more instructions.
#[cycle(node_request_side_request)]
#[inline]
fn side_request(
    nodes: &[u32],
    store: &mut [u32],
    log: &mut [u8],
    at: usize,
    s: Shown,
    q: usize,
    value: usize,
    only_if: bool,
) -> usize
    requires { Represented nodes.now (λ t u. SideAsked t s q value) (memory store.old log.old at) }
    ensures { Simulates nodes.now (λ t u. SideAsked t s q value)
        (λ t u. each (ask_for t) (below (direction only_if) s.side (named (direction only_if) value s.len q)) u)
        (memory store.old log.old at) (memory store.new log.new result) }
{
    let side = s.side;
    if is_leaf(nodes, side.node) {
        return at;
    }
    let low = value.saturating_sub(q).max(1);
    let high = value.min(s.len);
    let mut p = at;
    for i in low..high + 1 {
        // What is held, as most is, needs no call.
        if is_held(store, side.node, side.offset + i, only_if) {
            continue;
        }
        p = node_request(nodes, store, log, p, side.node, side.offset + i, only_if);
    }
    p
}

// What a request of a join needs, and not its clauses. `node_request` has this in its body, so that it and `side_request`
// call each other directly (document 01 names that form).
fn serve_needs(
    nodes: &[u32],
    store: &mut [u32],
    log: &mut [u8],
    at: usize,
    x: Join,
    value: usize,
    only_if: bool,
) -> usize
    requires { Represented nodes.now (λ t s. JoinIn t x value) (memory store.old log.old at) }
    ensures { Simulates nodes.now (λ t s. JoinIn t x value)
        (λ t s. each (ask_for t) (needs t (request x.node value (direction only_if))) s)
        (memory store.old log.old at) (memory store.new log.new result) }
{
    let l = x.left;
    let r = x.right;
    let a = side_request(nodes, store, log, at, l, r.len, value, only_if);
    side_request(nodes, store, log, a, r, l.len, value, only_if)
}

// Both directions of a join, neither of them held: what both need comes first.
fn both(nodes: &[u32], store: &mut [u32], log: &mut [u8], at: usize, x: Join, value: usize) -> usize
    requires { Represented nodes.now (λ t s. JoinIn t x value) (memory store.old log.old at) }
    ensures { Simulates nodes.now (λ t s. JoinIn t x value) (λ t s. write_both t x.node value s)
        (memory store.old log.old at) (memory store.new log.new result) }
{
    let a = serve_needs(nodes, store, log, at, x, value, false);
    let b = serve_needs(nodes, store, log, a, x, value, true);
    let c = write_request(nodes, store, log, b, x, value, false);
    write_request(nodes, store, log, c, x, value, true)
}

// Both directions, one after the other.
fn each_direction(
    nodes: &[u32],
    store: &mut [u32],
    log: &mut [u8],
    at: usize,
    node: usize,
    value: usize,
) -> usize
    requires { Represented nodes.now (λ t s. RequestIn t node value) (memory store.old log.old at) }
    ensures { Simulates nodes.now (λ t s. RequestIn t node value) (λ t s. ask_both t node value s)
        (memory store.old log.old at) (memory store.new log.new result) }
{
    let a = node_request(nodes, store, log, at, node, value, false);
    node_request(nodes, store, log, a, node, value, true)
}

// Both directions of a node: what both need comes first, where neither is held. A leaf has no clauses.
fn request_both(
    nodes: &[u32],
    store: &mut [u32],
    log: &mut [u8],
    at: usize,
    node: usize,
    value: usize,
) -> usize
    requires { Represented nodes.now (λ t s. RequestIn t node value) (memory store.old log.old at) }
    ensures { Simulates nodes.now (λ t s. RequestIn t node value)
        (λ t s. serve t (requests node value (number_of Both)) s)
        (memory store.old log.old at) (memory store.new log.new result) }
{
    if log.len() < at || is_leaf(nodes, node) {
        return at;
    }
    if store[held_at(node, value)] != 0 {
        return each_direction(nodes, store, log, at, node, value);
    }
    let x = rows::join_at(nodes, node);
    both(nodes, store, log, at, x, value)
}

// A request, of one direction or of both.
pub fn request(
    nodes: &[u32],
    store: &mut [u32],
    log: &mut [u8],
    at: usize,
    node: usize,
    value: usize,
    directions: Directions,
) -> usize
    requires { Represented nodes.now (λ t s. RequestIn t node value) (memory store.old log.old at) }
    ensures { Simulates nodes.now (λ t s. RequestIn t node value)
        (λ t s. serve t (requests node value (number_of directions)) s)
        (memory store.old log.old at) (memory store.new log.new result) }
{
    match directions {
        Directions::If => node_request(nodes, store, log, at, node, value, false),
        Directions::OnlyIf => node_request(nodes, store, log, at, node, value, true),
        Directions::Both => request_both(nodes, store, log, at, node, value),
    }
}
