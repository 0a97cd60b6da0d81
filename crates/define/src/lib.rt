// Definitions by the places of their first steps in the store: looked up, and written whole at their first lookup.
// `specs/Store.antt` says where these places are, `specs/Represents.antt` what state the memory represents.
// Tables and log are handed on as slices, and the log's place as a number, in a register: a function answers it, so that one line of
// its contract, by `Represented` and `Simulates`, has the memory before and after. (The counters of the store, handed on as a
// struct, cost an eighth of a full log's time: DECISIONS 49.)
#![tactic(auto)]

ghost use Rattle.std.specs.Prelude.{◌≡◌, ℕ, ◌+◌, ◌^◌, ◌≤◌, ◌<◌, length};
ghost use mathlib.Core.List.{List, flat_map};
ghost use Rattle.sizes.specs.Sizes.{most_bytes, width, clauses_at, store_start, store_at};
ghost use Rattle.memo.specs.Visit.{each};
ghost use Rattle.record.specs.Record.{numbers, steps};
ghost use Rattle.record.specs.Writing.{buffer, Puts};
ghost use Rattle.totdb.specs.Nodes.{Node};
ghost use Rattle.cert.specs.Definitions.{Direction, real, real_records, window_zero, window, side_def, window_reals};
ghost use Rattle.cert.specs.Requests.{key_of};
ghost use Rattle.cert.specs.State.{look_up, define};
ghost use Rattle.define.specs.Store.{key_stored, clause_counted, WindowOf};
ghost use Rattle.define.specs.Represents.{memory, Represented, Simulates};
ghost use Rattle.define.specs.Lookups.{NodeOf, RealOf, New, WindowIn, SideWindowWith, SideWindow, SideIn, Several};

use record::Sum;
use rows::Shown;

// The records of the real definition of a value: l is the leaf list, `first` the output of value 1.
fn put_real(l: &[u32], log: &mut [u8], at: usize, value: usize, first: u32) -> usize
    requires limits { (length l.now ≤ width) × (value ≤ width + 1) × (first ≤ 2 ^ 30) }
    requires node_of { (x : Node) × NodeOf l.now first x }
    ensures { (x : Node) → NodeOf l.now first x
        → Puts (buffer log.old at) (flat_map numbers (real_records x value)) (buffer log.new result) }
{
    let n = l.len();
    // A sum of value 0, and one above the last value, have bound 0 and no witness.
    if value == 0 {
        return record::put_sum(log, at, l, false, Sum::default());
    }
    if n < value {
        return record::put_sum(log, at, l, true, Sum::default());
    }
    let literal = first + 2 * (value as u32 - 1);
    let if_sum = Sum {
        witness: literal + 1,
        own: (n + 1 - value) as u32,
        literal,
    };
    let middle = record::put_sum(log, at, l, true, if_sum);
    let negated = pb::neg(literal);
    let only_if_sum = Sum {
        witness: negated + 1,
        own: value as u32,
        literal: negated,
    };
    record::put_sum(log, middle, l, false, only_if_sum)
}

// How many steps the real definition of a value has.
pub fn count_real(len: usize, value: usize) -> u32
    ensures value { (x : Node) → Rattle.totdb.specs.Nodes.len x ≡ len → result ≡ steps (real_records x value) }
    ensures upper_bound { result ≤ 2 }
{
    if value == 0 || len < value { 1 } else { 2 }
}

// The next `count` steps are those of the key at `slot`, which is marked.
fn store_key(store: &mut [u32], slot: usize, count: u32)
    requires { (store_start ≤ slot) × (slot < length store.old) × (slot < 4294967296) × (count ≤ most_bytes) }
    ensures { store.new ≡ key_stored slot count store.old }
{
    let step = store[sizes::STEP];
    let k = rows::number_at(store, sizes::MARKS);
    store[slot] = step;
    store[sizes::STEP] = derivation::step_after(step, count);
    if sizes::TRAIL <= k {
        return;
    }
    store[k] = slot as u32;
    store[sizes::MARKS] = k as u32 + 1;
}

// The next step is that of a clause, which is counted, as steps are, up to a number that no log reaches.
pub fn count_clause(store: &mut [u32])
    requires { clauses_at < length store.old }
    ensures { store.new ≡ clause_counted store.old }
{
    let step = store[sizes::STEP];
    let clauses = store[sizes::CLAUSES];
    store[sizes::STEP] = derivation::next_step(step);
    store[sizes::CLAUSES] = derivation::next_step(clauses);
}

// The real definition of a value of a node.
pub fn look_up_real(
    nodes: &[u32],
    store: &mut [u32],
    log: &mut [u8],
    at: usize,
    node: usize,
    value: usize,
) -> usize
    requires { Represented nodes.now (λ t s. RealOf t node value) (memory store.old log.old at) }
    ensures { Simulates nodes.now (λ t s. RealOf t node value) (λ t s. look_up t (real node value) s)
        (memory store.old log.old at) (memory store.new log.new result) }
{
    let slot = rows::store_at(node) + value;
    if log.len() < at || store[slot] != 0 {
        return at;
    }
    let row = rows::row_at(node);
    let len = rows::number_at(nodes, row);
    let list = row + sizes::LIST;
    let end = put_real(
        &nodes[list..list + len],
        log,
        at,
        value,
        nodes[row + sizes::FIRST],
    );
    store_key(store, slot, count_real(len, value));
    end
}

// The sum of value 0 of a window, by the list of its outputs.
fn look_up_zero(outputs: &[u32], store: &mut [u32], log: &mut [u8], at: usize, slot: usize) -> usize
    requires several { Several outputs.now }
    requires represented { (ns : List ℕ) × (n f m : ℕ) × Represented ns (λ t s. WindowIn t outputs.now slot n f m) (memory store.old log.old at) }
    ensures { (ns : List ℕ) (n f m : ℕ) → Simulates ns (λ t s. WindowIn t outputs.now slot n f m)
        (λ t s. look_up t (window_zero n f m) s)
        (memory store.old log.old at) (memory store.new log.new result) }
{
    if log.len() < at || store[slot] != 0 {
        return at;
    }
    let end = record::put_sum(log, at, outputs, false, Sum::default());
    store_key(store, slot, 1);
    end
}

// The real definitions of the outputs of a window, ascending.
fn look_up_reals(
    nodes: &[u32],
    store: &mut [u32],
    log: &mut [u8],
    at: usize,
    node: usize,
    offset: usize,
    len: usize,
) -> usize
    requires { Represented nodes.now (λ t s. WindowOf t node offset len) (memory store.old log.old at) }
    ensures { Simulates nodes.now (λ t s. WindowOf t node offset len)
        (λ t s. each (look_up t) (window_reals node offset len) s)
        (memory store.old log.old at) (memory store.new log.new result) }
{
    let mut p = at;
    for i in 0..len {
        p = look_up_real(nodes, store, log, p, node, offset + i + 1);
    }
    p
}

// The rest of a window, by the output list of its node.
fn define_window(outputs: &[u32], store: &mut [u32], log: &mut [u8], at: usize, s: Shown) -> usize
    requires { (ns : List ℕ) × Represented ns (λ t u. SideWindowWith t outputs.now s × New (window s.side.node s.side.offset s.len) u)
        (memory store.old log.old at) }
    ensures { (ns : List ℕ) → Simulates ns
        (λ t u. SideWindowWith t outputs.now s × New (window s.side.node s.side.offset s.len) u)
        (λ t u. define t (window s.side.node s.side.offset s.len) u)
        (memory store.old log.old at) (memory store.new log.new result) }
{
    if log.len() < at {
        return at;
    }
    let side = s.side;
    let len = s.len;
    let row = rows::store_at(side.node);
    let end = window::put_window(
        &store[row..row + sizes::LEFT_WINDOW],
        outputs,
        log,
        at,
        side.offset,
        len,
    );
    store_key(store, s.window + 1, 2 * len as u32 + 1);
    end
}

// The window of a side: the sum of value 0, the real definitions that are missing, then the rest.
fn look_up_window(nodes: &[u32], store: &mut [u32], log: &mut [u8], at: usize, s: Shown) -> usize
    requires { Represented nodes.now (λ t u. SideWindow t s) (memory store.old log.old at) }
    ensures { Simulates nodes.now (λ t u. SideWindow t s)
        (λ t u. look_up t (window s.side.node s.side.offset s.len) u)
        (memory store.old log.old at) (memory store.new log.new result) }
{
    let slot = s.window;
    if log.len() < at || store[slot + 1] != 0 {
        return at;
    }
    let side = s.side;
    let from = side.offset;
    let to = from + s.len;
    let outputs = totdb::outputs(s.first, to);
    let a = look_up_zero(&outputs[from..to], store, log, at, slot);
    let b = look_up_reals(nodes, store, log, a, side.node, from, s.len);
    define_window(&outputs, store, log, b, s)
}

// What the a-th value of a side looks up.
pub fn look_up_side(
    nodes: &[u32],
    store: &mut [u32],
    log: &mut [u8],
    at: usize,
    s: Shown,
    a: usize,
) -> usize
    requires { Represented nodes.now (λ t u. SideIn t s a) (memory store.old log.old at) }
    ensures { (d : Direction) → Simulates nodes.now (λ t u. SideIn t s a)
        (λ t u. each (look_up t) (key_of (side_def t s.side a d)) u)
        (memory store.old log.old at) (memory store.new log.new result) }
{
    if s.len <= 1 {
        return at;
    }
    let side = s.side;
    if side.is_plain() {
        return look_up_real(nodes, store, log, at, side.node, side.key(a));
    }
    look_up_window(nodes, store, log, at, s)
}
