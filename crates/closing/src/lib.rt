// The record of a close: the steps of every stored definition, by the trail of the store.
#![tactic(auto)]

ghost use Rattle.std.specs.Prelude.{◌≡◌, List, ◌+◌, ◌≤◌, ◌<◌, length};
ghost use Rattle.record.specs.Record.{numbers, steps, deletion};
ghost use Rattle.record.specs.Writing.{buffer, Puts};
ghost use Rattle.totdb.specs.Nodes.{Node, range};
ghost use Rattle.cert.specs.Definitions.{Key, key_records};
ghost use Rattle.cert.specs.State.{Stored, stored_steps};
ghost use Rattle.closing.specs.Closing.{MarkedKeys, SlotOf};

use record::kinds;

// How many steps the definition of a slot has.
fn count_steps(nodes: &[u32], slot: usize) -> u32
    requires { (t : List Node) × (k : Key) × SlotOf nodes.now t k slot }
    ensures value { (t : List Node) (k : Key) → SlotOf nodes.now t k slot → result ≡ steps (key_records (λ j i. 0) t k) }
    ensures upper_bound { result ≤ 129 }
{
    let node = (slot - sizes::STORE_START) / sizes::STORE_ROW;
    let column = (slot - sizes::STORE_START) % sizes::STORE_ROW;
    let row = rows::row_at(node);
    if column < sizes::LEFT_WINDOW {
        return define::count_real(rows::number_at(nodes, row), column);
    }
    if column == sizes::LEFT_WINDOW + 1 {
        return 2 * nodes[row + sizes::LEFT + sizes::SIDE_LEN] + 1;
    }
    if column == sizes::RIGHT_WINDOW + 1 {
        return 2 * nodes[row + sizes::RIGHT + sizes::SIDE_LEN] + 1;
    }
    1
}

// How many steps the first `marks` definitions have. That the tables have them stays a clause of each function: other commands
// write the two tables between two closes. `marks` is handed over, since `MarkedKeys` speaks of the definitions up to it.
fn count_stored(nodes: &[u32], store: &[u32], marks: usize) -> u32
    requires { (t : List Node) × (es : List Stored) × MarkedKeys nodes.now store.now marks t es }
    ensures { (t : List Node) (es : List Stored) → MarkedKeys nodes.now store.now marks t es → result ≡ length (stored_steps t es) }
{
    let mut n = 0u32;
    for slot in &store[..marks] {
        n = n + count_steps(nodes, *slot as usize);
    }
    n
}

// `count` steps from `first` on.
fn put_steps(log: &mut [u8], at: usize, first: u32, count: u32) -> usize
    requires { first + count < 4294967296 }
    ensures { Puts (buffer log.old at) (range first count) (buffer log.new result) }
{
    let mut end = at;
    for step in first..first + count {
        end = record::put(log, end, step);
    }
    end
}

// The steps of the first `marks` definitions: they were stored in this order.
fn put_stored(nodes: &[u32], store: &[u32], log: &mut [u8], at: usize, marks: usize) -> usize
    requires { (t : List Node) × (es : List Stored) × MarkedKeys nodes.now store.now marks t es }
    ensures { (t : List Node) (es : List Stored) → MarkedKeys nodes.now store.now marks t es
        → Puts (buffer log.old at) (stored_steps t es) (buffer log.new result) }
{
    let mut end = at;
    for slot in &store[..marks] {
        let slot = *slot as usize;
        end = put_steps(log, end, store[slot], count_steps(nodes, slot));
    }
    end
}

// The record.
pub fn put_deletion(nodes: &[u32], store: &[u32], log: &mut [u8], at: usize, marks: usize) -> usize
    requires { (t : List Node) × (es : List Stored) × MarkedKeys nodes.now store.now marks t es }
    ensures { (t : List Node) (es : List Stored) → MarkedKeys nodes.now store.now marks t es
        → Puts (buffer log.old at) (numbers (deletion (stored_steps t es))) (buffer log.new result) }
{
    let after_kind = record::put(log, at, kinds::DELETION);
    let after_count = record::put(log, after_kind, count_stored(nodes, store, marks));
    put_stored(nodes, store, log, after_count, marks)
}
