// Writers of the records of a window's key: the two derivations of each of its values, then the sum of its negated outputs.
#![tactic(auto)]

ghost use Rattle.std.specs.Prelude.{◌≡◌, ℕ, ◌+◌, ◌-◌, ◌*◌, ◌≤◌, ◌<◌, length};
ghost use mathlib.Core.List.{List, flat_map};
ghost use Rattle.sizes.specs.Sizes.{width, left_window_column};
ghost use Rattle.record.specs.Record.{derivation, numbers, token_numbers};
ghost use Rattle.record.specs.Writing.{buffer, Puts};
ghost use Rattle.totdb.specs.Nodes.{Node, node_at, range};
ghost use Rattle.cert.specs.Definitions.{Key, key_records, window, window_pair};
ghost use Rattle.derivation.specs.Summands.{summand};
ghost use Rattle.window.specs.Window.{added, added_room, Bounds, derivation_room, first_other, Handed, summand_room, tokens_of, WindowValue};

use record::{Sum, codes, kinds};

// No derivation takes more bytes: kind and count, and a summand of nine numbers for each value, in five bytes each.
const DERIVATION_ROOM: usize = 2890;

// A window of a node: `row` has the first steps of the node's real definitions by their values, `outputs` its outputs from value
// 1 on. The values of the window are those above `offset` up to offset + len.
#[derive(Clone, Copy)]
struct Window<'a> {
    row: &'a [u32],
    outputs: &'a [u32],
    offset: usize,
    len: usize,
    ghost size: { left_window_column ≤ length row.now },
    ghost values: { offset + len ≤ width },
    ghost several: { 1 < len },
    ghost inside: { offset + len ≤ length outputs.now },
}

// One of the two derivations of a window's value: its only-if, or its if.
#[derive(Clone, Copy)]
struct Derivation<'a> {
    window: Window<'a>,
    value: usize,
    only_if: bool,
    ghost in_window: { WindowValue window.offset window.len value },
}

impl<'a> Derivation<'a> {
    ghost use Rattle.window.specs.Derivations.{IsHanded, tokens, summands};

    // The first value of the window that is not the derivation's: the first summand that is not empty.
    fn first_other(&self) -> usize
        ensures { (result ≡ first_other self.now.window.offset self.now.value)
            × (self.now.window.offset < result)
            × (result ≤ self.now.window.offset + 2) }
    {
        let offset = self.window.offset;
        if self.value == offset + 1 {
            offset + 2
        } else {
            offset + 1
        }
    }

    // How many tokens it has: a literal or five for each other value, and the additions between them.
    fn count(&self) -> u32
        ensures { (at_step : Key → ℕ → ℕ) (n : ℕ) (x : Node) → result ≡ length (tokens self.now at_step n x) }
    {
        let w = self.window;
        let below = self.value - w.offset - 1;
        let above = w.offset + w.len - self.value;
        if self.only_if {
            return (5 * below + above + w.len - 2) as u32;
        }
        (below + 5 * above + w.len - 2) as u32
    }

    // The summand at s.
    fn push_summand(&self, log: &mut [u8], at: usize, s: usize) -> usize
        requires in_window { WindowValue self.now.window.offset self.now.window.len s }
        requires room { at + summand_room ≤ length log.old }
        ensures puts { (at_step : Key → ℕ → ℕ) (n : ℕ) (x : Node) → IsHanded self.now.window at_step n x
            → Puts (buffer log.old at) (token_numbers (summands self.now at_step n x s)) (buffer log.new result) }
        ensures upper_bound { result ≤ at + summand_room }
    {
        let value = self.value;
        let own = self.window.row[value];
        let other = self.window.row[s];
        let literal = self.window.outputs[s - 1];
        let (this, that) = if self.only_if {
            (derivation::next_step(own), other)
        } else {
            (own, derivation::next_step(other))
        };
        derivation::push_summand(
            log,
            at,
            value as u32,
            s as u32,
            this,
            that,
            literal,
            self.only_if,
        )
    }

    // The summand at s and its addition to what stands before.
    fn push_added(&self, log: &mut [u8], at: usize, s: usize) -> usize
        requires in_window { WindowValue self.now.window.offset self.now.window.len s }
        requires room { at + added_room ≤ length log.old }
        ensures puts { (at_step : Key → ℕ → ℕ) (n : ℕ) (x : Node) → IsHanded self.now.window at_step n x
            → Puts (buffer log.old at) (token_numbers (added (summands self.now at_step n x) s)) (buffer log.new result) }
        ensures upper_bound { result ≤ at + added_room }
    {
        let end = self.push_summand(log, at, s);
        if s == self.value {
            return end;
        }
        record::push(log, end, codes::ADD)
    }

    // The summands at the values of the window above `first`, each added to what stands before.
    fn push_rest(&self, log: &mut [u8], at: usize, first: usize) -> usize
        requires in_window { WindowValue self.now.window.offset self.now.window.len first }
        requires room { at + added_room * (self.now.window.offset + self.now.window.len - first) ≤ length log.old }
        ensures puts { (at_step : Key → ℕ → ℕ) (n : ℕ) (x : Node) → IsHanded self.now.window at_step n x
            → Puts (buffer log.old at)
            (token_numbers (flat_map (added (summands self.now at_step n x))
            (range (first + 1) (self.now.window.offset + self.now.window.len - first))))
            (buffer log.new result) }
        ensures upper_bound { result ≤ at + added_room * (self.now.window.offset + self.now.window.len - first) }
    {
        let mut end = at;
        for s in first + 1..self.window.offset + self.window.len + 1 {
            end = self.push_added(log, end, s);
        }
        end
    }

    // The derivation, where there is room.
    fn push(&self, log: &mut [u8], at: usize) -> usize
        requires { at + derivation_room ≤ length log.old }
        ensures puts { (at_step : Key → ℕ → ℕ) (n : ℕ) (x : Node) → IsHanded self.now.window at_step n x
            → Puts (buffer log.old at) (numbers (derivation (tokens self.now at_step n x))) (buffer log.new result) }
        ensures upper_bound { result ≤ at + derivation_room }
    {
        let first = self.first_other();
        let after_kind = record::push(log, at, kinds::DERIVATION);
        let after_count = record::push(log, after_kind, self.count());
        let after_first = self.push_summand(log, after_count, first);
        self.push_rest(log, after_first, first)
    }

    // The derivation, if it fits.
    fn put(&self, log: &mut [u8], at: usize) -> usize
        ensures { (at_step : Key → ℕ → ℕ) (n : ℕ) (x : Node) → IsHanded self.now.window at_step n x
            → Puts (buffer log.old at) (numbers (derivation (tokens self.now at_step n x))) (buffer log.new result) }
    {
        record::put_record::<DERIVATION_ROOM, _, _>(log, at, self, Derivation::push)
    }
}

impl<'a> Window<'a> {
    ghost use Rattle.window.specs.Derivations.{IsHanded};

    // The derivations of all its values.
    fn put_values(&self, log: &mut [u8], at: usize) -> usize
        ensures { (at_step : Key → ℕ → ℕ) (n : ℕ) (x : Node) → IsHanded self.now at_step n x
            → Puts (buffer log.old at)
            (flat_map numbers (flat_map (window_pair at_step n x self.now.offset self.now.len)
            (range (self.now.offset + 1) self.now.len)))
            (buffer log.new result) }
    {
        let offset = self.offset;
        let len = self.len;
        let mut end = at;
        for v in offset + 1..offset + len + 1 {
            let if_of = Derivation {
                window: *self,
                value: v,
                only_if: false,
            };
            let only_if_of = Derivation {
                window: *self,
                value: v,
                only_if: true,
            };
            let after_if = if_of.put(log, end);
            end = only_if_of.put(log, after_if);
        }
        end
    }
}

// The records of a window's key. It takes the four apart: its one caller would make a `Window` only to hand it over.
pub fn put_window(
    row: &[u32],
    outputs: &[u32],
    log: &mut [u8],
    at: usize,
    offset: usize,
    len: usize,
) -> usize
    requires { Bounds row.now outputs.now offset len }
    ensures { (at_step : Key → ℕ → ℕ) (t : List Node) (n : ℕ)
        → Handed row.now outputs.now at_step n (node_at t n) offset len
        → Puts (buffer log.old at) (flat_map numbers (key_records at_step t (window n offset len))) (buffer log.new result) }
{
    let w = Window {
        row,
        outputs,
        offset,
        len,
    };
    let after_values = w.put_values(log, at);
    let own = &outputs[offset..offset + len];
    record::put_sum(log, after_values, own, true, Sum::default())
}
