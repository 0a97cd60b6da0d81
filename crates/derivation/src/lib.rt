// Writers of a clause's two records, the derivation of its step and the clause, and of a window's summands.
#![tactic(auto)]

ghost use Rattle.std.specs.Prelude.{◌≡◌, cond, [], ◌∷◌, ◌++◌, ℕ, ◌+◌, ◌≤◌, length};
ghost use Rattle.sizes.specs.Sizes.{most_bytes, width};
ghost use Rattle.pb.specs.Rules.{step, add, divide, saturate};
ghost use Rattle.record.specs.Record.{derivation, numbers, token_numbers};
ghost use Rattle.record.specs.Writing.{buffer, Puts};
ghost use Rattle.totdb.specs.Nodes.{Node, output};
ghost use Rattle.cert.specs.Definitions.{Key, add_sequence, real};
ghost use Rattle.derivation.specs.Operands.{step_after, next_step, part, sequence, step_tokens, tokens, token_code, token_argument, clause_numbers, clause_room, whole_numbers};
ghost use Rattle.derivation.specs.Summands.{summand};

use record::{codes, kinds};

// A definition as a derivation adds it: nothing, the step that defines it, or a literal axiom. It is an enum of its own, which
// document 01 names: a derivation adds no value but one of these three, and takes each apart by `if let` and `let else`.
#[derive(Clone, Copy)]
pub enum SemDefinition {
    None,
    Step(u32),
    Axiom(u32),
}

// What a clause's step adds up: this definition, then those of the two sides.
#[derive(Clone, Copy)]
struct Operands {
    this: SemDefinition,
    left: SemDefinition,
    right: SemDefinition,
}

// A clause with its step: the parts that there are, then the output.
#[derive(Clone, Copy)]
pub struct Clause {
    pub step: u32,
    pub left: Option<u32>,
    pub right: Option<u32>,
    pub output: u32,
}

// No clause takes more bytes with the derivation of its step: 17 numbers of five bytes.
pub const CLAUSE_ROOM: usize = 85;

// How many tokens a definition has.
fn count_tokens(d: SemDefinition) -> u32
    ensures { (result ≡ length (tokens d)) × (result ≤ 1) }
{
    if let SemDefinition::None = d { 0 } else { 1 }
}

// The code of a definition's token.
fn token_code(d: SemDefinition) -> u32
    ensures { result ≡ token_code d }
{
    if let SemDefinition::Axiom(_) = d {
        codes::AXIOM
    } else {
        codes::STEP
    }
}

// The number after the code.
fn token_argument(d: SemDefinition) -> u32
    ensures { result ≡ token_argument d }
{
    if let SemDefinition::Step(n) = d {
        return n;
    }
    let SemDefinition::Axiom(l) = d else {
        return 0;
    };
    l
}

// The tokens of a definition.
fn push_definition(log: &mut [u8], at: usize, d: SemDefinition) -> usize
    requires { at + 10 ≤ length log.old }
    ensures puts { Puts (buffer log.old at) (token_numbers (tokens d)) (buffer log.new result) }
    ensures upper_bound { result ≤ at + 10 }
{
    if let SemDefinition::None = d {
        return at;
    }
    let after_code = record::push(log, at, token_code(d));
    record::push(log, after_code, token_argument(d))
}

// The tokens of a definition and their addition to what stands before.
fn push_added(log: &mut [u8], at: usize, d: SemDefinition) -> usize
    requires { at + 15 ≤ length log.old }
    ensures puts { Puts (buffer log.old at) (token_numbers (add_sequence [] (tokens d))) (buffer log.new result) }
    ensures upper_bound { result ≤ at + 15 }
{
    if let SemDefinition::None = d {
        return at;
    }
    let after_tokens = push_definition(log, at, d);
    record::push(log, after_tokens, codes::ADD)
}

impl Operands {
    // How many tokens the derivation has.
    fn count(self) -> u32
        ensures { result ≡ length (sequence self) }
    {
        count_tokens(self.this) + 2 * count_tokens(self.left) + 2 * count_tokens(self.right) + 1
    }

    // The derivation of a clause's step: this definition, plus left, plus right, saturated.
    fn push(self, log: &mut [u8], at: usize) -> usize
        requires { at + 55 ≤ length log.old }
        ensures puts { Puts (buffer log.old at) (numbers (derivation (sequence self))) (buffer log.new result) }
        ensures upper_bound { result ≤ at + 55 }
    {
        let after_kind = record::push(log, at, kinds::DERIVATION);
        let after_count = record::push(log, after_kind, self.count());
        let after_this = push_definition(log, after_count, self.this);
        let after_left = push_added(log, after_this, self.left);
        let after_right = push_added(log, after_left, self.right);
        record::push(log, after_right, codes::SATURATE)
    }
}

// A literal of a clause, if there is one.
fn push_part(log: &mut [u8], at: usize, p: Option<u32>) -> usize
    requires { at + 5 ≤ length log.old }
    ensures puts { Puts (buffer log.old at) (part p) (buffer log.new result) }
    ensures upper_bound { result ≤ at + 5 }
{
    let Some(l) = p else {
        return at;
    };
    record::push(log, at, l)
}

impl Clause {
    // How many literals it has.
    fn count(self) -> u32
        ensures { result ≡ length (part self.left) + length (part self.right) + 1 }
    {
        self.left.is_some() as u32 + self.right.is_some() as u32 + 1
    }

    fn push(self, log: &mut [u8], at: usize) -> usize
        requires { at + 30 ≤ length log.old }
        ensures puts { Puts (buffer log.old at) (clause_numbers self) (buffer log.new result) }
        ensures upper_bound { result ≤ at + 30 }
    {
        let after_kind = record::push(log, at, kinds::CLAUSE);
        let after_step = record::push(log, after_kind, self.step);
        let after_count = record::push(log, after_step, self.count());
        let after_left = push_part(log, after_count, self.left);
        let after_right = push_part(log, after_left, self.right);
        record::push(log, after_right, self.output)
    }
}

// The two records of a clause, where there is room: the derivation of its step, then the clause. Here and in the next two the
// operands are handed over one by one, and not as `Operands` to `put_record`: these pass through memory, and a play of the
// script balanced-41 takes 2% more instructions.
fn push_both(
    log: &mut [u8],
    at: usize,
    this: SemDefinition,
    left: SemDefinition,
    right: SemDefinition,
    c: Clause,
) -> usize
    requires { at + clause_room ≤ length log.old }
    ensures puts { Puts (buffer log.old at)
        (numbers (derivation (step_tokens this left right)) ++ clause_numbers c)
        (buffer log.new result) }
    ensures upper_bound { result ≤ at + clause_room }
{
    let operands = Operands { this, left, right };
    let middle = operands.push(log, at);
    c.push(log, middle)
}

// The two records near the end of the log.
fn put_last_clause(
    log: &mut [u8],
    at: usize,
    this: SemDefinition,
    left: SemDefinition,
    right: SemDefinition,
    c: Clause,
) -> usize
    ensures { Puts (buffer log.old at)
        (numbers (derivation (step_tokens this left right)) ++ clause_numbers c)
        (buffer log.new result) }
{
    let mut apart = [0u8; CLAUSE_ROOM];
    let n = push_both(&mut apart, 0, this, left, right, c);
    record::copy_out(log, at, &apart[..n])
}

// The two records of a clause, if both fit.
pub fn put_clause(
    log: &mut [u8],
    at: usize,
    this: SemDefinition,
    left: SemDefinition,
    right: SemDefinition,
    c: Clause,
) -> usize
    ensures { Puts (buffer log.old at)
        (numbers (derivation (step_tokens this left right)) ++ clause_numbers c)
        (buffer log.new result) }
{
    if record::fits(log.len(), at, CLAUSE_ROOM) {
        return push_both(log, at, this, left, right, c);
    }
    put_last_clause(log, at, this, left, right, c)
}

// ---- a clause with both parts, whose step adds up three steps, as in most: the records are those of `push_both`. They are
// written by functions of their own, since most of the log is such records, and no part of theirs has to be tested for being there
// (DECISIONS 47): without them and the tests of `splits` for such a clause a play of balanced-41 takes 26% more instructions.

// The numbers of such a clause, and of the derivation of its step.
#[derive(Clone, Copy)]
pub struct Whole {
    pub this: u32,
    pub left: u32,
    pub right: u32,
    pub step: u32,
    pub left_part: u32,
    pub right_part: u32,
    pub output: u32,
}

// The beginning of the derivation, with the first of the three steps.
fn push_first_step(log: &mut [u8], at: usize, x: u32) -> usize
    requires { at + 20 ≤ length log.old }
    ensures puts { Puts (buffer log.old at) (2 ∷ 6 ∷ 0 ∷ x ∷ []) (buffer log.new result) }
    ensures upper_bound { result ≤ at + 20 }
{
    let after_kind = record::push(log, at, kinds::DERIVATION);
    let after_count = record::push(log, after_kind, 6);
    let after_code = record::push(log, after_count, codes::STEP);
    record::push(log, after_code, x)
}

// A step and its addition to what stands before.
fn push_added_step(log: &mut [u8], at: usize, x: u32) -> usize
    requires { at + 15 ≤ length log.old }
    ensures puts { Puts (buffer log.old at) (0 ∷ x ∷ 2 ∷ []) (buffer log.new result) }
    ensures upper_bound { result ≤ at + 15 }
{
    let after_code = record::push(log, at, codes::STEP);
    let after_step = record::push(log, after_code, x);
    record::push(log, after_step, codes::ADD)
}

// The derivation of the step.
fn push_whole_step(log: &mut [u8], at: usize, w: Whole) -> usize
    requires { at + 55 ≤ length log.old }
    ensures puts { Puts (buffer log.old at)
        (2 ∷ 6 ∷ 0 ∷ w.this ∷ 0 ∷ w.left ∷ 2 ∷ 0 ∷ w.right ∷ 2 ∷ 4 ∷ [])
        (buffer log.new result) }
    ensures upper_bound { result ≤ at + 55 }
{
    let after_this = push_first_step(log, at, w.this);
    let after_left = push_added_step(log, after_this, w.left);
    let after_right = push_added_step(log, after_left, w.right);
    record::push(log, after_right, codes::SATURATE)
}

// The clause.
fn push_whole_clause(log: &mut [u8], at: usize, w: Whole) -> usize
    requires { at + 30 ≤ length log.old }
    ensures { Puts (buffer log.old at)
        (3 ∷ w.step ∷ 3 ∷ w.left_part ∷ w.right_part ∷ w.output ∷ [])
        (buffer log.new result) }
{
    let after_kind = record::push(log, at, kinds::CLAUSE);
    let after_step = record::push(log, after_kind, w.step);
    let after_count = record::push(log, after_step, 3);
    let after_left = record::push(log, after_count, w.left_part);
    let after_right = record::push(log, after_left, w.right_part);
    record::push(log, after_right, w.output)
}

// Both records.
pub fn push_whole(log: &mut [u8], at: usize, w: Whole) -> usize
    requires { at + clause_room ≤ length log.old }
    ensures { Puts (buffer log.old at) (whole_numbers w) (buffer log.new result) }
{
    let middle = push_whole_step(log, at, w);
    push_whole_clause(log, middle, w)
}

// ---- a window's summands

// The sum of two steps, divided and saturated.
fn push_divided(log: &mut [u8], at: usize, this: u32, that: u32, divisor: u32) -> usize
    requires { at + 40 ≤ length log.old }
    ensures puts { Puts (buffer log.old at)
        (token_numbers (step this ∷ step that ∷ add ∷ divide divisor ∷ saturate ∷ []))
        (buffer log.new result) }
    ensures upper_bound { result ≤ at + 40 }
{
    let after_this = push_definition(log, at, SemDefinition::Step(this));
    let after_sum = push_added(log, after_this, SemDefinition::Step(that));
    let after_kind = record::push(log, after_sum, codes::DIVIDE);
    let after_divisor = record::push(log, after_kind, divisor);
    record::push(log, after_divisor, codes::SATURATE)
}

// The summand at s of the only-if of v, or of its if: `this` is the real definition of v in that direction, `that` the real one
// of s in the other, `literal` the output of s. On one side of v the two are added up, on the other a literal is assumed.
pub fn push_summand(
    log: &mut [u8],
    at: usize,
    v: u32,
    s: u32,
    this: u32,
    that: u32,
    literal: u32,
    only_if: bool,
) -> usize
    requires { (cond only_if v s ≤ width) × (at + 40 ≤ length log.old) }
    ensures puts { (at_step : Key → ℕ → ℕ) (n : ℕ) (x : Node)
        → at_step (real n v) (cond only_if 1 0) ≡ this → at_step (real n s) (cond only_if 0 1) ≡ that → output x s ≡ literal
        → Puts (buffer log.old at) (token_numbers (summand only_if at_step n x v s)) (buffer log.new result) }
    ensures upper_bound { result ≤ at + 40 }
{
    if s == v {
        return at;
    }
    if (s < v) == only_if {
        return push_divided(log, at, this, that, v.abs_diff(s) + 1);
    }
    let assumed = if only_if { literal } else { pb::neg(literal) };
    push_definition(log, at, SemDefinition::Axiom(assumed))
}

// The step k places after n. It stops at a number that no log reaches, so that the sum is a u32.
pub fn step_after(n: u32, k: u32) -> u32
    requires { k ≤ most_bytes }
    ensures { result ≡ step_after n k }
{
    if n < sizes::STEP_STOP { n + k } else { n }
}

// The step after n.
pub fn next_step(n: u32) -> u32
    ensures { result ≡ next_step n }
{
    step_after(n, 1)
}
