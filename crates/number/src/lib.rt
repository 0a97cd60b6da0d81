// Numbers of a script and a log, read and written at a place of a slice. `specs/Number.antt` says what
// a number's bytes are.
#![tactic(auto)]

ghost use Rattle.std.specs.Prelude.{◌≡◌, ◌+◌, ◌<◌, ◌≤◌, length, get_or};
ghost use Rattle.number.specs.Number.{encode, read_from, read_at, written};

// A number that is read takes at most so many groups of seven bits.
pub const GROUPS: usize = 4;

// A number of at most `groups` groups, with the place after it. Four groups, 28 bits, fit a u32.
fn read_groups(s: &[u8], at: usize, groups: usize) -> Option<(u32, usize)>
    requires { groups ≤ 4 }
    ensures { result ≡ read_from groups s.now at }
{
    if groups == 0 {
        return None;
    }
    let b = u32::from(*s.get(at)?);
    if b < 128 {
        return Some((b, at + 1));
    }
    let (x, end) = read_groups(s, at + 1, groups - 1)?;
    // Higher groups that come to 0 add nothing: this is not the shortest form.
    if x == 0 {
        return None;
    }
    Some((b - 128 + 128 * x, end))
}

// The number at `at`, which may lie past the end, with the place after it; nothing where the bytes are no number.
pub fn read(s: &[u8], at: usize) -> Option<(u32, usize)>
    ensures { result ≡ read_at s.now at }
{
    // Most numbers of a script have one group, and need no call.
    let first = u32::from(*s.get(at)?);
    if first < 128 {
        return Some((first, at + 1));
    }
    read_groups(s, at, GROUPS)
}

// Writes x, which has N groups, at `at`: the place after it. The loop counts from 0, so that it is unrolled where N is known.
fn push_groups<const N: usize>(log: &mut [u8], at: usize, x: u32) -> usize
    requires { (at + N ≤ length log.old) × (length (encode x) ≡ N) }
    ensures value { result ≡ at + length (encode x) }
    ensures log_after { log.new ≡ written log.old at x }
{
    let mut rest = x;
    for i in 0..N - 1 {
        log[at + i] = (rest % 128 + 128) as u8;
        rest = rest / 128;
    }
    log[at + (N - 1)] = rest as u8;
    at + N
}

// A number of any size. Only one of five groups, which no record has, is written so: the loop is not unrolled, or LLVM would
// lay its code together with that of four groups, and a play of the script large-38 takes 8% more instructions. How many groups
// there are is known at the end.
fn push_any(log: &mut [u8], from: usize, x: u32) -> usize
    requires { from + length (encode x) ≤ length log.old }
    ensures value { result ≡ from + length (encode x) }
    ensures log_after { log.new ≡ written log.old from x }
{
    let mut at = from;
    let mut rest = x;
    while 128 <= rest {
        log[at] = (rest % 128 + 128) as u8;
        rest /= 128;
        at += 1;
    }
    log[at] = rest as u8;
    at + 1
}

// Writes x at `at`, whether or not `read` takes as many groups: the place after it. Five groups hold every u32, so there is
// room for it. Up to four groups each number of groups has code of its own, without a loop.
pub fn push(log: &mut [u8], at: usize, x: u32) -> usize
    requires { at + 5 ≤ length log.old }
    ensures value { result ≡ at + length (encode x) }
    ensures log_after { log.new ≡ written log.old at x }
{
    if x < 128 {
        return push_groups::<1>(log, at, x);
    }
    if x < 16384 {
        return push_groups::<2>(log, at, x);
    }
    if x < 2097152 {
        return push_groups::<3>(log, at, x);
    }
    if x < 268435456 {
        return push_groups::<4>(log, at, x);
    }
    push_any(log, at, x)
}
