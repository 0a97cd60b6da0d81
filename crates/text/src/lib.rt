// Writers of text into a slice, as far as it reaches. `specs/Text.antt` says what is written. The slice and the place of the
// next byte, `at`, are no struct: a writer answers the place, so that a contract has the page before and after in one line.
#![tactic(auto)]

ghost use Rattle.std.specs.Prelude.{◌≡◌, [], ◌∷◌, ◌+◌, ◌<◌};
ghost use Rattle.text.specs.Text.{page, Prints};
ghost use Rattle.text.specs.Text.{decimal as Text·decimal, spaced as Text·spaced};

// One byte, if there is room.
#[tactic(auto, using(crate::proofs::Laws::put_room, crate::proofs::Laws::put_none))]
pub fn put(out: &mut [u8], at: usize, b: u8) -> usize
    ensures { Prints (page out.old at) (b ∷ []) (page out.new result) }
{
    if at < out.len() {
        out[at] = b;
        return at + 1;
    }
    at
}

// The bytes of a word.
pub fn word(out: &mut [u8], at: usize, w: &[u8]) -> usize
    ensures { Prints (page out.old at) w.now (page out.new result) }
{
    let mut end = at;
    for b in w {
        end = put(out, end, *b);
    }
    end
}

// A digit.
fn digit(x: u32) -> u8
    requires { x < 10 }
    ensures { result ≡ 48 + x }
{
    b'0' + x as u8
}

// A number in decimal. By hand, since `write!` would need a `fmt::Write` of the page, with a contract that says as much as
// this one.
pub fn decimal(out: &mut [u8], at: usize, x: u32) -> usize
    ensures { Prints (page out.old at) (Text·decimal x) (page out.new result) }
{
    if x < 10 {
        return put(out, at, digit(x));
    }
    let end = decimal(out, at, x / 10);
    put(out, end, digit(x % 10))
}

// A number after a space.
pub fn spaced(out: &mut [u8], at: usize, x: u32) -> usize
    ensures { Prints (page out.old at) (Text·spaced x) (page out.new result) }
{
    let end = put(out, at, b' ');
    decimal(out, end, x)
}
