// The answer of a play: six numbers, and their bytes.
#![tactic(auto)]

ghost use Rattle.std.specs.Prelude.{◌≡◌, Some, length};
ghost use Rattle.answer.specs.Coded.{bytes_of, padded, text_of};

use std::fmt;

// Six numbers, as C reads them: the refusal's, 0 where there is none, and those that `include/totlog.h` lists.
#[derive(Clone, Copy, PartialEq, Eq, Default)]
pub struct Answer {
    pub number: u32,
    pub place: u32,
    pub length: u32,
    pub steps: u32,
    pub clauses: u32,
    pub nodes: u32,
}

// The six numbers, a space between them.
impl fmt::Display for Answer {
    ghost output = { λ a. Some (text_of a) };

    fn fmt<W: fmt::Write>(&self, f: &mut fmt::Formatter<W>) -> fmt::Result {
        let Answer {
            number,
            place,
            length,
            steps,
            clauses,
            nodes,
        } = *self;
        write!(f, "{number} {place} {length} {steps} {clauses} {nodes}")
    }
}

// The 24 bytes of an answer. A function and no `From`: its promise is an equation, as that of `pad` is.
pub fn bytes(a: Answer) -> [u8; 24]
    ensures { result ≡ bytes_of a }
{
    let mut b = [0; 24];
    b[0..4].copy_from_slice(&a.number.to_le_bytes());
    b[4..8].copy_from_slice(&a.place.to_le_bytes());
    b[8..12].copy_from_slice(&a.length.to_le_bytes());
    b[12..16].copy_from_slice(&a.steps.to_le_bytes());
    b[16..20].copy_from_slice(&a.clauses.to_le_bytes());
    b[20..24].copy_from_slice(&a.nodes.to_le_bytes());
    b
}

// b as far as dst reaches, zeros after.
pub fn pad(dst: &mut [u8], b: &[u8])
    ensures { dst.new ≡ padded (length dst.old) b.now }
{
    let n = dst.len().min(b.len());
    dst[..n].copy_from_slice(&b[..n]);
    dst[n..].fill(0);
}
