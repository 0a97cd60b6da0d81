// A case played through the library, and its answer and log held to the recorded ones.
ghost use Rattle.std.specs.Prelude.{true, false, ◌≡◌, ℕ, ◌+◌, ◌<◌, ◌≤◌, length, get_or};
ghost use Rattle.player.specs.Player.{played};
ghost use Rattle.answer.specs.Coded.{word_at};
ghost use Rattle.totlog.specs.Entry.{answer_of};
ghost use Rattle.replay.specs.Compare.{Met};

use crate::report;
use answer::Answer;
use std::io;

// A script, with its recorded answer, and the log up to the answer's length.
#[derive(Clone, Copy)]
pub struct Case<'a> {
    pub script: &'a [u8],
    pub answer: Answer,
    pub recorded: &'a [u8],
}

// The number that four bytes hold, low byte first.
fn word(b: &[u8; 24], at: usize) -> u32
    requires { at + 4 ≤ 24 }
    ensures { result ≡ word_at b.now at }
{
    u32::from_le_bytes([b[at], b[at + 1], b[at + 2], b[at + 3]])
}

// What the library answers to a script and a log.
fn answer_to(script: &[u8], log: &mut [u8]) -> Answer
    ensures { (result ≡ answer_of (played script.now (length log.old)))
        × (log.new ≡ (played script.now (length log.old)).log) }
{
    let mut b = [255u8; 24];
    totlog::totlog_play(script, log, &mut b);
    Answer {
        number: word(&b, 0),
        place: word(&b, 4),
        length: word(&b, 8),
        steps: word(&b, 12),
        clauses: word(&b, 16),
        nodes: word(&b, 20),
    }
}

// A byte of a slice, which goes on with zeros.
fn byte_or_zero(s: &[u8], i: usize) -> u8
    ensures { result ≡ get_or s.now i 0 }
{
    s.get(i).copied().unwrap_or(0)
}

// How many bytes from its front on a log has as recorded. The recorded log goes on with zeros. A loop: `find` over the
// places would say the same in as many words.
fn agreed(log: &[u8], recorded: &[u8]) -> usize
    ensures within { result ≤ length log.now }
    ensures before { (k : ℕ) → k < result → get_or log.now k 0 ≡ get_or recorded.now k 0 }
    ensures found { result < length log.now → get_or log.now result 0 ≡ get_or recorded.now result 0 → ⊥ }
{
    for (i, b) in log.iter().enumerate() {
        if *b != byte_or_zero(recorded, i) {
            return i;
        }
    }
    log.len()
}

impl<'a> Case<'a> {
    // Plays its script on a log. Are the six numbers and every byte of the log as recorded?
    pub fn is_met(&self, log: &mut [u8]) -> bool
        ensures met { (result ≡ true → Met self.now.script.now (length log.old) self.now.answer self.now.recorded.now)
            × (result ≡ false → Met self.now.script.now (length log.old) self.now.answer self.now.recorded.now → ⊥) }
        ensures log_after { log.new ≡ (played self.now.script.now (length log.old)).log }
    {
        let got = answer_to(self.script, log);
        got == self.answer && agreed(log, self.recorded) == log.len()
    }

    // Where it is not met, plays it once more and shows both answers, and the first byte of the log that is not as recorded.
    pub fn show(&self, rt: &impl Print, log: &mut [u8], case: u32) -> io::Result<()> {
        let got = answer_to(self.script, log);
        let n = agreed(log, self.recorded);
        report::answer(rt, case, got, self.answer)?;
        if n < log.len() {
            report::log(rt, n, byte_or_zero(log, n), byte_or_zero(self.recorded, n))?;
        }
        Ok(())
    }
}
