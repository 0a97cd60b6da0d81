// The library, called from C: `include/totlog.h` declares what is exported. A crate is a library or a static library, so this
// one stands over `totlog` and states the contract again.
#![tactic(auto)]

ghost use Rattle.totlog.specs.Entry.{Left};

// Plays a script into the log, whatever it held. The answer is six numbers of four bytes, low byte first, as far as it reaches,
// zeros after.
#[unsafe(no_mangle)]
pub extern "C" fn totlog_play(script: &[u8], log: &mut [u8], answer: &mut [u8])
    ensures { Left script.now log.old answer.old log.new answer.new }
{
    totlog::totlog_play(script, log, answer);
}
