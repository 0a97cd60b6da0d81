// Plays the recorded answers of the original through the library and says how many of them it meets.
// Standard input is what `oracle record` writes: a count and then, for each case, the log's length, the
// script's length, the script, the answer's six numbers, and the log up to the answer's length.
#![tactic(auto)]

mod compare;
mod input;
mod report;

ghost use Rattle.std.specs.Prelude.{◌≡◌, ◌+◌, length};
ghost use Rattle.sizes.specs.Sizes.{most_bytes};

use compare::Case;
use input::ReadError;
use std::io;
use std::io::{BufReader, Read};

// So many cases that are not met are shown.
const SHOWN: u32 = 5;

// Room for a script or a log, a little longer than the library takes.
const ROOM: usize = sizes::MOST_BYTES + 256;

// It is not zero, so that the zeros after a log have to be written.
fn room() -> [u8; ROOM]
    ensures { most_bytes + 256 ≡ length result }
{
    [255; ROOM]
}

// Reads the next case and plays it. Is it met?
fn play<R: Read>(
    rt: &impl Print,
    input: &mut R,
    case: u32,
    is_shown: bool,
) -> Result<bool, ReadError> {
    let mut script = room();
    let mut log = room();
    let mut recorded = room();
    let capacity = input::next_number(input)? as usize;
    let script_length = input::next_number(input)? as usize;
    if ROOM < capacity || ROOM < script_length {
        return Err(ReadError::Bad);
    }
    let script = &mut script[..script_length];
    input::fill(input, script)?;
    let answer = input::next_answer(input)?;
    let used = answer.length as usize;
    if ROOM < used {
        return Err(ReadError::Bad);
    }
    let recorded = &mut recorded[..used];
    input::fill(input, recorded)?;
    let log = &mut log[..capacity];
    let read = Case {
        script,
        answer,
        recorded,
    };
    let is_met = read.is_met(log);
    if is_shown && !is_met {
        read.show(rt, log, case)?;
    }
    Ok(is_met)
}

// Plays so many cases and prints what came of them.
fn play_all<R: Read>(rt: &impl Print, input: &mut R, count: u32) -> io::Result<()> {
    let mut met = 0;
    for case in 0..count {
        match play(rt, input, case + 1, case - met < SHOWN) {
            Ok(is_met) => met += u32::from(is_met),
            Err(ReadError::Bad) => {
                report::total(rt, case, met)?;
                return report::unread(rt, case + 1);
            }
            Err(ReadError::Io(e)) => return Err(e),
        }
    }
    report::total(rt, count, met)?;
    if !input::is_ended(input)? {
        report::left_over(rt)?;
    }
    Ok(())
}

fn main(rt: HostRuntime) -> io::Result<()> {
    let mut input = BufReader::new(rt.alloc(), rt.reader())?;
    match input::next_number(&mut input) {
        Ok(count) => play_all(&rt, &mut input, count),
        Err(ReadError::Bad) => report::unread(&rt, 0),
        Err(ReadError::Io(e)) => Err(e),
    }
}
