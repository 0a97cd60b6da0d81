// What the program prints.
ghost use Rattle.std.specs.Prelude.{◌≤◌};

use answer::Answer;
use std::io;

// A case that is not met.
pub fn answer(rt: &impl Print, case: u32, got: Answer, recorded: Answer) -> io::Result<()> {
    println!(rt; "case {case}: answer {got}, recorded {recorded}")
}

// The first byte of its log that is not as recorded.
pub fn log(rt: &impl Print, at: usize, got: u8, recorded: u8) -> io::Result<()> {
    println!(rt; "  log byte {at} is {got}, recorded {recorded}")
}

// Case 0 is the count at the front.
pub fn unread(rt: &impl Print, case: u32) -> io::Result<()> {
    println!(rt; "case {case} does not read")
}

pub fn left_over(rt: &impl Print) -> io::Result<()> {
    println!(rt; "bytes after the last case")
}

pub fn total(rt: &impl Print, cases: u32, met: u32) -> io::Result<()>
    requires { met ≤ cases }
{
    let unmet = cases - met;
    println!(rt; "{cases} recorded answers: {met} met, {unmet} not")
}
