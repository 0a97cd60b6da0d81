// The recorded answers, read piece by piece.
ghost use Rattle.std.specs.Prelude.{OnOk};
ghost use Rattle.std.specs.Io.KnownBytes.{Consumes};

use answer::Answer;
use std::io;
use std::io::{ErrorKind, Read};

#[derive(Drop)]
pub enum ReadError {
    // The input ends too early, or a number does not read, or is too large.
    Bad,
    Io(io::Error),
}

impl From<io::Error> for ReadError {
    fn from(e: io::Error) -> ReadError {
        ReadError::Io(e)
    }
}

// Fills a slice.
pub fn fill<R: Read>(input: &mut R, to: &mut [u8]) -> Result<(), ReadError>
    ensures { OnOk result (Consumes (R.remaining input.old) (R.remaining input.new) to.new) }
{
    match input.read_exact(to) {
        Ok(()) => Ok(()),
        Err(e) if e.kind() == ErrorKind::UnexpectedEof => Err(ReadError::Bad),
        Err(e) => Err(ReadError::Io(e)),
    }
}

fn next_byte<R: Read>(input: &mut R) -> Result<u8, ReadError> {
    let mut one = [0u8; 1];
    fill(input, &mut one)?;
    Ok(one[0])
}

pub fn is_ended<R: Read>(input: &mut R) -> io::Result<bool> {
    match next_byte(input) {
        Ok(_) => Ok(false),
        Err(ReadError::Bad) => Ok(true),
        Err(ReadError::Io(e)) => Err(e),
    }
}

// The next number: its bytes are read up to the first below 128, and no more than a number may have.
pub fn next_number<R: Read>(input: &mut R) -> Result<u32, ReadError> {
    let mut groups = [0u8; number::GROUPS];
    for group in groups.iter_mut() {
        *group = next_byte(input)?;
        if *group < 128 {
            break;
        }
    }
    let (x, _) = number::read(&groups, 0).ok_or(ReadError::Bad)?;
    Ok(x)
}

// The next six numbers.
pub fn next_answer<R: Read>(input: &mut R) -> Result<Answer, ReadError> {
    Ok(Answer {
        number: next_number(input)?,
        place: next_number(input)?,
        length: next_number(input)?,
        steps: next_number(input)?,
        clauses: next_number(input)?,
        nodes: next_number(input)?,
    })
}
