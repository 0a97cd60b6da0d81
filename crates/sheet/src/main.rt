// Reads a script from standard input to its end and writes its sheet to standard output.
#![tactic(auto)]

ghost use Rattle.std.specs.Prelude.{◌≡◌, ◌≤◌, ◌+◌, length, take, ◌++◌, IfSome, OnOk};
ghost use Rattle.std.specs.Io.KnownBytes.{Appends, IsAtEnd};
ghost use Rattle.sizes.specs.Sizes.{most_bytes};
ghost use Rattle.lines.specs.Sheet.{sheet, most_sheet};

use std::alloc::Global;
use std::io;
use std::io::{Read, Write};

// Reads on to the end of the input, so that its writer is not cut off.
fn read_on<R: Read>(input: &mut R) -> io::Result<()>
    ensures { OnOk result (IsAtEnd (R.remaining input.new)) }
{
    io::copy(input, &mut io::sink())?;
    Ok(())
}

// The whole sheet, at the start of `text`.
fn whole<'a>(script: &[u8], text: &'a mut [u8]) -> &'a [u8]
    requires { most_sheet ≤ length text.old }
    ensures { result.now ≡ sheet script.now }
{
    let n = lines::sheet(script, text);
    &text[..n]
}

// Puts the script into `to`, and reads the input to its end.
fn read_script<R: Read>(input: &mut R, to: &mut Vec<u8>) -> io::Result<()>
    ensures script { OnOk result (IfSome (R.remaining input.old)
        (λ bs. to.new.items ≡ to.old.items ++ take (most_bytes + 1) bs)) }
    ensures end { OnOk result (IsAtEnd (R.remaining input.new)) }
{
    // one byte more than a script may have, so that a longer one is refused
    input.take(sizes::MOST_BYTES as u64 + 1).read_to_end(to)?;
    read_on(input)
}

// Reads a script to its end and writes its sheet.
fn print_sheet<R: Read, W: Write>(alloc: Global, input: &mut R, output: &mut W) -> io::Result<()>
    ensures sheet { OnOk result (IfSome (R.remaining input.old)
        (λ script. Appends (W.contents output.old) (W.contents output.new) (sheet script))) }
    ensures end { OnOk result (IsAtEnd (R.remaining input.new)) }
{
    let mut script = Vec::new(alloc);
    read_script(input, &mut script)?;
    let mut text = [0u8; lines::MOST_SHEET];
    let sheet = whole(&script, &mut text);
    output.write_all(sheet)
}

fn main(rt: HostRuntime) -> io::Result<()> {
    print_sheet(rt.alloc(), &mut rt.reader(), &mut io::writer(&rt))
}
