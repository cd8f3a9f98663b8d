// Reads a table from standard input and writes the shrunk file to standard output. A refused file gets one line on
// standard error, `refused NUMBER PLACE`, and nothing on standard output.
#![tactic(auto)]

ghost use Rattle.std.specs.Prelude.{◌≡◌, OnOk, length};
ghost use Rattle.std.specs.Io.KnownBytes.{Appends, Keeps};
ghost use Rattle.shrinking.specs.Shrunk.{Accepted, shrunk};

use reporting::input::{or_empty, read_file};
use shrinking::shrinks::shrink;
use std::io;
use std::io::Write;

// Writes the bytes of the shrunk file to standard output. The file itself is lent for the contract alone.
fn write_shrunk<W: Write>(file: &[u8], bytes: &[u8], output: &mut W) -> io::Result<()>
    requires { bytes.now ≡ shrunk file.now }
    ensures { OnOk result (Appends (W.contents output.old) (W.contents output.new) (shrunk file.now)) }
{
    output.write_all(bytes)
}

// Writes the shrunk file of an accepted file, or the line of the refusal. Of numbers and bytes there are enough for the largest table.
fn shrink_file<W: Write>(file: &[u8], output: &mut W, errors: &impl Eprint) -> io::Result<()>
    ensures accepted { Accepted file.now → OnOk result (Appends (W.contents output.old) (W.contents output.new) (shrunk file.now)) }
    ensures refused { (Accepted file.now → ⊥) → Keeps (W.contents output.old) (W.contents output.new) }
{
    let mut work = [0u16; 16384];
    let mut out = [0u8; 65536];
    match shrink(file, &mut work, &mut out) {
        Ok(size) => write_shrunk(file, &out[..size.length], output),
        Err(refusal) => eprintln!(errors; "refused {refusal}"),
    }
}

fn main(rt: HostRuntime) -> io::Result<()> {
    let file = or_empty(rt.alloc(), read_file(rt.alloc(), rt.stdin()))?;
    shrink_file(&file, &mut rt.stdout(), &rt)
}
