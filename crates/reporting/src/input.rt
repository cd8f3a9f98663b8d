// The table file that a program is given on its input.
ghost use Rattle.std.specs.Prelude.{◌≡◌, IfOk, IfSome, IsOk, take};

use std::alloc::Global;
use std::io;
use std::io::Read;

// What a read from a descriptor that is not open fails with.
const NOT_OPEN: i32 = 9;

// The first 65,536 bytes: an accepted file has at most 65,015, and no refusal looks behind 65,536.
pub fn read_file<R: Read + Drop>(alloc: Global, input: R) -> io::Result<Vec<u8>>
    ensures { IfOk result (λ file. IfSome (R.remaining input) (λ bytes. file.items ≡ take 65536 bytes)) }
{
    let mut file = Vec::new(alloc);
    let mut input = input.take(65536);
    input.read_to_end(&mut file)?;
    Ok(file)
}

// What was read; of an input that is closed, an empty file.
pub fn or_empty(alloc: Global, read: io::Result<Vec<u8>>) -> io::Result<Vec<u8>>
    ensures { IsOk read → result ≡ read }
{
    match read {
        Err(error) if error.raw_os_error() == Some(NOT_OPEN) => Ok(Vec::new(alloc)),
        read => read,
    }
}

#[test]
fn reads_a_whole_file(rt: HostRuntime) -> io::Result<()> {
    let bytes: &[u8] = &[1, 0, 6, 0, 5];
    let file = or_empty(rt.alloc(), read_file(rt.alloc(), bytes))?;
    assert!(rt; file.as_slice() == bytes);
    Ok(())
}
