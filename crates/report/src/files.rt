// A task file as a program reads it, into fixed memory.
ghost use Rattle.std.specs.Prelude.{◌≡◌, take, IfOk, IfSome};

use arrayvec::ArrayVec;
use std::io;
use std::io::Read;

// One byte more than the longest file has, so that a longer one is seen to be longer.
const ROOM: usize = 65536;

/// Makes `file` the first bytes of a file, at most 65,536 of them.
// Beside `read_file`, for whoever reads many files: by value the 65,536 bytes are moved.
pub fn read_into<R: Read + Drop>(from: R, file: &mut ArrayVec<u8, 65536>) -> io::Result<()>
    ensures { IfOk result (λ done.
        IfSome (R.remaining from) (λ bytes. file.new.items ≡ take 65536 bytes)) }
{
    file.clear();
    io::copy(&mut from.take(ROOM as u64), file)?;
    Ok(())
}

/// Reads the first bytes of a file, at most 65,536 of them.
pub fn read_file<R: Read + Drop>(from: R) -> io::Result<ArrayVec<u8, 65536>>
    ensures { IfOk result (λ file.
        IfSome (R.remaining from) (λ bytes. file.items ≡ take 65536 bytes)) }
{
    let mut file = ArrayVec::new();
    read_into(from, &mut file)?;
    Ok(file)
}
