//! How a program runs: it reads a script, and writes what it tells of it.
ghost use Rattle.std.specs.Prelude.{◌≡◌, take, Ok, IfOk, OnOk, IfSome};
ghost use Rattle.std.specs.Fn.{FnOnceReturnsAt};
ghost use Rattle.report.specs.Run.{PutsTold};

use crate::lines::MOST_BYTES;
use std::alloc::{AllocError, Global};
use std::io;
use std::io::{Read, Write};

// The bytes that are asked for at a time.
const PART: usize = 4096;

/// The input to its end, or one byte more than the programs take. It is read 4,096 bytes at a time,
/// and once more after the limit is passed.
pub fn read_script<R: Read + Drop>(heap: Global, mut input: R) -> io::Result<Vec<u8>>
    ensures { IfOk result (λ v. IfSome (R.remaining input) (λ bytes. v.items ≡ take 1000001 bytes)) }
{
    let mut script = Vec::new(heap);
    // Not by `read_to_end` or `copy`: they ask for other sizes, so that more or less of a message
    // would be dropped, and with `take` they would not meet an input that fails after the limit.
    for _ in 0..u64::MAX {
        let mut part = [0u8; PART];
        let n = input.read(&mut part)?;
        if n == 0 || script.len() > MOST_BYTES {
            break;
        }
        script.extend_from_slice(&part[..n])?;
    }
    script.truncate(MOST_BYTES + 1);
    Ok(script)
}

/// Writes what is told of the script that the input has.
pub fn run<R, W, F>(heap: Global, input: R, output: &mut W, tell: F) -> io::Result<()>
where
    R: Read + Drop,
    W: Write,
    F: FnOnce(&[u8]) -> Result<Vec<u8>, AllocError>,
    requires { F.IsAlwaysCallable tell }
    ensures { OnOk result (IfSome (R.remaining input) (λ bytes. PutsTold (λ text. FnOnceReturnsAt F.FnOnce tell (take 1000001 bytes) (Ok text)) (W.contents output.old) (W.contents output.new))) }
{
    let script = read_script(heap, input)?;
    let text = tell(script.as_slice())?;
    output.write_all(text.as_slice())
}
