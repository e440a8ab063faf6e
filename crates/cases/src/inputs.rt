//! Inputs, and the script that is read from them.
use report::input::read_script;
use std::io;
use std::io::{ErrorKind, Read};
use std::test::Fail;

// Gives a message at each read, and drops what the read has no room for.
#[derive(Drop)]
struct Messages<'a> {
    messages: &'a [&'a [u8]],
    given: usize,
}

impl Read for Messages<'_> {
    fn read(&mut self, buf: &mut [u8]) -> io::Result<usize> {
        let Some(message) = self.messages.get(self.given) else {
            return Ok(0);
        };
        self.given = self.given.saturating_add(1);
        let n = message.len().min(buf.len());
        buf[..n].copy_from_slice(&message[..n]);
        Ok(n)
    }
}

// A message of 4,096 bytes is read whole, and of a longer one so many bytes. An empty one is the end.
#[test]
fn parts_of_messages(rt: HostRuntime) -> Result<(), Fail> {
    let heap = rt.alloc();
    let whole = b"w".repeat(heap, 4096)?;
    let longer = b"l".repeat(heap, 4097)?;
    let longest = b"g".repeat(heap, 20_000)?;
    let messages = [
        whole.as_slice(),
        longer.as_slice(),
        b"check A\n",
        longest.as_slice(),
        b"eval B",
        b"",
        b"eval C",
    ];
    let script = read_script(
        heap,
        Messages {
            messages: &messages,
            given: 0,
        },
    )?;
    let mut read = b"w".repeat(heap, 4096)?;
    read.extend_from_slice(b"l".repeat(heap, 4096)?.as_slice())?;
    read.extend_from_slice(b"check A\n")?;
    read.extend_from_slice(b"g".repeat(heap, 4096)?.as_slice())?;
    read.extend_from_slice(b"eval B")?;
    assert_eq!(rt; script.as_slice(), read.as_slice());
    Ok(())
}

// Gives so many blanks, as many at a time as are asked for, and then fails.
#[derive(Drop)]
struct Failing {
    left: usize,
}

impl Read for Failing {
    fn read(&mut self, buf: &mut [u8]) -> io::Result<usize> {
        if self.left == 0 {
            return Err(io::Error::from(ErrorKind::ConnectionReset));
        }
        let n = self.left.min(buf.len());
        buf[..n].fill(b' ');
        self.left -= n;
        Ok(n)
    }
}

// The read after the one that passes the limit is the last: what fails later is not seen.
#[test]
fn failing_inputs(rt: HostRuntime) -> Result<(), Fail> {
    let heap = rt.alloc();
    for left in [0, 4096, 1_000_000, 1_000_001, 1_003_520] {
        let read = read_script(heap, Failing { left });
        assert!(rt; read.is_err_and(|e| e.kind() == ErrorKind::ConnectionReset));
    }
    let script = read_script(heap, Failing { left: 1_003_521 })?;
    assert_eq!(rt; script.len(), 1_000_001);
    Ok(())
}
