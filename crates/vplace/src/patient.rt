//! Writers that retry interrupted writes.

ghost use Rattle.std.specs.Io.{WritesAtMost};
ghost use Rattle.std.specs.Io.KnownBytes.{WriteAppends};

use std::io;
use std::io::{Error, ErrorKind, Write};

// How often a write is tried if a signal interrupts it each time.
const MOST_TRIES: u32 = 1_000_000;

/// A writer that retries a write if a signal interrupts it.
#[derive(Drop)]
pub struct Patient<W: Write> {
    pub inner: W,
}

/// One write, retried while signals interrupt it.
fn write_again<W: Write>(writer: &mut W, bytes: &[u8]) -> io::Result<usize>
    ensures bound { WritesAtMost result bytes.now }
    ensures bytes { WriteAppends (W.contents writer.old) (W.contents writer.new) result bytes.now }
{
    for _ in 0..MOST_TRIES {
        match writer.write(bytes) {
            Ok(taken) => return Ok(taken),
            Err(error) => {
                if error.kind() != ErrorKind::Interrupted {
                    return Err(error);
                }
            }
        }
    }
    Err(Error::from(ErrorKind::Interrupted))
}

impl<W: Write> Write for Patient<W> {
    ghost contents = { λ patient. W.contents patient.inner };

    fn write(&mut self, bytes: &[u8]) -> io::Result<usize> {
        write_again(&mut self.inner, bytes)
    }

    fn flush(&mut self) -> io::Result<()> {
        self.inner.flush()
    }
}
