//! A sink for bytes, and a write that goes on until all bytes are written or one write fails.

ghost use Rattle.std.specs.Prelude.{◌≡◌, ℕ, Bool, true, false, Option, Some, ◌≤◌, ◌<◌, List, length, take, IfOk, OnOk, OnErr};
ghost use Rattle.std.specs.Io.KnownBytes.{Appends, WriteAppends};
ghost use Rattle.fab_text.specs.Failures.{grown, failed_after, failed_unless};
ghost use Rattle.fab_text.specs.FaultTexts.{write_fault_text};

use std::fmt;
use std::io::Write;
use std::marker::Model;
use thiserror::Error;

/// A writer failed, or took none of the bytes it was given.
#[derive(Clone, Copy, Debug, PartialEq, Eq, Error)]
pub struct WriteFault;

impl fmt::Display for WriteFault {
    ghost output = { λ fault. Some (write_fault_text fault) };

    fn fmt<W: fmt::Write>(&self, f: &mut fmt::Formatter<W>) -> fmt::Result {
        f.write_str("the writer failed")
    }
}

/// Takes bytes, and counts the writes that failed.
pub trait Sink {
    /// What it has taken, if that is known.
    ghost contents: { Self → Option (List ℕ) };

    /// How many writes have failed.
    ghost failed: { Self → ℕ };

    /// Whether a sink of this type may answer that it is not ready.
    ghost may_be_unready: { Bool };

    /// Takes the first `n` of `bytes`, appends them to its contents, and returns `n`. If it returns a fault, it has taken none.
    fn write(&mut self, bytes: &[u8]) -> Result<usize, WriteFault>
        ensures within { IfOk result (λ n. n ≤ length bytes.now) }
        ensures taken { WriteAppends (contents self.old) (contents self.new) result bytes.now }
        ensures failed { failed self.new ≡ failed_after bytes.now result (failed self.old) };

    /// How many writes failed. A write fails if it returns a fault, or if it takes no byte though there are some. The count stops at its
    /// greatest value.
    fn failures(&self) -> u64
        ensures { result ≡ failed self.now };

    /// Whether it can be written to, as far as is known before the first byte. Ask before long work, so that the work is not wasted. Takes
    /// no byte. If a sink is not ready, it counts one more failure. A sink that cannot know returns true.
    fn is_ready(&mut self) -> bool
        ensures kept { contents self.new ≡ contents self.old }
        ensures ready { result ≡ false → may_be_unready ≡ true }
        ensures failed { failed self.new ≡ failed_unless result (failed self.old) }
    {
        true
    }
}

/// Any writer as a `Sink`.
#[derive(Drop)]
pub struct Counted<W: Write> {
    inner: W,
    failures: u64,
}

impl<W: Write> Model for Counted<W> {
    ghost use Rattle.fab_text.specs.Failures.{Written};

    ghost Value = { Written };

    ghost view = { λ c. record { contents = W.contents c.inner; failures = c.failures } };
}

impl<W: Write> Counted<W> {
    /// Wraps `inner`. No write has failed yet.
    pub fn new(inner: W) -> Self
        ensures contents { result.contents ≡ W.contents inner }
        ensures failures { result.failures ≡ 0 }
    {
        Counted { inner, failures: 0 }
    }

    /// The writer.
    pub fn into_inner(self) -> W
        ensures { W.contents result ≡ self.contents }
    {
        let Counted { inner, failures: _ } = self;
        inner
    }
}

impl<W: Write> Sink for Counted<W> {
    ghost contents = { λ c. c.contents };

    ghost failed = { λ c. c.failures };

    ghost may_be_unready = { false };

    fn write(&mut self, bytes: &[u8]) -> Result<usize, WriteFault> {
        match self.inner.write(bytes) {
            Ok(taken) => {
                if taken == 0 && !bytes.is_empty() {
                    self.failures = self.failures.saturating_add(1);
                }
                Ok(taken)
            }
            Err(_) => {
                self.failures = self.failures.saturating_add(1);
                Err(WriteFault)
            }
        }
    }

    fn failures(&self) -> u64 {
        self.failures
    }
}

/// Writes all of `bytes`. If a write fails, it has written only a beginning of them.
pub fn write_whole<W: Sink>(out: &mut W, bytes: &[u8]) -> Result<(), WriteFault>
    ensures whole { OnOk result (Appends (W.contents out.old) (W.contents out.new) bytes.now) }
    ensures beginning { OnErr result ((n : ℕ) × (n < length bytes.now) ×
        Appends (W.contents out.old) (W.contents out.new) (take n bytes.now)) }
    ensures sound { OnOk result (W.failed out.new ≡ W.failed out.old) }
    ensures failed { OnErr result (W.failed out.new ≡ grown (W.failed out.old)) }
{
    let mut done = 0;
    while done < bytes.len() {
        let taken = out.write(&bytes[done..])?;
        if taken == 0 {
            return Err(WriteFault);
        }
        done += taken;
    }
    Ok(())
}
