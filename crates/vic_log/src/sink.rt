//! Writers that take their bytes in pieces.

ghost use Rattle.std.specs.Prelude.{◌≡◌, ◌<◌, ◌≤◌, ◌++◌, ℕ, List, [], Bool, true, false, length};
ghost use Rattle.std.specs.Prelude.{IfOk, OnErr, OnOk, is_err, is_ok, Option};
ghost use Rattle.std.specs.Io.KnownBytes.{Appends};
ghost use Rattle.vic_log.specs.Device.{SinkStep, KeepsOrHides, HasTakenPrefix, HasWrittenPrefix, moved, to_write_inner};

use crate::history::History;
use crate::source::DeviceFault;
use std::io::Write;

/// A writer of bytes that remembers whether its last write or flush failed.
pub trait Sink {
    // The bytes that its writes have accepted so far. Every sink has them, whatever became of them.
    ghost written: { Self → List ℕ };

    // The bytes that the device contains, those from before its first write among them, if it
    // reveals them: one over memory does, a file doesn't. So each fact about bytes is stated twice.
    ghost taken: { Self → Option (List ℕ) };

    // Whether its last write or flush was a flush that succeeded: it has passed on all that it
    // accepted.
    ghost is_flushed: { Self → Bool };

    ghost has_failed: { Self → Bool };

    /// Accepts some of the first bytes and returns how many: none only if there are none. A failed
    /// write leaves the accepted bytes as they were, or no longer reveals them. A sink that has
    /// failed isn't written to.
    fn write(&mut self, bytes: &[u8]) -> Result<usize, DeviceFault>
        requires { has_failed self.old ≡ false }
        ensures bound { IfOk result (λ n. n ≤ length bytes.now) }
        ensures some { IfOk result (λ n. 0 < length bytes.now → 0 < n) }
        ensures written { written self.new ≡ written self.old ++ moved result bytes.now }
        ensures bytes { SinkStep (taken self.old) (taken self.new) result bytes.now }
        ensures waiting { is_flushed self.new ≡ false }
        ensures state { has_failed self.new ≡ is_err result };

    /// Passes on what it has accepted. A sink that has failed isn't flushed.
    fn flush(&mut self) -> Result<(), DeviceFault>
        requires { has_failed self.old ≡ false }
        ensures unwritten { written self.new ≡ written self.old }
        ensures handed_on { is_flushed self.new ≡ is_ok result }
        ensures kept { OnOk result (Appends (taken self.old) (taken self.new) []) }
        ensures err { OnErr result (KeepsOrHides (taken self.old) (taken self.new)) }
        ensures state { has_failed self.new ≡ is_err result };

    /// Whether the last write or flush failed.
    fn failed(&self) -> bool
        ensures { result ≡ has_failed self.now };
}

/// A sink over a std writer. Each write or flush makes one call of the writer, which isn't
/// repeated, and each write notes the bytes that were accepted. A write that accepts none of some
/// bytes has failed.
#[derive(Drop)]
pub struct ToWrite<W> {
    inner: W,
    written: History,
    /// Whether the last call was a flush that succeeded.
    flushed: bool,
    failed: bool,
}

impl<W: Write> ToWrite<W> {
    /// A sink that hasn't failed.
    pub fn new(inner: W) -> ToWrite<W>
        ensures inner { to_write_inner result ≡ inner }
        ensures written { ⟦<ToWrite<W> as Sink>⟧.written result ≡ [] }
        ensures taken { ⟦<ToWrite<W> as Sink>⟧.taken result ≡ W.contents inner }
        ensures works { ⟦<ToWrite<W> as Sink>⟧.has_failed result ≡ false }
    {
        ToWrite {
            inner,
            written: History::new(),
            flushed: false,
            failed: false,
        }
    }

    /// The std writer.
    pub fn into_inner(self) -> W
        ensures { result ≡ to_write_inner self }
    {
        let ToWrite {
            inner,
            written: _,
            flushed: _,
            failed: _,
        } = self;
        inner
    }
}

impl<W: Write> Sink for ToWrite<W> {
    ghost written = { λ s. s.written.bytes };

    ghost taken = { λ s. W.contents s.inner };

    ghost is_flushed = { λ s. s.flushed };

    ghost has_failed = { λ s. s.failed };

    fn write(&mut self, bytes: &[u8]) -> Result<usize, DeviceFault> {
        self.flushed = false;
        match self.inner.write(bytes) {
            Ok(n) if n > 0 || bytes.is_empty() => {
                self.written.note(&bytes[..n]);
                self.failed = false;
                Ok(n)
            }
            _ => {
                self.failed = true;
                Err(DeviceFault)
            }
        }
    }

    fn flush(&mut self) -> Result<(), DeviceFault> {
        let flushed = self.inner.flush().is_ok();
        self.flushed = flushed;
        self.failed = !flushed;
        if flushed { Ok(()) } else { Err(DeviceFault) }
    }

    fn failed(&self) -> bool {
        self.failed
    }
}

/// Writes all the bytes, in as many writes as it takes, and doesn't flush. A sink that has failed
/// isn't written to again.
pub fn write_whole<W: Sink>(sink: &mut W, bytes: &[u8]) -> Result<(), DeviceFault>
    ensures all { OnOk result (Appends (W.taken sink.old) (W.taken sink.new) bytes.now) }
    ensures prefix { HasTakenPrefix (W.taken sink.old) (W.taken sink.new) bytes.now }
    ensures written { OnOk result (W.written sink.new ≡ W.written sink.old ++ bytes.now) }
    ensures part { HasWrittenPrefix (W.written sink.old) (W.written sink.new) bytes.now }
    ensures state { W.has_failed sink.new ≡ is_err result }
    ensures untouched { W.has_failed sink.old ≡ true → sink.new ≡ sink.old }
{
    if sink.failed() {
        return Err(DeviceFault);
    }
    let mut at = 0;
    while at < bytes.len() {
        at += sink.write(&bytes[at..])?;
    }
    Ok(())
}
