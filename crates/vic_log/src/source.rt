//! Readers that return their bytes in pieces.

ghost use Rattle.std.specs.Prelude.{◌≡◌, ◌↔◌, ◌+◌, ◌-◌, ◌^◌, ◌<◌, ◌≤◌, ◌++◌, ℕ, List, [], Bool, true, false};
ghost use Rattle.std.specs.Prelude.{min, length, vec_len, IfOk, IfErr, OnOk, is_err, Option};
ghost use Rattle.std.specs.Io.KnownBytes.{Consumes};
ghost use Rattle.vic_log.specs.Device.{SourceStep, Stops, moved, is_end, from_read_inner};

use crate::history::History;
use std::alloc::{AllocError, Global};
use std::io::Read;

/// A read or a write failed.
#[derive(Clone, Copy, Debug, Drop, PartialEq, Eq)]
pub struct DeviceFault;

/// A reader of bytes that remembers whether its last read failed.
pub trait Source {
    // How many times it has been read.
    ghost reads: { Self → ℕ };

    // The bytes that its reads have returned so far. Every source has them.
    ghost returned: { Self → List ℕ };

    // Whether its last read returned none, though the buffer wasn't empty.
    ghost ended: { Self → Bool };

    // The bytes that it has left, if it reveals them: one over memory does, a file doesn't. So each
    // fact about bytes is stated twice.
    ghost left: { Self → Option (List ℕ) };

    ghost has_failed: { Self → Bool };

    /// Puts the next bytes at the start of `buf` and returns how many there are: none only at the
    /// end, or if `buf` is empty. A failed read leaves the bytes as they were, or no longer reveals
    /// them. A source that has failed isn't read.
    fn read(&mut self, buf: &mut [u8]) -> Result<usize, DeviceFault>
        requires { has_failed self.old ≡ false }
        ensures counts { reads self.new ≡ min (reads self.old + 1) (2 ^ 64 - 1) }
        ensures bound { IfOk result (λ n. n ≤ length buf.new) }
        ensures returned { returned self.new ≡ returned self.old ++ moved result buf.new }
        ensures ended { ended self.new ≡ is_end result buf.new }
        ensures bytes { SourceStep (left self.old) (left self.new) result buf.new }
        ensures state { has_failed self.new ≡ is_err result };

    /// Whether the last read failed.
    fn failed(&self) -> bool
        ensures { result ≡ has_failed self.now };
}

/// A source over a std reader. Each read makes one read of it, which isn't repeated, and notes the
/// bytes that it returned.
#[derive(Drop)]
pub struct FromRead<R> {
    inner: R,
    reads: u64,
    returned: History,
    ended: bool,
    failed: bool,
}

impl<R: Read> FromRead<R> {
    /// A source that hasn't been read.
    pub fn new(inner: R) -> FromRead<R>
        ensures inner { from_read_inner result ≡ inner }
        ensures reads { ⟦<FromRead<R> as Source>⟧.reads result ≡ 0 }
        ensures returned { ⟦<FromRead<R> as Source>⟧.returned result ≡ [] }
        ensures left { ⟦<FromRead<R> as Source>⟧.left result ≡ R.remaining inner }
        ensures works { ⟦<FromRead<R> as Source>⟧.has_failed result ≡ false }
    {
        FromRead {
            inner,
            reads: 0,
            returned: History::new(),
            ended: false,
            failed: false,
        }
    }

    /// The std reader.
    pub fn into_inner(self) -> R
        ensures { result ≡ from_read_inner self }
    {
        let FromRead {
            inner,
            reads: _,
            returned: _,
            ended: _,
            failed: _,
        } = self;
        inner
    }
}

impl<R: Read> Source for FromRead<R> {
    ghost reads = { λ s. s.reads };

    ghost returned = { λ s. s.returned.bytes };

    ghost ended = { λ s. s.ended };

    ghost left = { λ s. R.remaining s.inner };

    ghost has_failed = { λ s. s.failed };

    fn read(&mut self, buf: &mut [u8]) -> Result<usize, DeviceFault> {
        self.reads = self.reads.saturating_add(1);
        match self.inner.read(buf) {
            Ok(n) => {
                self.returned.note(&buf[..n]);
                self.ended = n == 0 && !buf.is_empty();
                self.failed = false;
                Ok(n)
            }
            Err(_) => {
                self.ended = false;
                self.failed = true;
                Err(DeviceFault)
            }
        }
    }

    fn failed(&self) -> bool {
        self.failed
    }
}

/// Why a source wasn't read to its end or limit.
#[derive(Clone, Copy, Debug, Drop, PartialEq, Eq)]
pub enum ReadFault {
    /// The source has failed.
    Read,
    /// Memory for the bytes was refused.
    Memory,
}

impl From<DeviceFault> for ReadFault {
    ghost use Rattle.vic_log.specs.declared.source.ReadFault.{ReadFault};

    ghost from_gives = { λ _ r. r ≡ ReadFault.Read };

    fn from(_: DeviceFault) -> ReadFault {
        ReadFault::Read
    }
}

impl From<AllocError> for ReadFault {
    ghost use Rattle.vic_log.specs.declared.source.ReadFault.{ReadFault};

    ghost from_gives = { λ _ r. r ≡ ReadFault.Memory };

    fn from(_: AllocError) -> ReadFault {
        ReadFault::Memory
    }
}

/// How many bytes are requested at once.
pub(crate) const PIECE: usize = 16384;

/// The bytes of a source, to its end, or the first `limit` of them. A source that has failed isn't
/// read.
pub fn read_whole<R: Source>(
    alloc: Global,
    source: &mut R,
    limit: usize,
) -> Result<Vec<u8>, ReadFault>
    ensures bytes { IfOk result (λ text.
        Consumes (R.left source.old) (R.left source.new) text.items) }
    ensures end { IfOk result (λ text. Stops (R.left source.new) text.items limit) }
    ensures bound { IfOk result (λ text. vec_len text ≤ limit) }
    ensures read { IfErr result (λ e.
        (e ≡ ReadFault.Read) ↔ (R.has_failed source.new ≡ true)) }
    ensures works { OnOk result (R.has_failed source.new ≡ false) }
    ensures reads { R.reads source.new ≤ R.reads source.old + limit }
    ensures untouched { R.has_failed source.old ≡ true → source.new ≡ source.old }
{
    if source.failed() {
        return Err(ReadFault::Read);
    }
    let mut text = Vec::new(alloc);
    let mut piece = [0; PIECE];
    while text.len() < limit {
        let room = PIECE.min(limit - text.len());
        let count = source.read(&mut piece[..room])?;
        if count == 0 {
            return Ok(text);
        }
        text.extend_from_slice(&piece[..count])?;
    }
    Ok(text)
}
