//! A source of pieces, and a sink that fails.

ghost use Rattle.std.specs.Prelude.{◌<◌, false, Some};

use vic_log::{DeviceFault, History, Sink, Source};

/// A source that returns at most `piece` bytes for each read.
#[derive(Drop)]
pub struct Pieces<'a> {
    bytes: &'a [u8],
    piece: usize,
    reads: u64,
    returned: History,
    ended: bool,
    ghost gives_some: { 0 < piece },
}

impl<'a> Pieces<'a> {
    /// A source of these bytes.
    pub fn new(bytes: &'a [u8], piece: usize) -> Pieces<'a>
        requires { 0 < piece }
    {
        Pieces {
            bytes,
            piece,
            reads: 0,
            returned: History::new(),
            ended: false,
        }
    }
}

impl<'a> Source for Pieces<'a> {
    ghost reads = { λ s. s.reads };

    ghost returned = { λ s. s.returned.bytes };

    ghost ended = { λ s. s.ended };

    ghost left = { λ s. Some s.bytes.now };

    ghost has_failed = { λ _. false };

    fn read(&mut self, buf: &mut [u8]) -> Result<usize, DeviceFault> {
        self.reads = self.reads.saturating_add(1);
        let n = self.bytes.len().min(buf.len()).min(self.piece);
        let (first, rest) = self.bytes.split_at(n);
        buf[..n].copy_from_slice(first);
        self.bytes = rest;
        self.returned.note(&buf[..n]);
        self.ended = n == 0 && !buf.is_empty();
        Ok(n)
    }

    fn failed(&self) -> bool {
        false
    }
}

/// A sink that accepts one byte for each write, and fails once it has `room` bytes.
#[derive(Drop)]
pub struct OneByOne {
    taken: Vec<u8>,
    room: usize,
    flushed: bool,
    failed: bool,
}

impl OneByOne {
    /// A sink that has accepted these bytes, and has room for so many in all.
    pub fn new(taken: Vec<u8>, room: usize) -> OneByOne {
        OneByOne {
            taken,
            room,
            flushed: false,
            failed: false,
        }
    }

    /// The bytes that it has accepted.
    pub fn taken(&self) -> &[u8] {
        self.taken.as_slice()
    }
}

impl Sink for OneByOne {
    ghost written = { λ s. s.taken.items };

    ghost taken = { λ s. Some s.taken.items };

    ghost is_flushed = { λ s. s.flushed };

    ghost has_failed = { λ s. s.failed };

    fn write(&mut self, bytes: &[u8]) -> Result<usize, DeviceFault> {
        self.flushed = false;
        if bytes.is_empty() {
            return Ok(0);
        }
        if self.taken.len() >= self.room || self.taken.push(bytes[0]).is_err() {
            self.failed = true;
            return Err(DeviceFault);
        }
        Ok(1)
    }

    fn flush(&mut self) -> Result<(), DeviceFault> {
        self.flushed = true;
        Ok(())
    }

    fn failed(&self) -> bool {
        self.failed
    }
}
