//! Sources and sinks over std readers and writers: each call makes one of theirs, also where that
//! fails.

use std::io;
use std::io::{Read, Write};
use std::process::Abort;
use vic_log::{DeviceFault, FromRead, Sink, Source, ToWrite};

/// A std reader and writer that counts its calls.
#[derive(Drop)]
struct Counted {
    calls: u64,
    fails: bool,
}

impl Counted {
    /// One whose calls fail, or work.
    fn new(fails: bool) -> Counted {
        Counted { calls: 0, fails }
    }

    fn called(&mut self) -> io::Result<()> {
        self.calls = self.calls.saturating_add(1);
        if self.fails {
            return Err(io::ErrorKind::TimedOut.into());
        }
        Ok(())
    }
}

impl Read for Counted {
    fn read(&mut self, buf: &mut [u8]) -> io::Result<usize> {
        self.called()?;
        Ok(buf.len())
    }
}

impl Write for Counted {
    fn write(&mut self, buf: &[u8]) -> io::Result<usize> {
        self.called()?;
        Ok(buf.len())
    }

    fn flush(&mut self) -> io::Result<()> {
        self.called()
    }
}

fn reads_once(rt: &impl Abort, fails: bool, buf: &mut [u8], expected: Result<usize, DeviceFault>) {
    let mut source = FromRead::new(Counted::new(fails));
    assert!(rt; source.read(buf) == expected);
    assert!(rt; source.into_inner().calls == 1);
}

#[test]
fn one_read_of_std_for_each(rt: HostRuntime) {
    reads_once(&rt, false, &mut [0; 4], Ok(4));
    reads_once(&rt, false, &mut [], Ok(0));
    reads_once(&rt, true, &mut [0; 4], Err(DeviceFault));
}

fn writes_once(rt: &impl Abort, fails: bool, text: &[u8], expected: Result<usize, DeviceFault>) {
    let mut sink = ToWrite::new(Counted::new(fails));
    assert!(rt; sink.write(text) == expected);
    assert!(rt; sink.into_inner().calls == 1);
}

#[test]
fn one_write_of_std_for_each(rt: HostRuntime) {
    writes_once(&rt, false, b"text", Ok(4));
    writes_once(&rt, false, b"", Ok(0));
    writes_once(&rt, true, b"text", Err(DeviceFault));
}

fn flushes_once(rt: &impl Abort, fails: bool, expected: Result<(), DeviceFault>) {
    let mut sink = ToWrite::new(Counted::new(fails));
    assert!(rt; sink.flush() == expected);
    assert!(rt; sink.into_inner().calls == 1);
}

#[test]
fn one_flush_of_std_for_each(rt: HostRuntime) {
    flushes_once(&rt, false, Ok(()));
    flushes_once(&rt, true, Err(DeviceFault));
}
