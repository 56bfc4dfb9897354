//! A log read in pieces of each size, and written to a device that fails at each write.

ghost use Rattle.std.specs.Prelude.{◌<◌};

use crate::devices::{OneByOne, Pieces};
use std::alloc::Global;
use std::process::Abort;
use std::test::Fail;
use vic_log::{Log, LogReader, WriteFault, read_log, write_log};

/// Each kind of line.
const SESSION: &[u8] =
    b"vicinity-log 3\nT 060100CD09\nS\nR 0000A1000000000104E06745\nH 0000B2000000000104E0CF94\nC\nD\nN\nS\nS\nS\nS\nS\nS\nS\nS\nS\nS\nF\nU E0040100000000A1\nU E0040100000000B2\n";

/// Reads the text in pieces, as the log that it is in one.
fn is_read(rt: &impl Abort, alloc: Global, piece: usize, expected: &Log) -> Result<(), Fail>
    requires { 0 < piece }
{
    let log = LogReader::new(alloc).read_all(&mut Pieces::new(SESSION, piece))?;
    assert!(rt; log.lines() == expected.lines(), "{piece}");
    Ok(())
}

#[test]
fn logs_in_pieces(rt: HostRuntime) -> Result<(), Fail> {
    let expected = read_log(rt.alloc(), SESSION)?;
    for piece in 1..300usize {
        is_read(&rt, rt.alloc(), piece, &expected)?;
    }
    Ok(())
}

/// Writes the log to a sink that accepts so many bytes.
fn is_cut(rt: &impl Abort, alloc: Global, log: &Log, room: usize) {
    let mut sink = OneByOne::new(Vec::new(alloc), room);
    assert!(rt; write_log(log, &mut sink) == Err(WriteFault), "{room}");
    assert!(rt;
        sink.taken() == &SESSION[..room.min(SESSION.len())],
        "{room}"
    );
}

#[test]
fn writers_that_fail(rt: HostRuntime) -> Result<(), Fail> {
    let log = read_log(rt.alloc(), SESSION)?;
    for room in 0..SESSION.len() {
        is_cut(&rt, rt.alloc(), &log, room);
    }
    Ok(())
}
