//! Registers of the CRC, and keys, that were worked out elsewhere.

use crate::values::{A, Y, Z, uid};
use std::process::Abort;
use std::test::Fail;
use vic_frame::crc;
use vic_frame::low_bits_first::key;

/// Bytes, with the register of their CRC.
const REGISTERS: [(&[u8], u16); 6] = [
    (b"123456789", 0xFFFF - 0x906E),
    (b"", 0xFFFF),
    (b"\x26", 0x4BB3),
    (b"\x26\x01", 0x96D2),
    (b"\x26\x01\x00", 0xF509),
    (b"\x26\x01\x00\xF6\x0A", 0xF0B8),
];

fn has_register(rt: &impl Abort, bytes: &[u8], register: u16) {
    assert!(rt; crc(bytes) == 0xFFFF - register, "{register}");
}

#[test]
fn worked_registers(rt: HostRuntime) {
    for (bytes, register) in REGISTERS {
        has_register(&rt, bytes, register);
    }
}

/// UIDs, with their keys.
const KEYS: [(u64, u64); 3] = [(Z, 0), (Y, 1), (A, 0x85_0000_0000_8020)];

fn has_key(rt: &impl Abort, number: u64, expected: u64) -> Result<(), Fail> {
    assert!(rt; key(uid(number)?).number() == expected, "{number}");
    Ok(())
}

#[test]
fn keys_of_uids(rt: HostRuntime) -> Result<(), Fail> {
    for (number, expected) in KEYS {
        has_key(&rt, number, expected)?;
    }
    Ok(())
}
