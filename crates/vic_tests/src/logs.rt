//! Logs by the short names of their lines in `tests/data/rows/lines`.

use std::alloc::Global;
use std::test::Fail;

/// The names that stand for a frame or a listed UID, each with its line.
const NAMES: &str = "I1 = T 260100F60A
I16 = T 060100CD09
MA = T 260108A18818
MB = T 260108B2923A
I16M1 = T 06010401719B
M55 = T 26013700000000000000641B
M60 = T 06013C0000000000000000069E
QA = T 2202A1000000000104E0662A
QB = T 2202B2000000000104E0CEFB
QZ = T 220200000000000000E077EB
QY = T 220200000000000080E0BB67
RA = R 0000A1000000000104E06745
RB = R 0000B2000000000104E0CF94
RB1 = R 0000B1000000000104E01F1E
UA = U E0040100000000A1
UB = U E0040100000000B2
UB1 = U E0040100000000B1
UZ = U E000000000000000
UY = U E080000000000000";

/// How many times the line of a name occurs: `S4` is four silent slots.
fn count_of(name: &str) -> usize {
    match name.strip_prefix("S") {
        Some(digits) => digits.parse().unwrap_or(1),
        None => 1,
    }
}

/// The line of a name. A name that isn't there stands for itself.
fn line_of(name: &str) -> &str {
    if name.starts_with('S') {
        return "S";
    }
    for row in NAMES.lines() {
        if let Some((other, line)) = row.split_once(" = ") {
            if other == name {
                return line;
            }
        }
    }
    name
}

/// The text of a log, by the names of its lines.
pub fn text_of(alloc: Global, names: &str) -> Result<String, Fail> {
    let mut text = String::new(alloc);
    text.push_str("vicinity-log 1\n")?;
    for name in names.split(' ').filter(|name| !name.is_empty()) {
        for _ in 0..count_of(name) {
            text.push_str(line_of(name))?;
            text.push('\n')?;
        }
    }
    Ok(text)
}
