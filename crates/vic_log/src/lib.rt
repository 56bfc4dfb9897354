//! The log of an inventory session: its text, its entries, and which populations of tags could have
//! produced them.
//!
//! A log is a list of entries on numbered lines, in an order that an inventory session can have. It
//! is read from its text, all at once or in pieces, or refused by its first fault; built entry by
//! entry; and written back. Bytes come from a `Source` and go to a `Sink`, which remember a
//! failure. `specs/` has what the crates above rest on: rounds, Quiet tags, populations, and a
//! log's slots.
#![tactic(auto)]

mod begun;
mod deaf;
mod decoding;
mod digits;
mod entry;
mod fault;
mod feed;
mod history;
pub mod laws;
mod line;
mod log;
mod packed;
mod read;
mod reader;
mod rounds;
mod sink;
mod source;
mod uid_set;
mod write;

pub use digits::push_hex;
pub use entry::{Entry, LogLine, MAX_LINE_LEN, MAX_LINES, Version};
pub use fault::{LineFault, LogFault, PushFault, WriteFault};
pub use feed::{LogFeed, MAX_TEXT_LEN};
pub use history::History;
pub use line::{line_entry, line_entry_of};
pub use log::Log;
pub use packed::PackedLine;
pub use reader::{LogReader, MAX_READS, read_log};
pub use rounds::{KeyedRound, OpenRound, RoundCursor};
pub use sink::{Sink, ToWrite, write_whole};
pub use source::{DeviceFault, FromRead, ReadFault, Source, read_whole};
pub use write::{WRITTEN_AT_ONCE, write_listed, write_log};
