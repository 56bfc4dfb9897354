//! A log whose text is fed in pieces.

ghost use Rattle.std.specs.Prelude.{◌≡◌, ◌≤◌, ◌++◌, [], ℕ, List, Some, None, Option, false, length, MatchResult, IfErr, OnOk, OnErr, if◌then◌else◌};
ghost use Rattle.vic_log.specs.Begun.{IsFed};
ghost use Rattle.vic_log.specs.Early.{IsEarly, HasNoEarlyFault};
ghost use Rattle.vic_log.specs.Lines.{lines_of_text};
ghost use Rattle.vic_log.specs.Text.{IsLogOf, Refuses};

use crate::begun::{Begun, LINE_ROOM, end_text, take_piece};
use crate::entry::MAX_LINES;
use crate::fault::LogFault;
use crate::history::History;
use crate::log::Log;
use crate::read::ReadLines;
use arrayvec::ArrayVec;
use std::alloc::Global;
use std::marker::Model;

/// The greatest length of a text that has no early fault: `MAX_LINES` lines, each with CR and LF.
pub const MAX_TEXT_LEN: u64 = 130_000_000;

const _: () = prove!(MAX_TEXT_LEN == LINE_ROOM as u64 * MAX_LINES as u64);

/// A log whose text is fed in pieces of any size. Its value is the bytes fed so far; after an `Err`
/// it has none, and each further call returns `Spent`.
#[derive(Drop)]
pub struct LogFeed {
    begun: Begun,
    fed: History,
    refused: bool,
}

impl Model for LogFeed {
    ghost Value = { Option (List ℕ) };

    ghost view = { λ f. if f.refused then None else Some f.fed.bytes };

    ghost invariant = { λ f. f.refused ≡ false → IsFed f.fed.bytes f.begun };
}

impl LogFeed {
    /// A feed to which nothing has been fed.
    pub fn new(alloc: Global) -> LogFeed
        ensures { result ≡ Some [] }
    {
        LogFeed {
            begun: Begun {
                read: ReadLines {
                    log: Log::new(alloc),
                    number: 0,
                },
                line: ArrayVec::new(),
            },
            fed: History::new(),
            refused: false,
        }
    }

    /// Takes the next bytes of the text. A line is judged when its LF has been read, when it is too
    /// long whatever follows, or when it is line 1,000,001; if it has a fault, that is returned.
    pub fn feed(&mut self, piece: &[u8]) -> Result<(), LogFault>
        ensures fed { OnOk result ((text : List ℕ) → self.old ≡ Some text
            → self.new ≡ Some (text ++ piece.now)) }
        ensures waits { OnOk result ((text : List ℕ) → self.new ≡ Some text
            → HasNoEarlyFault text × (length text ≤ MAX_TEXT_LEN)) }
        ensures early { IfErr result (λ e. (text : List ℕ) → self.old ≡ Some text
            → IsEarly e (text ++ piece.now)) }
        ensures refused { OnErr result (self.new ≡ None) }
        ensures again { self.old ≡ None → result ≡ Err LogFault.Spent }
    {
        if self.refused {
            return Err(LogFault::Spent);
        }
        // until the complete piece is taken
        self.refused = true;
        take_piece(&mut self.begun, piece)?;
        self.fed.note(piece);
        self.refused = false;
        Ok(())
    }

    /// The log of the complete text that was fed, of the version that its first line names, or its
    /// first fault.
    pub fn finish(self) -> Result<Log, LogFault>
        ensures answer { (text : List ℕ) → self ≡ Some text
            → MatchResult result (IsLogOf (lines_of_text text)) (Refuses text) }
        ensures again { self ≡ None → result ≡ Err LogFault.Spent }
    {
        let LogFeed {
            begun,
            fed: _,
            refused,
        } = self;
        if refused {
            return Err(LogFault::Spent);
        }
        end_text(begun)
    }
}
