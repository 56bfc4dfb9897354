//! All findings of a possible log.

ghost use Rattle.std.specs.Prelude.{◌≡◌, ◌↔◌, IfOk, true};
ghost use Rattle.std.specs.Option.{option_map};
ghost use Rattle.vic_tree.specs.Ranges.{is_open_in};
ghost use Rattle.vic_log.specs.Order.{entries};
ghost use Rattle.vic_verdict.specs.Facts.{AreFactsOf};
ghost use Rattle.vic_report.specs.Reports.{AreFindings, AreNone, first_verdict};

use crate::absent_lines::lines_of_absent;
use crate::certain_lines::lines_of_certain;
use crate::shown::ShownUid;
use std::alloc::{AllocError, Global};
use vic_frame::{Mask, Uid};
use vic_log::Log;
use vic_tree::{OpenMasks, RangeSet, SortedKeys};
use vic_verdict::{Facts, Verdict, compare, listed_uids};

/// The findings of a possible log: where it contradicts its list, or leaves it undecided.
#[derive(Drop)]
pub struct Findings {
    /// The listed UIDs that can't be there, in rising order, each with the first line that rules it
    /// out.
    pub absent: Vec<ShownUid>,
    /// The UIDs that must be there and aren't listed, in rising order, each with a line that shows
    /// it.
    pub unlisted: Vec<ShownUid>,
    /// What is left to ask for, if a UID that isn't listed may be there or not.
    pub unsettled: Option<Unsettled>,
    /// The listed UIDs that may be there or not, in rising order.
    pub doubtful: Vec<Uid>,
}

/// What is left to ask for.
#[derive(Drop)]
pub struct Unsettled {
    /// The first mask by length, then by value, of at most 56 bits, all of whose UIDs may be there
    /// or not and aren't listed.
    pub mask: Mask,
    /// The first open masks of the UIDs, listed or not, that may be there or not, and whether there
    /// are more.
    pub open: OpenMasks,
}

impl Findings {
    /// Whether there are none.
    pub fn is_empty(&self) -> bool
        ensures { (result ≡ true) ↔ AreNone self.now }
    {
        self.absent.is_empty()
            && self.unlisted.is_empty()
            && self.unsettled.is_none()
            && self.doubtful.is_empty()
    }

    /// The first of them, as a verdict. If there is none, it is `Complete` with the count 0: no
    /// report has such findings, but anyone can build them, and `LogReport::verdict` answers for
    /// every value.
    pub(crate) fn first(&self) -> Verdict
        ensures { result ≡ first_verdict self.now }
    {
        if let Some(shown) = self.absent.first() {
            return Verdict::Absent(shown.uid);
        }
        if let Some(shown) = self.unlisted.first() {
            return Verdict::Unlisted(shown.uid);
        }
        if let Some(unsettled) = &self.unsettled {
            return Verdict::Unsettled(unsettled.mask);
        }
        match self.doubtful.first() {
            Some(uid) => Verdict::Doubtful(*uid),
            None => Verdict::Complete { count: 0 },
        }
    }
}

/// The findings of a possible log, from its facts.
pub(crate) fn find_findings(
    alloc: Global,
    facts: Facts<RangeSet>,
    log: &Log,
) -> Result<Findings, AllocError>
    requires { AreFactsOf (entries log.now.lines) (is_open_in facts.«open») facts.met
        facts.certain }
    ensures { IfOk result (AreFindings log.now.lines) }
{
    let lines = log.lines();
    let Facts { open, met, certain } = facts;
    let listed = listed_uids(alloc, lines)?;
    let certain_keys = SortedKeys::of(alloc, certain.as_slice())?;
    // made before it is known whether a mask is unsettled, since `compare` consumes the set; they
    // take one walk over its ranges, and no memory
    let masks = open.open_masks_besides(&certain_keys);
    let differences = compare(alloc, open, &certain, &listed)?;
    Ok(Findings {
        absent: lines_of_absent(alloc, log, differences.absent.as_slice())?,
        unlisted: lines_of_certain(alloc, lines, &met, &differences.unlisted)?,
        unsettled: left_to_ask(differences.unsettled, masks),
        doubtful: differences.doubtful.into_vec(),
    })
}

/// What is left to ask for, if a mask is unsettled.
fn left_to_ask(unsettled: Option<Mask>, masks: OpenMasks) -> Option<Unsettled>
    ensures { result ≡ option_map (λ m. record { mask = m; «open» = masks }) unsettled }
{
    match unsettled {
        Some(mask) => Some(Unsettled { mask, open: masks }),
        None => None,
    }
}
