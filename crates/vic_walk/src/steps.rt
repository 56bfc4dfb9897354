//! Which parts an entry concerns.

ghost use Rattle.std.specs.Prelude.{◌≡◌};
ghost use Rattle.vic_walk.specs.Steps.{is_within, span_of};

/// Parts that follow one another.
#[derive(Clone, Copy)]
pub struct Span {
    /// The first one.
    pub from: usize,
    /// The one after the last.
    pub to: usize,
}

impl Span {
    /// Whether it has a part.
    pub fn has(self, part: usize) -> bool
        ensures { result ≡ is_within self part }
    {
        self.from <= part && part < self.to
    }
}

/// Which parts an entry concerns, by their numbers, which are below 2^32. Of an entry that is no
/// slot line `from` and `to` are the same, and of one that names no UID `own` is 0: nobody uses it.
///
/// While the borders are gathered, each number is the place of a border in `Gathered` instead;
/// `move_steps` replaces it by that of the part that begins there. The front page has an example.
#[derive(Clone, Copy)]
pub struct Step {
    /// Of a slot: the first of the parts whose UIDs lie in its mask.
    pub(crate) from: u32,
    /// The one after the last of them.
    pub(crate) to: u32,
    /// The part of the UID that the entry silences or hears.
    pub(crate) own: u32,
}

impl Step {
    /// The parts whose UIDs lie in the mask of a slot.
    pub fn span(self) -> Span
        ensures { result ≡ span_of self }
    {
        Span {
            from: self.from as usize,
            to: self.to as usize,
        }
    }

    /// The part of the UID that is silenced or heard.
    pub fn own(self) -> usize
        ensures { result ≡ self.own }
    {
        self.own as usize
    }
}
