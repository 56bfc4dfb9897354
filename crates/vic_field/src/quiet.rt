//! Which positions of a row have Quiet tags: words of bits, which a field cycle clears all at once.

ghost use Rattle.std.specs.Prelude.{◌≡◌, ℕ, ◌<◌, ◌≤◌, ◌+◌, ◌*◌, ◌/◌, ◌%◌, true, false, length, IfOk, ◌||◌, nat_eq};
ghost use Rattle.std.specs.Int.{bit_at};
ghost use Rattle.vic_field.specs.Bits.{AreUpTo, HasBitMore, HasBits, IsFull, IsSound, is_set};

use std::alloc::{AllocError, Global};

/// How many bits a word has.
pub(crate) const WORD: usize = 64;

/// How many positions a group has: those of 64 words, one word of `full_words`.
pub(crate) const GROUP: usize = WORD * WORD;

/// How many positions a cluster has: those of 64 groups, one word of `full_groups`.
pub(crate) const CLUSTER: usize = WORD * GROUP;

/// Bits that belong to one stretch between two field cycles. In any other stretch none of them is
/// set.
#[derive(Clone, Copy)]
pub(crate) struct Word {
    pub(crate) bits: u64,
    pub(crate) stretch: u32,
}

/// No bit in any stretch: stretches are counted from 1.
const BLANK: Word = Word {
    bits: 0,
    stretch: 0,
};

/// Which positions are Quiet.
#[derive(Drop)]
pub(crate) struct QuietPositions {
    /// A bit for each position, set if it is Quiet.
    pub(crate) positions: Vec<Word>,
    /// A bit for each word of `positions`, set if all bits of that word are.
    pub(crate) full_words: Vec<Word>,
    /// A bit for each word of `full_words`, set if all bits of that word are.
    pub(crate) full_groups: Vec<Word>,
    /// The number of the stretch between two field cycles, from 1.
    pub(crate) stretch: u32,
    ghost sound: { IsSound stretch positions.items full_words.items full_groups.items },
}

impl QuietPositions {
    ghost use Rattle.vic_field.specs.Positions.{HasRoomFor, is_quiet_position};
    ghost use Rattle.vic_field.specs.inner.Positions.{IsMoved};

    /// Without positions.
    pub(crate) fn new(alloc: Global) -> QuietPositions {
        QuietPositions {
            positions: Vec::new(alloc),
            full_words: Vec::new(alloc),
            full_groups: Vec::new(alloc),
            stretch: 1,
        }
    }

    /// That many positions, none of them Quiet.
    pub(crate) fn over(alloc: Global, count: usize) -> Result<QuietPositions, AllocError>
        ensures room { IfOk result (HasRoomFor count) }
        ensures none { IfOk result (λ q. (k : ℕ) → is_quiet_position q k ≡ false) }
    {
        Ok(QuietPositions {
            positions: vec![in alloc; BLANK; count / WORD + 1]?,
            full_words: vec![in alloc; BLANK; count / GROUP + 1]?,
            full_groups: vec![in alloc; BLANK; count / CLUSTER + 1]?,
            stretch: 1,
        })
    }

    /// At least this many positions from `position` on are Quiet: none if it is Ready, at least a
    /// word if a full word begins here, at least a group if a full group does.
    #[tactic(auto, using(crate::proofs::PositionLaws::unnoted))]
    pub(crate) fn run_from(&self, position: usize) -> usize
        ensures quiet { (k : ℕ) → position ≤ k → k < position + result
            → is_quiet_position self.now k ≡ true }
        ensures ready { result ≡ 0 → is_quiet_position self.now position ≡ false }
        ensures word { position % WORD ≡ 0 → position / WORD < length self.now.positions.items
            → IsFull self.now.stretch self.now.positions.items (position / WORD) → WORD ≤ result }
        ensures group { position % GROUP ≡ 0 → position / GROUP < length self.now.full_words.items
            → IsFull self.now.stretch self.now.full_words.items (position / GROUP)
            → GROUP ≤ result }
        ensures most { result ≤ CLUSTER }
    {
        if position % GROUP == 0 {
            let groups = run_in(&self.full_groups, self.stretch, position / GROUP);
            if groups > 0 {
                return groups * GROUP;
            }
        }
        if position % WORD == 0 {
            let words = run_in(&self.full_words, self.stretch, position / WORD);
            if words > 0 {
                return words * WORD;
            }
        }
        run_in(&self.positions, self.stretch, position)
    }

    /// Makes a position Quiet.
    pub(crate) fn add(&mut self, position: usize)
        requires { position < length self.old.positions.items * WORD }
        ensures room { length self.new.positions.items ≡ length self.old.positions.items }
        ensures added { (k : ℕ) → is_quiet_position self.new k
            ≡ (nat_eq k position || is_quiet_position self.old k) }
    {
        if !set(&mut self.positions, self.stretch, position) {
            return;
        }
        if set(&mut self.full_words, self.stretch, position / WORD) {
            set(&mut self.full_groups, self.stretch, position / GROUP);
        }
    }

    /// Makes every position Ready.
    pub(crate) fn wake(&mut self)
        ensures room { length self.new.positions.items ≡ length self.old.positions.items }
        ensures none { (k : ℕ) → is_quiet_position self.new k ≡ false }
    {
        if self.stretch == u32::MAX {
            forget(&mut self.positions);
            forget(&mut self.full_words);
            forget(&mut self.full_groups);
            self.stretch = 0;
        }
        self.stretch += 1;
    }

    /// The same with one more position, so that there are `count`: `gap` is new and Ready, and what
    /// was at `gap` or after it has moved by one.
    pub(crate) fn with_gap(&self, gap: usize, count: usize) -> Result<QuietPositions, AllocError>
        requires { gap < count }
        ensures room { IfOk result (HasRoomFor count) }
        ensures moved { IfOk result (IsMoved gap count self.now) }
    {
        let mut moved = QuietPositions::over(*self.positions.allocator(), count)?;
        for next in 1..count {
            let position = next - 1;
            if self.run_from(position) > 0 {
                moved.add(if position < gap { position } else { next });
            }
        }
        Ok(moved)
    }
}

/// Makes words blank, so that no bit is set in any stretch.
fn forget(words: &mut Vec<Word>)
    ensures blank { AreUpTo 0 words.new.items }
    ensures size { length words.new.items ≡ length words.old.items }
{
    words.fill(BLANK);
}

/// The bits of a word that are set in a stretch.
fn bits_in(words: &[Word], stretch: u32, number: usize) -> u64
    ensures { HasBits stretch words.now number result }
{
    match words.get(number) {
        Some(word) => {
            if word.stretch == stretch {
                word.bits
            } else {
                0
            }
        }
        None => 0,
    }
}

/// How many bits from this one on, all in its word, are set in a stretch without a gap.
fn run_in(words: &[Word], stretch: u32, bit: usize) -> usize
    ensures set { (k : ℕ) → bit ≤ k → k < bit + result → is_set stretch words.now k ≡ true }
    ensures end { result ≡ 0 → is_set stretch words.now bit ≡ false }
    ensures most { result ≤ WORD }
{
    ones_from(bits_in(words, stretch, bit / WORD), bit)
}

/// How many bits of its word from this one on are ones without a gap.
fn ones_from(bits: u64, bit: usize) -> usize
    ensures ones { (i : ℕ) → i < result → bit_at bits (bit % WORD + i) ≡ 1 }
    ensures end { result ≡ 0 → bit_at bits (bit % WORD) ≡ 0 }
    ensures within { bit % WORD + result ≤ WORD }
{
    (bits >> (bit % WORD)).trailing_ones() as usize
}

/// Sets a bit, and returns whether all bits of its word are then set.
fn set(words: &mut Vec<Word>, stretch: u32, bit: usize) -> bool
    requires { bit < length words.old.items * WORD }
    ensures size { length words.new.items ≡ length words.old.items }
    ensures set { HasBitMore stretch bit words.old.items words.new.items }
    ensures up_to { AreUpTo stretch words.old.items → AreUpTo stretch words.new.items }
    ensures full { result ≡ true → IsFull stretch words.new.items (bit / WORD) }
    ensures noted { IsFull stretch words.new.items (bit / WORD) → result ≡ true }
{
    let number = bit / WORD;
    let bits = bits_in(words, stretch, number) | 1 << (bit % WORD);
    words[number] = Word { bits, stretch };
    bits == u64::MAX
}
