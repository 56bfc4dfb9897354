//! A set of the numbers below a count, as three levels of bits, by which the first one in a range
//! is found. Only the top level is searched word by word: four words for a million numbers.

ghost use Rattle.std.specs.Prelude.{◌≡◌, ℕ, ◌+◌, ◌*◌, ◌/◌, ◌<◌, true, false, length, nat_lt, replicate, slice_index, slice_set, IfOk, IfSome, IfNone};
ghost use Rattle.vic_walk.specs.Marked.{IsFirst, NoneBetween, is_marked};
ghost use Rattle.vic_walk.specs.inner.Bits.{AreCounted, HasNone, HasSome, IsNext, IsWith, IsWithout, is_set};

use std::alloc::{AllocError, Global};
use std::marker::Model;

/// How many bits a word has.
const WORD: usize = 64;

/// Bits in words.
#[derive(Drop)]
struct Bits {
    words: Vec<u64>,
}

impl Model for Bits {
    ghost use Rattle.std.specs.Prelude.{ℕ, List};
    ghost use Rattle.vic_walk.specs.inner.Bits.{AreCounted};

    ghost Value = { List ℕ };

    ghost view = { λ b. b.words.items };

    ghost invariant = { λ b. AreCounted b.words.items };
}

impl Bits {
    /// Words that have the bits up to a number, none of them set.
    fn none(alloc: Global, end: usize) -> Result<Bits, AllocError>
        ensures size { IfOk result (λ b. length b ≡ end / WORD + 1) }
        ensures none { IfOk result (λ b. (k : ℕ) → is_set b k ≡ false) }
    {
        Ok(Bits {
            words: vec![in alloc; 0; end / WORD + 1]?,
        })
    }

    /// Words that have the bits up to a number, those below it set.
    fn below(alloc: Global, end: usize) -> Result<Bits, AllocError>
        ensures size { IfOk result (λ b. length b ≡ end / WORD + 1) }
        ensures set { IfOk result (λ b. (k : ℕ) → is_set b k ≡ nat_lt k end) }
    {
        let mut words = vec![in alloc; u64::MAX; end / WORD + 1]?;
        words[end / WORD] = (1 << (end % WORD)) - 1;
        Ok(Bits { words })
    }

    /// A word, 0 past the end. Clause `counted`, here and below, tells a proof what is so of any
    /// `Bits`.
    fn word(&self, at: usize) -> u64
        ensures word { result ≡ slice_index self.now at }
        ensures counted { AreCounted self.now }
    {
        match self.words.get(at) {
            Some(word) => *word,
            None => 0,
        }
    }

    /// Whether a bit is set; none is past the end.
    fn has(&self, bit: usize) -> bool
        ensures { result ≡ is_set self.now bit }
    {
        self.word(bit / WORD) >> (bit % WORD) & 1 == 1
    }

    /// Sets a bit.
    fn set(&mut self, bit: usize)
        requires { bit / WORD < length self.old }
        ensures size { length self.new ≡ length self.old }
        ensures set { IsWith bit self.old self.new }
    {
        let word = self.words[bit / WORD] | 1 << (bit % WORD);
        self.words[bit / WORD] = word;
    }

    /// Clears a bit, and returns whether its word is then 0.
    fn clear(&mut self, bit: usize) -> bool
        requires { bit / WORD < length self.old }
        ensures size { length self.new ≡ length self.old }
        ensures cleared { IsWithout bit self.old self.new }
        ensures empty { result ≡ true → HasNone self.new (bit / WORD) }
        ensures left { result ≡ false → HasSome self.new (bit / WORD) }
    {
        let word = self.words[bit / WORD] & !(1 << (bit % WORD));
        self.words[bit / WORD] = word;
        word == 0
    }

    /// The first bit, from a bit on, that is set in the word of that bit.
    #[inline(always)]
    fn first_in_word(&self, from: usize) -> Option<usize>
        ensures first { IfSome result (IsFirst (is_set self.now) from) }
        ensures none { IfNone result (NoneBetween (is_set self.now) from
            (from / WORD * WORD + WORD)) }
        ensures counted { AreCounted self.now }
    {
        let ahead = self.word(from / WORD) >> (from % WORD);
        if ahead == 0 {
            return None;
        }
        Some(from + ahead.trailing_zeros() as usize)
    }

    /// The first bit, from a bit on, that is set, found word by word.
    fn first(&self, from: usize) -> Option<usize>
        ensures { IsNext (is_set self.now) from result }
    {
        if let Some(bit) = self.first_in_word(from) {
            return Some(bit);
        }
        for at in from / WORD + 1..self.words.len() {
            if let Some(bit) = self.first_in_word(at * WORD) {
                return Some(bit);
            }
        }
        None
    }
}

/// Bits, and which of their words aren't 0.
#[derive(Drop)]
struct NotedBits {
    bits: Bits,
    /// A bit for each word, set if that word isn't 0.
    notes: Bits,
}

impl Model for NotedBits {
    ghost use Rattle.std.specs.Prelude.{ℕ, List};
    ghost use Rattle.vic_walk.specs.inner.Bits.{AreNoted};

    ghost Value = { List ℕ };

    ghost view = { λ b. b.bits };

    ghost invariant = { λ b. AreNoted b.bits b.notes };
}

impl NotedBits {
    /// Sets a bit.
    fn set(&mut self, bit: usize)
        requires { bit / WORD < length self.old }
        ensures size { length self.new ≡ length self.old }
        ensures set { IsWith bit self.old self.new }
    {
        self.bits.set(bit);
        self.notes.set(bit / WORD);
    }

    /// Clears a bit.
    fn clear(&mut self, bit: usize)
        requires { bit / WORD < length self.old }
        ensures size { length self.new ≡ length self.old }
        ensures cleared { IsWithout bit self.old self.new }
    {
        if self.bits.clear(bit) {
            self.notes.clear(bit / WORD);
        }
    }

    /// The first bit, from a bit on, that is set.
    fn first(&self, from: usize) -> Option<usize>
        ensures { IsNext (is_set self.now) from result }
    {
        if let Some(bit) = self.bits.first_in_word(from) {
            return Some(bit);
        }
        let at = self.notes.first(from / WORD + 1)?;
        self.bits.first_in_word(at * WORD)
    }
}

/// A set of the numbers below a count.
#[derive(Drop)]
pub struct Marks {
    count: usize,
    /// A bit for each number, set if it is marked.
    bits: Bits,
    /// A bit for each word of `bits`, set if that word isn't 0.
    notes: NotedBits,
}

impl Model for Marks {
    ghost use Rattle.std.specs.Prelude.{List, Bool};
    ghost use Rattle.vic_walk.specs.inner.Bits.{AreMarks, marked_in};

    ghost Value = { List Bool };

    ghost view = { λ m. marked_in m.count m.bits };

    ghost invariant = { λ m. AreMarks m.count m.bits m.notes };
}

impl Marks {
    /// That many numbers, none of them marked.
    pub fn none(alloc: Global, count: usize) -> Result<Marks, AllocError>
        ensures { IfOk result (λ m. m ≡ replicate count false) }
    {
        Ok(Marks {
            count,
            bits: Bits::none(alloc, count)?,
            notes: NotedBits {
                bits: Bits::none(alloc, count / WORD)?,
                notes: Bits::none(alloc, count / WORD / WORD)?,
            },
        })
    }

    /// That many numbers, all of them marked.
    pub fn all(alloc: Global, count: usize) -> Result<Marks, AllocError>
        ensures { IfOk result (λ m. m ≡ replicate count true) }
    {
        let filled = count.div_ceil(WORD);
        Ok(Marks {
            count,
            bits: Bits::below(alloc, count)?,
            notes: NotedBits {
                bits: Bits::below(alloc, filled)?,
                notes: Bits::below(alloc, filled.div_ceil(WORD))?,
            },
        })
    }

    /// Whether a number is marked.
    pub fn has(&self, number: usize) -> bool
        ensures { result ≡ is_marked self.now number }
    {
        self.bits.has(number)
    }

    /// Marks a number.
    #[inline(always)]
    pub fn put(&mut self, number: usize)
        requires { number < length self.old }
        ensures { self.new ≡ slice_set self.old number true }
    {
        self.bits.set(number);
        self.notes.set(number / WORD);
    }

    /// Removes the mark of a number.
    #[inline(always)]
    pub fn take(&mut self, number: usize)
        requires { number < length self.old }
        ensures { self.new ≡ slice_set self.old number false }
    {
        if self.bits.clear(number) {
            self.notes.clear(number / WORD);
        }
    }

    /// The first marked number from `from` on and before `to`.
    #[inline(always)]
    pub fn first(&self, from: usize, to: usize) -> Option<usize>
        ensures first { IfSome result (IsFirst (is_marked self.now) from) }
        ensures within { IfSome result (λ p. p < to) }
        ensures none { IfNone result (NoneBetween (is_marked self.now) from to) }
    {
        if to <= from {
            return None;
        }
        let number = self.next(from)?;
        if number < to { Some(number) } else { None }
    }

    /// The first marked number, from a number on.
    #[inline(always)]
    fn next(&self, from: usize) -> Option<usize>
        ensures { IsNext (is_marked self.now) from result }
    {
        if let Some(number) = self.bits.first_in_word(from) {
            return Some(number);
        }
        let at = self.notes.first(from / WORD + 1)?;
        self.bits.first_in_word(at * WORD)
    }
}
