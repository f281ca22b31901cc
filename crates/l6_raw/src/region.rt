//! The region: a list of words, as its callers see it.

ghost use Rattle.std.specs.Prelude.{◌≡◌, ◌+◌, ◌-◌, ◌<◌, ◌≤◌, ◌^◌, ◌⊎◌, ◌++◌, length, min, replicate, slice_index, slice_range, slice_set, IfOk};
ghost use Rattle.l6_raw.specs.Numerals.{most_words, word_bits};
ghost use Rattle.l6_raw.specs.Words.{AreWords, overwritten};
ghost use Rattle.l6_raw.specs.Pages.{most_pages, page_size, AreUnused};

use crate::memory::{DeallocToken, RawMemory};
use std::alloc::{AllocError, Global};
use std::marker::Model;

/// So many words in one piece of raw memory, 1 to `MOST_WORDS`. A word is below 2^36.
pub struct Region {
    memory: RawMemory,
    token: DeallocToken<Global>,
    alloc: Global,
}

impl Model for Region {
    ghost use Rattle.std.specs.Prelude.{List, ℕ, length, ◌≡◌, ◌≤◌};
    ghost use Rattle.l6_raw.specs.Numerals.{most_words};
    ghost use Rattle.l6_raw.specs.Words.{AreWords};

    ghost Value = { List ℕ };

    ghost view = { λ region. region.memory.words };

    // all of the room is written, and the token is that of this memory
    ghost invariant = { λ region. (region.memory.room ≡ length region.memory.words)
        × (region.token.start ≡ region.memory.start)
        × (region.token.room ≡ region.memory.room)
        × (region.token.alloc ≡ region.alloc)
        × (length region.memory.words ≤ most_words)
        × AreWords region.memory.words };
}

/// Gives the memory back. That can happen only once, since `RawMemory` and `DeallocToken` can be
/// neither copied nor forgotten.
impl Drop for Region {
    fn drop(self) {
        let Region {
            memory,
            token,
            alloc,
        } = self;
        memory.free(token, &alloc);
    }
}

impl Region {
    /// The most words that a region has.
    pub const MOST_WORDS: usize = 262_144;

    /// How many bits a word has.
    pub const WORD_BITS: u32 = 36;

    /// How many words a page has. By pages `take_from` leaves out what is the same already.
    pub const PAGE_SIZE: usize = 1024;

    /// So many words, all 0.
    ///
    /// # Errors
    ///
    /// Memory ran out.
    pub fn new(alloc: Global, count: usize) -> Result<Self, AllocError>
        requires some { 1 ≤ count }
        requires most { count ≤ most_words }
        ensures { IfOk result (λ region. region ≡ replicate count 0) }
    {
        let (mut memory, token) = RawMemory::take(&alloc, count)?;
        append_zeros(&mut memory, count);
        Ok(Region {
            memory,
            token,
            alloc,
        })
    }

    /// The word of this index.
    pub fn read(&self, index: usize) -> u64
        requires { index < length self.now }
        ensures value { result ≡ slice_index self.now index }
        ensures word { result < 2 ^ word_bits }
    {
        self.memory.words()[index]
    }

    /// Puts a word at an index.
    pub fn write(&mut self, index: usize, word: u64)
        requires index { index < length self.old }
        requires word { word < 2 ^ word_bits }
        ensures { self.new ≡ slice_set self.old index word }
    {
        self.memory.write(index, word);
    }

    /// So many words from an index on, borrowed and not copied.
    pub fn words(&self, index: usize, count: usize) -> &[u64]
        requires { index + count ≤ length self.now }
        ensures value { result.now ≡ slice_range self.now index (index + count) }
        ensures words { AreWords result.now }
    {
        &self.memory.words()[index..index + count]
    }

    /// Makes so many words from an index on 0.
    pub fn fill(&mut self, index: usize, count: usize)
        requires { index + count ≤ length self.old }
        ensures { self.new ≡ overwritten self.old index (replicate count 0) }
    {
        // few words are written in place, as a call of memset takes longer
        if count <= 2 {
            match count {
                1 => self.memory.clear(index, 1),
                2 => self.memory.clear(index, 2),
                _ => {}
            }
        } else {
            match count {
                4 => self.memory.clear(index, 4),
                8 => self.memory.clear(index, 8),
                _ => self.memory.clear(index, count),
            }
        }
    }

    /// Copies so many words from one index on to another on. The caller owes that the two ranges
    /// are apart.
    pub fn copy(&mut self, from: usize, to: usize, count: usize)
        requires source { from + count ≤ length self.old }
        requires target { to + count ≤ length self.old }
        requires apart { (from + count ≤ to) ⊎ (to + count ≤ from) }
        ensures { self.new ≡ overwritten self.old to (slice_range self.old from (from + count)) }
    {
        // a look at one field, for which the invariant is opened
        let _ = &self.memory;
        for done in 0..count {
            let word = self.read(from + done);
            self.write(to + done, word);
        }
    }

    /// A copy of the words, in memory of its own.
    ///
    /// # Errors
    ///
    /// Memory ran out.
    pub fn duplicate(&self, alloc: Global) -> Result<Self, AllocError>
        ensures { IfOk result (λ region. region ≡ self.now) }
    {
        let words = self.memory.words();
        let (mut memory, token) = RawMemory::take(&alloc, words.len())?;
        append_words(&mut memory, words);
        Ok(Region {
            memory,
            token,
            alloc,
        })
    }

    /// Takes over the words of another region, of which the caller owes that it has as many. Of a page
    /// that is used in neither only the first word is taken: the caller owes that all its others are 0
    /// in both.
    pub fn take_from(&mut self, other: &Region, used: &[bool], other_used: &[bool])
        requires long { length self.old ≡ length other.now }
        requires pages { (length used.now ≡ most_pages) × (length other_used.now ≡ most_pages) }
        requires unused { AreUnused self.old used.now }
        requires other_unused { AreUnused other.now other_used.now }
        ensures { self.new ≡ other.now }
    {
        overwrite(&mut self.memory, other.memory.words(), used, other_used);
    }
}

/// Overwrites all words with as many others. Of a page that is unused in both only the first word is
/// written: the others are 0 before and after.
fn overwrite(memory: &mut RawMemory, words: &[u64], used: &[bool], other_used: &[bool])
    requires long { length memory.old.words ≡ length words.now }
    requires most { length words.now ≤ most_words }
    requires pages { (length used.now ≡ most_pages) × (length other_used.now ≡ most_pages) }
    requires unused { AreUnused memory.old.words used.now }
    requires other_unused { AreUnused words.now other_used.now }
    ensures words { memory.new.words ≡ words.now }
    ensures room { memory.new.room ≡ memory.old.room }
    ensures start { memory.new.start ≡ memory.old.start }
{
    for page in 0..words.len().div_ceil(Region::PAGE_SIZE) {
        let first = page * Region::PAGE_SIZE;
        if used[page] || other_used[page] {
            put_page(memory, first, words);
        } else {
            memory.write(first, words[first]);
        }
    }
}

/// Overwrites the page that begins at an index with that of others, as far as there are words. It is a
/// function of its own so that the loop over pages, most of which are unused, is short.
#[inline(never)]
fn put_page(memory: &mut RawMemory, first: usize, words: &[u64])
    requires long { length memory.old.words ≡ length words.now }
    requires within { first ≤ length words.now }
    ensures words { memory.new.words ≡ overwritten memory.old.words first
        (slice_range words.now first (first + min page_size (length words.now - first))) }
    ensures room { memory.new.room ≡ memory.old.room }
    ensures start { memory.new.start ≡ memory.old.start }
{
    let count = Region::PAGE_SIZE.min(words.len() - first);
    put(memory, first, &words[first..first + count]);
}

/// Overwrites the words from an index on with others.
fn put(memory: &mut RawMemory, index: usize, words: &[u64])
    requires { index + length words.now ≤ length memory.old.words }
    ensures words { memory.new.words ≡ overwritten memory.old.words index words.now }
    ensures room { memory.new.room ≡ memory.old.room }
    ensures start { memory.new.start ≡ memory.old.start }
{
    for done in 0..words.len() {
        memory.write(index + done, words[done]);
    }
}

/// Appends so many zeros.
fn append_zeros(memory: &mut RawMemory, count: usize)
    requires { length memory.old.words + count ≤ memory.old.room }
    ensures words { memory.new.words ≡ memory.old.words ++ replicate count 0 }
    ensures room { memory.new.room ≡ memory.old.room }
    ensures start { memory.new.start ≡ memory.old.start }
{
    for _ in 0..count {
        memory.append(0);
    }
}

/// Appends these words.
fn append_words(memory: &mut RawMemory, words: &[u64])
    requires { length memory.old.words + length words.now ≤ memory.old.room }
    ensures words { memory.new.words ≡ memory.old.words ++ words.now }
    ensures room { memory.new.room ≡ memory.old.room }
    ensures start { memory.new.start ≡ memory.old.start }
{
    for &word in words {
        memory.append(word);
    }
}
