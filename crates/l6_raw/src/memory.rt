//! A piece of raw memory for words. The raw pointer is in this module alone: its six functions are
//! proved by hand, and everything else in the crate is safe code over them.

ghost use Rattle.std.specs.Prelude.{[], ℕ, List, ◌≡◌, ◌+◌, ◌<◌, ◌≤◌, ◌^◌, ◌++◌, ◌∷◌, length, replicate, slice_set, IfOk};
ghost use denote.RawPtr.{Ptr};
ghost use Rattle.l6_raw.specs.Words.{overwritten};
ghost use Rattle.l6_raw.specs.Room.{row_of, words_and_room, words_lent};

use std::alloc::{AllocError, Allocator};
use std::marker::{Model, PhantomData};

/// How many bytes a word takes, and the multiple at which it begins.
const WORD_BYTES: usize = 8;

/// Room for words in one piece of raw memory. The first `written` of them are written. It is linear:
/// it can be given back, and neither copied nor forgotten.
pub(crate) struct RawMemory {
    start: *mut u64,
    room: usize,
    written: usize,
    ghost words: { List ℕ },
    ghost counted: { written ≡ length words },
    ghost within: { written ≤ room },
    ghost small: { room < 2 ^ 32 },
}

impl Model for RawMemory {
    ghost also_owns = { λ memory. words_and_room memory.start memory.room memory.words };

    ghost also_shares = { λ memory _ κ. words_lent memory.start memory.words κ };
}

/// The right to give a piece of memory back to the allocator that it came from. It is linear, too.
pub(crate) struct DeallocToken<A: Allocator> {
    giver: PhantomData<A>,
    ghost alloc: { A },
    ghost start: { Ptr },
    ghost room: { ℕ },
}

impl<A: Allocator> Model for DeallocToken<A> {
    ghost also_owns = { λ token. A.dealloc_token token.alloc (row_of token.room) token.start };
}

impl RawMemory {
    /// Room for so many words, none of them written.
    pub(crate) fn take<A: Allocator>(
        alloc: &A,
        room: usize,
    ) -> Result<(RawMemory, DeallocToken<A>), AllocError>
        requires { room < 2 ^ 32 }
        ensures { IfOk result (λ taken. (taken.0.words ≡ [])
            × (taken.0.room ≡ room)
            × (taken.1.start ≡ taken.0.start)
            × (taken.1.room ≡ room)
            × (taken.1.alloc ≡ alloc.now)) }
    {
        match alloc.allocate(room * WORD_BYTES, WORD_BYTES) {
            Ok(block) => {
                let start = block as *mut u64;
                let memory = RawMemory {
                    start,
                    room,
                    written: 0,
                };
                let token = DeallocToken { giver: PhantomData };
                Ok((memory, token))
            }
            Err(refused) => Err(refused),
        }
    }

    /// Gives it back.
    pub(crate) fn free<A: Allocator>(self, token: DeallocToken<A>, alloc: &A)
        requires { (token.start ≡ self.start) × (token.room ≡ self.room) × (token.alloc ≡ alloc.now) }
    {
        let DeallocToken { giver: _ } = token;
        let RawMemory {
            start,
            room,
            written: _,
        } = self;
        unsafe { alloc.deallocate(start as *mut u8, room * WORD_BYTES, WORD_BYTES) }
    }

    /// Writes one more word, after the others.
    pub(crate) fn append(&mut self, word: u64)
        requires { length self.old.words < self.old.room }
        ensures { (self.new.words ≡ self.old.words ++ word ∷ [])
            × (self.new.room ≡ self.old.room)
            × (self.new.start ≡ self.old.start) }
    {
        unsafe { self.start.add(self.written).write(word) };
        self.written += 1;
    }

    /// Overwrites the word of this index.
    pub(crate) fn write(&mut self, index: usize, word: u64)
        requires { index < length self.old.words }
        ensures { (self.new.words ≡ slice_set self.old.words index word)
            × (self.new.room ≡ self.old.room)
            × (self.new.start ≡ self.old.start) }
    {
        unsafe { *self.start.add(index) = word };
    }

    /// Makes so many words from an index on 0.
    pub(crate) fn clear(&mut self, index: usize, count: usize)
        requires { index + count ≤ length self.old.words }
        ensures { (self.new.words ≡ overwritten self.old.words index (replicate count 0))
            × (self.new.room ≡ self.old.room)
            × (self.new.start ≡ self.old.start) }
    {
        let first = unsafe { self.start.add(index) };
        let mut done = 0;
        while done < count {
            unsafe { *first.add(done) = 0 };
            done += 1;
        }
    }

    /// The words that are written, borrowed and not copied.
    pub(crate) fn words(&self) -> &[u64]
        ensures { result.now ≡ self.now.words }
    {
        unsafe { std::slice::from_raw_parts(self.start, self.written) }
    }
}
