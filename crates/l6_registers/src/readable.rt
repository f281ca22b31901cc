//! Where chains lead, name by name, or why they can't be followed. The quick way of most steps,
//! which has no traps, is in `fields.rt`.

ghost use Rattle.std.specs.Prelude.{◌≡◌, ◌<◌, ◌≤◌, ◌^◌, length, option_map, slice_index_or, IfOk, IfSome, None};
ghost use Rattle.std.specs.FinMap as map;
ghost use Rattle.l6_word.specs.Numerals.{largest_level};
ghost use Rattle.l6_store.specs.Blocks.{end_of};
ghost use Rattle.l6_store.specs.Numerals.{most_units};
ghost use Rattle.l6_steps.specs.State.{Memory};
ghost use Rattle.l6_steps.specs.Locus.{content, field_at, follow, locus, read};
ghost use Rattle.l6_registers.specs.inner.Registers.{IsIn};

use l6_prog::{Chain, Name, Operand};
use l6_steps::{Locus, Trap};
use l6_store::{Level, Place};
use l6_word::{Window, Word};

/// A memory that chains are followed through.
pub(crate) trait Readable: Sized {
    // The memory.
    ghost memory: { Self → Memory };

    /// What a field of this name is defined as, if it is.
    fn definition(&self, name: Name) -> Option<Window>
        ensures { result ≡ slice_index_or (memory self.now).definitions name None };

    /// The level of the block that begins at the place of this number, if one does.
    fn live(&self, pointer: Word) -> Option<Level>
        ensures size { option_map (λ level. 2 ^ level) result
            ≡ option_map length (map.get (memory self.now).blocks pointer) }
        ensures level { IfSome result (λ level. level ≤ largest_level) }
        ensures place { IfSome result (λ _. pointer < end_of most_units) };

    /// What is at a locus.
    fn content(&self, locus: Locus) -> Word
        requires { IsIn (memory self.now) locus }
        ensures { result ≡ content (memory self.now) locus };
}

/// The field of this name in the block at a pointer.
#[inline(always)]
pub(crate) fn field_at<M: Readable>(memory: &M, name: Name, pointer: Word) -> Result<Locus, Trap>
    ensures value { result ≡ field_at (M.memory memory.now) name pointer }
    ensures locus { IfOk result (IsIn (M.memory memory.now)) }
{
    let window = memory.definition(name).ok_or(Trap::UndefinedField)?;
    let level = memory.live(pointer).ok_or(Trap::NotABlock)?;
    if window.word() < 1 << level {
        Ok(Locus::Field(pointer.get() as Place, window))
    } else {
        Err(Trap::WordOutsideBlock)
    }
}

/// What fields lead to, one after another, from a locus on.
#[inline(always)]
fn follow<M: Readable>(memory: &M, from: Locus, fields: &[Name]) -> Result<Locus, Trap>
    requires { IsIn (M.memory memory.now) from }
    ensures value { result ≡ follow (M.memory memory.now) from fields.now }
    ensures locus { IfOk result (IsIn (M.memory memory.now)) }
{
    let mut locus = from;
    for name in fields {
        locus = field_at(memory, *name, memory.content(locus))?;
    }
    Ok(locus)
}

/// What a chain leads to. Most chains are a bug alone.
#[inline(always)]
pub(crate) fn locate<M: Readable>(memory: &M, chain: &Chain) -> Result<Locus, Trap>
    ensures value { result ≡ locus (M.memory memory.now) chain.now }
    ensures locus { IfOk result (IsIn (M.memory memory.now)) }
{
    let bug = Locus::Bug(chain.bug());
    match chain.names() {
        [_] => Ok(bug),
        names => follow(memory, bug, &names[1..]),
    }
}

/// What an operand reads as.
#[inline(always)]
pub(crate) fn read<M: Readable>(memory: &M, operand: &Operand) -> Result<Word, Trap>
    ensures { result ≡ read (M.memory memory.now) operand.now }
{
    match operand {
        Operand::Chain(chain) => Ok(memory.content(locate(memory, chain)?)),
        Operand::Number(word) => Ok(*word),
    }
}
