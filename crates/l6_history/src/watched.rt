//! What may be watched.

ghost use Rattle.std.specs.Prelude.{◌≡◌};
ghost use Rattle.l6_history.specs.Stop.{value_of};

use l6_machine::Machine;
use l6_prog::Chain;
use l6_store::Places;
use l6_word::Word;

/// What may be watched: what a chain reads as, or a word of a block.
#[derive(Clone, Debug, Drop)]
pub enum Watched {
    /// What a chain reads as.
    Chain(Chain),
    /// A word of the block that begins at a place.
    Word(BlockWord),
}

/// A word of the block that begins at a place, while one does.
#[derive(Clone, Copy, Debug, PartialEq, Eq)]
pub struct BlockWord {
    /// The place.
    pub place: Word,
    /// Which word of the block, from 0 on.
    pub word: u16,
}

impl Watched {
    /// What it reads as at the state of a machine: nothing where the chain can't be followed, no block
    /// begins at the place, or the block has no such word.
    #[inline(always)]
    pub fn value<S: Places>(&self, machine: &Machine<S>) -> Option<Word>
        ensures { result ≡ value_of machine.now.configuration.state.memory self.now }
    {
        match self {
            Watched::Chain(chain) => machine.readable_value(chain),
            Watched::Word(at) => machine.store().word(at.place, at.word),
        }
    }
}
