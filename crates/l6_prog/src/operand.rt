//! What an operation reads.

ghost use Rattle.std.specs.Prelude.{◌≡◌, true};
ghost use Rattle.l6_prog.specs.Values.{is_operand};

use crate::chain::Chain;
use l6_word::Word;

/// What an operation reads: the content of a chain, or a number.
#[derive(Clone, Debug, Drop)]
pub enum Operand {
    /// The content of what a chain leads to.
    Chain(Chain),
    /// A number.
    Number(Word),
}

impl Operand {
    /// Does nothing. Its clause gives the prover what is true of every operand.
    #[inline(always)]
    pub(crate) fn reveal(&self)
        ensures { is_operand self.now ≡ true }
    {
        match self {
            Operand::Chain(chain) => chain.reveal(),
            Operand::Number(number) => {
                let _ = number.get();
            }
        }
    }
}
