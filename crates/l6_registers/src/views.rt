//! What a debugger shows of the registers beside the bugs: what chains read as, and all that is saved.

ghost use Rattle.std.specs.Prelude.{◌≡◌, reverse};
ghost use Rattle.std.specs.Result.{result_ok};
ghost use Rattle.l6_prog.specs.declared.operand.Operand.{Operand};
ghost use Rattle.l6_steps.specs.Locus.{read};

use crate::readable::{Readable, locate};
use crate::registers::Registers;
use l6_prog::Chain;
use l6_steps::{Return, Trap};
use l6_store::Places;
use l6_word::{Window, Word};

impl<S: Places> Registers<S> {
    /// What a chain reads as, as an operation would read it. Nothing changes.
    ///
    /// # Errors
    ///
    /// The trap to which an operation that reads the chain would lead.
    pub fn value(&self, chain: &Chain) -> Result<Word, Trap>
        ensures { result ≡ read self.now.memory (Operand.Chain chain.now) }
    {
        Ok(self.content(locate(self, chain)?))
    }

    /// What a chain reads as, if it can be read. It is found faster than its trap would be.
    #[inline(always)]
    pub fn readable_value(&self, chain: &Chain) -> Option<Word>
        ensures { result ≡ result_ok (read self.now.memory (Operand.Chain chain.now)) }
    {
        self.quick_content(chain)
    }

    /// The contents that are saved, the latest last, at most `MAX_ENTRIES`.
    pub fn saved_contents(&self) -> &[Word]
        ensures { reverse result.now ≡ self.now.memory.saved_contents }
    {
        self.saved.contents.entries()
    }

    /// The definitions that are saved, the latest last, at most `MAX_ENTRIES`. A field may be saved
    /// that is not defined.
    pub fn saved_definitions(&self) -> &[Option<Window>]
        ensures { reverse result.now ≡ self.now.memory.saved_definitions }
    {
        self.saved.definitions.entries()
    }

    /// The returns for which calls wait, the latest last, at most `MAX_ENTRIES`.
    pub fn returns(&self) -> &[Return]
        ensures { reverse result.now ≡ self.now.memory.returns }
    {
        self.saved.returns.entries()
    }
}
