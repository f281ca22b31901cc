//! The machine.

ghost use Rattle.std.specs.Prelude.{◌≡◌, ◌≤◌, ◌<◌, ◌^◌, ◌+◌, ◌-◌, ◌↔◌, true, false, IfOk, OnOk, OnErr, IsErrOf, slice_index, slice_index_or, length, All, None, Some};
ghost use Rattle.l6_word.specs.Numerals.{word_bits};
ghost use Rattle.l6_prog.specs.Numerals.{first_letter, letter_count, name_count};
ghost use Rattle.l6_store.specs.Blocks.{Fits};
ghost use Rattle.l6_store.specs.Store.{fresh};
ghost use Rattle.l6_steps.specs.Limits.{are_allowed};
ghost use Rattle.l6_steps.specs.Configuration.{configuration_after, EndsBy, IsNumbered};
ghost use Rattle.l6_steps.specs.Numerals.{most_entries, most_input, most_output, most_steps};
ghost use Rattle.l6_steps.specs.Output.{BeginAlike};
ghost use Rattle.l6_steps.specs.State.{is_at_limit, is_last, run_context};
ghost use Rattle.l6_steps.specs.Locus.{index_of};
ghost use Rattle.l6_steps.specs.Step.{Step, answer};
ghost use Rattle.l6_steps.specs.Run.{EndsIn, IsReached};
ghost use Rattle.l6_steps.specs.RunState.{IsAtStart};
ghost use Rattle.l6_machine.specs.Counting.{number_of};

use crate::fault::{MachineFault, check};
use crate::progress::Progress;
use l6_instructions::CompiledProgram;
use l6_prog::{Name, Program};
use l6_registers::{Depths, Registers};
use l6_steps::{Halt, Limits, Position, StepResult, Trap};
use l6_store::Places;
use l6_word::{Window, Word};
use std::alloc::{AllocError, Global};
use std::marker::Model;
use std::rc::Rc;

/// A compiled program that machines share.
fn shared(alloc: Global, code: CompiledProgram) -> Result<Rc<CompiledProgram, Global>, AllocError>
    ensures { IfOk result (λ shared. shared.value ≡ code) }
{
    Ok(Rc::new(alloc, code)?)
}

/// A machine with a program to run and a store of blocks, at some configuration of its run.
#[derive(Drop)]
pub struct Machine<S: Places> {
    // it never changes, so the copies of a machine share it
    pub(crate) code: Rc<CompiledProgram, Global>,
    pub(crate) registers: Registers<S>,
    pub(crate) progress: Progress,
}

impl<S: Places> Model for Machine<S> {
    ghost use Rattle.std.specs.Coded.{codes};
    ghost use Rattle.l6_store.specs.Blocks.{blocks_code};
    ghost use Rattle.l6_steps.specs.RunState.{RunState};

    ghost Value = { RunState };

    ghost coded = { Prim.hlevel (codes, blocks_code) };

    ghost use Rattle.l6_machine.specs.inner.CompiledProgram.{control_of, IsInRunAt};
    ghost use Rattle.l6_machine.specs.inner.Progress.{configuration_of, context_of};

    ghost view = { λ m. record {
      context = context_of m.code.value.program m.registers;
      configuration = configuration_of m.registers (control_of m.code.value.layout m.progress);
    } };

    ghost invariant = { λ m. IsInRunAt S.rule m.code.value m.registers m.progress };
}

impl<S: Places> Machine<S> {
    /// A machine before the first step of the program. All memory that a run needs is allocated
    /// here: for a copy of the program and its instructions, a copy of the input, and room for the
    /// output and for everything that may be saved. If no machine is made, the store is dropped.
    /// The caller owes a store that is new or reset, and at most `MAX_INPUT` bytes of input.
    ///
    /// # Errors
    ///
    /// `BadLimits` exactly if the limits are out of range, before anything is allocated; or out of
    /// memory.
    pub fn new(
        alloc: Global,
        program: &Program,
        input: &[u8],
        store: S,
        limits: Limits,
    ) -> Result<Self, MachineFault>
    where
        S: Drop,
        requires input { length input.now ≤ most_input }
        requires fresh { S.store store ≡ fresh S.rule (S.store store).units }
        ensures start { IfOk result (IsAtStart S.rule
            (run_context program.now (S.store store).units limits input.now)) }
        ensures bad_limits { IsErrOf result MachineFault.BadLimits ↔ (are_allowed limits ≡ false) }
        ensures allowed { OnOk result (are_allowed limits ≡ true) }
    {
        check(limits)?;
        Ok(Self::start(alloc, program.duplicate(alloc)?, input, store, limits)?)
    }

    /// Like `new`, but takes ownership of the program, makes no copy of it, and is for limits that are
    /// known to be allowed. The caller owes that, too (`Limits::are_allowed`).
    ///
    /// # Errors
    ///
    /// Memory ran out.
    pub fn start(
        alloc: Global,
        program: Program,
        input: &[u8],
        store: S,
        limits: Limits,
    ) -> Result<Self, AllocError>
    where
        S: Drop,
        requires input { length input.now ≤ most_input }
        requires fresh { S.store store ≡ fresh S.rule (S.store store).units }
        requires allowed { are_allowed limits ≡ true }
        ensures { IfOk result (IsAtStart S.rule
            (run_context program (S.store store).units limits input.now)) }
    {
        let code = CompiledProgram::new(alloc, program)?;
        let registers = Registers::new(alloc, input, store, limits)?;
        let progress = Progress {
            pc: code.pc(Position::start_of(0)),
            count: 0,
            ending: None,
        };
        Ok(Machine {
            code: shared(alloc, code)?,
            registers,
            progress,
        })
    }

    /// Makes one step: the condition, an operation or the exit of a statement. A step that traps
    /// changes the ending alone, and is not counted. Nothing changes where the run has ended or is
    /// at its limit. Each bug stays a word, and so does each word of a block; the blocks stay
    /// within the store, each at a multiple of its size, and no two share a word.
    pub fn step(&mut self) -> StepResult
        ensures configuration { self.new.configuration
            ≡ configuration_after S.rule self.old.context self.old.configuration }
        ensures context { self.new.context ≡ self.old.context }
        ensures step { is_last self.old.context self.old.configuration.state ≡ false
            → Step self.old.context self.old.configuration.state self.new.configuration.state }
        ensures trapped { (trap : Trap) → self.old.configuration.state.ending ≡ None →
            result ≡ StepResult.Trapped trap
            → self.new.configuration ≡ record {
              state = record self.old.configuration.state { ending = Some (Halt.Trap trap) };
              order = self.old.configuration.order;
            } }
        ensures last { is_last self.old.context self.old.configuration.state ≡ true →
            self.new.configuration ≡ self.old.configuration }
        ensures reached { IsReached self.new.context self.new.configuration.state }
        ensures numbered { IsNumbered S.rule self.new.context self.new.configuration }
        ensures answer { result
            ≡ answer self.old.context self.old.configuration.state self.new.configuration.state }
        ensures counted { result ≡ StepResult.Went →
            self.new.configuration.state.count ≡ self.old.configuration.state.count + 1 }
        ensures within { self.new.configuration.state.count ≤ self.new.context.parameters.limits.steps }
        ensures words { All (λ word. word < 2 ^ word_bits) self.new.configuration.state.memory.bugs }
        ensures saved_words { All (λ word. word < 2 ^ word_bits)
            self.new.configuration.state.memory.saved_contents }
        ensures blocks { Fits self.new.context.parameters.units self.new.configuration.state.memory.blocks }
    {
        self.progress.step(&self.code, &mut self.registers)
    }

    /// Makes steps until the run has ended or is at its limit.
    pub fn run(&mut self)
        ensures ends { EndsIn self.new.context self.new.configuration.state }
        ensures by_rule { EndsBy S.rule self.new.context self.new.configuration.state }
        ensures numbered { IsNumbered S.rule self.new.context self.new.configuration }
        ensures context { self.new.context ≡ self.old.context }
    {
        self.progress.run(&self.code, &mut self.registers);
    }

    /// Makes steps until the run has ended, is at its limit or has counted as many as this. Answers
    /// how many steps were made, the one that traps among them.
    pub fn run_to(&mut self, count: u64) -> u64
        ensures stops { is_last self.new.context self.new.configuration.state ≡ false →
            count ≤ self.new.configuration.state.count }
        ensures ran { number_of self.new.configuration.state
            ≡ number_of self.old.configuration.state + result }
        ensures reached { IsReached self.new.context self.new.configuration.state }
        ensures few { result ≤ count - self.old.configuration.state.count }
        ensures numbered { IsNumbered S.rule self.new.context self.new.configuration }
        ensures context { self.new.context ≡ self.old.context }
    {
        self.progress.run_to(&self.code, &mut self.registers, count)
    }

    /// Goes back to the state before the first step. The store has its first order again, too, and
    /// nothing of the input is taken.
    pub fn reset(&mut self)
        ensures { IsAtStart S.rule self.old.context self.new }
    {
        self.registers.reset();
        self.progress = Progress {
            pc: self.code.pc(Position::start_of(0)),
            count: 0,
            ending: None,
        };
    }

    /// A copy of the machine, at the same configuration of the same run, with a store of its own.
    /// The two share the program and the input; everything else that its run needs is allocated
    /// here.
    ///
    /// # Errors
    ///
    /// Memory ran out.
    pub fn duplicate(&self, alloc: Global) -> Result<Self, AllocError>
    where
        S: Drop,
        ensures { IfOk result (λ copy. copy ≡ self.now) }
    {
        Ok(Machine {
            code: self.code.clone()?,
            registers: self.registers.duplicate(alloc)?,
            progress: self.progress,
        })
    }

    /// Comes to the configuration of another machine of the same context, in the memory that it
    /// has. The caller owes that the shorter of the two outputs is the beginning of the other, as
    /// outputs of one run are.
    ///
    /// # Errors
    ///
    /// The program or the input could not be shared once more, or the store was refused memory. Then
    /// nothing has changed.
    pub fn take_from(&mut self, alloc: Global, other: &Self) -> Result<(), AllocError>
    where
        S: Drop,
        requires context { self.old.context ≡ other.now.context }
        requires output { BeginAlike self.old.configuration.state.memory.output
            other.now.configuration.state.memory.output }
        ensures ok { OnOk result (self.new ≡ other.now) }
        ensures err { OnErr result (self.new ≡ self.old) }
    {
        let code = other.code.clone()?;
        self.registers.take_from(alloc, &other.registers)?;
        self.code = code;
        self.progress = other.progress;
        Ok(())
    }

    /// The program.
    pub fn program(&self) -> &Program
        ensures { result.now ≡ self.now.context.program }
    {
        self.code.program()
    }

    /// How far the run may go.
    pub fn limits(&self) -> Limits
        ensures value { result ≡ self.now.context.parameters.limits }
        ensures allowed { are_allowed result ≡ true }
    {
        self.registers.limits()
    }

    /// What the bug of a letter holds. The caller owes a letter (`Name::is_letter`).
    pub fn bug(&self, name: Name) -> Word
        requires { first_letter ≤ name }
        ensures { result ≡ slice_index self.now.configuration.state.memory.bugs (index_of name) }
    {
        self.registers.bug(name)
    }

    /// What the bugs hold, A to Z.
    pub fn bugs(&self) -> &[Word]
        ensures value { result.now ≡ self.now.configuration.state.memory.bugs }
        ensures count { length result.now ≡ letter_count }
    {
        self.registers.bugs()
    }

    /// How many contents and definitions are saved, and how many calls wait for their return: each
    /// at most `MAX_ENTRIES`.
    pub fn depths(&self) -> Depths
        ensures contents { result.contents ≡ length self.now.configuration.state.memory.saved_contents }
        ensures definitions { result.definitions
            ≡ length self.now.configuration.state.memory.saved_definitions }
        ensures returns { result.returns ≡ length self.now.configuration.state.memory.returns }
        ensures within { (result.contents ≤ most_entries)
            × (result.definitions ≤ most_entries) × (result.returns ≤ most_entries) }
    {
        self.registers.depths()
    }

    /// What a field of this name is defined as, if it is.
    pub fn definition(&self, name: Name) -> Option<Window>
        ensures { result ≡ slice_index_or self.now.configuration.state.memory.definitions name None }
    {
        self.definitions()[usize::from(name.number())]
    }

    /// What each name is defined as, if it is, by its number.
    pub fn definitions(&self) -> &[Option<Window>]
        ensures value { result.now ≡ self.now.configuration.state.memory.definitions }
        ensures count { length result.now ≡ name_count }
    {
        self.registers.definitions()
    }

    /// The store, as the run has left it.
    pub fn store(&self) -> &S
        ensures units { (S.store result.now).units ≡ self.now.context.parameters.units }
        ensures blocks { (S.store result.now).blocks ≡ self.now.configuration.state.memory.blocks }
        ensures order { (S.store result.now).order ≡ self.now.configuration.order }
    {
        self.registers.places()
    }

    /// Where the run is.
    pub fn at(&self) -> Position
        ensures { result ≡ self.now.configuration.state.at }
    {
        self.code.position(self.progress.pc)
    }

    /// How many steps have been counted, at most as many as the run may count. Steps of the written
    /// machine lead to the state.
    pub fn count(&self) -> u64
        ensures value { result ≡ self.now.configuration.state.count }
        ensures reached { IsReached self.now.context self.now.configuration.state }
        ensures within { result ≤ self.now.context.parameters.limits.steps }
        ensures bound { result ≤ most_steps }
    {
        self.progress.count
    }

    /// How many characters of the input have been taken.
    pub fn taken(&self) -> usize
        ensures { result ≡ self.now.configuration.state.memory.taken }
    {
        self.registers.taken()
    }

    /// What has been printed, at most as much as the run may print.
    pub fn output(&self) -> &[u8]
        ensures value { result.now ≡ self.now.configuration.state.memory.output }
        ensures within { length result.now ≤ self.now.context.parameters.limits.output }
        ensures bound { length result.now ≤ most_output }
    {
        self.registers.output()
    }

    /// What has been printed, for which the machine is given up.
    pub fn into_output(self) -> Vec<u8>
    where
        S: Drop,
        ensures { result.items ≡ self.configuration.state.memory.output }
    {
        let Machine { registers, .. } = self;
        registers.into_output()
    }

    /// How the run has ended, if it has.
    pub fn ending(&self) -> Option<Halt>
        ensures { result ≡ self.now.configuration.state.ending }
    {
        self.progress.ending
    }

    /// Whether the run has ended or is at its limit, and so goes no further.
    pub fn is_last(&self) -> bool
        ensures { result ≡ is_last self.now.context self.now.configuration.state }
    {
        self.ending().is_some() || self.at_limit()
    }

    /// Whether the run has not ended, and has counted as many steps as it may.
    pub fn at_limit(&self) -> bool
        ensures { result ≡ is_at_limit self.now.context self.now.configuration.state }
    {
        self.ending().is_none() && self.count() == self.registers.limits().steps
    }
}
