//! Calls and their returns.

ghost use Rattle.std.specs.Prelude.{◌≡◌, ◌+◌, ◌≤◌, ◌∷◌, IfNone, IfSome, Ok, Some};
ghost use Rattle.l6_prog.specs.Numerals.{most_operations};
ghost use Rattle.l6_prog.specs.declared.exit.Exit.TheVariants as exits;
ghost use Rattle.l6_steps.specs.declared.jump.Jump.TheVariants as jumps;
ghost use Rattle.l6_steps.specs.Row.{leave_by, done, fail, row};
ghost use Rattle.l6_steps.specs.Stack.{has_room};
ghost use Rattle.l6_steps.specs.Step.{returns_after};
ghost use Rattle.l6_steps.specs.inner.Positions.{FindsRoom};
ghost use Rattle.l6_registers.specs.inner.Registers.{AreHeld, Executes};

use crate::registers::Registers;
use l6_prog::{Exit, Op};
use l6_steps::{Jump, Position, Return, Trap};
use l6_store::Places;

impl<S: Places> Registers<S> {
    /// Calls a statement, if there is room for one more return.
    pub(crate) fn call(&mut self, called: u16, fail: Option<u16>) -> Result<Jump, Trap>
        ensures { Executes S.rule (λ parameters choice. row parameters choice (Op.Call called fail))
            self.old self.new result }
    {
        if self.saved.returns.has_room() {
            Ok(Jump::Call(called, fail))
        } else {
            Err(Trap::ReturnsFull)
        }
    }

    /// Leaves a statement by its exit, and answers where the run goes on.
    pub(crate) fn leave_by(&mut self, exit: Exit) -> Result<Jump, Trap>
        ensures { Executes S.rule (λ parameters choice. leave_by exit) self.old self.new result }
    {
        match exit {
            Exit::Next => Ok(Jump::Next),
            Exit::Label(statement) => Ok(Jump::To(statement)),
            Exit::Done => self.done(),
            Exit::Fail => self.fail(),
        }
    }

    /// Goes on after the latest call that waits for its return, or ends the run.
    #[inline(never)]
    fn done(&mut self) -> Result<Jump, Trap>
        ensures { Executes S.rule (λ parameters choice memory. done memory.returns memory)
            self.old self.new result }
    {
        match self.saved.returns.pop() {
            Some(latest) => Ok(Jump::Back(latest.at)),
            None => Ok(Jump::Done),
        }
    }

    /// Goes to the fail label of the latest call that waits for its return, or ends the run.
    #[inline(never)]
    fn fail(&mut self) -> Result<Jump, Trap>
        ensures { Executes S.rule (λ parameters choice memory. fail memory.returns memory)
            self.old self.new result }
    {
        let Some(latest) = self.saved.returns.latest() else {
            return Ok(Jump::Fail);
        };
        let label = latest.fail.ok_or(Trap::NoFailExit)?;
        self.saved.returns.pop();
        Ok(Jump::To(label))
    }

    /// Whether one more call may wait for its return.
    #[inline(always)]
    pub fn can_call(&self) -> bool
        ensures { result ≡ has_room self.now.memory.returns }
    {
        self.saved.returns.has_room()
    }

    /// Pushes the return address of a call: the position after it. Another jump changes nothing.
    #[inline(always)]
    pub fn push_return(&mut self, jump: Jump, at: Position)
        requires room { FindsRoom jump self.old.memory.returns }
        requires action { at.action ≤ most_operations + 1 }
        ensures returns { self.new ≡ record self.old {
          memory = record self.old.memory {
            returns = returns_after jump at self.old.memory.returns;
          };
        } }
        ensures held { AreHeld S.rule self.new }
    {
        if let Jump::Call(_, fail) = jump {
            self.saved.returns.push(Return {
                at: at.following(),
                fail,
            });
        }
        self.reveal_invariant();
    }

    /// Takes off the latest return for which a call waits, as the exit DONE does. Where none waits,
    /// nothing changes.
    #[inline(always)]
    pub fn go_back(&mut self) -> Option<Return>
        ensures done { IfSome result (λ latest.
            Executes S.rule (λ parameters choice. leave_by exits.Done) self.old self.new
            (Ok (jumps.Back latest.at))) }
        ensures latest { IfSome result (λ latest.
            self.old.memory.returns ≡ latest ∷ self.new.memory.returns) }
        ensures none { IfNone result (self.new ≡ self.old) }
        ensures held { AreHeld S.rule self.new }
    {
        let latest = self.saved.returns.pop();
        self.reveal_invariant();
        latest
    }

    /// Takes off the latest return for which a call waits, as the exit FAIL does, and answers its fail
    /// label. Where no call waits, or where it has no such label, nothing changes.
    #[inline(always)]
    pub fn go_to_fail(&mut self) -> Option<u16>
        ensures done { IfSome result (λ label.
            Executes S.rule (λ parameters choice. leave_by exits.Fail) self.old self.new
            (Ok (jumps.To label))) }
        ensures latest { IfSome result (λ label.
            (latest : Return) × (latest.fail ≡ Some label)
            × (self.old.memory.returns ≡ latest ∷ self.new.memory.returns)) }
        ensures none { IfNone result (self.new ≡ self.old) }
        ensures held { AreHeld S.rule self.new }
    {
        self.reveal_invariant();
        let label = self.saved.returns.latest()?.fail?;
        self.saved.returns.pop();
        self.reveal_invariant();
        Some(label)
    }
}
