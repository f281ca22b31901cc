//! Where one stops: at the breakpoints that an editor asked for.

ghost use Rattle.std.specs.Prelude.{◌≡◌, length, IfOk};
ghost use Rattle.l6_dap.specs.Breakpoints.{StopsAsAsked};
ghost use Rattle.l6_dap.specs.inner.Setting.{cleared, count_of, with_all_plain, with_all_tested};

use crate::debuggee::{Breakpoint, Debuggee};
use l6_session::{Command, Session, Setting};
use l6_store::Buddy;
use std::alloc::{AllocError, Global};

impl Debuggee {
    /// Removes all breakpoints, and sets those that are asked for. Where several are asked for at one statement, one
    /// without a test counts, and else the last one.
    pub(crate) fn stop_as_asked(&mut self, alloc: Global) -> Result<(), AllocError>
        ensures { IfOk result (λ it. StopsAsAsked self.old self.new) }
    {
        remove_all(alloc, &mut self.session);
        set_tested(alloc, &mut self.session, self.on_cards.as_slice())?;
        set_tested(alloc, &mut self.session, self.on_labels.as_slice())?;
        set_plain(alloc, &mut self.session, self.on_cards.as_slice());
        set_plain(alloc, &mut self.session, self.on_labels.as_slice());
        Ok(())
    }
}

/// Removes all breakpoints. Each may have a test.
fn remove_all(alloc: Global, session: &mut Session<Buddy>)
    ensures context { session.new.context ≡ session.old.context }
    ensures state { session.new.state
        ≡ cleared (count_of session.old.state) session.old.state }
    ensures tests { length session.old.state.stop.tests ≡ count_of session.old.state }
{
    let statements = session.stop().tests().len();
    for statement in 0..statements {
        let setting = Setting::Delete(statement as u64);
        session.obey(alloc, &Command::Setting(setting));
    }
}

/// Sets those that have a test.
fn set_tested(
    alloc: Global,
    session: &mut Session<Buddy>,
    asked: &[Breakpoint],
) -> Result<(), AllocError>
    ensures { IfOk result (λ it. (session.new.context ≡ session.old.context)
        × (session.new.state ≡ with_all_tested asked.now session.old.state)) }
{
    for one in asked {
        if let Some(test) = &one.test {
            let setting = Setting::BreakIf(one.statement, test.clone()?);
            session.obey(alloc, &Command::Setting(setting));
        }
    }
    Ok(())
}

/// Sets those that have none.
fn set_plain(alloc: Global, session: &mut Session<Buddy>, asked: &[Breakpoint])
    ensures context { session.new.context ≡ session.old.context }
    ensures state { session.new.state ≡ with_all_plain asked.now session.old.state }
{
    for one in asked {
        if one.test.is_none() {
            let setting = Setting::Break(one.statement);
            session.obey(alloc, &Command::Setting(setting));
        }
    }
}
