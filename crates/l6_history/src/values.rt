//! What is watched reads as, and whether that has changed.

ghost use Rattle.std.specs.Prelude.{◌≡◌, length};
ghost use Rattle.l6_history.specs.Stop.{differs, some_differ, values_of};

use crate::stop::{MAX_WATCHED, Stop};
use crate::watched::Watched;
use arrayvec::ArrayVec;
use l6_machine::Machine;
use l6_store::Places;
use l6_word::Word;

/// What each chain and word that is watched reads as, if it can be read.
pub fn values_of<S: Places>(
    stop: &Stop,
    machine: &Machine<S>,
) -> ArrayVec<Option<Word>, MAX_WATCHED>
    ensures { result.items ≡ values_of stop.now.watched machine.now.configuration.state.memory }
{
    let mut values = ArrayVec::from([None; MAX_WATCHED]);
    values.truncate(stop.watched().len());
    see(values.as_mut_slice(), stop.watched(), machine);
    values
}

/// Whether some of what is watched reads as another value than the one at its index. What has none here does not differ.
#[inline(always)]
pub fn differ<S: Places>(values: &[Option<Word>], watched: &[Watched], machine: &Machine<S>) -> bool
    ensures { result ≡ some_differ values.now
        (values_of watched.now machine.now.configuration.state.memory) }
{
    for (index, one) in watched.iter().enumerate() {
        let Some(value) = values.get(index) else {
            return false;
        };
        if is_other(value, one.value(machine)) {
            return true;
        }
    }
    false
}

/// Whether a chain or a word reads as another value than this.
#[inline(always)]
fn is_other(value: &Option<Word>, read: Option<Word>) -> bool
    ensures { result ≡ differs value.now read }
{
    match (read, value) {
        (Some(word), Some(value)) => word.get() != value.get(),
        (None, None) => false,
        _ => true,
    }
}

/// Makes values those that chains and words read as. The caller owes a value for each.
pub(crate) fn see<S: Places>(values: &mut [Option<Word>], watched: &[Watched], machine: &Machine<S>)
    requires { length values.old ≡ length watched.now }
    ensures { values.new ≡ values_of watched.now machine.now.configuration.state.memory }
{
    for (index, one) in watched.iter().enumerate() {
        values[index] = one.value(machine);
    }
}
