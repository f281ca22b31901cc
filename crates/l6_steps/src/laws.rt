//! The laws of calculations, tests and runs, and that the numbers of the code are those of the
//! language.

ghost use Rattle.std.specs.Prelude.{◌≡◌, ◌+◌, ◌%◌, min, max};
ghost use Rattle.l6_steps.specs.Laws.{BuddyRunsBySteps, DifferencesAddUp, EndsInOneState, EndsUnderEachRule, GoesBitByBit, HasALastState, OnesBitByBit, OutputsGrow, RulesRunBySteps, RunsEnd, RunsGoOn, RunsStayWithinBounds, TurnsEachBit, ZerosBitByBit};
ghost use Rattle.l6_steps.specs.Numerals.{most_input, most_output, most_steps};

use crate::calculation::Calculation;
use crate::limits::{MAX_INPUT, MAX_OUTPUT, MAX_STEPS};

/// What `And`, `Or` and `ExclusiveOr` calculate has a one where both numbers, either of them or
/// just one of them has a one, and `Complement` turns each bit of the width.
pub fn logic_goes_bit_by_bit()
    ensures both { GoesBitByBit Calculation.And min }
    ensures either { GoesBitByBit Calculation.Or max }
    ensures just_one { GoesBitByBit Calculation.ExclusiveOr (λ one other. (one + other) % 2) }
    ensures turned { TurnsEachBit }
{}

/// A number less a word, and that word, add up to the number again, at each width.
pub fn sums_undo_differences()
    ensures { DifferencesAddUp }
{}

/// All whole runs of a context under one rule of choice end in one state. A rule whose picks are
/// open places makes a run by steps, and the buddy system's rule does so without a premise. If no
/// operation of a program takes a block, a whole run ends alike under each rule.
pub fn runs_are_determined()
    ensures one_end { EndsInOneState }
    ensures by_steps { RulesRunBySteps }
    ensures by_buddies { BuddyRunsBySteps }
    ensures each_rule { EndsUnderEachRule }
{}

/// The run of a context under a rule of choice has a last state, of a number that is at most the
/// limit of its steps.
pub fn runs_have_a_last_state()
    ensures { HasALastState }
{}

/// Every run ends, whatever open places its blocks are given: it has at most one state for each step
/// that it may count, besides its start. And it ends in a last state: from each other state a step
/// leads on.
pub fn runs_end()
    ensures end { RunsEnd }
    ensures go_on { RunsGoOn }
{}

/// Each state that a run reaches is within its bounds, whatever open places its blocks are given:
/// what bugs hold, what blocks hold and what is saved are words, each block lies in the store and
/// shares no word with another, and each definition is a window of a word.
pub fn runs_stay_within_bounds()
    ensures { RunsStayWithinBounds }
{}

/// The output of each state of a run is the beginning of the output of each later state: what is
/// printed stays.
pub fn outputs_grow()
    ensures { OutputsGrow }
{}

/// The tests of bits look at each bit: those that are one in the operand are one in the content, or
/// are zero there.
pub fn tests_look_at_each_bit()
    ensures ones { OnesBitByBit }
    ensures zeros { ZerosBitByBit }
{}

/// Runs may be as long, and read and print as much, as the language says.
pub fn runs_have_their_limits()
    ensures steps { MAX_STEPS ≡ most_steps }
    ensures output { MAX_OUTPUT ≡ most_output }
    ensures input { MAX_INPUT ≡ most_input }
{}
