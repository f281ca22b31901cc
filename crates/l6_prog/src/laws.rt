//! That the numbers of the code are those of the language, and which statements make a program.

ghost use Rattle.std.specs.Prelude.{◌≡◌};
ghost use Rattle.l6_prog.specs.Numerals.{name_count, first_letter, most_names, most_characters, most_statements, most_tests, most_operations};
ghost use Rattle.l6_prog.specs.Laws.{TakesJustPrograms};

use crate::chain::MAX_NAMES;
use crate::name::{DIGITS, NAMES};
use crate::print_text::MAX_CHARACTERS;
use crate::program::{MAX_OPERATIONS, MAX_STATEMENTS, MAX_TESTS};

/// Names are as many, and programs as large, as the language says.
pub fn programs_have_their_limits()
    ensures names { NAMES ≡ name_count }
    ensures letters { DIGITS ≡ first_letter }
    ensures chain { MAX_NAMES ≡ most_names }
    ensures text { MAX_CHARACTERS ≡ most_characters }
    ensures statements { MAX_STATEMENTS ≡ most_statements }
    ensures tests { MAX_TESTS ≡ most_tests }
    ensures operations { MAX_OPERATIONS ≡ most_operations }
{}

/// Statements are taken as a program exactly where they have all that every program has.
pub fn programs_are_taken()
    ensures { TakesJustPrograms }
{}
