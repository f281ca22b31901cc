//! Worked examples of the definitions: theorems about them alone, of lines read by hand.

ghost use Rattle.l6_debug.specs.Worked.{OthersAreWrong, WordsAreSeparated};

/// Words are between blanks and tabs, and their letters are of either case.
pub fn words_are_separated()
    ensures { WordsAreSeparated }
{}

/// What has no line in a table is no command.
pub fn others_are_wrong()
    ensures { OthersAreWrong }
{}
