//! How the lines of commands are read.

ghost use Rattle.std.specs.Prelude.{◌≡◌, Some, None};
ghost use Rattle.l6_debug.specs.Command.{words_in};
ghost use Rattle.std.specs.Option.{option_map};
ghost use Rattle.l6_group.specs.Character as spelling;
ghost use Rattle.l6_group.specs.Element as element;
ghost use Rattle.l6_session.specs.Command as commands;
ghost use Rattle.l6_session.specs.Reading as spec;

use crate::command::{Cards, Command, Move, Reading, Setting, Verb, View, moved};
use crate::names::Names;
use crate::near::is_one_off;
use crate::parted::parted;
use crate::table::{row_of, verbs};
use crate::topics::topic_of;
use crate::watching::{unwatch_of, watch_of};
use l6_debug::{first_word, number_of};
use l6_group::{Spelling, chain_of, decimal_of, spelled, test_of};
use l6_prog::{Chain, Operand, Test};
use l6_word::without_return;

/// How many characters the word of a command has at most.
pub(crate) const MAX_COMMAND_WORD: usize = 32;

/// How many characters the word of a command has at least that another one is near to.
pub(crate) const MIN_NEAR: usize = 4;

/// The word before the test of a breakpoint.
const IF: &[u8] = b"IF";

/// The word for all of a drawing.
const ALL: &[u8] = b"ALL";

/// The word for the cards before those that were listed last.
const BEFORE: &[u8] = b"-";

/// The characters of a word, small letters as capitals.
type CommandWord<'a> = Spelling<'a, MAX_COMMAND_WORD>;

/// What a line of commands is. Its words are between blanks and tabs, and their letters may be of
/// either case.
pub(crate) fn reading_of(names: &Names, line: &[u8]) -> Reading
    ensures { result ≡ spec.reading_of names.now line.now }
{
    let Some((word, following)) = first_word(without_return(line)) else {
        return Reading::Skipped;
    };
    if is_comment(word) {
        return Reading::Skipped;
    }
    let word = before_slash(word);
    let Some(verb) = verb_of(word) else {
        return unknown(word);
    };
    let Some((first, following)) = first_word(following) else {
        return verb.alone();
    };
    match first_word(following) {
        Some((second, following)) => with_words(names, verb, first, second, following),
        None => with_word(names, verb, first),
    }
}

/// The file that a line names which saves a session or obeys the lines of a file, with that command.
pub fn file_of(line: &[u8]) -> Option<(Verb, &[u8])>
    ensures { option_map (λ named. (named.0, named.1.now)) result ≡ spec.file_of line.now }
{
    let (word, following) = first_word(without_return(line))?;
    let verb = verb_of(before_slash(word))?;
    let (file, following) = first_word(following)?;
    if first_word(following).is_some() || !verb.names_a_file() {
        return None;
    }
    Some((verb, file))
}

/// Whether a line is a comment, by its first word.
fn is_comment(word: &[u8]) -> bool
    ensures { result ≡ spec.is_comment word.now }
{
    match word.split_first() {
        Some((first, _)) => *first == b'#',
        None => false,
    }
}

/// What is before the first slash of a word, or the whole word.
fn before_slash(word: &[u8]) -> &[u8]
    ensures { result.now ≡ spec.before_slash word.now }
{
    for (index, byte) in word.iter().enumerate() {
        if *byte == b'/' {
            return &word[..index];
        }
    }
    word
}

/// What follows a dollar sign that a word begins with, or the whole word.
pub(crate) fn without_dollar(word: &[u8]) -> &[u8]
    ensures { result.now ≡ spec.without_dollar word.now }
{
    match word.split_first() {
        Some((first, rest)) if *first == b'$' => rest,
        _ => word,
    }
}

/// The command that a word names.
fn verb_of(word: &[u8]) -> Option<Verb>
    ensures { result ≡ spec.verb_of word.now }
{
    let word = capitals_of(word)?;
    verb_named(word.as_slice())
}

/// A word in capitals, if it is no longer than that of a command.
fn capitals_of(word: &[u8]) -> Option<CommandWord<'_>>
    ensures { option_map (λ word. word) result ≡ spec.capitals_of word.now }
{
    let word: CommandWord<'_> = spelled(word)?;
    if MAX_COMMAND_WORD < word.as_slice().len() {
        return None;
    }
    Some(word)
}

/// The command that a word in capitals names.
fn verb_named(word: &[u8]) -> Option<Verb>
    ensures { result ≡ commands.named_among commands.verbs word.now }
{
    let mut rest = verbs();
    while let Some((verb, following)) = rest.split_first() {
        if is_word_of(*verb, word) {
            return Some(*verb);
        }
        rest = following;
    }
    None
}

/// Whether a word in capitals is one of a command's.
fn is_word_of(verb: Verb, word: &[u8]) -> bool
    ensures { result ≡ commands.is_word_of verb word.now }
{
    let mut rest = row_of(verb).words();
    while let Some((other, following)) = first_word(rest) {
        if other == word {
            return true;
        }
        rest = following;
    }
    false
}

/// What a word is that names no command.
fn unknown(word: &[u8]) -> Reading
    ensures { result ≡ spec.unknown word.now }
{
    let Some(word) = capitals_of(word) else {
        return Reading::Wrong;
    };
    match verb_near(word.as_slice()) {
        Some(verb) => Reading::Nearly(verb),
        None => Reading::Wrong,
    }
}

/// The first command that a word in capitals nearly names.
fn verb_near(word: &[u8]) -> Option<Verb>
    ensures { result ≡ commands.nearly_among commands.verbs word.now }
{
    let mut rest = verbs();
    while let Some((verb, following)) = rest.split_first() {
        if is_nearly_word_of(*verb, word) {
            return Some(*verb);
        }
        rest = following;
    }
    None
}

/// Whether a word in capitals is nearly one of a command's.
fn is_nearly_word_of(verb: Verb, word: &[u8]) -> bool
    ensures { result ≡ commands.is_nearly_word_of verb word.now }
{
    let mut rest = row_of(verb).words();
    while let Some((other, following)) = first_word(rest) {
        if is_near(word, other) {
            return true;
        }
        rest = following;
    }
    false
}

/// Whether a word is nearly another one that is not too short for that.
fn is_near(word: &[u8], other: &[u8]) -> bool
    ensures { result ≡ commands.is_near word.now other.now }
{
    MIN_NEAR <= other.len() && is_one_off(other, word)
}

/// What a command and two words ask for, or these and further words.
fn with_words(names: &Names, verb: Verb, first: &[u8], second: &[u8], following: &[u8]) -> Reading
    ensures { result ≡ spec.with_words names.now verb first.now second.now (words_in following.now) }
{
    match verb {
        Verb::Set => Reading::Asked(Command::View(View::Set)),
        Verb::Ignore => Reading::Asked(Command::View(View::Ignore)),
        Verb::Commands => Reading::Asked(Command::View(View::Commands)),
        Verb::Condition => match first_word(following) {
            None => condition_at(names.statement_of(first), given_test_of(second)),
            Some(_) => Reading::NoTest,
        },
        Verb::Break => break_with(names, first, second, following),
        _ => Reading::Unfit(verb),
    }
}

/// A breakpoint at a statement where a test holds, which is after a word `if`.
fn break_with(names: &Names, place: &[u8], word: &[u8], following: &[u8]) -> Reading
    ensures { result ≡ spec.break_with names.now place.now word.now (words_in following.now) }
{
    if !is_if(word) {
        return Reading::Unfit(Verb::Break);
    }
    let Some((test, following)) = first_word(following) else {
        return Reading::NoTest;
    };
    if first_word(following).is_some() {
        return Reading::NoTest;
    }
    break_if_at(names.statement_of(place), given_test_of(test))
}

/// Whether a word is `if`.
fn is_if(word: &[u8]) -> bool
    ensures { result ≡ spec.is_if word.now }
{
    match capitals_of(word) {
        Some(word) => word.as_slice() == IF,
        None => false,
    }
}

/// The test of a group, with its parentheses: `None` where it has none, or is no test.
pub fn given_test_of(word: &[u8]) -> Option<Test>
    ensures { result ≡ spec.given_test_of word.now }
{
    if word.len() < 2 || word[0] != b'(' || word[word.len() - 1] != b')' {
        return None;
    }
    test_of(&word[1..word.len() - 1])
}

/// A breakpoint at a statement where a test holds, if the program has the one and there is the other.
fn break_if_at(statement: Option<u64>, test: Option<Test>) -> Reading
    ensures { result ≡ spec.tested (λ s t. Command.Setting (Setting.BreakIf s t)) statement test }
{
    match (statement, test) {
        (Some(statement), Some(test)) => {
            Reading::Asked(Command::Setting(Setting::BreakIf(statement, test)))
        }
        (Some(_), None) => Reading::NoTest,
        (None, _) => Reading::NoStatement,
    }
}

/// A test for the breakpoint of a statement, if the program has the one and there is the other.
fn condition_at(statement: Option<u64>, test: Option<Test>) -> Reading
    ensures { result
        ≡ spec.tested (λ s t. Command.Setting (Setting.Condition s (Some t))) statement test }
{
    match (statement, test) {
        (Some(statement), Some(test)) => {
            Reading::Asked(Command::Setting(Setting::Condition(statement, Some(test))))
        }
        (Some(_), None) => Reading::NoTest,
        (None, _) => Reading::NoStatement,
    }
}

/// No test for the breakpoint of a statement, if the program has it.
fn without_condition_at(statement: Option<u64>) -> Reading
    ensures { result ≡ spec.named (λ s. Command.Setting (Setting.Condition s None)) statement }
{
    match statement {
        Some(statement) => Reading::Asked(Command::Setting(Setting::Condition(statement, None))),
        None => Reading::NoStatement,
    }
}

/// What a command and the word after it ask for.
fn with_word(names: &Names, verb: Verb, word: &[u8]) -> Reading
    ensures { result ≡ spec.with_word names.now verb word.now }
{
    match verb {
        Verb::Step
        | Verb::Back
        | Verb::Next
        | Verb::ReverseNext
        | Verb::StepState
        | Verb::BackState
        | Verb::NextState
        | Verb::ReverseNextState
        | Verb::Continue
        | Verb::ReverseContinue
        | Verb::Goto
        | Verb::Where => with_number(verb, word),
        Verb::Until => until(names.statement_of(word)),
        Verb::List => list_of(names, word),
        Verb::Break | Verb::Enable => break_at(names.statement_of(word)),
        Verb::TemporaryBreak => temporary_break_at(names.statement_of(word)),
        Verb::Delete | Verb::Disable => delete_at(names.statement_of(word)),
        Verb::Watch => watch_of(word),
        Verb::Unwatch => unwatch_of(word),
        Verb::Display => display_of(chain_of(without_dollar(word))),
        Verb::Undisplay => undisplay_of(number_of(word), chain_of(without_dollar(word))),
        Verb::Print => print_of(
            operand_of(without_dollar(word)),
            names.statement_of_label(word),
        ),
        Verb::Block => block_of(operand_of(without_dollar(word))),
        Verb::Who => who_of(operand_of(without_dollar(word))),
        Verb::Draw => draw_of(word),
        Verb::Info => info_on(word),
        Verb::Help => help_on(word),
        Verb::Save | Verb::Source => Reading::NoFile,
        Verb::Condition => without_condition_at(names.statement_of(word)),
        Verb::Set | Verb::Ignore | Verb::Commands => verb.alone(),
        _ => Reading::Unfit(verb),
    }
}

/// What a command that takes a number and a word ask for.
fn with_number(verb: Verb, word: &[u8]) -> Reading
    ensures { result ≡ spec.with_number verb word.now }
{
    match number_of(word) {
        Some(number) => numbered(verb, number),
        None => Reading::Unfit(verb),
    }
}

/// What a command and a number ask for.
fn numbered(verb: Verb, number: u64) -> Reading
    ensures { result ≡ spec.numbered verb number }
{
    match verb {
        Verb::Step => moved(Move::StepStatement(number)),
        Verb::Back => moved(Move::BackStatement(number)),
        Verb::StepState => moved(Move::Step(number)),
        Verb::BackState => moved(Move::Back(number)),
        Verb::Next => moved(Move::NextStatement(number)),
        Verb::ReverseNext => moved(Move::ReverseNextStatement(number)),
        Verb::NextState => moved(Move::Next(number)),
        Verb::ReverseNextState => moved(Move::ReverseNext(number)),
        Verb::Continue => moved(Move::Continue(number)),
        Verb::ReverseContinue => moved(Move::ReverseContinue(number)),
        Verb::Goto => moved(Move::Goto(number)),
        Verb::Where => Reading::Asked(Command::View(View::WhereFew(number))),
        _ => Reading::Unfit(verb),
    }
}

/// What is drawn by a word: all lines.
fn draw_of(word: &[u8]) -> Reading
    ensures { result ≡ spec.draw_of word.now }
{
    if is_all(word) {
        Reading::Asked(Command::View(View::DrawAll))
    } else {
        Reading::Unfit(Verb::Draw)
    }
}

/// Whether a word is `all`.
fn is_all(word: &[u8]) -> bool
    ensures { result ≡ spec.is_all word.now }
{
    match capitals_of(word) {
        Some(word) => word.as_slice() == ALL,
        None => false,
    }
}

/// What is to be shown by gdb's name for it.
fn info_on(word: &[u8]) -> Reading
    ensures { result ≡ spec.info_on word.now }
{
    let Some(word) = capitals_of(word) else {
        return Reading::Unfit(Verb::Info);
    };
    match topic_of(word.as_slice()) {
        Some(verb) => verb.alone(),
        None => Reading::Unfit(Verb::Info),
    }
}

/// Help on the command that a word names.
fn help_on(word: &[u8]) -> Reading
    ensures { result ≡ spec.help_on word.now }
{
    let word = before_slash(word);
    match verb_of(word) {
        Some(verb) => Reading::HelpOn(verb),
        None => unknown(word),
    }
}

/// The chain or the number that a word spells.
pub(crate) fn operand_of(word: &[u8]) -> Option<Operand>
    ensures { result ≡ element.operand_of word.now }
{
    match chain_of(word) {
        Some(chain) => Some(Operand::Chain(chain)),
        None => Some(Operand::Number(decimal_of(word)?)),
    }
}

/// A breakpoint at a statement, if the program has it.
fn break_at(statement: Option<u64>) -> Reading
    ensures { result ≡ spec.named (λ s. Command.Setting (Setting.Break s)) statement }
{
    match statement {
        Some(statement) => Reading::Asked(Command::Setting(Setting::Break(statement))),
        None => Reading::NoStatement,
    }
}

/// A temporary breakpoint at a statement, if the program has it.
fn temporary_break_at(statement: Option<u64>) -> Reading
    ensures { result ≡ spec.named (λ s. Command.Setting (Setting.TemporaryBreak s)) statement }
{
    match statement {
        Some(statement) => Reading::Asked(Command::Setting(Setting::TemporaryBreak(statement))),
        None => Reading::NoStatement,
    }
}

/// No breakpoint at a statement, if the program has it.
fn delete_at(statement: Option<u64>) -> Reading
    ensures { result ≡ spec.named (λ s. Command.Setting (Setting.Delete s)) statement }
{
    match statement {
        Some(statement) => Reading::Asked(Command::Setting(Setting::Delete(statement))),
        None => Reading::NoStatement,
    }
}

/// What is listed by a word: the cards before the last ones, those from one number to another, or those
/// near a statement.
fn list_of(names: &Names, word: &[u8]) -> Reading
    ensures { result ≡ spec.list_of names.now word.now }
{
    if word == BEFORE {
        return Reading::Asked(Command::View(View::ListBefore));
    }
    match parted(word, b',') {
        Some((first, last)) => list_cards(number_of(first), number_of(last)),
        None => list_near(names.statement_of(word)),
    }
}

/// The cards from one number to another, if both are numbers.
fn list_cards(first: Option<u64>, last: Option<u64>) -> Reading
    ensures { result ≡ spec.list_cards first last }
{
    match (first, last) {
        (Some(first), Some(last)) => {
            Reading::Asked(Command::View(View::ListCards(Cards { first, last })))
        }
        _ => Reading::Unfit(Verb::List),
    }
}

/// The cards near a statement, if the program has it.
fn list_near(statement: Option<u64>) -> Reading
    ensures { result ≡ spec.named (λ s. Command.View (View.ListNear s)) statement }
{
    match statement {
        Some(statement) => Reading::Asked(Command::View(View::ListNear(statement))),
        None => Reading::NoStatement,
    }
}

/// On to a statement, if the program has it.
fn until(statement: Option<u64>) -> Reading
    ensures { result ≡ spec.named (λ s. Command.Move (Move.Until s)) statement }
{
    match statement {
        Some(statement) => Reading::Asked(Command::Move(Move::Until(statement))),
        None => Reading::NoStatement,
    }
}

/// A chain that is displayed no longer, by its number or by its names.
fn undisplay_of(number: Option<u64>, chain: Option<Chain>) -> Reading
    ensures { result ≡ spec.undisplay_by number chain }
{
    match (number, chain) {
        (Some(number), _) => Reading::Asked(Command::Setting(Setting::Undisplay(number))),
        (None, Some(chain)) => Reading::Asked(Command::Setting(Setting::UndisplayChain(chain))),
        (None, None) => Reading::NoChain,
    }
}

/// A chain that is displayed, if it is one.
fn display_of(chain: Option<Chain>) -> Reading
    ensures { result ≡ spec.named_by (λ c. Command.Setting (Setting.Display c)) chain }
{
    match chain {
        Some(chain) => Reading::Asked(Command::Setting(Setting::Display(chain))),
        None => Reading::NoChain,
    }
}

/// What is printed, if it is a chain or a number; and the statement of a label.
fn print_of(operand: Option<Operand>, label: Option<u64>) -> Reading
    ensures { result ≡ spec.print_by operand label }
{
    match (operand, label) {
        (Some(operand), Some(statement)) => {
            Reading::Asked(Command::View(View::PrintLabel(operand, statement)))
        }
        (Some(operand), None) => Reading::Asked(Command::View(View::Print(operand))),
        (None, Some(statement)) => Reading::Asked(Command::View(View::Label(statement))),
        (None, None) => Reading::NoChain,
    }
}

/// The block that is shown, if it is named by a chain or a number.
fn block_of(operand: Option<Operand>) -> Reading
    ensures { result ≡ spec.named_by (λ o. Command.View (View.Block o)) operand }
{
    match operand {
        Some(operand) => Reading::Asked(Command::View(View::Block(operand))),
        None => Reading::NoChain,
    }
}

/// The block whose life is shown, if it is named by a chain or a number.
fn who_of(operand: Option<Operand>) -> Reading
    ensures { result ≡ spec.named_by (λ o. Command.Who o) operand }
{
    match operand {
        Some(operand) => Reading::Asked(Command::Who(operand)),
        None => Reading::NoChain,
    }
}
