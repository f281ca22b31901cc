//! The commands of a session, and what each asks for that is given alone.

ghost use Rattle.std.specs.Prelude.{◌≡◌};
ghost use Rattle.l6_session.specs.Answers as moves;
ghost use Rattle.l6_session.specs.Command as spec;
ghost use Rattle.l6_session.specs.DeckSession as sessions;
ghost use Rattle.l6_session.specs.Reading as lines;

use l6_history::Watched;
use l6_prog::{Chain, Operand, Test};

/// What may be asked of a session.
#[derive(Debug, Drop)]
pub enum Command {
    /// Go to another state.
    Move(Move),
    /// Change where one stops, or what is displayed.
    Setting(Setting),
    /// Show something.
    View(View),
    /// Watch a word, by its number, of the block to which a chain or a number leads.
    WatchWord(Operand, u16),
    /// Show by which steps the block was got, last written and freed to which a chain or a number leads.
    Who(Operand),
}

/// Which state is gone to.
#[derive(Clone, Copy, Debug)]
pub enum Move {
    /// So many states on, at most the last one.
    Step(u64),
    /// So many states back, at most the start.
    Back(u64),
    /// So many times, on to where a statement begins, or where one stops.
    StepStatement(u64),
    /// So many times, back to where a statement begins, or where one stops.
    BackStatement(u64),
    /// The state of a number, at most the last one.
    Goto(u64),
    /// The last state.
    End,
    /// So many times, on to the next state at which no more calls wait than here, or where one stops.
    Next(u64),
    /// So many times, back to the latest state at which no more calls wait than here, or where one
    /// stops.
    ReverseNext(u64),
    /// So many times, on to where a statement begins and no more calls wait than here, or where one stops.
    NextStatement(u64),
    /// So many times, back to where a statement begins and no more calls wait than here, or where one
    /// stops.
    ReverseNextStatement(u64),
    /// On to where the latest call has returned, or where one stops.
    Finish,
    /// Back to where the latest call was made, or where one stops.
    ReverseFinish,
    /// So many times, on to where one stops.
    Continue(u64),
    /// So many times, back to where one stops.
    ReverseContinue(u64),
    /// From the start, on to where one stops.
    Run,
    /// On to a statement, or to where one stops before.
    Until(u64),
    /// On to the statement after the present one, or to where one stops before.
    UntilNext,
}

/// What is changed of where one stops, or of what is displayed.
#[derive(Debug, Drop)]
pub enum Setting {
    /// A breakpoint is set at a statement.
    Break(u64),
    /// A breakpoint is set that is removed where it is first reached.
    TemporaryBreak(u64),
    /// A breakpoint is set at which one stops where a test holds or meets a trap.
    BreakIf(u64, Test),
    /// The breakpoint of a statement, if it has one, is given a test, or none.
    Condition(u64, Option<Test>),
    /// The breakpoint of a statement is removed.
    Delete(u64),
    /// All breakpoints are removed, and nothing is watched.
    DeleteAll,
    /// One stops where a chain or a word of a block reads as another value, too.
    Watch(Watched),
    /// What is watched under this number is watched no longer.
    Unwatch(u64),
    /// A chain or a word of a block is watched no longer.
    UnwatchThis(Watched),
    /// It is shown at each state what a chain reads as.
    Display(Chain),
    /// The chain of this number is displayed no longer.
    Undisplay(u64),
    /// A chain is displayed no longer.
    UndisplayChain(Chain),
}

/// What is shown.
#[derive(Debug, Drop)]
pub enum View {
    /// What a chain or a number reads as, and the block to which it leads.
    Print(Operand),
    /// The statement whose label a word is.
    Label(u64),
    /// What a chain reads as that is spelled as a label is, and the statement of that label.
    PrintLabel(Operand, u64),
    /// The block to which a chain or a number leads, with its fields.
    Block(Operand),
    /// For which calls the run waits.
    Where,
    /// Where the run is and the latest calls that wait, so many lines in all.
    WhereFew(u64),
    /// The contents and the definitions that are saved.
    Stack,
    /// What the bugs hold, and how much is saved, taken and printed.
    Show,
    /// What fields are defined as.
    Fields,
    /// The blocks that are reached, and where their fields lead: the first lines of that.
    Draw,
    /// All lines of it.
    DrawAll,
    /// The map of the store.
    Store,
    /// The free pieces of the store, by their levels.
    Lists,
    /// How far the run has come, and how much of the store is used.
    Stats,
    /// What has been printed.
    Out,
    /// At which states copies of the machine are kept, to go back from.
    Checkpoints,
    /// Where one stops, and what is displayed.
    Info,
    /// The commands that lead a new session to this one.
    Save,
    /// The cards near the state, or those that follow the ones that were listed last.
    ListHere,
    /// The cards before those that were listed last.
    ListBefore,
    /// The cards near a statement.
    ListNear(u64),
    /// These cards.
    ListCards(Cards),
    /// What the commands are.
    Help,
    /// That a run is never changed.
    Set,
    /// How stops are passed over.
    Ignore,
    /// That no commands are kept for a breakpoint.
    Commands,
}

/// Cards of a deck, by their numbers, from 1 on.
#[derive(Clone, Copy, Debug, PartialEq, Eq)]
pub struct Cards {
    /// The number of the first one.
    pub first: u64,
    /// The number of the last one.
    pub last: u64,
}

/// The commands by their names. The list of commands has a row for each.
#[derive(Clone, Copy, Debug, PartialEq, Eq)]
pub enum Verb {
    /// `step`.
    Step,
    /// `back`.
    Back,
    /// `stepi`.
    StepState,
    /// `backi`.
    BackState,
    /// `next`.
    Next,
    /// `reverse-next`.
    ReverseNext,
    /// `nexti`.
    NextState,
    /// `reverse-nexti`.
    ReverseNextState,
    /// `finish`.
    Finish,
    /// `reverse-finish`.
    ReverseFinish,
    /// `continue`.
    Continue,
    /// `reverse-continue`.
    ReverseContinue,
    /// `until`.
    Until,
    /// `run`.
    Run,
    /// `goto`.
    Goto,
    /// `start`.
    Start,
    /// `end`.
    End,
    /// `list`.
    List,
    /// `break`.
    Break,
    /// `tbreak`.
    TemporaryBreak,
    /// `enable`.
    Enable,
    /// `disable`.
    Disable,
    /// `delete`.
    Delete,
    /// `info`.
    Info,
    /// `watch`.
    Watch,
    /// `unwatch`.
    Unwatch,
    /// `display`.
    Display,
    /// `undisplay`.
    Undisplay,
    /// `print`.
    Print,
    /// `block`.
    Block,
    /// `who`.
    Who,
    /// `where`.
    Where,
    /// `stack`.
    Stack,
    /// `show`.
    Show,
    /// `fields`.
    Fields,
    /// `draw`.
    Draw,
    /// `store`.
    Store,
    /// `lists`.
    Lists,
    /// `stats`.
    Stats,
    /// `out`.
    Out,
    /// `checkpoints`.
    Checkpoints,
    /// `help`.
    Help,
    /// `quit`.
    Quit,
    /// `set`.
    Set,
    /// `ignore`.
    Ignore,
    /// `condition`.
    Condition,
    /// `commands`.
    Commands,
    /// `save`.
    Save,
    /// `source`.
    Source,
}

/// What a line of commands is.
#[derive(Debug, Drop)]
pub enum Reading {
    /// It has no words.
    Skipped,
    /// It is no command.
    Wrong,
    /// It is no command, but nearly this one.
    Nearly(Verb),
    /// It is this command without what must follow it.
    Missing(Verb),
    /// It is this command with words after it that it does not take.
    Unfit(Verb),
    /// It names a statement that the program does not have.
    NoStatement,
    /// It names no chain.
    NoChain,
    /// It names a file that the console has not opened.
    NoFile,
    /// It has no test where one is to be.
    NoTest,
    /// It asks what this command does.
    HelpOn(Verb),
    /// It ends the session.
    Quit,
    /// It asks for this.
    Asked(Command),
}

impl Move {
    /// Whether it leads out of the latest call.
    pub(crate) fn is_finish(self) -> bool
        ensures { result ≡ moves.is_finish self }
    {
        match self {
            Move::Finish | Move::ReverseFinish => true,
            _ => false,
        }
    }
}

impl Reading {
    /// Whether a line is wrong: it is no command, lacks something or has too much, or names no statement
    /// or no chain.
    pub(crate) fn is_wrong(&self) -> bool
        ensures { result ≡ sessions.is_wrong self.now }
    {
        match self {
            Reading::Skipped | Reading::HelpOn(_) | Reading::Quit | Reading::Asked(_) => false,
            _ => true,
        }
    }
}

impl Verb {
    /// Whether a word after it is the name of a file.
    pub(crate) fn names_a_file(self) -> bool
        ensures { result ≡ lines.names_a_file self }
    {
        match self {
            Verb::Save | Verb::Source => true,
            _ => false,
        }
    }

    /// What a command asks for that no word follows.
    pub(crate) fn alone(self) -> Reading
        ensures { result ≡ spec.alone self }
    {
        match self {
            Verb::Step => moved(Move::StepStatement(1)),
            Verb::Back => moved(Move::BackStatement(1)),
            Verb::StepState => moved(Move::Step(1)),
            Verb::BackState => moved(Move::Back(1)),
            Verb::Next => moved(Move::NextStatement(1)),
            Verb::ReverseNext => moved(Move::ReverseNextStatement(1)),
            Verb::NextState => moved(Move::Next(1)),
            Verb::ReverseNextState => moved(Move::ReverseNext(1)),
            Verb::Finish => moved(Move::Finish),
            Verb::ReverseFinish => moved(Move::ReverseFinish),
            Verb::Continue => moved(Move::Continue(1)),
            Verb::ReverseContinue => moved(Move::ReverseContinue(1)),
            Verb::Until => moved(Move::UntilNext),
            Verb::Run => moved(Move::Run),
            Verb::Goto => Reading::Missing(self),
            Verb::Start => moved(Move::Goto(0)),
            Verb::End => moved(Move::End),
            Verb::List => shown(View::ListHere),
            Verb::Break => shown(View::Info),
            Verb::TemporaryBreak => Reading::Missing(self),
            Verb::Enable => Reading::Missing(self),
            Verb::Disable => Reading::Missing(self),
            Verb::Delete => Reading::Asked(Command::Setting(Setting::DeleteAll)),
            Verb::Info => shown(View::Info),
            Verb::Watch => shown(View::Info),
            Verb::Unwatch => Reading::Missing(self),
            Verb::Display => shown(View::Info),
            Verb::Undisplay => Reading::Missing(self),
            Verb::Print => shown(View::Show),
            Verb::Block => Reading::Missing(self),
            Verb::Who => Reading::Missing(self),
            Verb::Where => shown(View::Where),
            Verb::Stack => shown(View::Stack),
            Verb::Show => shown(View::Show),
            Verb::Fields => shown(View::Fields),
            Verb::Draw => shown(View::Draw),
            Verb::Store => shown(View::Store),
            Verb::Lists => shown(View::Lists),
            Verb::Stats => shown(View::Stats),
            Verb::Out => shown(View::Out),
            Verb::Checkpoints => shown(View::Checkpoints),
            Verb::Help => shown(View::Help),
            Verb::Quit => Reading::Quit,
            Verb::Set => shown(View::Set),
            Verb::Ignore => shown(View::Ignore),
            Verb::Condition => Reading::Missing(self),
            Verb::Commands => shown(View::Commands),
            Verb::Save => shown(View::Save),
            Verb::Source => Reading::Missing(self),
        }
    }
}

/// A state is gone to.
pub(crate) fn moved(to: Move) -> Reading
    ensures { result ≡ spec.moved to }
{
    Reading::Asked(Command::Move(to))
}

/// Something is shown.
fn shown(view: View) -> Reading
    ensures { result ≡ spec.shown view }
{
    Reading::Asked(Command::View(view))
}
