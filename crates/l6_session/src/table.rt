//! The list of commands: the words of each, and what is said of it. Reading, help and advice follow it.

ghost use Rattle.std.specs.Prelude.{◌≡◌};
ghost use Rattle.l6_session.specs.Command as spec;

use crate::command::Verb;
use std::marker::Model;

/// A row of the list.
#[derive(Debug, Drop)]
pub(crate) struct Row {
    /// The words of the command, in capitals: its name, and what else stands for it.
    words: &'static [u8],
    /// How it is written, with what follows it.
    usage: &'static [u8],
    /// What it does, in at most 17 characters.
    line: &'static [u8],
    /// What it does, in a sentence without its stop.
    sentence: &'static [u8],
}

impl Model for Row {
    ghost use Rattle.l6_session.specs.Command as commands;

    ghost Value = { commands.Row };

    ghost view = { λ row. record {
      words = row.words.now;
      usage = row.usage.now;
      line = row.line.now;
      sentence = row.sentence.now;
    } };
}

impl Row {
    /// The words of the command, between blanks.
    pub(crate) fn words(&self) -> &'static [u8]
        ensures { result.now ≡ self.now.words }
    {
        self.words
    }

    /// How it is written, with what follows it.
    pub(crate) fn usage(&self) -> &'static [u8]
        ensures { result.now ≡ self.now.usage }
    {
        self.usage
    }

    /// What it does, in a few words.
    pub(crate) fn line(&self) -> &'static [u8]
        ensures { result.now ≡ self.now.line }
    {
        self.line
    }

    /// What it does, in a sentence without its stop.
    pub(crate) fn sentence(&self) -> &'static [u8]
        ensures { result.now ≡ self.now.sentence }
    {
        self.sentence
    }
}

/// The commands, in the order in which help has them.
static VERBS: [Verb; 49] = [
    Verb::Step,
    Verb::Back,
    Verb::StepState,
    Verb::BackState,
    Verb::Next,
    Verb::ReverseNext,
    Verb::NextState,
    Verb::ReverseNextState,
    Verb::Finish,
    Verb::ReverseFinish,
    Verb::Continue,
    Verb::ReverseContinue,
    Verb::Until,
    Verb::Run,
    Verb::Goto,
    Verb::Start,
    Verb::End,
    Verb::List,
    Verb::Break,
    Verb::TemporaryBreak,
    Verb::Enable,
    Verb::Disable,
    Verb::Delete,
    Verb::Condition,
    Verb::Info,
    Verb::Watch,
    Verb::Unwatch,
    Verb::Display,
    Verb::Undisplay,
    Verb::Print,
    Verb::Block,
    Verb::Who,
    Verb::Where,
    Verb::Stack,
    Verb::Show,
    Verb::Fields,
    Verb::Draw,
    Verb::Store,
    Verb::Lists,
    Verb::Stats,
    Verb::Out,
    Verb::Checkpoints,
    Verb::Save,
    Verb::Source,
    Verb::Help,
    Verb::Quit,
    Verb::Set,
    Verb::Ignore,
    Verb::Commands,
];

/// The commands, in the order in which help has them.
#[tactic(auto, unfolding(crate::specs::Command::verbs))]
pub(crate) fn verbs() -> &'static [Verb]
    ensures { result.now ≡ spec.verbs }
{
    &VERBS
}

/// The row of a command.
pub(crate) fn row_of(verb: Verb) -> Row
    ensures { result ≡ spec.row_of verb }
{
    match verb {
        Verb::Step => Row {
            words: b"STEP S",
            usage: b"step|s [N]",
            line: b"on, a statement",
            sentence: b"goes on to where a statement begins, also in a DO, or to where one stops before; N times",
        },
        Verb::Back => Row {
            words: b"BACK REVERSE-STEP RS",
            usage: b"back|rs [N]",
            line: b"back, a statement",
            sentence: b"goes back to where a statement begins, also in a DO, or to where one stops after it; N times",
        },
        Verb::StepState => Row {
            words: b"STEPI SI",
            usage: b"stepi|si [N]",
            line: b"N states on",
            sentence: b"goes N states on, 1 without N, at most to the last one. An action leads from one state to the next",
        },
        Verb::BackState => Row {
            words: b"BACKI REVERSE-STEPI RSI",
            usage: b"backi|rsi [N]",
            line: b"N states back",
            sentence: b"goes N states back, 1 without N, at most to the start",
        },
        Verb::Next => Row {
            words: b"NEXT N",
            usage: b"next|n [N]",
            line: b"on, over a DO",
            sentence: b"goes on to where a statement begins and no more calls wait than here, so over a DO, or to where one stops before; N times",
        },
        Verb::ReverseNext => Row {
            words: b"REVERSE-NEXT RN",
            usage: b"reverse-next|rn [N]",
            line: b"back, over a DO",
            sentence: b"goes back to where a statement begins and no more calls wait than here, or to where one stops after it; N times",
        },
        Verb::NextState => Row {
            words: b"NEXTI NI",
            usage: b"nexti|ni [N]",
            line: b"a state on, so",
            sentence: b"goes on to the next state at which no more calls wait than here, or to where one stops before; N times",
        },
        Verb::ReverseNextState => Row {
            words: b"REVERSE-NEXTI RNI",
            usage: b"reverse-nexti|rni",
            line: b"a state back, so",
            sentence: b"goes back to the latest state at which no more calls wait than here, or to where one stops after it; rni N does it N times",
        },
        Verb::Finish => Row {
            words: b"FINISH FIN",
            usage: b"finish|fin",
            line: b"on, out of a DO",
            sentence: b"goes on to where the latest call has returned, or to where one stops before",
        },
        Verb::ReverseFinish => Row {
            words: b"REVERSE-FINISH RF",
            usage: b"reverse-finish|rf",
            line: b"back, to the DO",
            sentence: b"goes back to where the latest call was made, or to where one stops after it",
        },
        Verb::Continue => Row {
            words: b"CONTINUE C CONT GO",
            usage: b"continue|c|go [N]",
            line: b"on, to a stop",
            sentence: b"goes on to the next state at which one stops, or to the last one; N times, so to the Nth stop",
        },
        Verb::ReverseContinue => Row {
            words: b"REVERSE-CONTINUE RC",
            usage: b"reverse-continue|rc",
            line: b"back, to a stop",
            sentence: b"goes back to the latest state at which one stops, or to the start; rc N does it N times. A watch then stops right before the step that changed the value",
        },
        Verb::Until => Row {
            words: b"UNTIL U UNT ADVANCE",
            usage: b"until|u [PLACE]",
            line: b"on, to there",
            sentence: b"goes on to the statement, or to where one stops before. Without PLACE it is the statement after this one, so that a loop is left at its end",
        },
        Verb::Run => Row {
            words: b"RUN R RESTART",
            usage: b"run|r",
            line: b"start, to a stop",
            sentence: b"goes to the first state, and on from there to where one stops",
        },
        Verb::Goto => Row {
            words: b"GOTO",
            usage: b"goto N",
            line: b"to the state N",
            sentence: b"goes to the state of a number, at most to the last one",
        },
        Verb::Start => Row {
            words: b"START",
            usage: b"start",
            line: b"to the first",
            sentence: b"goes to the first state",
        },
        Verb::End => Row {
            words: b"END",
            usage: b"end",
            line: b"to the last",
            sentence: b"goes to the last state",
        },
        Verb::List => Row {
            words: b"LIST L LL",
            usage: b"list|l [PLACE|A,B|-]",
            line: b"cards near it",
            sentence: b"shows the cards near the state, and then those that follow; or those near a statement, from one number to another, or before the last ones",
        },
        Verb::Break => Row {
            words: b"BREAK B",
            usage: b"break|b PLACE",
            line: b"stop there",
            sentence: b"stops wherever the run comes to the statement. PLACE is a label, also with + and how many statements after it, the number of a statement, or : and the number of a card. With if and TEST after it, as (A,G,5), it stops where the test holds, or meets a trap",
        },
        Verb::TemporaryBreak => Row {
            words: b"TBREAK TB",
            usage: b"tbreak|tb PLACE",
            line: b"stop there once",
            sentence: b"like break, but the breakpoint is removed where the run first comes to it",
        },
        Verb::Enable => Row {
            words: b"ENABLE",
            usage: b"enable PLACE",
            line: b"stop there again",
            sentence: b"sets the breakpoint of a statement, without a test, as break does",
        },
        Verb::Disable => Row {
            words: b"DISABLE",
            usage: b"disable PLACE",
            line: b"no longer there",
            sentence: b"removes the breakpoint of a statement and its test, as delete does",
        },
        Verb::Delete => Row {
            words: b"DELETE D CLEAR",
            usage: b"delete|d [PLACE]",
            line: b"no longer there",
            sentence: b"removes the breakpoint of a statement; without PLACE all breakpoints, and nothing is watched any longer",
        },
        Verb::Info => Row {
            words: b"INFO I",
            usage: b"info|i",
            line: b"where one stops",
            sentence: b"shows where one stops, what is watched, and what is displayed, with numbers. A breakpoint has the number of its statement",
        },
        Verb::Watch => Row {
            words: b"WATCH",
            usage: b"watch CHAIN|*LINK[+W]",
            line: b"stop at a change",
            sentence: b"stops where the chain reads as another value, or can be followed no longer; or where word W of the block, 0 without W, is another one to which LINK leads now, or the block comes or goes. LINK is a chain or a number; up to 8 chains and words are watched",
        },
        Verb::Unwatch => Row {
            words: b"UNWATCH",
            usage: b"unwatch CHAIN|N",
            line: b"watch no longer",
            sentence: b"watches a chain no longer, or a word of a block, as *1024+2; N is the number that it has in info",
        },
        Verb::Display => Row {
            words: b"DISPLAY",
            usage: b"display CHAIN",
            line: b"print at stops",
            sentence: b"prints the chain at each stop; up to 8 chains",
        },
        Verb::Undisplay => Row {
            words: b"UNDISPLAY",
            usage: b"undisplay CHAIN|N",
            line: b"print no longer",
            sentence: b"displays a chain no longer; N is the number that it has in info",
        },
        Verb::Print => Row {
            words: b"PRINT P PP WHATIS",
            usage: b"print|p CHAIN|NUMBER",
            line: b"what it reads as",
            sentence: b"shows what it reads as, in decimal, in octal and as characters, and the block to which it leads; or at which field it can't be followed, and why. Of a label it shows the statement",
        },
        Verb::Block => Row {
            words: b"BLOCK X",
            usage: b"block|x CHAIN|NUMBER",
            line: b"its block",
            sentence: b"shows the words of the block to which it leads, and what the fields that are defined now show of it",
        },
        Verb::Who => Row {
            words: b"WHO",
            usage: b"who CHAIN|NUMBER",
            line: b"got, wrote, freed it",
            sentence: b"shows by which steps the block to which it leads was got, last written and freed, if it was: the state right before each, to which goto leads. The session stays where it is",
        },
        Verb::Where => Row {
            words: b"WHERE W BT BACKTRACE FRAME F UP DOWN",
            usage: b"where|bt [N]",
            line: b"calls that wait",
            sentence: b"shows where the run is, and where the calls that wait go on, the latest first; with N no more than N lines",
        },
        Verb::Stack => Row {
            words: b"STACK",
            usage: b"stack",
            line: b"what is saved",
            sentence: b"shows the contents and the definitions that are saved, the latest first",
        },
        Verb::Show => Row {
            words: b"SHOW",
            usage: b"show",
            line: b"bugs, and amounts",
            sentence: b"shows what the bugs hold, and how much is saved, taken and printed",
        },
        Verb::Fields => Row {
            words: b"FIELDS",
            usage: b"fields",
            line: b"definitions",
            sentence: b"shows what fields are defined as",
        },
        Verb::Draw => Row {
            words: b"DRAW",
            usage: b"draw [all]",
            line: b"blocks and links",
            sentence: b"draws the blocks that are reached, and their links, also those that lead to no block: 40 lines, or all",
        },
        Verb::Store => Row {
            words: b"STORE",
            usage: b"store",
            line: b"map of the store",
            sentence: b"shows the map of the store",
        },
        Verb::Lists => Row {
            words: b"LISTS",
            usage: b"lists",
            line: b"free pieces",
            sentence: b"shows the free pieces of the store, the first of each level first",
        },
        Verb::Stats => Row {
            words: b"STATS",
            usage: b"stats",
            line: b"how far, how full",
            sentence: b"shows how far the run has come, and how full the store is",
        },
        Verb::Out => Row {
            words: b"OUT",
            usage: b"out",
            line: b"what is printed",
            sentence: b"shows what the run has printed so far",
        },
        Verb::Checkpoints => Row {
            words: b"CHECKPOINTS",
            usage: b"checkpoints",
            line: b"states kept",
            sentence: b"shows at which states copies are kept, to go back from",
        },
        Verb::Save => Row {
            words: b"SAVE",
            usage: b"save [FILE]",
            line: b"as commands",
            sentence: b"shows the commands that lead a new session to where this one is, with its stops and what it displays, or writes them into a file",
        },
        Verb::Source => Row {
            words: b"SOURCE",
            usage: b"source FILE",
            line: b"lines of a file",
            sentence: b"obeys the lines of a file, and then those that follow",
        },
        Verb::Help => Row {
            words: b"HELP H ?",
            usage: b"help|h [COMMAND]",
            line: b"this, or more",
            sentence: b"shows the commands, or what one of them does",
        },
        Verb::Quit => Row {
            words: b"QUIT Q EXIT",
            usage: b"quit|q",
            line: b"end the session",
            sentence: b"ends the session, as the end of the input does",
        },
        Verb::Set => Row {
            words: b"SET CALL JUMP RETURN",
            usage: b"set",
            line: b"a run stays as is",
            sentence: b"changes nothing: a run is never changed. To try another one, change the deck",
        },
        Verb::Ignore => Row {
            words: b"IGNORE",
            usage: b"ignore",
            line: b"see continue",
            sentence: b"changes nothing: continue N passes over the stops before the Nth",
        },
        Verb::Condition => Row {
            words: b"CONDITION COND",
            usage: b"condition|cond PLACE [TEST]",
            line: b"stop there if so",
            sentence: b"stops at the breakpoint where the test holds, or meets a trap; without TEST always. TEST is a group of a card, as (A,G,5)",
        },
        Verb::Commands => Row {
            words: b"COMMANDS",
            usage: b"commands",
            line: b"see display",
            sentence: b"changes nothing: display prints a chain at each stop, and source obeys the lines of a file",
        },
    }
}
