//! Why something is found.

use l6_group::{GroupFault, MAX_LABEL_CHARACTERS};

/// Why something is found on a card.
#[derive(Clone, Copy, Debug)]
pub enum Reason {
    /// Something has no reading, or the statement that ends here is not whole.
    Form(FormReason),
    /// There is too much of something.
    Limit(LimitReason),
    /// The card of this number gives the label, too, and comes first.
    TwiceLabelled(u32),
    /// No card gives the label.
    NoLabel(MissingLabel),
    /// A warning.
    Warning(WarningReason),
}

/// A label that no card gives.
#[derive(Clone, Copy, Debug)]
pub struct MissingLabel {
    /// The label.
    pub label: LabelText,
    /// What is nearly the same, if there is such a thing: a label that a card gives, or an exit.
    pub near: Option<LabelText>,
}

/// The characters of a label, or of an exit. Unlike a `Label` it can be copied.
#[derive(Clone, Copy, Debug)]
pub struct LabelText {
    /// The characters, and places that are not used.
    pub characters: [u8; MAX_LABEL_CHARACTERS],
    /// How many characters there are.
    pub count: usize,
}

/// Why something has no reading.
#[derive(Clone, Copy, Debug)]
pub enum FormReason {
    /// Column 1 has something that begins no card.
    Column,
    /// A card with `+` in column 1 has no statement before it.
    ContinuesNothing,
    /// A label has too many characters.
    LabelTooLong,
    /// A label is `DONE` or `FAIL`.
    LabelBarred,
    /// A `(` has no `)`.
    Unclosed,
    /// A `)` has no `(`.
    Unopened,
    /// A group is no operation, where an operation stands.
    NoOperation(GroupFault),
    /// A group is no test, where a test stands.
    NoTest(GroupFault),
    /// A group is a test, where an operation stands.
    TestForOperation,
    /// The same, in a statement whose label is spelled as a condition.
    ConditionInColumn1,
    /// A group is an operation, where the first test stands.
    OperationForTest,
    /// A group is an operation, where a test or THEN stands.
    ThenMissing,
    /// IF or NOT has a second test.
    SecondTest,
    /// An item follows an exit.
    AfterExit,
    /// A group follows a first word that is no condition.
    NoCondition,
    /// A word is no exit.
    NoExit,
    /// A word stands where THEN must stand.
    NoThen,
    /// The statement ends after its tests.
    Unfinished,
    /// The same, and the next card begins with THEN.
    UnfinishedBeforeThen,
    /// Nothing more is known.
    Unread,
}

/// What there is too much of.
#[derive(Clone, Copy, Debug, PartialEq, Eq)]
pub enum LimitReason {
    /// Of statements.
    Statements,
    /// Of cards that continue a statement.
    Continuations,
    /// Of tests or of operations.
    Groups,
}

/// How an operation always traps.
#[derive(Clone, Copy, Debug, PartialEq, Eq)]
pub enum CertainTrap {
    /// A field is defined by a word, or by bits, that none can have.
    BadDefinition,
    /// A number is divided by 0.
    ZeroDivisor,
    /// A block of no words, or of too many, is asked for.
    BadSize,
    /// No characters, or too many, are taken or printed.
    BadCount,
}

/// What is worth a warning.
#[derive(Clone, Copy, Debug, PartialEq, Eq)]
pub enum WarningReason {
    /// The card has something past the columns that count.
    PastColumns,
    /// The label is spelled as a condition is.
    LabelIsCondition,
    /// No statement names the label.
    UnnamedLabel,
    /// No way leads to the statement.
    UnreachedStatement,
    /// An operation always traps.
    AlwaysTraps(CertainTrap),
    /// An operation on a further card of the statement always traps.
    LaterTraps(CertainTrap),
    /// The statement has a condition, and the next statement follows whether that holds or not.
    DecidesNothing,
    /// After the statement comes a subroutine, always, which is called and named by nothing else.
    RunsOn,
    /// Nothing in the deck defines the field whose name has this number, from 0 to 35.
    UndefinedField(u8),
    /// The deck begins as the text of an image does.
    ImageText,
}
