//! What is wrong with a group.

/// Why a group is no operation, or no test.
#[derive(Clone, Copy, Debug, PartialEq, Eq)]
pub enum GroupFault {
    /// Nothing is spelled so.
    Spelling,
    /// An element is empty.
    EmptyElement,
    /// It has too few elements.
    TooFew,
    /// It has too many elements.
    TooMany,
    /// A comma is in a text.
    CommaInText,
    /// The word of an operation is the first element.
    WordFirst,
    /// It looks like a definition, and begins with the field.
    FieldFirst,
    /// An element is not what stands there.
    Element(Shape),
}

/// What an element has to be.
#[derive(Clone, Copy, Debug, PartialEq, Eq)]
pub enum Shape {
    /// The spelling of the operation or the test.
    Spelling,
    /// A chain.
    Chain,
    /// A chain or a number.
    Operand,
    /// An octal number.
    Octal,
    /// A text that denotes a number.
    Text,
    /// A text that is printed.
    LongText,
    /// A label.
    Label,
    /// A field.
    Field,
    /// A chain, or nothing.
    OptionalChain,
    /// Nothing.
    Nothing,
    /// `S` or `R`.
    SaveOrRestore,
}

/// What is wrong with a group, and where.
#[derive(Clone, Copy, Debug, PartialEq, Eq)]
pub struct GroupObjection {
    /// How many of the columns between the parentheses are before it.
    pub start: usize,
    /// How many columns it has.
    pub length: usize,
    /// What is wrong.
    pub fault: GroupFault,
}
