//! The first words of rows: what a test or an operation is, and which operands follow.

ghost use Rattle.std.specs.Prelude.{◌≡◌, ◌<◌, ◌/◌, ◌%◌, ◌^◌, unwrap_or};
ghost use Rattle.l6_image.specs.Numerals.{no_name};
ghost use Rattle.l6_image.specs.inner.decode.Fields as fields;
ghost use Rattle.l6_image.specs.inner.Heads.{kind_code, head_word};

use crate::encode::items::NO_NAME;
use crate::version::Version;
use l6_prog::Name;

/// What an operand is.
#[derive(Clone, Copy)]
pub(crate) enum OperandKind {
    /// There is none.
    Absent,
    /// The names of a chain.
    Chain,
    /// A number.
    Number,
    /// A text.
    Text,
}

/// What the first word of a row says.
#[derive(Clone, Copy)]
pub(crate) struct Head {
    /// Which test or operation it is.
    pub(crate) code: u8,
    /// The kinds of its operands.
    pub(crate) first: OperandKind,
    pub(crate) second: OperandKind,
    pub(crate) third: OperandKind,
    /// The field that it names, if it names one.
    pub(crate) field: Option<Name>,
    /// The label that it has, if it has one.
    pub(crate) label: Option<u16>,
}

impl OperandKind {
    /// The number of the kind.
    fn code(self) -> u8
        ensures value { result ≡ kind_code self }
        ensures range { result < 4 }
    {
        match self {
            OperandKind::Absent => 0,
            OperandKind::Chain => 1,
            OperandKind::Number => 2,
            OperandKind::Text => 3,
        }
    }
}

/// The kind of a number, of which the last two bits count.
fn kind_in(number: u64) -> OperandKind
    ensures { kind_code result ≡ number % 4 }
{
    match number % 4 {
        0 => OperandKind::Absent,
        1 => OperandKind::Chain,
        2 => OperandKind::Number,
        _ => OperandKind::Text,
    }
}

impl Head {
    /// What a word says in a version.
    pub(crate) fn of(version: Version, word: u64) -> Self
        ensures code { result.code ≡ word / 2 ^ 30 % 64 }
        ensures first { kind_code result.first ≡ word / 2 ^ 28 % 4 }
        ensures second { kind_code result.second ≡ word / 2 ^ 26 % 4 }
        ensures third { kind_code result.third ≡ word / 2 ^ 24 % 4 }
        ensures field { result.field ≡ fields.name_if (word / 2 ^ 18 % 64) }
        ensures label { result.label ≡ fields.label_in version word }
    {
        Head {
            code: (word / (1 << 30) % 64) as u8,
            first: kind_in(word / (1 << 28)),
            second: kind_in(word / (1 << 26)),
            third: kind_in(word / (1 << 24)),
            field: Name::new((word / (1 << 18) % 64) as u8),
            label: version.label_in(word),
        }
    }

    /// The word in a version.
    pub(crate) fn word(self, version: Version) -> u64
        ensures { result ≡ head_word version self }
    {
        u64::from(self.code) * (1 << 30)
            + u64::from(self.first.code()) * (1 << 28)
            + u64::from(self.second.code()) * (1 << 26)
            + u64::from(self.third.code()) * (1 << 24)
            + u64::from(field_number(self.field)) * (1 << 18)
            + version.label_bits(self.label)
    }
}

/// The number of a field's name, or the one that stands for none.
fn field_number(field: Option<Name>) -> u8
    ensures value { result ≡ unwrap_or field no_name }
    ensures range { result < 64 }
{
    match field {
        None => NO_NAME,
        Some(name) => name.number(),
    }
}
