//! What depends on the version of the format: its magic word, how many statements a program may
//! have, and how the last 18 bits of a row's first word give a label.

ghost use Rattle.std.specs.Prelude.{◌≡◌, ◌<◌, ◌^◌, unwrap_or};
ghost use Rattle.l6_image.specs.Version as spec;
ghost use Rattle.l6_image.specs.inner.decode.Fields as fields;

/// A version of the format of images.
#[derive(Clone, Copy, Debug, PartialEq, Eq, Hash)]
pub enum Version {
    /// The first one, for programs of at most 4,095 statements. It is read, and no longer written.
    One,
    /// The second one, for all programs.
    Two,
}

/// The first word of an image of the first version, which is the text `L6IMG1`.
pub(crate) const MAGIC_ONE: u64 = 0o542651554721;

/// The first word of an image of the second version, which is the text `L6IMG2`.
pub(crate) const MAGIC_TWO: u64 = 0o542651554722;

/// How many statements a program may have in the first version.
pub(crate) const MOST_IN_ONE: u64 = 4095;

/// How many statements a program may have in the second version.
pub(crate) const MOST_IN_TWO: u64 = 65_535;

/// The bit that says in the first version whether a row has a label. The statement's number is to
/// the right of it.
const LABEL_FLAG: u64 = 1 << 12;

/// How many numbers of statements there are in the words of images.
const TARGETS: u64 = 1 << 16;

impl Version {
    /// The version of an image that begins with this word.
    pub(crate) fn of(word: u64) -> Option<Self>
        ensures { result ≡ fields.version_of word }
    {
        match word {
            MAGIC_ONE => Some(Version::One),
            MAGIC_TWO => Some(Version::Two),
            _ => None,
        }
    }

    /// The first word of an image.
    pub(crate) fn magic(self) -> u64
        ensures { result ≡ spec.magic self }
    {
        match self {
            Version::One => MAGIC_ONE,
            Version::Two => MAGIC_TWO,
        }
    }

    /// How many statements a program may have.
    pub(crate) fn most_statements(self) -> u64
        ensures { result ≡ spec.most_in self }
    {
        match self {
            Version::One => MOST_IN_ONE,
            Version::Two => MOST_IN_TWO,
        }
    }

    /// The last bits of a row's first word: its label, if it has one.
    pub(crate) fn label_bits(self, label: Option<u16>) -> u64
        ensures value { result ≡ spec.label_number self label }
        ensures range { result < 2 ^ 17 }
    {
        match (self, label) {
            (_, None) => 0,
            (Version::One, Some(label)) => LABEL_FLAG + u64::from(label),
            (Version::Two, Some(label)) => u64::from(label) + 1,
        }
    }

    /// The label that the last bits of a row's first word give, if they give one.
    pub(crate) fn label_in(self, word: u64) -> Option<u16>
        ensures { result ≡ fields.label_in self word }
    {
        match self {
            Version::One => {
                if word / LABEL_FLAG % 2 == 1 {
                    Some((word % LABEL_FLAG) as u16)
                } else {
                    None
                }
            }
            Version::Two => ((word % TARGETS) as u16).checked_sub(1),
        }
    }
}

/// The target that the last bits of a header give.
pub(crate) fn target_in(word: u64) -> u16
    ensures { result ≡ fields.target_in word }
{
    (word % TARGETS) as u16
}

/// The last bits of a header: the target of the exit, if it has one.
pub(crate) fn target_bits(target: Option<u16>) -> u64
    ensures value { result ≡ unwrap_or target 0 }
    ensures range { result < 2 ^ 16 }
{
    match target {
        None => 0,
        Some(target) => u64::from(target),
    }
}
