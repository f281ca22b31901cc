//! What is nearly the label that was read: it differs by one character, or by two side by side that are
//! exchanged.

ghost use Rattle.std.specs.Prelude.{◌≡◌};
ghost use Rattle.std.specs.Option.{option_map};
ghost use Rattle.l6_check.specs.Missing.{label_of_text};
ghost use Rattle.l6_check.specs.Near as spec;

use crate::labels::Labels;
use crate::reason::LabelText;
use l6_group::{Label, MAX_LABEL_CHARACTERS};

/// The exits, which are no labels.
const EXITS: [LabelText; 2] = [
    LabelText {
        characters: [b'D', b'O', b'N', b'E', 0, 0],
        count: 4,
    },
    LabelText {
        characters: [b'F', b'A', b'I', b'L', 0, 0],
        count: 4,
    },
];

/// The first label that a card gives and that is nearly this one, in the order of the cards; or else an exit that
/// is nearly it.
pub(crate) fn nearest(given: &Labels, label: &Label) -> Option<LabelText>
    ensures { option_map label_of_text result ≡ spec.nearest given.now.entries label.now }
{
    match nearest_given(given, label) {
        Some(near) => Some(near),
        None => nearest_exit(label),
    }
}

/// The first label that a card gives and that is nearly this one.
fn nearest_given(given: &Labels, label: &Label) -> Option<LabelText>
    ensures { option_map label_of_text result ≡ spec.first_given given.now.entries label.now }
{
    for place in 0..given.len() {
        if let Some((near, _)) = given.get_index(place) {
            if are_near(label.characters(), near.characters()) {
                return Some(label_text(near));
            }
        }
    }
    None
}

/// The first exit that is nearly a label.
fn nearest_exit(label: &Label) -> Option<LabelText>
    ensures { option_map label_of_text result ≡ spec.first_near spec.exits label.now }
{
    let [done, fail] = EXITS;
    if are_near(label.characters(), b"DONE") {
        return Some(done);
    }
    if are_near(label.characters(), b"FAIL") {
        return Some(fail);
    }
    None
}

/// Whether texts are nearly the same.
fn are_near(one: &[u8], other: &[u8]) -> bool
    ensures { result ≡ spec.are_near one.now other.now }
{
    match (one, other) {
        ([], _) => other.len() == 1,
        (_, []) => one.len() == 1,
        ([a, left @ ..], [b, right @ ..]) => {
            if a == b {
                return are_near(left, right);
            }
            left == right || left == other || one == right || are_exchanged(one, other)
        }
    }
}

/// Whether texts are the same once the first two characters of one are exchanged.
fn are_exchanged(one: &[u8], other: &[u8]) -> bool
    ensures { result ≡ spec.are_exchanged one.now other.now }
{
    match (one, other) {
        ([a, b, left @ ..], [c, d, right @ ..]) => a == d && b == c && left == right,
        _ => false,
    }
}

/// The characters of a label.
pub(crate) fn label_text(label: &Label) -> LabelText
    ensures { label_of_text result ≡ label.now }
{
    let characters = label.characters();
    let mut kept = [0; MAX_LABEL_CHARACTERS];
    kept[..characters.len()].copy_from_slice(characters);
    LabelText {
        characters: kept,
        count: characters.len(),
    }
}
