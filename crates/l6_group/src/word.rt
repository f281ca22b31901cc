//! The words of a card: conditions, THEN and exits.

ghost use Rattle.std.specs.Prelude.{◌≡◌, MatchOption};
ghost use Rattle.l6_group.specs.Word as spec;

use crate::label::Label;
use l6_prog::{Cond, Exit};

/// The exit that characters spell: DONE, FAIL or a label.
pub fn exit_from(characters: &[u8]) -> Option<Exit<Label>>
    ensures { result ≡ spec.exit_from characters.now }
{
    match characters {
        b"DONE" => Some(Exit::Done),
        b"FAIL" => Some(Exit::Fail),
        _ => label_exit(characters),
    }
}

/// The exit to the label that characters spell.
fn label_exit(characters: &[u8]) -> Option<Exit<Label>>
    ensures { result ≡ spec.label_exit characters.now }
{
    Some(Exit::Label(Label::new(characters)?))
}

/// The condition that characters spell.
pub fn condition_from(characters: &[u8]) -> Option<Cond>
    ensures { result ≡ spec.condition_from characters.now }
{
    match characters {
        b"IF" => Some(Cond::If),
        b"NOT" => Some(Cond::Not),
        b"IFALL" => Some(Cond::IfAll),
        b"IFANY" => Some(Cond::IfAny),
        b"IFNONE" => Some(Cond::IfNone),
        b"IFNALL" => Some(Cond::IfNotAll),
        _ => None,
    }
}

/// The characters after a THEN that they begin with.
pub fn after_then(characters: &[u8]) -> Option<&[u8]>
    ensures { MatchOption result (spec.after_then characters.now ≡ None)
        (λ following. spec.after_then characters.now ≡ Some following.now) }
{
    match characters {
        [b'T', b'H', b'E', b'N', following @ ..] => Some(following),
        _ => None,
    }
}
