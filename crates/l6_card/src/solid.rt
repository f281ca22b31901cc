//! Columns without their blanks.

ghost use Rattle.std.specs.Prelude.{◌≡◌, ◌≤◌, ◌++◌, [], ◌∷◌, length, is_some, MatchOption};
ghost use Rattle.l6_group.specs.Character.{spelled};
ghost use Rattle.l6_group.specs.Word.{after_then};
ghost use Rattle.l6_card.specs.Objection as spec;

use l6_group::{are_blank, is_blank};
use l6_word::character_of;

/// How many columns there are up to the last that is no blank.
pub(crate) fn count_solid(columns: &[u8]) -> usize
    ensures value { result ≡ spec.count_solid columns.now }
    ensures few { result ≤ length columns.now }
{
    let mut rest = columns;
    let mut count = 0;
    while let Some((_, following)) = rest.split_first() {
        if are_blank(rest) {
            return count;
        }
        count += 1;
        rest = following;
    }
    count
}

/// How many blanks columns begin with.
fn count_blanks(columns: &[u8]) -> usize
    ensures value { result ≡ spec.count_blanks columns.now }
    ensures few { result ≤ length columns.now }
{
    let mut rest = columns;
    let mut count = 0;
    while let Some((column, following)) = rest.split_first() {
        if !is_blank(*column) {
            return count;
        }
        count += 1;
        rest = following;
    }
    count
}

/// How many blanks a card begins with, of which these are the columns in front of its body and those of
/// its body.
#[tactic(auto, using(crate::proofs::Solids::blanks_some, crate::proofs::Solids::blanks_all))]
pub(crate) fn first_solid(front: &[u8], body: &[u8]) -> usize
    ensures { result ≡ spec.count_blanks (front.now ++ body.now) }
{
    let blanks = count_blanks(front);
    if blanks < front.len() {
        blanks
    } else {
        blanks + count_blanks(body)
    }
}

/// How many columns such a card has up to the last that is no blank.
#[tactic(auto, using(crate::proofs::Solids::solid_front, crate::proofs::Solids::solid_body))]
pub(crate) fn past_solid(front: &[u8], body: &[u8]) -> usize
    ensures { result ≡ spec.count_solid (front.now ++ body.now) }
{
    if are_blank(body) {
        count_solid(front)
    } else {
        front.len() + count_solid(body)
    }
}

/// The first character of columns, and the columns after it.
fn first_character(columns: &[u8]) -> Option<(u8, &[u8])>
    ensures { MatchOption result (spelled columns.now ≡ [])
        (λ parts. spelled columns.now ≡ parts.0 ∷ spelled parts.1.now) }
{
    let mut rest = columns;
    while let Some((column, following)) = rest.split_first() {
        if !is_blank(*column) {
            return Some((character_of(*column), following));
        }
        rest = following;
    }
    None
}

/// Whether the characters of columns begin with THEN.
pub(crate) fn has_then(columns: &[u8]) -> bool
    ensures { result ≡ is_some (after_then (spelled columns.now)) }
{
    let Some((first, rest)) = first_character(columns) else {
        return false;
    };
    let Some((second, rest)) = first_character(rest) else {
        return false;
    };
    let Some((third, rest)) = first_character(rest) else {
        return false;
    };
    let Some((fourth, _)) = first_character(rest) else {
        return false;
    };
    first == b'T' && second == b'H' && third == b'E' && fourth == b'N'
}
