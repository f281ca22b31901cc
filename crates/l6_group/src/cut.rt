//! Groups, cut into their elements.

ghost use Rattle.std.specs.Prelude.{◌≡◌, [], ◌∷◌, MatchOption};
ghost use Rattle.l6_group.specs.Element as spec;

use l6_word::split_once;

/// The first element of a group and the columns after its comma; `None` where there is no comma,
/// and so no second element.
pub(crate) fn first_element(columns: &[u8]) -> Option<(&[u8], &[u8])>
    ensures { let elements = spec.elements_of columns.now in
        MatchOption result (elements ≡ columns.now ∷ [])
        (λ parts. elements ≡ parts.0.now ∷ spec.elements_of parts.1.now) }
{
    split_once(columns, b',')
}
