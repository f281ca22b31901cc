//! The parts of lines.

ghost use Rattle.std.specs.Prelude.{◌≡◌, ◌<◌};
ghost use Rattle.l6_prog.specs.Numerals.{name_count};
ghost use Rattle.l6_draw.specs.Drawing as drawing;

use l6_prog::DIGITS;

/// The digit or the letter of the name of this number. The caller owes that there is such a name.
pub fn character_of(name: u8) -> u8
    requires { name < name_count }
    ensures { result ≡ drawing.character_of name }
{
    if name < DIGITS {
        b'0' + name
    } else {
        b'A' + (name - DIGITS)
    }
}
