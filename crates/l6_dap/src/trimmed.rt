//! Texts without the blanks around them.

ghost use Rattle.std.specs.Prelude.{◌≡◌};
ghost use Rattle.l6_dap.specs.Trimmed as spec;

/// A text without the blanks before and after it.
pub(crate) fn trimmed(text: &[u8]) -> &[u8]
    ensures { result.now ≡ spec.trimmed text.now }
{
    text.trim_ascii_start().trim_ascii_end()
}
