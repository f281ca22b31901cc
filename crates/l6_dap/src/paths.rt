//! The paths of files.

ghost use Rattle.std.specs.Prelude.{◌≡◌};
ghost use Rattle.l6_dap.specs.Paths as spec;

/// What stands behind the last separator of a path, of whatever system: the name of the file.
pub(crate) fn file_name(path: &[u8]) -> &[u8]
    ensures { result.now ≡ spec.file_name path.now }
{
    let mut name = path;
    let mut rest = path;
    while let Some((first, following)) = rest.split_first() {
        if is_separator(*first) {
            name = following;
        }
        rest = following;
    }
    name
}

/// Whether a byte parts the names of a path.
fn is_separator(byte: u8) -> bool
    ensures { result ≡ spec.is_separator byte }
{
    byte == b'/' || byte == b'\\'
}
