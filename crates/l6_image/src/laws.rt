//! That the numbers of the code are those of images, and that texts determine programs.

ghost use Rattle.std.specs.Prelude.{◌≡◌};
ghost use Rattle.l6_image.specs.Load.{ImagesAreOfOneProgram};
ghost use Rattle.l6_image.specs.Numerals.{no_name, most_bytes};
ghost use Rattle.l6_image.specs.Version.{magic, most_in};
ghost use Rattle.l6_image.specs.declared.version.Version.TheVariants.{One, Two};

use crate::decode::loading::MAX_BYTES;
use crate::encode::items::NO_NAME;
use crate::version::{MAGIC_ONE, MAGIC_TWO, MOST_IN_ONE, MOST_IN_TWO};

/// The numbers of the code are those of images.
pub fn images_have_their_numbers()
    ensures marks { (MAGIC_ONE ≡ magic One) × (MAGIC_TWO ≡ magic Two) }
    ensures most { (MOST_IN_ONE ≡ most_in One) × (MOST_IN_TWO ≡ most_in Two) }
    ensures no_name { NO_NAME ≡ no_name }
    ensures bytes { MAX_BYTES ≡ most_bytes }
{}

/// No text is that of two programs, in whichever versions.
pub fn images_are_of_one_program()
    ensures { ImagesAreOfOneProgram }
{}
