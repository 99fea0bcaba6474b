// Laws of what is made, as contracts of functions that do nothing.

ghost use Rattle.std.specs.Prelude.{◌≡◌, ◌++◌, ◌∷◌, [], ◌<◌, ◌≤◌, ℕ, length};
ghost use Rattle.dk_base.specs.declared.TheConstants.{MAX_SOURCE_BYTES, MAX_SIDE, MAX_PGM_BYTES};
ghost use Rattle.pgm_codec.specs.Images.{IsFile, file_of};
ghost use Rattle.pgm_codec.specs.Rounds.{Fits};
ghost use Rattle.made_program.specs.Programs.{width_of, height_of, program_of};
ghost use Rattle.made_program.specs.Images.{picture_of, image_of};

use pgm_codec::read_again_law;

/// A law: the program and the image of any number are within the limits on texts, files and frames.
pub fn made_is_small_law()
    ensures program { (n : ℕ) → length (program_of n) ≤ MAX_SOURCE_BYTES }
    ensures image { (n : ℕ) → length (image_of n) ≤ MAX_PGM_BYTES }
    ensures width { (n : ℕ) → (0 < width_of n) × (width_of n ≤ MAX_SIDE) }
    ensures height { (n : ℕ) → (0 < height_of n) × (height_of n ≤ MAX_SIDE) }
{}

/// A law: the image file of any number is the file that is written of its picture, and is read as this one picture. It is one round for an input of 8 bits in a frame of the program's size.
pub fn made_is_read_law()
    ensures written { (n : ℕ) → image_of n ≡ file_of (picture_of n ∷ []) }
    ensures file { (n : ℕ) → IsFile (image_of n) (picture_of n ∷ []) }
    ensures fits { (n : ℕ) → Fits (width_of n) (height_of n) (8 ∷ []) (picture_of n ∷ []) ((picture_of n ∷ []) ∷ []) }
{
    read_again_law();
}
