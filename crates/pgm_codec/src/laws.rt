//! Laws of the form, as contracts of functions that do nothing.

ghost use Rattle.std.specs.Prelude.{◌≡◌, ◌<◌, ◌≤◌, ◌++◌, ◌+◌, ◌*◌, ℕ, List, length, slice_index, Result, Ok};
ghost use Rattle.std.specs.List.{AllByRecursion};
ghost use Rattle.dk_base.specs.declared.TheConstants.{MAX_FILE_IMAGES};
ghost use Rattle.pgm_codec.specs.declared.header.Header.{Header as TheHeader};
ghost use Rattle.pgm_codec.specs.declared.header.HeaderFault.{HeaderFault as TheHeaderFault};
ghost use Rattle.pgm_codec.specs.declared.raster.RasterFault.{RasterFault as TheRasterFault};
ghost use Rattle.pgm_codec.specs.Answers.{Whole, Judges, Reads};
ghost use Rattle.pgm_codec.specs.Rasters.{JudgesRaster, JudgesRow, sample_at};
ghost use Rattle.pgm_codec.specs.Images.{IsRaster, Image, IsImageOf, IsFile, CanBeWritten, file_of};
ghost use Rattle.pgm_codec.specs.Rounds.{Fits};

/// No header begins another; the numbers, the samples and the end of an image are fixed by the bytes, and so are the images of a file.
pub fn one_reading_law()
    ensures headers { (first second rest more : List ℕ) → Whole first → Whole second → first ++ rest ≡ second ++ more → first ≡ second }
    ensures images { (first second rest more : List ℕ) (p q : Image) → IsImageOf first p → IsImageOf second q → first ++ rest ≡ second ++ more
        → (first ≡ second) × (p ≡ q) }
    ensures files { (bytes : List ℕ) (ps qs : List Image) → IsFile bytes ps → IsFile bytes qs → ps ≡ qs }
{}

/// A row that is judged Ok is the raster of an image of only that row. Rasters of one width, one after another, are one raster. The samples of a raster are at their places in its bytes.
pub fn rows_are_rasters_law()
    ensures row { (read : List ℕ) (header : TheHeader) (row : ℕ) → ((k : ℕ) → slice_index read k < 256) → JudgesRow read header row (Ok tt)
        → (samples : List ℕ) × IsRaster read header.width 1 header.maxval samples }
    ensures joined { (front back xs ys : List ℕ) (width first second maxval : ℕ) → IsRaster front width first maxval xs → IsRaster back width second maxval ys
        → IsRaster (front ++ back) width (first + second) maxval (xs ++ ys) }
    ensures samples { (bytes rest samples : List ℕ) (width height maxval : ℕ) → IsRaster bytes width height maxval samples
        → (k : ℕ) → k < width * height → slice_index samples k ≡ sample_at maxval (bytes ++ rest) k }
{}

/// What is written is read again.
pub fn read_again_law()
    ensures { (pictures : List Image) → 0 < length pictures → length pictures ≤ MAX_FILE_IMAGES → AllByRecursion CanBeWritten pictures
        → IsFile (file_of pictures) pictures }
{}

/// The images of a file are cut into rounds in one way.
pub fn one_cut_law()
    ensures { (width height : ℕ) (inputs : List ℕ) (pictures : List Image) (rounds others : List (List Image)) → 0 < length inputs
        → Fits width height inputs pictures rounds → Fits width height inputs pictures others → rounds ≡ others }
{}

/// The bytes decide one answer on a header, and one on the raster after it.
pub fn one_answer_law()
    ensures header { (bytes : List ℕ) (a b : Result TheHeader TheHeaderFault) → Judges bytes a → Judges bytes b → a ≡ b }
    ensures raster { (bytes : List ℕ) (header : TheHeader) → Reads bytes header → (a b : Result Unit TheRasterFault) → JudgesRaster bytes header a
        → JudgesRaster bytes header b → a ≡ b }
{}
