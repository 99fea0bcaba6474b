// Verdicts on images and on files of them.

ghost use Rattle.std.specs.Prelude.{◌<◌, ◌≤◌, ◌^◌, ◌⊎◌, ℕ, List, length, Result};
ghost use Rattle.std.specs.List.{All};
ghost use Rattle.pgm_codec.specs.declared.header.Header.{Header};
ghost use Rattle.pgm_codec.specs.declared.header.HeaderFault.{HeaderFault};
ghost use Rattle.pgm_codec.specs.declared.raster.RasterFault.{RasterFault};
ghost use Rattle.pgm_codec.specs.declared.scan.Scan.{Scan};
ghost use Rattle.pgm_codec.specs.Answers.{Answers, Judges, Reads};
ghost use Rattle.pgm_codec.specs.Images.{Image};
ghost use Rattle.pgm_codec.specs.Rasters.{JudgesRaster, JudgesRow, row_length};
ghost use Rattle.pgm_rounds.specs.declared.fault.FileFault.{FileFault};
ghost use Rattle.pgm_rounds.specs.Ports.{Ports};
ghost use Rattle.pgm_rounds.specs.Files.{FitsFile, IsFault};

/// Each part of an image has an answer. Bytes have one as the front of a header and as a header. The bytes after a header have one as its raster. The bytes of a row, or fewer, have one as that row.
pub fn every_image_law()
    ensures scan { (bytes : List ℕ) → (scan : Scan) × Answers bytes scan }
    ensures header { (bytes : List ℕ) → (answer : Result Header HeaderFault) × Judges bytes answer }
    ensures raster { (bytes : List ℕ) → All (λ byte. byte < 2 ^ 8) bytes → (header : Header) → Reads bytes header
        → (answer : Result Unit RasterFault) × JudgesRaster bytes header answer }
    ensures row { (read : List ℕ) (header : Header) (row : ℕ) → length read ≤ row_length header
        → (answer : Result Unit RasterFault) × JudgesRow read header row answer }
{}

/// Bytes are a file of rounds for the inputs, or have a first fault.
pub fn every_image_file_law()
    ensures some { (ports : Ports) → 0 < length ports.inputs → (bytes : List ℕ) → All (λ byte. byte < 2 ^ 8) bytes
        → ((rounds : List (List Image)) × FitsFile ports bytes rounds) ⊎ ((fault : FileFault) × IsFault ports bytes fault) }
{}
