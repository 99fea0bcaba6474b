//! Laws of lines, as contracts of functions that do nothing.

ghost use Rattle.std.specs.Prelude.{◌≡◌, ℕ, ◌<◌, ◌≤◌, ◌+◌, ◌*◌, ◌++◌, List, length, slice_index, Option, Some};
ghost use Rattle.pgm_codec.specs.declared.header.Header.{Header as TheHeader};
ghost use Rattle.pgm_codec.specs.Answers.{Reads};
ghost use Rattle.pgm_codec.specs.Images.{IsImage};
ghost use Rattle.pgm_codec.specs.Rasters.{sample_at};
ghost use Rattle.std.specs.Io.KnownBytes.{prepend_known};
ghost use Rattle.dk_base.specs.declared.TheConstants.{MAX_FILE_IMAGES};
ghost use Rattle.pgm_rounds.specs.declared.fault.FileFault.{FileFault};
ghost use Rattle.row_stream.specs.Whole.{LeavesBehind, LeavesInside};
ghost use Rattle.row_stream.specs.Most.{EndsLines};
ghost use Rattle.dk_desk.specs.Outside.{Outside};
ghost use Rattle.wiring.specs.Netlist.{Netlist};
ghost use Rattle.wiring.specs.Snapshot.{Contents};
ghost use Rattle.row_stream.specs.declared.line.Line.{Line};
ghost use Rattle.row_stream.specs.Lines.{Kind};
ghost use Rattle.row_stream.specs.RowReading.{AreRows, Streams};
ghost use Rattle.row_stream.specs.ImageReading.{Images, AtHead};

use crate::faults::StreamFault;

// A header that was taken and all its lines are an image, whose samples are the numbers that were clocked.
pub(crate) fn lines_are_images_law()
    ensures { (header : TheHeader) (head raster : List ℕ) → Reads head header
        → length head ≡ header.length → AreRows header header.height raster → (samples : List ℕ)
        × IsImage (head ++ raster) header.width header.height header.maxval samples
        × ((k : ℕ) → k < header.width * header.height
        → slice_index samples k ≡ sample_at header.maxval raster k) }
{}

// The lines of an image whose header was taken are one image more.
pub(crate) fn one_image_more_law()
    ensures { (kind : Kind) (m : Netlist) (most count : ℕ) (header : TheHeader)
        (all : Option (List ℕ)) (from mid to : Contents) (old between new : Line)
        (before half now : Outside) → header.width ≡ kind.size.width
        → header.height ≡ kind.size.height → header.maxval ≤ most
        → AtHead kind m most count header all from mid old between before half
        → Streams kind m header header.height mid to between new half now
        → Images kind m most (count + 1) all from to old new before now }
{}

/// If a stream ends at an Image fault, the file begins with no more lines than those that were streamed. If it ends at a failed read, the bytes that were read begin with no more lines.
pub fn streams_most()
    ensures fault_behind { (kind : Kind) (m : Netlist) (bits : ℕ) (from : Contents)
        (created now : Outside) (fault : FileFault) (file : List ℕ)
        → (e : LeavesBehind kind m bits (StreamFault.Image fault) (Some file) from created now)
        → e.count < MAX_FILE_IMAGES → EndsLines kind.size bits file (e.count * kind.size.height) }
    ensures fault_inside { (kind : Kind) (m : Netlist) (bits : ℕ) (from : Contents)
        (created now : Outside) (fault : FileFault) (file : List ℕ)
        → (e : LeavesInside kind m bits (StreamFault.Image fault) (Some file) from created now)
        → EndsLines kind.size bits file (e.count * kind.size.height + e.rows) }
    ensures read_behind { (kind : Kind) (m : Netlist) (bits : ℕ) (from : Contents)
        (created now : Outside) (all : Option (List ℕ))
        → (e : LeavesBehind kind m bits StreamFault.Read all from created now)
        → e.count < MAX_FILE_IMAGES → (read : List ℕ) × (all ≡ prepend_known read now.image.rest)
        × EndsLines kind.size bits read (e.count * kind.size.height) }
    ensures read_inside { (kind : Kind) (m : Netlist) (bits : ℕ) (from : Contents)
        (created now : Outside) (all : Option (List ℕ))
        → (e : LeavesInside kind m bits StreamFault.Read all from created now) → (read : List ℕ)
        × (all ≡ prepend_known read now.image.rest)
        × EndsLines kind.size bits read (e.count * kind.size.height + e.rows) }
{
    pgm_codec::one_reading_law();
}
