//! What a command reads: a file whole, and the frames of a file of images.

ghost use Rattle.std.specs.Prelude.{◌≡◌, ◌≢◌, ℕ, ◌≤◌, List, length, Option, IfOk, IfErr, IfSome};
ghost use Rattle.dk_desk.specs.Outside.{input};
ghost use Rattle.dk_types.specs.Typed.{Typing};
ghost use Rattle.dk_compile.specs.Fronts.{IsForm};
ghost use Rattle.dk_compile.specs.Sources.{IsSourceFault, IsErrorBy};
ghost use Rattle.dk_compile.specs.Limits.{IsFaultAt};
ghost use Rattle.dk_top.specs.State.{IsFresh};
ghost use Rattle.dk_top.specs.Reading.{ReadsWhole, IsSourceEnding, IsImageEnding, IsInputOf, AreRead, Stops, IsJudgement};

use dk_base::MAX_SOURCE_BYTES;
use dk_compile::{SourceError, SourceFault};
use dk_desk::transfer::{ReadAll, read_all};
use dk_desk::{Desk, InSlot, Stage};
use dk_endings::{Ending, ImageFault};
use pgm_rounds::{FileError, Round, one_file_law};
use pointwise_ir::Program;
use program_images::read_program_rounds;
use std::alloc::Global;

// Opens an input and reads it whole. A file of more than `limit` bytes has the ending `too_long`.
pub fn read_whole<D: Desk>(
    alloc: Global,
    desk: &mut D,
    slot: InSlot,
    name: &str,
    limit: usize,
    too_long: Ending,
) -> Result<Vec<u8>, Ending>
    requires fresh { (input (D.outside desk.old) slot).stage ≡ Stage.Unasked }
    requires before_create { (D.outside desk.old).file.stage ≡ Stage.Unasked }
    requires long { too_long ≢ Ending.ReadFault }
    ensures { ReadsWhole slot name.now limit too_long result (D.outside desk.old)
        (D.outside desk.new) }
{
    match desk.open_in(slot, name) {
        Ok(()) => {}
        Err(_) => return Err(Ending::ReadFault),
    }
    match read_all(alloc, desk, slot, limit) {
        Ok(bytes) => Ok(bytes),
        Err(ReadAll::Failed) => Err(Ending::ReadFault),
        Err(ReadAll::TooLong) => Err(too_long),
        Err(ReadAll::OutOfMemory) => Err(Ending::Memory),
    }
}

// Reads the text of a program.
pub fn read_text<D: Desk>(alloc: Global, desk: &mut D, name: &str) -> Result<Vec<u8>, Ending>
    requires { IsFresh (D.outside desk.old) }
    ensures { ReadsWhole InSlot.Program name.now MAX_SOURCE_BYTES (Ending.Source SourceFault.TooLong) result
        (D.outside desk.old) (D.outside desk.new) }
{
    let too_long = Ending::Source(SourceFault::TooLong);
    read_whole(
        alloc,
        desk,
        InSlot::Program,
        name,
        MAX_SOURCE_BYTES,
        too_long,
    )
}

// How a call ends whose text was not read as a program.
pub fn ending_of(error: SourceError) -> Ending
    ensures fault { (source : List ℕ) → IsErrorBy (IsSourceFault source) error
        → IsSourceEnding (IsSourceFault source) result }
    ensures fault_at { (source : List ℕ) (age : ℕ) → IsErrorBy (IsFaultAt source age) error
        → IsSourceEnding (IsFaultAt source age) result }
    ensures stops { Stops result }
    ensures judged { result ≢ Ending.ReadFault }
{
    match error {
        SourceError::Fault(fault) => Ending::Source(fault),
        SourceError::OutOfMemory => Ending::Memory,
    }
}

// The rounds of a file, for the programs of this form.
pub fn read_frames(alloc: Global, ir: &Program, file: &[u8]) -> Result<Vec<Round>, Ending>
    ensures input { IfOk result (λ rounds. (most : Option ℕ) → IfSome most
        (λ n. length file.now ≤ n) → IsInputOf most ir.now file.now rounds.items) }
    ensures read { IfOk result (λ rounds. AreRead ir.now rounds.items) }
    ensures fault { IfErr result (λ e. (most : Option ℕ) → IfSome most (λ n. length file.now ≤ n)
        → (p : Typing) → IsForm p ir.now → IsImageEnding most p file.now e) }
    ensures judged { IfErr result IsJudgement }
{
    one_file_law();
    ir.law();
    match read_program_rounds(alloc, ir, file) {
        Ok(rounds) => Ok(rounds),
        Err(FileError::Fault(fault)) => Err(Ending::Image(ImageFault::File(fault))),
        Err(FileError::OutOfMemory) => Err(Ending::Memory),
    }
}
