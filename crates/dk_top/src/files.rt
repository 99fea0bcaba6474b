//! Outputs that are written whole.

ghost use Rattle.std.specs.Prelude.{◌≡◌};
ghost use Rattle.dk_top.specs.Writing.{WritesFile, WritesReportOf};

use dk_desk::transfer::write_all;
use dk_desk::{Desk, OutSlot, Stage};
use dk_endings::Ending;

// Begins the output and writes it whole.
pub fn write_file<D: Desk>(desk: &mut D, name: &str, bytes: &[u8]) -> Result<(), Ending>
    requires { (D.outside desk.old).file.stage ≡ Stage.Unasked }
    ensures { WritesFile name.now bytes.now result (D.outside desk.old) (D.outside desk.new) }
{
    let Ok(()) = desk.create(name) else {
        return Err(Ending::WriteFault);
    };
    match write_all(desk, OutSlot::File, bytes) {
        Ok(()) => Ok(()),
        Err(_) => Err(Ending::WriteFault),
    }
}

// Writes a text to Report.
pub fn write_report<D: Desk>(desk: &mut D, text: &[u8]) -> Result<(), Ending>
    ensures { WritesReportOf text.now result (D.outside desk.old) (D.outside desk.new) }
{
    match write_all(desk, OutSlot::Report, text) {
        Ok(()) => Ok(()),
        Err(_) => Err(Ending::WriteFault),
    }
}
