//! A file of images, streamed from its first header to the last line that is shown.

ghost use Rattle.std.specs.Prelude.{◌≡◌, ◌≤◌, Err, IfErr, IsErr, OnOk, OnErr};
ghost use Rattle.dk_base.specs.declared.TheConstants.{MAX_LATENCY};
ghost use Rattle.dk_desk.specs.Calls.{HasCauseIn};
ghost use Rattle.row_stream.specs.Formats.{kind_of};
ghost use Rattle.row_stream.specs.Whole.{IsStart, FailsFirst, LeavesAll, Leaves};
ghost use Rattle.row_stream.specs.Beginning.{Begins};
ghost use Rattle.row_stream.specs.Calls.{OnlyWrites};
ghost use Rattle.row_stream.specs.States.{Keeps, CanGoOn};

use crate::faults::StreamFault;
use crate::heads::next_image;
use crate::line::write_head;
use crate::state::Stream;
use dk_desk::{Desk, Failed, Stage};

impl Stream {
    // Creates File, writes its first header, and makes the reset clock.
    fn begin<D: Desk>(&mut self, desk: &mut D, name: &str) -> Result<(), Failed>
        requires unasked { (D.outside desk.old).file.stage ≡ Stage.Unasked }
        requires start { IsStart self.old }
        ensures keeps { Keeps self.old self.new }
        ensures more { OnOk result (CanGoOn 1 self.old self.new (D.outside desk.new)) }
        ensures ok { OnOk result
            (Begins (kind_of self.old.format) self.old.sim.netlist name.now self.old.sim.contents
            self.new.sim.contents self.old.line self.new.line (D.outside desk.old)
            (D.outside desk.new)) }
        ensures err { OnErr result (FailsFirst (kind_of self.old.format) self.old.sim.netlist
            name.now self.old.sim.contents (D.outside desk.old) (D.outside desk.new)) }
        ensures desk { OnlyWrites (IsErr result) (D.outside desk.old) (D.outside desk.new) }
    {
        desk.create(name)?;
        write_head(desk, self.format)?;
        self.reset(desk)?;
        Ok(())
    }

    /// Drives the module with the images of Image, each of the size that is written, from its start to its end, and then with `latency` clocks of 0 at the din. File is created under `name` once the first header is in order, and gets each line as soon as it is whole, a header before the first line of each image. Each clock is noted. It allocates no memory.
    ///
    /// `Image` is the first fault of the file, `Read` and `Write` a call of the desk that failed. All lines that came before are then written.
    pub fn run<D: Desk>(
        &mut self,
        desk: &mut D,
        latency: u64,
        name: &str,
    ) -> Result<(), StreamFault>
        requires opened { (D.outside desk.old).image.stage ≡ Stage.Open }
        requires unasked { (D.outside desk.old).file.stage ≡ Stage.Unasked }
        requires latency { latency ≤ MAX_LATENCY }
        requires start { IsStart self.old }
        ensures netlist { self.new.sim.netlist ≡ self.old.sim.netlist }
        ensures ok { OnOk result
            (LeavesAll (kind_of self.old.format) self.old.sim.netlist self.old.bits latency name.now
            self.old.sim.contents (D.outside desk.old) (D.outside desk.new)) }
        ensures err { IfErr result
            (λ f. Leaves (kind_of self.old.format) self.old.sim.netlist self.old.bits latency f
            name.now self.old.sim.contents (D.outside desk.old) (D.outside desk.new)) }
        ensures read { HasCauseIn (result ≡ Err StreamFault.Read)
            (D.outside desk.old).input_failures (D.outside desk.new).input_failures }
        ensures write { HasCauseIn (result ≡ Err StreamFault.Write)
            (D.outside desk.old).output_failures (D.outside desk.new).output_failures }
    {
        let first = match next_image(desk, self.format.size, self.bits, 0, false)? {
            None => unreachable!(),
            Some(header) => header,
        };
        match self.begin(desk, name) {
            Err(_) => return Err(StreamFault::Write),
            Ok(()) => {}
        }
        self.stream_images(desk, first)?;
        match self.flush(desk, latency as usize) {
            Err(_) => Err(StreamFault::Write),
            Ok(()) => Ok(()),
        }
    }
}
