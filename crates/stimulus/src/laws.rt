// What a test bench gives is one.

ghost use Rattle.std.specs.Prelude.{◌≡◌, ◌<◌, ℕ, Bool, List, length};
ghost use Rattle.dk_base.specs.Frames.{Size};
ghost use Rattle.wiring.specs.Netlist.{Netlist};
ghost use Rattle.wiring.specs.Snapshot.{HasOneSnapshot, HasOneNext};
ghost use Rattle.pgm_codec.specs.Images.{Image};
ghost use Rattle.pgm_rounds.specs.declared.fault.FileFault.{FileFault};
ghost use Rattle.stimulus.specs.declared.drive.Drive.{Drive};
ghost use Rattle.stimulus.specs.declared.stop.Stop.{Stop};
ghost use Rattle.stimulus.specs.Stimulus.{Rounds};
ghost use Rattle.stimulus.specs.Showing.{IsShown, IsNoted};
ghost use Rattle.stimulus.specs.Stops.{IsStop};
ghost use Rattle.stimulus.specs.Inputs.{FitsBench, IsBenchFault};

/// Laws: a module on a test bench has one file of pictures, or one stop, and not both; and one list of notes.
pub fn one_bench_law()
    ensures file { (m : Netlist) → HasOneSnapshot m → HasOneNext m → (drive : Drive) (size : Size) (rounds : Rounds) (a b : List ℕ)
        → IsShown m drive size rounds a → IsShown m drive size rounds b → a ≡ b }
    ensures notes { (m : Netlist) → HasOneSnapshot m → HasOneNext m → (drive : Drive) (rounds : Rounds) (a b : List (Bool × ℕ)) → IsNoted m drive rounds a
        → IsNoted m drive rounds b → a ≡ b }
    ensures stop { (m : Netlist) → HasOneSnapshot m → HasOneNext m → (drive : Drive) (size : Size) (rounds : Rounds) (s t : Stop) → IsStop m drive size rounds s
        → IsStop m drive size rounds t → s ≡ t }
    ensures apart { (m : Netlist) → HasOneSnapshot m → HasOneNext m → (drive : Drive) (size : Size) (rounds : Rounds) (file : List ℕ) (s : Stop)
        → IsShown m drive size rounds file → IsStop m drive size rounds s → ⊥ }
{
    netlist::one_run_law();
}

/// Laws: a file is read as the images for dins of these widths in one way, one that fits has no fault, and it has one first fault at most.
pub fn one_input_law()
    ensures rounds { (widths : List ℕ) → 0 < length widths → (bytes : List ℕ) (s t : Size) (a b : List (List Image)) → FitsBench widths bytes s a
        → FitsBench widths bytes t b → (s ≡ t) × (a ≡ b) }
    ensures apart { (widths : List ℕ) → 0 < length widths → (bytes : List ℕ) (s : Size) (a : List (List Image)) (f : FileFault) → FitsBench widths bytes s a
        → IsBenchFault widths bytes f → ⊥ }
    ensures fault { (widths : List ℕ) → 0 < length widths → (bytes : List ℕ) (f g : FileFault) → IsBenchFault widths bytes f → IsBenchFault widths bytes g
        → f ≡ g }
{
    pgm_rounds::one_file_law();
    pgm_codec::one_answer_law();
}
