// What the definitions say together.

ghost use Rattle.std.specs.Prelude.{◌≡◌, ◌<◌, ℕ, List, length};
ghost use Rattle.pgm_codec.specs.Images.{Image};
ghost use Rattle.pgm_rounds.specs.declared.fault.FileFault.{FileFault};
ghost use Rattle.pgm_rounds.specs.Ports.{Ports};
ghost use Rattle.pgm_rounds.specs.Files.{FitsFile, IsFault};

/// A law: a file is read as rounds in one way; one that fits has no fault; and a file has one first fault at most.
pub fn one_file_law()
    ensures rounds { (ports : Ports) → 0 < length ports.inputs → (bytes : List ℕ) → (a b : List (List Image)) → FitsFile ports bytes a → FitsFile ports bytes b
        → a ≡ b }
    ensures apart { (ports : Ports) → 0 < length ports.inputs → (bytes : List ℕ) → (rounds : List (List Image)) (f : FileFault) → FitsFile ports bytes rounds
        → IsFault ports bytes f → ⊥ }
    ensures fault { (ports : Ports) → 0 < length ports.inputs → (bytes : List ℕ) → (f g : FileFault) → IsFault ports bytes f → IsFault ports bytes g → f ≡ g }
{
    pgm_codec::one_answer_law();
    pgm_codec::one_reading_law();
    pgm_codec::one_cut_law();
}
