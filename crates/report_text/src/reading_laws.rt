// What the texts of reports are like.

ghost use Rattle.std.specs.Prelude.{◌≡◌, ℕ, List};
ghost use Rattle.report_text.specs.Reports.{Report, Meets};
ghost use Rattle.report_text.specs.Layout.{layout};
ghost use Rattle.report_text.specs.Texts.{StandsFor, IsFaultyLine};

/// Laws: a text denotes one report at most, and has one faulty line at most, and not both.
pub fn one_reading_law()
    ensures report { (text : List ℕ) (r s : Report) → StandsFor text r → StandsFor text s → r ≡ s }
    ensures fault { (text : List ℕ) (m n : ℕ) → IsFaultyLine text m → IsFaultyLine text n → m ≡ n }
    ensures apart { (text : List ℕ) (r : Report) (n : ℕ) → StandsFor text r → IsFaultyLine text n → ⊥ }
{}

/// A law: the layout of values that are a report's is the text of that report and of no other.
pub fn read_again_law()
    ensures { (r s : Report) → Meets r → StandsFor (layout r) s → r ≡ s }
{}
