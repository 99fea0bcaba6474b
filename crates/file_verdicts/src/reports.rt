// Verdicts on the texts of reports.

ghost use Rattle.std.specs.Prelude.{◌⊎◌, ℕ, List};
ghost use Rattle.report_text.specs.Reports.{Report};
ghost use Rattle.report_text.specs.Texts.{StandsFor, IsFaultyLine};

/// A text denotes a report, or has a first faulty line.
pub fn every_report_law()
    ensures some { (text : List ℕ) → ((report : Report) × StandsFor text report) ⊎ ((number : ℕ) × IsFaultyLine text number) }
{}
