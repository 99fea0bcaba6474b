// What the bits of a report that holds are.

ghost use Rattle.std.specs.Prelude.{◌≡◌, ◌≤◌, ℕ, List};
ghost use Rattle.raster_delay.specs.Systems.{System, IsCausal, bits};
ghost use Rattle.report_text.specs.Reports.{Report};
ghost use Rattle.plan_check.specs.Holding.{AreLeast};

/// A law: the bits of a report that holds are those of any causal delays that need the fewest.
pub fn least_agree_law()
    ensures { (s : System) (r : Report) (d : List ℕ) → AreLeast s r → IsCausal s d
        → ((e : List ℕ) → IsCausal s e → bits s d ≤ bits s e) → r.bits ≡ bits s d }
{}
