// What the definitions say together.

ghost use Rattle.std.specs.Prelude.{◌≡◌, ℕ, List};
ghost use Rattle.dk_base.specs.Stencils.{Stencils};
ghost use Rattle.dk_plan.specs.declared.judging.Claim.{Claim};
ghost use Rattle.dk_plan.specs.Judged.{IsConfirmed, IsWrongLine};

/// Laws: a report that holds has no wrong line and says one thing, and another has one first wrong line.
pub fn one_plan_law()
    ensures claim { (names : List (List ℕ)) (s : Stencils) (bytes : List ℕ) (c d : Claim) → IsConfirmed names s bytes c → IsConfirmed names s bytes d → c ≡ d }
    ensures wrong { (names : List (List ℕ)) (s : Stencils) (bytes : List ℕ) (c : Claim) (line : ℕ) → IsConfirmed names s bytes c
        → IsWrongLine names s bytes line → ⊥ }
    ensures line { (names : List (List ℕ)) (s : Stencils) (bytes : List ℕ) (m n : ℕ) → IsWrongLine names s bytes m → IsWrongLine names s bytes n → m ≡ n }
{
    report_text::one_reading_law();
}
