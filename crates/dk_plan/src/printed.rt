// What is answered on the report of a plan.

ghost use Rattle.std.specs.Prelude.{◌≡◌, ℕ, List, pos};
ghost use Rattle.pointwise_ir.specs.Programs.{Program, names_of};
ghost use Rattle.raster_delay.specs.Systems.{System, IsSystem, IsCausal, IsBalanced, bits, worth_of};
ghost use Rattle.flow_dual.specs.declared.solution.Solution.{Solution as TheSolution};
ghost use Rattle.flow_dual.specs.Solutions.{IsSolution};
ghost use Rattle.latency_report.specs.Printed.{report_of};
ghost use Rattle.plan_check.specs.declared.verdict.Verdict.{Verdict as TheVerdict};
ghost use Rattle.plan_check.specs.declared.verdict.Verdict.TheVariants.{Yes};
ghost use Rattle.plan_check.specs.Program.{HoldsOf, JudgesOf};

/// A law: the report of causal delays with a balanced flow that is worth their bits holds.
pub fn printed_holds_law()
    ensures { (p : Program) (s : System) (d flow : List ℕ) → IsSystem s → IsCausal s d → IsBalanced s flow → worth_of s flow ≡ pos (bits s d)
        → HoldsOf (names_of p) s (report_of p (record { system = s; delays = d }) flow) }
{}

/// A law: whatever is answered rightly on the report of a solution is yes.
pub fn printed_yes_law()
    ensures { (p : Program) (s : System) (x : TheSolution) (v : TheVerdict) → IsSystem s → IsSolution s x
        → JudgesOf (names_of p) s (report_of p (record { system = s; delays = x.delays }) x.flow) v → v ≡ Yes }
{}
