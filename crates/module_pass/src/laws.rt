// What a pass keeps, over runs.

ghost use Rattle.std.specs.Prelude.{◌≡◌, ℕ, List, ◌∷◌, map, All};
ghost use Rattle.wiring.specs.Netlist.{Netlist};
ghost use Rattle.wiring.specs.Snapshot.{Contents, Snapshot, FitsContents, HasOneSnapshot, HasOneNext};
ghost use Rattle.wiring.specs.Clock.{Clock};
ghost use Rattle.wiring.specs.Runs.{Runs, RunStops, picture};
ghost use Rattle.wiring.specs.History.{At};
ghost use Rattle.module_pass.specs.Simulation.{View, seen, Simulates, Follows, FitsPorts, ShowsRun, itself, through};

/// A law: from contents that fit, over clocks whose inputs fit, each run of the new netlist shows a run of the old one, clock by clock, with the same pictures; and it stops only where that one stops.
pub fn runs_follow_law()
    ensures runs { (new old : Netlist) (v : View) → Follows new old v → (from to : Contents) (clocks : List Clock)
        → (shots : List Snapshot) → FitsContents new from → All (FitsPorts new) clocks → Runs new from clocks shots to
        → Runs old (v.contents from) clocks (map (seen v) shots) (v.contents to) }
    ensures stops { (new old : Netlist) (v : View) → Follows new old v → (from : Contents) (clocks : List Clock)
        → (shots : List Snapshot) (x i : ℕ) → FitsContents new from → All (FitsPorts new) clocks → RunStops new from clocks shots x i
        → (y : ℕ) × (j : ℕ) × RunStops old (v.contents from) clocks (map (seen v) shots) y j }
    ensures clock { (new old : Netlist) (v : View) → Follows new old v → (from : Contents) (before : List Clock) (c : Clock)
        → (t : Snapshot) → FitsContents new from → All (FitsPorts new) (c ∷ before) → At new from before c t
        → At old (v.contents from) before c (seen v t) }
    ensures pictures { (v : View) (k : ℕ) (shots : List Snapshot) → picture k (map (seen v) shots) ≡ picture k shots }
    ensures shown { (new old : Netlist) (v : View) → Follows new old v
        → HasOneSnapshot new → HasOneNext new → HasOneSnapshot old → HasOneNext old → (from to : Contents) (clocks : List Clock)
        → (shots : List Snapshot) → FitsContents new from → All (FitsPorts new) clocks → Runs old (v.contents from) clocks shots to
        → ShowsRun new v from clocks shots to }
{}

/// A law: a netlist simulates itself, and what simulates one that simulates a third simulates the third.
pub fn passes_chain_law()
    ensures none { (m : Netlist) → Simulates m m itself }
    ensures two { (a b c : Netlist) (v w : View) → Simulates a b v → Simulates b c w → Simulates a c (through v w) }
{}
