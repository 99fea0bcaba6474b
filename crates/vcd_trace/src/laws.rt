// What a trace shows.

ghost use Rattle.std.specs.Prelude.{◌≡◌, ℕ, List};
ghost use Rattle.std.specs.List.{AllByRecursion};
ghost use Rattle.netlist.specs.Names.{NamedNetlist};
ghost use Rattle.vcd_trace.specs.Layout.{AreValues, changed_lines, clock_lines};
ghost use Rattle.vcd_trace.specs.Replayed.{IsTraceOf, IsFaultyLine};

/// A text has one first faulty line, and a trace has none.
pub fn one_fault_law()
    ensures one { (m : NamedNetlist) (text : List ℕ) (a b : ℕ) → IsFaultyLine m text a → IsFaultyLine m text b → a ≡ b }
    ensures apart { (m : NamedNetlist) (clocks : List (List ℕ)) (text : List ℕ) (number : ℕ) → IsTraceOf m clocks text → IsFaultyLine m text number → ⊥ }
{}

/// The lines of a clock show its values, if those before it are known.
pub fn one_change_law()
    ensures { (i : ℕ) (widths old a b : List ℕ) → AreValues widths old → AreValues widths a → AreValues widths b
        → changed_lines i widths old a ≡ changed_lines i widths old b → a ≡ b }
{}

/// The lines of a trace show the values of all its clocks: a trace is that of one list of values.
pub fn one_trace_law()
    ensures { (widths : List ℕ) (a b : List (List ℕ)) → AllByRecursion (AreValues widths) a → AllByRecursion (AreValues widths) b
        → clock_lines widths a ≡ clock_lines widths b → a ≡ b }
{}
