// How a trace grows, and that it is one.

ghost use Rattle.std.specs.Prelude.{◌≡◌, ℕ, ℤ, List, [], ◌∷◌, ◌++◌, length};
ghost use Rattle.wiring.specs.Netlist.{Netlist};
ghost use Rattle.wiring.specs.Snapshot.{Snapshot, HasOneSnapshot, HasOneNext};
ghost use Rattle.netlist.specs.Names.{NamedNetlist};
ghost use Rattle.vcd_trace.specs.Layout.{time_line, text_of};
ghost use Rattle.vcd_trace.specs.Header.{header_text, trace_text};
ghost use Rattle.stimulus.specs.declared.drive.Drive.{Drive};
ghost use Rattle.stimulus.specs.Stimulus.{Rounds};
ghost use Rattle.stimulus.specs.Showing.{IsRun};
ghost use Rattle.stimulus.specs.Stops.{StopsAtClock};
ghost use Rattle.trace_bench.specs.Traces.{values_of, trace_front};

/// Laws: before the first clock there is only the header, each clock adds its time and its lines, and the time after the last clock makes the trace whole.
pub fn trace_grows_law()
    ensures none { (m : NamedNetlist) → trace_front m [] ≡ header_text m }
    ensures more { (m : NamedNetlist) (shots : List Snapshot) (last : Snapshot)
        → (lines : List (List ℕ))
        × (trace_front m (shots ++ last ∷ []) ≡ trace_front m shots ++ text_of
        (time_line (length shots) ∷ lines)) }
    ensures end { (m : NamedNetlist) (shots : List Snapshot) → trace_text m (values_of shots)
        ≡ trace_front m shots ++ text_of (time_line (length shots) ∷ []) }
{}

/// Laws: on a bench a module has one run to its end, or one stop, and not both.
pub fn one_end_law()
    ensures run { (m : Netlist) → HasOneSnapshot m → HasOneNext m
        → (drive : Drive) (rounds : Rounds) (a b : List Snapshot) → IsRun m drive rounds a
        → IsRun m drive rounds b → a ≡ b }
    ensures stop { (m : Netlist) → HasOneSnapshot m → HasOneNext m
        → (drive : Drive) (rounds : Rounds) (c d : ℤ) (x i y j : ℕ)
        → StopsAtClock m drive rounds c x i → StopsAtClock m drive rounds d y j → (c ≡ d) × (x ≡ y)
        × (i ≡ j) }
    ensures apart { (m : Netlist) → HasOneSnapshot m → HasOneNext m
        → (drive : Drive) (rounds : Rounds) (shots : List Snapshot) (clock : ℤ) (array index : ℕ)
        → IsRun m drive rounds shots → StopsAtClock m drive rounds clock array index → ⊥ }
{
    netlist::one_run_law();
}
