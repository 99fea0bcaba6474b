// Verdicts on the texts of traces, and their greatest length.

ghost use Rattle.std.specs.Prelude.{◌≡◌, ◌<◌, ◌≤◌, ◌+◌, ◌^◌, ◌⊎◌, ℕ, List, length};
ghost use Rattle.std.specs.List.{All};
ghost use Rattle.netlist.specs.Names.{NamedNetlist};
ghost use Rattle.vcd_trace.specs.Layout.{AreValues};
ghost use Rattle.vcd_trace.specs.Replayed.{IsTraceOf, IsFaultyLine};
ghost use Rattle.vcd_trace.specs.Told.{Told, IsRoomFor, clock_text, room_of};

/// For each module a text is the trace of some clocks, or has a first faulty line. It is the trace of at most one list of clocks.
pub fn every_trace_law()
    ensures some { (m : NamedNetlist) (text : List ℕ) → ((clocks : List (List ℕ)) × IsTraceOf m clocks text) ⊎ ((number : ℕ) × IsFaultyLine m text number) }
    ensures one { (m : NamedNetlist) (text : List ℕ) (a b : List (List ℕ)) → IsTraceOf m a text → IsTraceOf m b text → a ≡ b }
{}

/// The text of some clock takes all the room that `Trace::room` returns, if each variable has a bit. So no smaller number is room for every clock.
pub fn room_law()
    ensures attained { (widths : List ℕ) → All (λ width. 0 < width) widths
        → (t : Told) × (values : List ℕ) × (t.widths ≡ widths) × (t.time + 1 < 2 ^ 64) × AreValues widths t.values × AreValues widths values
        × (length (clock_text t values) ≡ room_of widths) }
    ensures least { (widths : List ℕ) → All (λ width. 0 < width) widths → (n : ℕ) → IsRoomFor widths n → room_of widths ≤ n }
{}
