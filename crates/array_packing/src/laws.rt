// What packing keeps.

ghost use Rattle.std.specs.Prelude.{◌≡◌, ℕ, List};
ghost use Rattle.wiring.specs.Netlist.{Netlist};
ghost use Rattle.wiring.specs.Order.{IsEvaluationOrder};
ghost use Rattle.wiring.specs.Rules.{KeepsRules};
ghost use Rattle.wiring.specs.Snapshot.{Contents, FitsContents};
ghost use Rattle.module_pass.specs.Simulation.{Simulates};
ghost use Rattle.array_packing.specs.declared.slots.Slot.{Slot};
ghost use Rattle.array_packing.specs.Packing.{IsPacked, AreFilled, packed};

/// A law: a netlist with packed arrays simulates the one whose arrays are packed.
pub fn packing_law()
    ensures { (new old : Netlist) (slots : List Slot) (order : List ℕ) → IsPacked new old slots → KeepsRules old → KeepsRules new → IsEvaluationOrder new.assigns order
        → Simulates new old (packed old slots) }
{}

/// A law: where no bit of a packed word is unused, contents that fit are one if they show the same contents of the old netlist.
pub fn contents_seen_law()
    ensures { (new old : Netlist) (slots : List Slot) → AreFilled new slots → (c d : Contents) → FitsContents new c → FitsContents new d
        → (packed old slots).contents c ≡ (packed old slots).contents d → c ≡ d }
{}
