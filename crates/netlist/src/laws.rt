// What the definitions say together.

ghost use Rattle.std.specs.Prelude.{◌≡◌, ◌<◌, ◌^◌, ◌⊎◌, ℕ, List};
ghost use Rattle.dk_base.specs.declared.TheConstants.{MAX_NAME_BYTES, MAX_WIDTH, MAX_PORT_WIDTH, MAX_INPUTS, MAX_OUTPUTS, MAX_BUFFER_BITS};
ghost use Rattle.net_names.specs.declared.TheConstants.{MOST_NAME_BYTES};
ghost use Rattle.wiring.specs.declared.TheConstants.{MOST_BITS, MOST_WORDS, MOST_PORT_BITS, MOST_PORTS};
ghost use Rattle.wiring.specs.Netlist.{Netlist, net_width, IsDeclared};
ghost use Rattle.wiring.specs.declared.netlist.Net.{Net};
ghost use Rattle.wiring.specs.Order.{IsEvaluationOrder};
ghost use Rattle.wiring.specs.Rules.{KeepsRules};
ghost use Rattle.wiring.specs.Snapshot.{Contents, Snapshot, HasPlaces, HasOneSnapshot, HasOneNext, Fit, FitsContents, IsSettled, IsNext, net_value};
ghost use Rattle.wiring.specs.Clock.{Clock};
ghost use Rattle.wiring.specs.Runs.{Runs, RunStops};
ghost use Rattle.netlist.specs.declared.parts.Parts.{Parts};
ghost use Rattle.netlist.specs.declared.fault.NetFault.{NetFault};
ghost use Rattle.netlist.specs.Names.{HasNames, NamedNetlist};
ghost use Rattle.netlist.specs.Scopes.{NamesAre, SizesFit};
ghost use Rattle.netlist.specs.Faults.{IsFault, IsModuleOf, Agrees};

/// A law: two faults of the same parts are one, but for the target that Cycle names; parts that make a module have no fault.
pub fn one_fault_law()
    ensures agree { (p : Parts) (f g : NetFault) → IsFault p f → IsFault p g → Agrees f g }
    ensures apart { (p : Parts) (m : NamedNetlist) (f : NetFault)
        → IsModuleOf p m → IsFault p f → ⊥ }
{}

/// A law: over each list of clocks a run from contents with their places goes to the end or to a clock that stops, and there is one such run.
pub fn one_run_law()
    ensures some { (m : Netlist) → HasOneSnapshot m
        → HasOneNext m → (from : Contents) (clocks : List Clock) → HasPlaces m from
        → ((shots : List Snapshot) × (to : Contents) × Runs m from clocks shots to)
        ⊎ ((shots : List Snapshot) × (x : ℕ) × (i : ℕ) × RunStops m from clocks shots x i) }
    ensures one { (m : Netlist) → HasOneSnapshot m → HasOneNext m
        → (from : Contents) (clocks : List Clock) (shots other : List Snapshot) (to end : Contents)
        → HasPlaces m from → Runs m from clocks shots to
        → Runs m from clocks other end → (shots ≡ other) × (to ≡ end) }
    ensures stop { (m : Netlist) → HasOneSnapshot m → HasOneNext m
        → (from : Contents) (clocks : List Clock) (shots other : List Snapshot) (x i y j : ℕ)
        → HasPlaces m from → RunStops m from clocks shots x i
        → RunStops m from clocks other y j → (shots ≡ other) × (x ≡ y) × (i ≡ j) }
    ensures apart { (m : Netlist) → HasOneSnapshot m → HasOneNext m → (from : Contents)
        (clocks : List Clock) (shots other : List Snapshot) (to : Contents) (x i : ℕ)
        → HasPlaces m from → Runs m from clocks shots to → RunStops m from clocks other x i → ⊥ }
{}

/// A law: in a clock in which contents and inputs fit their widths each net's value fits its own, and the contents after the edge fit.
pub fn values_fit_law()
    ensures nets { (m : Netlist) (order : List ℕ) → KeepsRules m → IsEvaluationOrder m.assigns order
        → (s : Snapshot) → IsSettled m s → FitsContents m s.contents
        → Fit m.inputs s.inputs → (n : Net) → IsDeclared m n → net_value s n < 2 ^ net_width m n }
    ensures next { (m : Netlist) (order : List ℕ) → KeepsRules m → IsEvaluationOrder m.assigns order
        → (s : Snapshot) → IsSettled m s → FitsContents m s.contents
        → Fit m.inputs s.inputs → (new : Contents) → IsNext m s new → FitsContents m new }
{}

/// A law: a module of parts whose sizes and names are in their rules, as their types keep them, keeps the net rules and has fitting names.
pub fn rules_kept_law()
    ensures rules { (p : Parts) (m : NamedNetlist)
        → SizesFit p → IsModuleOf p m → KeepsRules m.netlist }
    ensures names { (p : Parts) (m : NamedNetlist)
        → NamesAre p → IsModuleOf p m → HasNames m.netlist m.names }
{}

/// A law: the greatest name, width and array, and the most and widest ports, are those of the limits.
pub fn bounds_are_limits_law()
    ensures name { MOST_NAME_BYTES ≡ MAX_NAME_BYTES }
    ensures width { MOST_BITS ≡ MAX_WIDTH }
    ensures words { MOST_WORDS ≡ MAX_BUFFER_BITS }
    ensures port_width { MOST_PORT_BITS ≡ MAX_PORT_WIDTH }
    ensures inputs { MOST_PORTS ≡ MAX_INPUTS }
    ensures outputs { MOST_PORTS ≡ MAX_OUTPUTS }
{}
