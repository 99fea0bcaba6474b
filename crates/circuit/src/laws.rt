// What follows from the behaviour of a circuit.

ghost use Rattle.std.specs.Prelude.{ℕ, Bool, List};
ghost use Rattle.wiring.specs.declared.netlist.Net.{Net as TheNet};
ghost use Rattle.wiring.specs.Netlist.{Netlist};
ghost use Rattle.net_build.specs.Runs.{IsWhole, RunsOn};
ghost use Rattle.pointwise_ir.specs.Programs.{Program, IsProgram};
ghost use Rattle.buffer_plan.specs.Plans.{Plan};
ghost use Rattle.circuit.specs.Forms.{Places};
ghost use Rattle.circuit.specs.Behaviour.{HasPorts, Behaves};
ghost use Rattle.circuit.specs.Driven.{Drives};

/// A law: after a reset clock, with frames one after another at the dins, the module of a program shows the frames of its outputs, one after another, each from its latency on.
pub fn frame_drive_law()
    ensures { (m : Netlist) (p : Program) (plan : Plan) (places : Places) (copies : List ℕ)
        (nets : List TheNet) (enable : Bool) → IsProgram p → HasPorts m p enable
        → IsWhole m m → RunsOn m → Behaves m p plan places copies nets → Drives m p plan }
{}
