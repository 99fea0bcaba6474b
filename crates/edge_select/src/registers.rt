// Registers of one bit that take tests.

ghost use Rattle.std.specs.Prelude.{◌+◌, ◌<◌, ◌^◌, [], ◌∷◌, ◌++◌, IfOk};
ghost use Rattle.wiring.specs.Snapshot.{net_value};
ghost use Rattle.net_build.specs.Depth.{hold_levels};
ghost use Rattle.net_build.specs.Counters.{control_nets, taken};
ghost use Rattle.edge_select.specs.Logic.{AreLoaded, HasOneBit, IsBit, WiresFrom};
ghost use Rattle.edge_select.specs.FrameTests.{AddsRegisterOf, takes, sources};

use dk_base::OutOfMemory;
use net_build::{Builder, gate, register_value};
use wiring::{Atom, Net, Right};

// What a register takes that is loaded where `load` is 1, or always.
fn choice_of(
    b: &mut Builder,
    load: Option<Net>,
    test: Net,
    register: Net,
) -> Result<Net, OutOfMemory>
    requires { AreLoaded b.old load test register }
    ensures { WiresFrom b.new b.old result 1 (sources load test register) 1
        (takes load test register) }
{
    match load {
        None => Ok(test),
        Some(load) => {
            let net = gate(
                b,
                Right::Choose(Atom::Net(load), Atom::Net(test), Atom::Net(register)),
            )?;
            Ok(net)
        }
    }
}

// What a register takes so that it is `first` after a reset and still in held clocks.
fn still_value(b: &mut Builder, register: Net, next: Net, first: u64) -> Result<Net, OutOfMemory>
    requires register { HasOneBit b.old register }
    requires next { HasOneBit b.old next }
    requires first { first < 2 ^ 1 }
    ensures { WiresFrom b.new b.old result (1 + hold_levels b.old.enable)
        (control_nets b.old.enable ++ register ∷ (next ∷ [])) 1
        (λ s. taken b.old.enable first (net_value s register) (net_value s next) s) }
{
    let value = register_value(b, register, next, 1, first)?;
    Ok(value)
}

// A register of one bit that is `first` after a reset, takes a test where `load` is 1, or always, and is still in held clocks.
pub fn register_of(
    b: &mut Builder,
    load: Option<Net>,
    first: u64,
    test: Net,
) -> Result<Net, OutOfMemory>
    requires load { IsBit b.old load }
    requires first { first < 2 ^ 1 }
    requires test { HasOneBit b.old test }
    ensures adds { IfOk result (AddsRegisterOf b.new b.old load first test) }
{
    let register = b.reg(1)?;
    let next = choice_of(b, load, test, register)?;
    let value = still_value(b, register, next, first)?;
    b.set(register, value);
    Ok(register)
}
