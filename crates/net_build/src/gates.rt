// Wires over nets and constants.

ghost use Rattle.std.specs.Prelude.{◌≡◌, ◌<◌, ◌^◌, [], Contains, IfOk};
ghost use Rattle.wiring.specs.declared.right.Atom.TheVariants as atom;
ghost use Rattle.wiring.specs.Sizes.{IsWidth};
ghost use Rattle.wiring.specs.Snapshot.{right_accesses};
ghost use Rattle.net_build.specs.Draft.{IsOperation};
ghost use Rattle.net_build.specs.Logic.{AddsLogic, IsGate};

use crate::builder::Builder;
use dk_base::OutOfMemory;
use wiring::{Atom, Constant, Net, Right, Width};

/// A number of this many bits.
pub fn number(bits: u8, value: u64) -> Atom<Net>
    requires bits { IsWidth bits }
    requires fits { value < 2 ^ bits }
    ensures { result ≡ atom.Constant (record { width = bits; value = value }) }
{
    Atom::Constant(Constant::new(Width::new(bits), value))
}

/// The net of a right side that reads no array.
pub fn gate(b: &mut Builder, right: Right<Net, usize>) -> Result<Net, OutOfMemory>
    requires operation { IsOperation b.old right }
    requires no_array { right_accesses right ≡ [] }
    ensures logic { AddsLogic b.new b.old }
    ensures gate { IfOk result (IsGate b.new b.old right) }
{
    let net = b.op(right)?;
    Ok(net)
}

// The net of a right side that reads no array, with the assign that drives it.
pub fn driven(b: &mut Builder, right: Right<Net, usize>) -> Result<Net, OutOfMemory>
    requires operation { IsOperation b.old right }
    requires no_array { right_accesses right ≡ [] }
    ensures logic { AddsLogic b.new b.old }
    ensures gate { IfOk result (IsGate b.new b.old right) }
    ensures made { IfOk result (λ n. Contains b.new.assigns
        (record { target = n; right = right })) }
{
    let net = b.op(right)?;
    Ok(net)
}
