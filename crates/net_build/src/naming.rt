// The names that a builder gives.

ghost use Rattle.std.specs.Prelude.{◌≡◌, IfOk, OnOk, codes};
ghost use Rattle.wiring.specs.Netlist.{netlist_of};
ghost use Rattle.netlist.specs.Names.{names_of};
ghost use Rattle.net_build.specs.Naming.{made_name, made_names, names_for, AreCounts};

use dk_base::OutOfMemory;
use net_names::Name;
use netlist::Names;
use std::alloc::Global;
use wiring::Netlist;

fn wire_name(alloc: Global, k: usize) -> Result<Name, OutOfMemory>
    ensures { IfOk result (λ name. name ≡ made_name (codes "n") k) }
{
    Ok(Name::new(format!(in alloc; "n{k}")?.into_bytes()))
}

fn reg_name(alloc: Global, k: usize) -> Result<Name, OutOfMemory>
    ensures { IfOk result (λ name. name ≡ made_name (codes "r") k) }
{
    Ok(Name::new(format!(in alloc; "r{k}")?.into_bytes()))
}

fn array_name(alloc: Global, k: usize) -> Result<Name, OutOfMemory>
    ensures { IfOk result (λ name. name ≡ made_name (codes "m") k) }
{
    Ok(Name::new(format!(in alloc; "m{k}")?.into_bytes()))
}

#[tactic(auto, using(crate::proofs::MadeNames::more_names))]
fn wire_names(alloc: Global, count: usize) -> Result<Vec<Name>, OutOfMemory>
    ensures { IfOk result (λ names. names.items ≡ made_names (codes "n") count) }
{
    let mut names = Vec::new(alloc);
    for k in 0..count {
        names.push(wire_name(alloc, k)?)?;
    }
    Ok(names)
}

#[tactic(auto, using(crate::proofs::MadeNames::more_names))]
fn reg_names(alloc: Global, count: usize) -> Result<Vec<Name>, OutOfMemory>
    ensures { IfOk result (λ names. names.items ≡ made_names (codes "r") count) }
{
    let mut names = Vec::new(alloc);
    for k in 0..count {
        names.push(reg_name(alloc, k)?)?;
    }
    Ok(names)
}

#[tactic(auto, using(crate::proofs::MadeNames::more_names))]
fn array_names(alloc: Global, count: usize) -> Result<Vec<Name>, OutOfMemory>
    ensures { IfOk result (λ names. names.items ≡ made_names (codes "m") count) }
{
    let mut names = Vec::new(alloc);
    for k in 0..count {
        names.push(array_name(alloc, k)?)?;
    }
    Ok(names)
}

fn title(alloc: Global) -> Result<Name, OutOfMemory>
    ensures { IfOk result (λ name. name ≡ codes "dk") }
{
    Ok(Name::new(format!(in alloc; "dk")?.into_bytes()))
}

// The name `dk`, `n0` and so on for wires, `r0` for registers, `m0` for arrays.
pub fn names_of_wiring(alloc: Global, wiring: &Netlist) -> Result<Names, OutOfMemory>
    ensures names { IfOk result (λ names. names_of names ≡ names_for (netlist_of wiring.now)) }
    ensures counts { OnOk result (AreCounts (netlist_of wiring.now)) }
{
    let module = title(alloc)?;
    let wires = wire_names(alloc, wiring.wires.len())?;
    let regs = reg_names(alloc, wiring.regs.len())?;
    let arrays = array_names(alloc, wiring.arrays.len())?;
    Ok(Names {
        module,
        wires,
        regs,
        arrays,
    })
}
