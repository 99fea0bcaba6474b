// Statements with nets and arrays in place of their names.

ghost use Rattle.std.specs.Prelude.{◌≡◌, ◌++◌, is_some, All, IsSome};
ghost use Rattle.wiring.specs.Sizes.{IsConstant};
ghost use Rattle.wiring.specs.Rights.{atom_nets, nets_of, atom_constants, constants_of};
ghost use Rattle.netlist.specs.Scopes.{net_named, array_named, atom_named, right_named, assign_named, update_named, reg_of_net, update_constants, stands_for};
ghost use Rattle.netlist.specs.Faults.{array_names, assign_names, update_names};
ghost use Rattle.netlist.specs.Statements.{all_known};

use crate::parts::{NamedAssign, NamedUpdate};
use crate::scope::{Scope, Stands};
use net_names::Name;
use wiring::{Assign, Atom, Net, Right, Update};

fn net(scope: &Scope, name: &Name) -> Option<Net>
    ensures { result ≡ net_named scope.now name.now }
{
    match scope.find(name.as_bytes()) {
        Some(Stands::Input(i)) => Some(Net::Input(i)),
        Some(Stands::Output(i)) => Some(Net::Output(i)),
        Some(Stands::Wire(i)) => Some(Net::Wire(i)),
        Some(Stands::Reg(i)) => Some(Net::Reg(i)),
        Some(Stands::Clock) => None,
        Some(Stands::Array(_)) => None,
        None => None,
    }
}

fn array(scope: &Scope, name: &Name) -> Option<usize>
    ensures { result ≡ array_named scope.now name.now }
{
    match scope.find(name.as_bytes()) {
        Some(Stands::Array(array)) => Some(array),
        Some(Stands::Clock) => None,
        Some(Stands::Input(_)) => None,
        Some(Stands::Output(_)) => None,
        Some(Stands::Wire(_)) => None,
        Some(Stands::Reg(_)) => None,
        None => None,
    }
}

fn reg(scope: &Scope, name: &Name) -> Option<usize>
    ensures { result ≡ reg_of_net (net_named scope.now name.now) }
{
    match net(scope, name) {
        Some(Net::Reg(reg)) => Some(reg),
        Some(Net::Input(_)) => None,
        Some(Net::Output(_)) => None,
        Some(Net::Wire(_)) => None,
        None => None,
    }
}

fn atom(scope: &Scope, atom: &Atom<Name>) -> Option<Atom<Net>>
    ensures named { result ≡ atom_named scope.now atom.now }
    ensures constants { All IsConstant (atom_constants atom.now) }
{
    match atom {
        Atom::Net(name) => {
            let net = net(scope, name)?;
            Some(Atom::Net(net))
        }
        Atom::Constant(constant) => {
            let _size = constant.width();
            Some(Atom::Constant(*constant))
        }
    }
}

// The right side with nets and arrays in place of names, where each name denotes one of its sort.
fn right(scope: &Scope, right: &Right<Name, Name>) -> Option<Right<Net, usize>>
    ensures named { result ≡ right_named scope.now right.now }
    ensures constants { IsSome result → All IsConstant (constants_of right.now) }
{
    match right {
        Right::Copy(a) => Some(Right::Copy(atom(scope, a)?)),
        Right::Not(a) => Some(Right::Not(atom(scope, a)?)),
        Right::Binary(o, a, b) => { Some(Right::Binary(*o, atom(scope, a)?, atom(scope, b)?)) }
        Right::Choose(c, a, b) => Some(Right::Choose(
            atom(scope, c)?,
            atom(scope, a)?,
            atom(scope, b)?,
        )),
        Right::Join(a, b) => Some(Right::Join(atom(scope, a)?, atom(scope, b)?)),
        Right::Repeat(n, a) => Some(Right::Repeat(*n, atom(scope, a)?)),
        Right::Bit(v, k) => Some(Right::Bit(net(scope, v)?, *k)),
        Right::Slice(v, m, l) => Some(Right::Slice(net(scope, v)?, *m, *l)),
        Right::Word(m, i) => Some(Right::Word(array(scope, m)?, atom(scope, i)?)),
    }
}

// The assign that a named one denotes.
pub(crate) fn assign(scope: &Scope, named: &NamedAssign) -> Option<Assign>
    ensures named { result ≡ assign_named scope.now named.now }
    ensures constants { IsSome result → All IsConstant (constants_of named.now.right) }
{
    let target = net(scope, &named.target)?;
    let right = right(scope, &named.right)?;
    Some(Assign { target, right })
}

// The update that a named one denotes.
pub(crate) fn update(scope: &Scope, named: &NamedUpdate) -> Option<Update>
    ensures named { result ≡ update_named scope.now named.now }
    ensures constants { IsSome result → All IsConstant (update_constants named.now) }
{
    match named {
        NamedUpdate::Set(r, a) => Some(Update::Set(reg(scope, r)?, atom(scope, a)?)),
        NamedUpdate::Put(m, i, a) => Some(Update::Put(
            array(scope, m)?,
            atom(scope, i)?,
            atom(scope, a)?,
        )),
    }
}

fn name_is_known(scope: &Scope, name: &Name) -> bool
    ensures { result ≡ is_some (stands_for scope.now name.now) }
{
    scope.find(name.as_bytes()).is_some()
}

fn atom_is_known(scope: &Scope, atom: &Atom<Name>) -> bool
    ensures { result ≡ all_known scope.now (atom_nets atom.now) }
{
    match atom {
        Atom::Net(name) => name_is_known(scope, name),
        Atom::Constant(_) => true,
    }
}

fn right_is_known(scope: &Scope, right: &Right<Name, Name>) -> bool
    ensures { result ≡ all_known scope.now (array_names right.now ++ nets_of right.now) }
{
    match right {
        Right::Copy(a) | Right::Not(a) | Right::Repeat(_, a) => atom_is_known(scope, a),
        Right::Binary(_, a, b) | Right::Join(a, b) => {
            atom_is_known(scope, a) && atom_is_known(scope, b)
        }
        Right::Choose(c, a, b) => {
            atom_is_known(scope, c) && atom_is_known(scope, a) && atom_is_known(scope, b)
        }
        Right::Bit(v, _) | Right::Slice(v, _, _) => name_is_known(scope, v),
        Right::Word(m, i) => name_is_known(scope, m) && atom_is_known(scope, i),
    }
}

// Whether each name of an assign is declared.
pub(crate) fn assign_is_known(scope: &Scope, named: &NamedAssign) -> bool
    ensures { result ≡ all_known scope.now (assign_names named.now) }
{
    name_is_known(scope, &named.target) && right_is_known(scope, &named.right)
}

// Whether each name of an update is declared.
pub(crate) fn update_is_known(scope: &Scope, named: &NamedUpdate) -> bool
    ensures { result ≡ all_known scope.now (update_names named.now) }
{
    match named {
        NamedUpdate::Set(r, a) => name_is_known(scope, r) && atom_is_known(scope, a),
        NamedUpdate::Put(m, i, a) => {
            name_is_known(scope, m) && atom_is_known(scope, i) && atom_is_known(scope, a)
        }
    }
}
