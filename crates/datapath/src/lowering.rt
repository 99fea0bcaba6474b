// The net of an expression.

ghost use Rattle.std.specs.Prelude.{◌≡◌, ℕ, ◌+◌, ◌<◌, ◌≤◌, ◌^◌, List, [], ◌∷◌, length, slice_get, Some, IfOk};
ghost use Rattle.dk_base.specs.Types.{IsType, IsIn, width_of};
ghost use Rattle.dk_base.specs.Numbers.{code};
ghost use Rattle.wiring.specs.Netlist.{Netlist};
ghost use Rattle.pointwise_ir.specs.Trees.{Tree, tree_of};
ghost use Rattle.pointwise_ir.specs.Typing.{HasType};
ghost use Rattle.datapath.specs.declared.operand.Signal.TheVariants as signal;
ghost use Rattle.datapath.specs.Nets.{Folds, Grows, HasWidth, IsKnown, IsMadeOver};
ghost use Rattle.datapath.specs.Operands.{IsOperand, Carries, worth};
ghost use Rattle.wiring.specs.declared.netlist.Net.{Net};
ghost use Rattle.dk_base.specs.declared.ty.Ty.{Ty};
ghost use Rattle.datapath.specs.Expressions.{IsLeafless, AreLeaves, LeavesAreOperands, HasLeaves, IsLowered, IsMadeOfLeaves, AreReadsOf, IsTyped, type_of, types_in, edge_bits, edged, set_in};
ghost use Rattle.datapath.specs.Levels.{edge_levels, logic_levels};
ghost use Rattle.datapath.specs.Walks.{IsPartAt, IsWalked};

use crate::apply::{binary, converted, gated, scaled, unary};
use crate::comparison::choice;
use crate::constants::constant;
use crate::operand::{Operand, Signal};
use crate::words::net_of;
use dk_base::{OutOfMemory, Ty, wrap};
use net_build::Builder;
use pointwise_ir::{Edge, Expr};
use wiring::Net;

/// What denotes the leaves of an expression, in the order of its nodes: a type and a net for each read, and a net of one bit for each shifted part that is not clamped.
#[derive(Debug, Drop)]
pub struct Leaves {
    pub reads: Vec<(Ty, Net)>,
    pub bits: Vec<Net>,
}

// The numbers of the leaves that come next.
#[derive(Clone, Copy)]
struct Place {
    read: usize,
    bit: usize,
}

// The operand of a part of an expression, and which leaves come after it.
#[derive(Clone, Copy)]
struct Walked {
    operand: Operand,
    after: Place,
}

// An operand, and the leaves that come after it.
fn placed(operand: Operand, after: Place) -> Walked
    ensures { result ≡ record { operand = operand; after = after } }
{
    Walked { operand, after }
}

fn read_at(reads: &[(Ty, Net)], k: usize) -> (Ty, Net)
    requires { k < length reads.now }
    ensures { slice_get reads.now k ≡ Some result }
{
    reads[k]
}

// The operand of the read that comes next.
fn leaf(read: (Ty, Net), at: Place) -> Walked
    requires { at.read + 1 < 2 ^ 64 }
    ensures { result ≡ record { operand = record { bits = signal.Net read.1; ty = read.0 }; after = record { read = at.read + 1; bit = at.bit } } }
{
    let (ty, net) = read;
    Walked {
        operand: Operand {
            bits: Signal::Net(net),
            ty,
        },
        after: Place {
            read: at.read + 1,
            bit: at.bit,
        },
    }
}

fn bit_at(bits: &[Net], k: usize) -> Net
    requires { k < length bits.now }
    ensures { slice_get bits.now k ≡ Some result }
{
    bits[k]
}

// The bits of a number.
fn code_of(value: i128, ty: Ty) -> u64
    requires { IsType ty }
    ensures code { result ≡ code (width_of ty) value }
    ensures fits { result < 2 ^ width_of ty }
{
    wrap(value, Ty::Unsigned(ty.width())) as u64
}

// The operand of a literal.
fn literal(value: i128, ty: Ty) -> Operand
    requires ty { IsType ty }
    requires value { IsIn ty value }
    ensures value { (b : Netlist) → Carries b result ty (λ s. value) }
    ensures made { (b : Netlist) → IsMadeOver b 0 result.bits [] }
    ensures known { IsKnown result.bits }
{
    let bits = constant(ty.width(), code_of(value, ty));
    Operand { bits, ty }
}

// The place after the bit of a shifted part.
fn below_edge(edge: Edge, at: Place) -> Place
    requires { at.bit + edge_bits edge < 2 ^ 64 }
    ensures read { result.read ≡ at.read }
    ensures bit { result.bit ≡ at.bit + edge_bits edge }
{
    match edge {
        Edge::Zero => Place {
            read: at.read,
            bit: at.bit + 1,
        },
        Edge::Clamp => at,
    }
}

// A shifted part, which is 0 where its bit is 0. Where it is clamped, it has no bit.
#[tactic(auto, using(crate::proofs::Carried::later))]
fn shifted(
    b: &mut Builder,
    edge: Edge,
    bits: &[Net],
    k: usize,
    x: Operand,
) -> Result<Operand, OutOfMemory>
    requires x { IsOperand b.old x }
    requires bit { k + edge_bits edge ≤ length bits.now }
    requires one_bit { (j : ℕ) (n : Net) → slice_get bits.now j ≡ Some n → HasWidth b.old (signal.Net n) 1 }
    ensures grows { Grows b.old b.new }
    ensures value { IfOk result (λ r. Carries b.new r x.ty (λ s. edged edge (set_in s bits.now k) (worth s x))) }
    ensures made { IfOk result (λ r. (reads : List (Ty × Net)) (levels : ℕ) → IsMadeOfLeaves b.old levels x.bits reads bits.now
        → IsMadeOfLeaves b.new (edge_levels edge + levels) r.bits reads bits.now) }
    ensures folds { IfOk result (λ r. edge_bits edge ≡ 0 → Folds b.old b.new r.bits (x.bits ∷ [])) }
{
    match edge {
        Edge::Zero => {
            let gate = gated(b, bit_at(bits, k), x)?;
            Ok(gate)
        }
        Edge::Clamp => Ok(x),
    }
}

// A law, called where the walk of a part begins after another's: what it needs is known there.
fn begins_law(part: &Expr, b: &Builder, reads: &[(Ty, Net)], bits: &[Net], at: Place)
    requires leaves { LeavesAreOperands b.now reads.now bits.now }
    requires part { IsPartAt (tree_of part.now) reads.now bits.now at.read at.bit }
    ensures leaves { LeavesAreOperands b.now reads.now bits.now }
    ensures part { IsPartAt (tree_of part.now) reads.now bits.now at.read at.bit }
{}

// The operand of a part of an expression, whose leaves begin at a place on.
#[tactic(auto, using(crate::proofs::Carried::later))]
fn walk(
    e: &Expr,
    b: &mut Builder,
    reads: &[(Ty, Net)],
    bits: &[Net],
    at: Place,
) -> Result<Walked, OutOfMemory>
    requires leaves { LeavesAreOperands b.old reads.now bits.now }
    requires part { IsPartAt (tree_of e.now) reads.now bits.now at.read at.bit }
    ensures grows { Grows b.old b.new }
    ensures walked { IfOk result (λ w. IsWalked b.new w (tree_of e.now) reads.now bits.now at.read at.bit) }
    ensures folds { IfOk result (λ w. IsLeafless (tree_of e.now) → IsKnown w.operand.bits × (b.new ≡ b.old)) }
{
    match e {
        Expr::Constant(value, ty) => Ok(placed(literal(*value, *ty), at)),
        Expr::Read(_, _, _, _) => Ok(leaf(read_at(reads, at.read), at)),
        Expr::Shifted(edge, _, _, body) => {
            let x = walk(body, b, reads, bits, below_edge(*edge, at))?;
            Ok(placed(shifted(b, *edge, bits, at.bit, x.operand)?, x.after))
        }
        Expr::Unary(operator, body) => {
            let x = walk(body, b, reads, bits, at)?;
            Ok(placed(unary(b, *operator, x.operand)?, x.after))
        }
        Expr::Binary(operator, left, right) => {
            let x = walk(left, b, reads, bits, at)?;
            let right: &Expr = right;
            begins_law(right, b, reads, bits, x.after);
            let y = walk(right, b, reads, bits, x.after)?;
            Ok(placed(binary(b, *operator, x.operand, y.operand)?, y.after))
        }
        Expr::Select(condition, first, second) => {
            let c = walk(condition, b, reads, bits, at)?;
            let first: &Expr = first;
            begins_law(first, b, reads, bits, c.after);
            let x = walk(first, b, reads, bits, c.after)?;
            let second: &Expr = second;
            begins_law(second, b, reads, bits, x.after);
            let y = walk(second, b, reads, bits, x.after)?;
            Ok(placed(choice(b, c.operand, x.operand, y.operand)?, y.after))
        }
        Expr::Convert(how, body, ty) => {
            let x = walk(body, b, reads, bits, at)?;
            Ok(placed(converted(b, *how, x.operand, *ty)?, x.after))
        }
        Expr::Scale(operator, body, by) => {
            let x = walk(body, b, reads, bits, at)?;
            Ok(placed(scaled(b, *operator, x.operand, *by)?, x.after))
        }
    }
}

/// A law: an expression that has a type over its images is typed over its leaves, and has that type there.
pub fn typed_over_leaves_law()
    ensures { (types : List Ty) (e : Tree) (t : Ty) (reads : List (Ty × Net)) → ((g : ℕ) (s : Ty) → slice_get types g ≡ Some s → IsType s) → HasType types e t
        → AreReadsOf types e (types_in reads) 0 → IsTyped e (types_in reads) 0 × (type_of e (types_in reads) 0 ≡ t) }
{}

/// The net of an expression over the nets of its leaves. Its bits, read in the expression's type, are the expression's value over what the leaves' nets say. It adds wires alone, no assign that reads an array, and is made of the leaves' nets alone, with at most as many operators on a path from one as `logic_levels` counts. Where there is no leaf, it is a constant, and takes one assign at most. It calls itself as deep as the expression is.
pub fn lower(e: &Expr, b: &mut Builder, leaves: &Leaves) -> Result<Net, OutOfMemory>
    requires nets { AreLeaves b.old leaves.now.reads.items leaves.now.bits.items }
    requires leaves { HasLeaves (tree_of e.now) leaves.now.reads.items leaves.now.bits.items }
    ensures grows { Grows b.old b.new }
    ensures value { IfOk result (IsLowered b.new (tree_of e.now) leaves.now.reads.items leaves.now.bits.items) }
    ensures made { IfOk result (λ n. IsMadeOfLeaves b.new (logic_levels (tree_of e.now)) (signal.Net n) leaves.now.reads.items leaves.now.bits.items) }
    ensures constant { IfOk result (λ n. IsLeafless (tree_of e.now) → length b.new.assigns ≤ length b.old.assigns + 1) }
{
    b.law();
    let reads = leaves.reads.as_slice();
    let bits = leaves.bits.as_slice();
    let first = Place { read: 0, bit: 0 };
    let x = walk(e, b, reads, bits, first)?;
    let net = net_of(b, x.operand.ty.width(), x.operand.bits)?;
    Ok(net)
}
