// The constraints of a system, in the order of their kinds.

ghost use Rattle.std.specs.Prelude.{◌≡◌, ◌<◌, ◌^◌, ◌++◌, IfOk, OnOk, map};
ghost use Rattle.raster_delay.specs.Delays.{AreImageCounts, AreReadsOf, IsReadAmong, begin_of, end_of, hold, start, read, keep, holds_of, starts_of, constraints_of};

use crate::network::Constraint;
use crate::placed::{PlacedRead, offset};
use dk_base::OutOfMemory;
use std::alloc::Global;

/// The node at which the image at place `k` begins: 0 for an input.
pub fn begin_node(inputs: usize, k: usize) -> usize
    requires { k < 2 ^ 32 }
    ensures { result ≡ begin_of inputs k }
{
    if k < inputs { 0 } else { k + 1 - inputs }
}

/// The node at which the image at place `k` ends.
pub fn end_node(inputs: usize, images: usize, k: usize) -> usize
    requires counts { AreImageCounts inputs images }
    requires place { k < 2 ^ 32 }
    ensures { result ≡ end_of inputs images k }
{
    images + 1 - inputs + k
}

/// The constraint of kind hold of the image at place `k`: it ends no earlier than it begins.
pub fn hold_constraint(inputs: usize, images: usize, k: usize) -> Constraint
    requires counts { AreImageCounts inputs images }
    requires place { k < images }
    ensures { result ≡ hold inputs images k }
{
    Constraint {
        source: begin_node(inputs, k),
        target: end_node(inputs, images, k),
        cost: 0,
    }
}

/// The constraint of kind start of the image at place `k`: it begins no earlier than the inputs.
pub fn start_constraint(inputs: usize, k: usize) -> Constraint
    requires { k < 2 ^ 32 }
    ensures { result ≡ start inputs k }
{
    Constraint {
        source: 0,
        target: begin_node(inputs, k),
        cost: 0,
    }
}

/// The constraint of kind read of a live read: its age is at least `age` clocks. A frame has `row` columns.
pub fn read_constraint(row: u32, age: u8, inputs: usize, r: PlacedRead) -> Constraint
    requires { IsReadAmong row (2 ^ 32) r }
    ensures { result ≡ read row age inputs r }
{
    let least = offset(row, r) + i64::from(age);
    Constraint {
        source: begin_node(inputs, r.g),
        target: begin_node(inputs, r.f),
        cost: least,
    }
}

/// The constraint of kind keep of a live read: its age is at most the depth of what is read. A frame has `row` columns.
pub fn keep_constraint(row: u32, inputs: usize, images: usize, r: PlacedRead) -> Constraint
    requires counts { AreImageCounts inputs images }
    requires within { IsReadAmong row (2 ^ 32) r }
    ensures { result ≡ keep row inputs images r }
{
    let most = -offset(row, r);
    Constraint {
        source: begin_node(inputs, r.f),
        target: end_node(inputs, images, r.g),
        cost: most,
    }
}

fn add_holds(all: &mut Vec<Constraint>, inputs: usize, images: usize) -> Result<(), OutOfMemory>
    requires { AreImageCounts inputs images }
    ensures { OnOk result (all.new.items ≡ all.old.items ++ holds_of inputs images) }
{
    for k in 0..images {
        all.push(hold_constraint(inputs, images, k))?;
    }
    Ok(())
}

fn add_starts(all: &mut Vec<Constraint>, inputs: usize, images: usize) -> Result<(), OutOfMemory>
    requires { AreImageCounts inputs images }
    ensures { OnOk result (all.new.items ≡ all.old.items ++ starts_of inputs images) }
{
    for k in inputs..images {
        all.push(start_constraint(inputs, k))?;
    }
    Ok(())
}

fn add_reads(
    all: &mut Vec<Constraint>,
    row: u32,
    age: u8,
    inputs: usize,
    images: usize,
    reads: &[PlacedRead],
) -> Result<(), OutOfMemory>
    requires { AreReadsOf row inputs images reads.now }
    ensures { OnOk result (all.new.items ≡ all.old.items ++ map (read row age inputs) reads.now) }
{
    for r in reads {
        all.push(read_constraint(row, age, inputs, *r))?;
    }
    Ok(())
}

fn add_keeps(
    all: &mut Vec<Constraint>,
    row: u32,
    inputs: usize,
    images: usize,
    reads: &[PlacedRead],
) -> Result<(), OutOfMemory>
    requires { AreReadsOf row inputs images reads.now }
    ensures { OnOk result (all.new.items
        ≡ all.old.items ++ map (keep row inputs images) reads.now) }
{
    for r in reads {
        all.push(keep_constraint(row, inputs, images, *r))?;
    }
    Ok(())
}

// The constraints, in the order of their kinds.
pub fn constraints(
    alloc: Global,
    row: u32,
    age: u8,
    inputs: usize,
    images: usize,
    reads: &[PlacedRead],
) -> Result<Vec<Constraint>, OutOfMemory>
    requires { AreReadsOf row inputs images reads.now }
    ensures { IfOk result (λ v. v.items ≡ constraints_of row age inputs images reads.now) }
{
    let mut all = Vec::new(alloc);
    add_holds(&mut all, inputs, images)?;
    add_starts(&mut all, inputs, images)?;
    add_reads(&mut all, row, age, inputs, images, reads)?;
    add_keeps(&mut all, row, inputs, images, reads)?;
    Ok(all)
}
