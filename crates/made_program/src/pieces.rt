// The parts of a definition: numbers, names, reads and bodies.

ghost use Rattle.std.specs.Prelude.{◌≡◌, ◌++◌, OnOk, IfOk, decimal, codes};
ghost use Rattle.made_program.specs.declared.draws.BodyKind.TheVariants as kind;
ghost use Rattle.made_program.specs.Programs.{step, name, read, body};

use crate::draws::{BodyKind, DrawnOffset};
use dk_base::OutOfMemory;
use itoa::Buffer;
use std::alloc::Global;

// Adds a number in decimal.
pub(crate) fn push_number(to: &mut Vec<u8>, number: u64) -> Result<(), OutOfMemory>
    ensures { OnOk result (to.new.items ≡ to.old.items ++ decimal number) }
{
    let mut digits = Buffer::new();
    to.extend_from_slice(digits.format(number).as_bytes())?;
    Ok(())
}

// Adds the step of a draw below 5.
fn push_step(to: &mut Vec<u8>, number: u32) -> Result<(), OutOfMemory>
    ensures { OnOk result (to.new.items ≡ to.old.items ++ step number) }
{
    match number {
        0 => to.extend_from_slice(b"-2"),
        1 => to.extend_from_slice(b"-1"),
        3 => to.extend_from_slice(b"+1"),
        4 => to.extend_from_slice(b"+2"),
        _ => Ok(()),
    }
}

// Adds the name of an image.
pub(crate) fn push_name(to: &mut Vec<u8>, image: u32) -> Result<(), OutOfMemory>
    ensures { OnOk result (to.new.items ≡ to.old.items ++ name image) }
{
    if image == 0 {
        return to.extend_from_slice(b"a");
    }
    to.extend_from_slice(b"i")?;
    push_number(to, u64::from(image))?;
    Ok(())
}

// The text of a read.
pub(crate) fn read(alloc: Global, image: u32, offset: DrawnOffset) -> Result<Vec<u8>, OutOfMemory>
    ensures { IfOk result (λ text. text.items ≡ read image offset) }
{
    let mut text = Vec::new(alloc);
    push_name(&mut text, image)?;
    text.extend_from_slice(b"(x")?;
    push_step(&mut text, offset.dx)?;
    text.extend_from_slice(b",y")?;
    push_step(&mut text, offset.dy)?;
    text.extend_from_slice(b")")?;
    Ok(text)
}

fn push_mean(to: &mut Vec<u8>, first: &[u8], second: &[u8]) -> Result<(), OutOfMemory>
    ensures { OnOk result (to.new.items ≡ to.old.items ++ body kind.Mean first.now second.now) }
{
    to.extend_from_slice(b"((")?;
    to.extend_from_slice(first)?;
    to.extend_from_slice(b"+")?;
    to.extend_from_slice(second)?;
    to.extend_from_slice(b")/2) as u8")?;
    Ok(())
}

fn push_greater(to: &mut Vec<u8>, first: &[u8], second: &[u8]) -> Result<(), OutOfMemory>
    ensures { OnOk result (to.new.items ≡ to.old.items ++ body kind.Greater first.now second.now) }
{
    to.extend_from_slice(b"max(")?;
    to.extend_from_slice(first)?;
    to.extend_from_slice(b",")?;
    to.extend_from_slice(second)?;
    to.extend_from_slice(b")")?;
    Ok(())
}

fn push_difference(to: &mut Vec<u8>, first: &[u8], second: &[u8]) -> Result<(), OutOfMemory>
    ensures { OnOk result (to.new.items ≡ to.old.items ++ body kind.Difference first.now second.now) }
{
    to.extend_from_slice(b"abs(")?;
    to.extend_from_slice(first)?;
    to.extend_from_slice(b"-")?;
    to.extend_from_slice(second)?;
    to.extend_from_slice(b") as u8")?;
    Ok(())
}

// Adds the choice of the first one, and what comes before its other case.
fn push_choice(to: &mut Vec<u8>, first: &[u8], second: &[u8]) -> Result<(), OutOfMemory>
    ensures { OnOk result (to.new.items ≡ to.old.items ++ (codes "select(" ++ (first.now ++ (codes "<" ++ (second.now ++ (codes "," ++ first.now)))))) }
{
    to.extend_from_slice(b"select(")?;
    to.extend_from_slice(first)?;
    to.extend_from_slice(b"<")?;
    to.extend_from_slice(second)?;
    to.extend_from_slice(b",")?;
    to.extend_from_slice(first)?;
    Ok(())
}

// Adds a quarter of three parts of the first one and one of the second.
fn push_quarter(to: &mut Vec<u8>, first: &[u8], second: &[u8]) -> Result<(), OutOfMemory>
    ensures { OnOk result (to.new.items ≡ to.old.items ++ (codes ",(" ++ (first.now ++ (codes "*3+" ++ (second.now ++ codes ")>>2) as u8"))))) }
{
    to.extend_from_slice(b",(")?;
    to.extend_from_slice(first)?;
    to.extend_from_slice(b"*3+")?;
    to.extend_from_slice(second)?;
    to.extend_from_slice(b")>>2) as u8")?;
    Ok(())
}

fn push_weighted(to: &mut Vec<u8>, first: &[u8], second: &[u8]) -> Result<(), OutOfMemory>
    ensures { OnOk result (to.new.items ≡ to.old.items ++ body kind.Weighted first.now second.now) }
{
    push_choice(to, first, second)?;
    push_quarter(to, first, second)?;
    Ok(())
}

// Adds the body of a kind over two reads.
pub(crate) fn push_body(
    to: &mut Vec<u8>,
    kind: BodyKind,
    first: &[u8],
    second: &[u8],
) -> Result<(), OutOfMemory>
    ensures { OnOk result (to.new.items ≡ to.old.items ++ body kind first.now second.now) }
{
    match kind {
        BodyKind::Mean => push_mean(to, first, second),
        BodyKind::Greater => push_greater(to, first, second),
        BodyKind::Difference => push_difference(to, first, second),
        BodyKind::Weighted => push_weighted(to, first, second),
    }
}
