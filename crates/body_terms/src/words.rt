// Numbers, types and reads as text.

use dk_base::{OutOfMemory, Ty};
use itoa::Buffer;
use std::alloc::Global;

/// Adds a number in decimal.
pub fn push_number(to: &mut Vec<u8>, number: u64) -> Result<(), OutOfMemory> {
    let mut digits = Buffer::new();
    to.extend_from_slice(digits.format(number).as_bytes())?;
    Ok(())
}

/// Adds a type word.
pub fn push_type(to: &mut Vec<u8>, ty: Ty) -> Result<(), OutOfMemory> {
    to.extend_from_slice(if ty.is_signed() { b"s" } else { b"u" })?;
    push_number(to, u64::from(ty.width()))?;
    Ok(())
}

// Adds an offset after its coordinate.
fn push_offset(to: &mut Vec<u8>, offset: i32) -> Result<(), OutOfMemory> {
    if offset == 0 {
        return Ok(());
    }
    to.extend_from_slice(if offset < 0 { b"-" } else { b"+" })?;
    push_number(to, u64::from(offset.unsigned_abs()))?;
    Ok(())
}

/// Adds a read of the image of this name, without what may follow its bracket.
pub fn push_read(to: &mut Vec<u8>, name: &[u8], dx: i32, dy: i32) -> Result<(), OutOfMemory> {
    to.extend_from_slice(name)?;
    to.extend_from_slice(b"(x")?;
    push_offset(to, dx)?;
    to.extend_from_slice(b",y")?;
    push_offset(to, dy)?;
    to.extend_from_slice(b")")?;
    Ok(())
}

/// A name with a number behind it.
pub fn numbered(alloc: Global, stem: &[u8], number: u32) -> Result<Vec<u8>, OutOfMemory> {
    let mut name = Vec::from_slice(alloc, stem)?;
    name.push(b'_')?;
    push_number(&mut name, u64::from(number))?;
    Ok(name)
}
