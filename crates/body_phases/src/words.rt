// Numbers, types and points as text.

use dk_base::{OutOfMemory, Ty};
use itoa::Buffer;

// Adds a number in decimal.
pub(crate) fn push_number(to: &mut Vec<u8>, number: u64) -> Result<(), OutOfMemory> {
    let mut digits = Buffer::new();
    to.extend_from_slice(digits.format(number).as_bytes())?;
    Ok(())
}

// Adds a type after a colon.
pub(crate) fn push_typing(to: &mut Vec<u8>, ty: Ty) -> Result<(), OutOfMemory> {
    to.extend_from_slice(b" : ")?;
    to.extend_from_slice(if ty.is_signed() { b"s" } else { b"u" })?;
    push_number(to, u64::from(ty.width()))
}

// Adds an offset after its coordinate.
fn push_offset(to: &mut Vec<u8>, offset: i64) -> Result<(), OutOfMemory> {
    if offset == 0 {
        return Ok(());
    }
    to.extend_from_slice(if offset < 0 { b"-" } else { b"+" })?;
    push_number(to, offset.unsigned_abs())
}

// Adds the point of a read, and whether it is brought to the frame's edge.
pub(crate) fn push_point(
    to: &mut Vec<u8>,
    dx: i64,
    dy: i64,
    is_clamped: bool,
) -> Result<(), OutOfMemory> {
    to.extend_from_slice(b"(x")?;
    push_offset(to, dx)?;
    to.extend_from_slice(b",y")?;
    push_offset(to, dy)?;
    to.extend_from_slice(b")")?;
    if is_clamped {
        to.extend_from_slice(b" edge clamp")?;
    }
    Ok(())
}
