// Types as text.

use dk_base::{OutOfMemory, Ty};
use itoa::Buffer;

// Adds a type word.
pub(crate) fn push_type(to: &mut Vec<u8>, ty: Ty) -> Result<(), OutOfMemory> {
    let mut digits = Buffer::new();
    to.extend_from_slice(if ty.is_signed() { b"s" } else { b"u" })?;
    to.extend_from_slice(digits.format(u64::from(ty.width())).as_bytes())?;
    Ok(())
}
