// Numbers, constants and ranges of bits.

ghost use Rattle.std.specs.Prelude.{◌≡◌, ◌++◌, ◌-◌, OnOk, decimal};
ghost use Rattle.verilog_layout.specs.Layout.{constant_layout, range_layout};

use itoa::Buffer;
use netlist::{Constant, Width};
use std::alloc::AllocError;

pub(crate) fn push_number(out: &mut Vec<u8>, number: u64) -> Result<(), AllocError>
    ensures { OnOk result (out.new.items ≡ out.old.items ++ decimal number) }
{
    let mut digits = Buffer::new();
    out.extend_from_slice(digits.format(number).as_bytes())?;
    Ok(())
}

pub(crate) fn push_constant(out: &mut Vec<u8>, constant: Constant) -> Result<(), AllocError>
    ensures { OnOk result (out.new.items ≡ out.old.items ++ constant_layout constant) }
{
    push_number(out, u64::from(constant.width()))?;
    out.extend_from_slice(b"'d")?;
    push_number(out, constant.value())?;
    Ok(())
}

// The range of this many bits, and a blank; nothing for one bit.
pub(crate) fn push_range(out: &mut Vec<u8>, width: Width) -> Result<(), AllocError>
    ensures { OnOk result (out.new.items ≡ out.old.items ++ range_layout width) }
{
    let bits = width.bits();
    if bits == 1 {
        return Ok(());
    }
    out.extend_from_slice(b"[")?;
    push_number(out, u64::from(bits - 1))?;
    out.extend_from_slice(b":0] ")?;
    Ok(())
}
