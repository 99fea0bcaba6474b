// Widths of ports.

ghost use Rattle.std.specs.Prelude.{◌≡◌, ◌++◌, ◌∷◌, [], if◌then◌else◌, All, IfOk, OnOk};
ghost use Rattle.wiring.specs.Rules.{IsPortWidth, with_valids};

use dk_base::OutOfMemory;
use std::alloc::Global;
use wiring::Width;

fn control_widths(alloc: Global, enable: bool) -> Result<Vec<Width>, OutOfMemory>
    ensures { IfOk result (λ widths. widths.items ≡ 1 ∷ (if enable then 1 ∷ [] else [])) }
{
    let one = Width::new(1);
    let mut widths = Vec::new(alloc);
    widths.push(one)?;
    if enable {
        widths.push(one)?;
        return Ok(widths);
    }
    Ok(widths)
}

fn push_widths(widths: &mut Vec<Width>, dins: &[u8]) -> Result<(), OutOfMemory>
    requires { All IsPortWidth dins.now }
    ensures { OnOk result (widths.new.items ≡ widths.old.items ++ dins.now) }
{
    for bits in dins {
        widths.push(Width::new(*bits))?;
    }
    Ok(())
}

// Those of `rst`, of `en` where there is one, and of each `din`.
pub fn input_widths(alloc: Global, enable: bool, dins: &[u8]) -> Result<Vec<Width>, OutOfMemory>
    requires { All IsPortWidth dins.now }
    ensures { IfOk result (λ widths. widths.items
        ≡ 1 ∷ (if enable then 1 ∷ dins.now else dins.now)) }
{
    let mut widths = control_widths(alloc, enable)?;
    push_widths(&mut widths, dins)?;
    Ok(widths)
}

// Those of each `valid` and `dout`.
pub fn output_widths(alloc: Global, douts: &[u8]) -> Result<Vec<Width>, OutOfMemory>
    requires { All IsPortWidth douts.now }
    ensures { IfOk result (λ widths. widths.items ≡ with_valids douts.now) }
{
    let mut widths = Vec::new(alloc);
    for bits in douts {
        widths.push(Width::new(1))?;
        widths.push(Width::new(*bits))?;
    }
    Ok(widths)
}

// The number of the first `din` among the inputs.
pub fn first_din(enable: bool) -> usize
    ensures { result ≡ (if enable then 2 else 1) }
{
    if enable { 2 } else { 1 }
}
