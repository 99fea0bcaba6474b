// Made names, those that a builder gives: `dk` for the module, `n0` and so on for its wires, `r0` for its registers, `m0` for its arrays.

ghost use Rattle.std.specs.Prelude.{◌≡◌, ◌<◌, ℕ, List, IsTrue, IfOk, Some, slice_get, length};
ghost use Rattle.net_build.specs.Naming.{made_name as numbered, made_names, names_for};

use dk_base::OutOfMemory;
use netlist::{Module, Name};
use std::alloc::Global;

// The name with this letter and number.
pub(crate) fn made_name(alloc: Global, letter: &str, k: usize) -> Result<Vec<u8>, OutOfMemory>
    ensures { IfOk result (λ bytes. bytes.items ≡ numbered letter.now k) }
{
    let text = format!(in alloc; "{letter}{k}")?;
    Ok(text.into_bytes())
}

// Whether this is the name with this letter and number.
fn is_made(alloc: Global, name: &Name, letter: &str, k: usize) -> Result<bool, OutOfMemory>
    ensures { IfOk result (λ is. IsTrue is → name.now ≡ numbered letter.now k) }
{
    let made = made_name(alloc, letter, k)?;
    let same = name.as_bytes() == made.as_slice();
    Ok(same)
}

// Whether the name of this number is.
fn is_made_at(alloc: Global, names: &[Name], letter: &str, k: usize) -> Result<bool, OutOfMemory>
    requires { k < length names.now }
    ensures { IfOk result (λ is. IsTrue is → (x : List ℕ) → slice_get names.now k ≡ Some x → x ≡ numbered letter.now k) }
{
    let same = is_made(alloc, &names[k], letter, k)?;
    Ok(same)
}

// Whether these are the names with this letter and the numbers from 0 on.
fn are_made(alloc: Global, names: &[Name], letter: &str) -> Result<bool, OutOfMemory>
    ensures { IfOk result (λ is. IsTrue is → names.now ≡ made_names letter.now (length names.now)) }
{
    for k in 0..names.len() {
        if !is_made_at(alloc, names, letter, k)? {
            return Ok(false);
        }
    }
    Ok(true)
}

// Whether the module has the names that a builder gives its nets.
pub(crate) fn has_made_names(alloc: Global, module: &Module) -> Result<bool, OutOfMemory>
    ensures { IfOk result (λ is. IsTrue is → «module».now.names ≡ names_for «module».now.netlist) }
{
    let names = module.names();
    if names.module.as_bytes() != b"dk".as_slice() {
        return Ok(false);
    }
    if !are_made(alloc, &names.wires, "n")? {
        return Ok(false);
    }
    if !are_made(alloc, &names.regs, "r")? {
        return Ok(false);
    }
    let all = are_made(alloc, &names.arrays, "m")?;
    Ok(all)
}
