// The definitions of a program.

ghost use Rattle.std.specs.Prelude.{◌≡◌, ◌<◌, ◌++◌, ◌*◌, OnOk};
ghost use Rattle.made_program.specs.Draws.{after};
ghost use Rattle.made_program.specs.Programs.{opening, is_inline, definition, definitions};

use crate::draws::{Draws, draw_image};
use crate::pieces::{push_body, push_name, read};
use dk_base::OutOfMemory;
use std::alloc::Global;

// Image k, of `last` in all, is inline.
fn tells_inline(k: u32, last: u32, draws: Draws) -> bool
    ensures { result ≡ is_inline k last draws }
{
    draws.inlinable && k < last
}

// Adds what a definition begins with.
fn push_opening(to: &mut Vec<u8>, inline: bool) -> Result<(), OutOfMemory>
    ensures { OnOk result (to.new.items ≡ to.old.items ++ opening inline) }
{
    if inline {
        to.extend_from_slice(b"inline let ")
    } else {
        to.extend_from_slice(b"let ")
    }
}

// Adds the definition of image k, of `last` in all.
fn push_definition(
    alloc: Global,
    to: &mut Vec<u8>,
    k: u32,
    last: u32,
    draws: Draws,
) -> Result<(), OutOfMemory>
    requires { 0 < k }
    ensures { OnOk result (to.new.items ≡ to.old.items ++ definition k last draws) }
{
    let first = read(alloc, k - 1, draws.reads.first)?;
    let second = read(alloc, draws.reads.source, draws.reads.second)?;
    push_opening(to, tells_inline(k, last, draws))?;
    push_name(to, k)?;
    to.extend_from_slice(b" = im(x,y) ")?;
    push_body(to, draws.kind, &first, &second)?;
    to.extend_from_slice(b" end\n")?;
    Ok(())
}

// Adds the definitions of images 1 to `last`, and draws what belongs to them.
pub(crate) fn push_definitions(
    alloc: Global,
    to: &mut Vec<u8>,
    last: u32,
    state: &mut u16,
) -> Result<(), OutOfMemory>
    ensures items { OnOk result (to.new.items ≡ to.old.items ++ definitions last state.old) }
    ensures state { OnOk result (state.new ≡ after (7 * last) state.old) }
{
    for index in 0..last {
        let k = index + 1;
        let draws = draw_image(state, k);
        push_definition(alloc, to, k, last, draws)?;
    }
    Ok(())
}
