// What is counted of a text whose bodies are cut.

ghost use Rattle.std.specs.Prelude.{◌≡◌, ◌≤◌, IfOk, length};
ghost use Rattle.pointwise_ir.specs.Programs.{bodies_of};
ghost use Rattle.body_levels.specs.Levels.{greatest_level as greatest_of};
ghost use Rattle.body_levels.specs.Reasons.{deep_bodies as deep_bodies_of};

use body_levels::{DeepBody, deep_bodies, greatest_level};
use dk_base::OutOfMemory;
use pointwise_ir::Program;
use std::alloc::Global;

/// What a text has whose bodies are cut: its definitions, the most levels of operators of a body, and the definitions whose bodies have more levels than was asked, each with the reason.
#[derive(Drop)]
pub struct Measures {
    pub definitions: u32,
    pub levels: u32,
    pub deep: Vec<DeepBody>,
}

// What a text of this form has.
pub(crate) fn measures_of(alloc: Global, form: &Program, most: u32) -> Result<Measures, OutOfMemory>
    requires most { most ≤ 255 }
    ensures definitions { IfOk result (λ m. m.definitions ≡ length form.now.images) }
    ensures levels { IfOk result (λ m. m.levels ≡ greatest_of (bodies_of form.now)) }
    ensures deep { IfOk result (λ m. m.deep.items ≡ deep_bodies_of most form.now) }
{
    form.law();
    let definitions = form.images().len() as u32;
    let levels = greatest_level(form);
    let deep = deep_bodies(alloc, form, most)?;
    Ok(Measures {
        definitions,
        levels,
        deep,
    })
}
