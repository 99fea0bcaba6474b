// Assigns over slots, in evaluation order.
ghost use Rattle.std.specs.Prelude.{◌≡◌, ℕ};
ghost use Rattle.cycle_sim.specs.Slots.{words_of};
ghost use Rattle.cycle_sim.specs.Code.{CodeIsSafe, run_code};

use crate::evaluate::evaluate;
use netlist::{Right, Width};

// A slot, and the right side that it takes.
#[derive(Clone, Copy, Debug)]
pub struct Instruction {
    pub target: usize,
    pub right: Right<usize, usize>,
}

// Gives each target its value, one after another.
pub fn settle(code: &[Instruction], widths: &[Width], arrays: &[Vec<u64>], values: &mut [u64])
    requires { CodeIsSafe widths.now (words_of arrays.now) code.now values.old }
    ensures { values.new ≡ run_code widths.now (words_of arrays.now) code.now values.old }
{
    for instruction in code {
        let value = evaluate(widths, arrays, values, &instruction.right);
        values[instruction.target] = value;
    }
}
