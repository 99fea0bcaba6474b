// A clock over slots: the values settle, and the edge comes.
ghost use Rattle.std.specs.Prelude.{◌≡◌, ◌+◌, length};
ghost use Rattle.cycle_sim.specs.Slots.{words_of};
ghost use Rattle.cycle_sim.specs.OneClock.{port_values, CanSettle, CanTakeEdge, Exchanges, Settles, TakesEdge};

use crate::edge::{
    Access, Edge, IndexRange, clock_edge, exchange_from, first_outside, put_from, put_ports,
};
use crate::settle::{Instruction, settle};
use netlist::Width;

// What a machine does, in the order in which it does it.
#[derive(Debug, Drop)]
pub struct Program {
    pub code: Vec<Instruction>,
    pub widths: Vec<Width>,
    pub accesses: Vec<Access>,
    pub edges: Vec<Edge>,
    pub enable: bool,
    pub first_reg: usize,
}

// The values settle by what the ports are given. Returns the first access outside its array.
pub fn settle_ports(
    program: &Program,
    values: &mut [u64],
    arrays: &[Vec<u64>],
    reset: bool,
    enable: bool,
    dins: &[u64],
) -> Result<(), IndexRange>
    requires { CanSettle program.now (words_of arrays.now)
        (port_values program.now.enable reset enable dins.now) values.old }
    ensures { Settles program.now (words_of arrays.now)
        (port_values program.now.enable reset enable dins.now) values.old values.new result }
{
    put_ports(values, program.enable, reset, enable, dins);
    settle(&program.code, &program.widths, arrays, values);
    match first_outside(&program.accesses, arrays, values) {
        Some(range) => Err(range),
        None => Ok(()),
    }
}

// The edge: each register and each word takes its value, by the values before.
pub fn take_edge(program: &Program, values: &mut [u64], staged: &mut [u64], arrays: &mut [Vec<u64>])
    requires { CanTakeEdge program.now values.old staged.old (words_of arrays.old) }
    ensures { TakesEdge program.now values.old values.new staged.old staged.new
        (words_of arrays.old) (words_of arrays.new) }
{
    clock_edge(&program.edges, values, staged, arrays);
    put_from(values, program.first_reg, staged);
}

// The same over vectors.
pub fn settle_vec(
    program: &Program,
    values: &mut Vec<u64>,
    arrays: &Vec<Vec<u64>>,
    reset: bool,
    enable: bool,
    dins: &[u64],
) -> Result<(), IndexRange>
    requires { CanSettle program.now (words_of arrays.now.items)
        (port_values program.now.enable reset enable dins.now) values.old.items }
    ensures { Settles program.now (words_of arrays.now.items)
        (port_values program.now.enable reset enable dins.now)
        values.old.items values.new.items result }
{
    settle_ports(program, values, arrays, reset, enable, dins)
}

// The same over vectors.
pub fn edge_vec(
    program: &Program,
    values: &mut Vec<u64>,
    staged: &mut Vec<u64>,
    arrays: &mut Vec<Vec<u64>>,
)
    requires { CanTakeEdge program.now values.old.items staged.old.items
        (words_of arrays.old.items) }
    ensures { TakesEdge program.now values.old.items values.new.items staged.old.items
        staged.new.items (words_of arrays.old.items) (words_of arrays.new.items) }
{
    take_edge(program, values, staged, arrays);
}

// Exchanges the numbers in the slots from this one on for others.
pub fn exchange_vec(values: &mut Vec<u64>, first: usize, numbers: &mut Vec<u64>)
    requires { first + length numbers.old.items ≡ length values.old.items }
    ensures { Exchanges first values.old.items values.new.items numbers.old.items
        numbers.new.items }
{
    exchange_from(values, first, numbers);
}

// Exchanges arrays for others.
pub fn exchange_arrays(arrays: &mut Vec<Vec<u64>>, others: &mut Vec<Vec<u64>>)
    ensures arrays { words_of arrays.new.items ≡ words_of others.old.items }
    ensures others { words_of others.new.items ≡ words_of arrays.old.items }
{
    std::mem::swap(arrays, others);
}
