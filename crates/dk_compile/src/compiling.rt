// From a text to the Verilog text of its circuit.

ghost use Rattle.std.specs.Prelude.{◌≡◌, ◌≤◌, false, None, IfOk, IfErr, IfSome};
ghost use Rattle.dk_base.specs.declared.TheConstants.{MAX_AGE};
ghost use Rattle.dk_types.specs.Typed.{Typing, typing_of};
ghost use Rattle.flow_dual.specs.Solutions.{IsSolution};
ghost use Rattle.wiring.specs.BufferBits.{array_bits};
ghost use Rattle.net_build.specs.Naming.{names_for};
ghost use Rattle.buffer_plan.specs.Plans.{IsPlan, bits_of};
ghost use Rattle.buffer_plan.specs.Limits.{IsPlanFault};
ghost use Rattle.circuit.specs.Behaviour.{IsPlanOf};
ghost use Rattle.dk_compile.specs.Sources.{IsErrorBy};
ghost use Rattle.dk_compile.specs.Limits.{IsFaultAt};
ghost use Rattle.dk_compile.specs.Circuits.{IsCircuitOf};
ghost use Rattle.dk_compile.specs.Packed.{IsPackedCircuitOf};
ghost use Rattle.dk_compile.specs.Compiled.{IsPlanned, IsTextOf, IsCompiled};

use crate::accepted::Front;
use crate::fault::SourceError;
use crate::options::Options;
use crate::reading::front;
use array_packing::pack;
use buffer_plan::{Plan, PlanFault, plan};
use circuit::{BlockChain, Built, Chain, build_with, finer_ages, frame_drive_law};
use dk_base::{OutOfMemory, Stencils};
use dk_types::TypedProgram;
use flow_dual::{Solution, solve};
use netlist::Module;
use pointwise_ir::Program;
use raster_delay::System;
use std::alloc::Global;
use verilog_print::print;
use wiring::Net;

/// A program with its plan: its images as they are written, its images without inline ones, the system of its live reads, the solution that shows the bits least, and the plan of the least vector.
#[derive(Drop)]
pub struct PlannedProgram {
    pub program: TypedProgram,
    pub ir: Program,
    pub system: System,
    pub solution: Solution,
    pub plan: Plan,
}

/// A program that is compiled: its plan with what that rests on, its module with the nets of the kept images and of the live reads in order, and the Verilog text of the module. With `block` the module's arrays are packed.
#[derive(Drop)]
pub struct Compiled {
    pub ir: Program,
    pub system: System,
    pub solution: Solution,
    pub plan: Plan,
    pub module: Module,
    pub nets: Vec<Net>,
    pub reads: Vec<Net>,
    pub text: Vec<u8>,
}

// A plan with what it rests on.
#[derive(Drop)]
struct LeastPlan {
    system: System,
    solution: Solution,
    plan: Plan,
}

// A module with the nets of the kept images and of the live reads, and its text.
#[derive(Drop)]
struct PrintedModule {
    module: Module,
    nets: Vec<Net>,
    reads: Vec<Net>,
    text: Vec<u8>,
}

// The plan of least bits of these live reads at an age.
fn solved(alloc: Global, stencils: &Stencils, age: u8) -> Result<LeastPlan, PlanFault>
    requires age { age ≤ MAX_AGE }
    ensures system { IfOk result (λ r. r.system ≡ record { stencils = stencils.now; age = age }) }
    ensures solution { IfOk result (λ r. IsSolution r.system r.solution) }
    ensures plan { IfOk result (λ r. r.plan ≡ record { system = r.system; delays = r.solution.delays }) }
    ensures within { IfOk result (λ r. IsPlan r.plan) }
    ensures fault { IfErr result (IsPlanFault (record { stencils = stencils.now; age = age })) }
{
    let system = System::aged(alloc, stencils, age)?;
    let solution = solve(alloc, &system)?;
    let plan = plan(alloc, &system, &solution)?;
    plan.law();
    Ok(LeastPlan {
        system,
        solution,
        plan,
    })
}

/// The program of a text with the plan of its live reads at this age, at most 64 clocks, or the first fault of the text at it.
pub fn planned(alloc: Global, text: &[u8], age: u8) -> Result<PlannedProgram, SourceError>
    requires age { age ≤ MAX_AGE }
    ensures planned { IfOk result (λ r. IsPlanned text.now age (typing_of r.program) r.ir r.system r.solution r.plan) }
    ensures fault { IfErr result (IsErrorBy (IsFaultAt text.now age)) }
{
    let Front {
        program,
        ir,
        stencils,
    } = front(alloc, text)?;
    let LeastPlan {
        system,
        solution,
        plan,
    } = solved(alloc, &stencils, age)?;
    Ok(PlannedProgram {
        program,
        ir,
        system,
        solution,
        plan,
    })
}

// The module of a plan.
fn built(alloc: Global, ir: &Program, plan: &Plan, options: Options) -> Result<Built, OutOfMemory>
    requires plan { IsPlanOf ir.now plan.now (record { enable = options.enable; age = options.age }) }
    requires block { IfSome options.block (λ least. 2 ≤ least) }
    ensures circuit { IfOk result (λ r. IsCircuitOf ir.now plan.now options.enable options.block r.«module».netlist r.nets.items r.reads.items) }
    ensures named { IfOk result (λ r. r.«module».names ≡ names_for r.«module».netlist) }
{
    ir.law();
    frame_drive_law();
    let asked = circuit::Options {
        enable: options.enable,
        age: options.age,
    };
    match options.block {
        None => {
            let made = build_with(alloc, ir, plan, &Chain, asked)?;
            Ok(made)
        }
        Some(least) => {
            let splits = finer_ages(alloc, plan, least)?;
            let form = BlockChain::new(least, splits);
            let made = build_with(alloc, ir, plan, &form, asked)?;
            Ok(made)
        }
    }
}

// The module of a circuit: with a number, its arrays of at least that many words are packed.
fn packed(
    alloc: Global,
    ir: &Program,
    plan: &Plan,
    circuit: Built,
    options: Options,
) -> Result<Built, OutOfMemory>
    requires circuit { IsCircuitOf ir.now plan.now options.enable options.block circuit.«module».netlist circuit.nets.items circuit.reads.items }
    requires named { circuit.«module».names ≡ names_for circuit.«module».netlist }
    ensures packed { IfOk result (λ r. IsPackedCircuitOf ir.now plan.now options.enable options.block r.«module».netlist r.nets.items r.reads.items) }
    ensures named { IfOk result (λ r. r.«module».names ≡ names_for r.«module».netlist) }
    ensures bits { IfOk result (λ r. array_bits r.«module».netlist.arrays ≡ bits_of plan.now) }
{
    ir.law();
    let Some(least) = options.block else {
        return Ok(circuit);
    };
    let Built {
        module,
        nets,
        reads,
    } = circuit;
    let packed = pack(alloc, module, least)?;
    let module = packed.module;
    let _wiring = module.wiring();
    let _order = module.order();
    Ok(Built {
        module,
        nets,
        reads,
    })
}

// The module of a plan, and its text.
fn printed(
    alloc: Global,
    ir: &Program,
    plan: &Plan,
    options: Options,
) -> Result<PrintedModule, OutOfMemory>
    requires plan { IsPlanOf ir.now plan.now (record { enable = options.enable; age = options.age }) }
    requires block { IfSome options.block (λ least. 2 ≤ least) }
    ensures circuit { IfOk result (λ r. IsPackedCircuitOf ir.now plan.now options.enable options.block r.«module».netlist r.nets.items r.reads.items) }
    ensures text { IfOk result (λ r. IsTextOf r.«module» r.text.items) }
{
    plan.law();
    let circuit = built(alloc, ir, plan, options)?;
    let Built {
        module,
        nets,
        reads,
    } = packed(alloc, ir, plan, circuit, options)?;
    let text = print(alloc, &module)?;
    Ok(PrintedModule {
        module,
        nets,
        reads,
        text,
    })
}

/// The Verilog text of the circuit of a program, with the port `en` if it is requested, at an age of at most 64 clocks, and with arrays of at least `block` words in the form of block memories and packed; or the first fault of the text at this age. The Verilog text is in the language of IEEE Std 1364-2005.
pub fn compile_with(alloc: Global, text: &[u8], options: Options) -> Result<Compiled, SourceError>
    requires age { options.age ≤ MAX_AGE }
    requires block { IfSome options.block (λ least. 2 ≤ least) }
    ensures compiled { IfOk result (λ c. (p : Typing)
        × IsCompiled text.now options.age options.enable options.block p c.ir c.system c.solution c.plan c.«module» c.nets.items c.reads.items c.text.items) }
    ensures fault { IfErr result (IsErrorBy (IsFaultAt text.now options.age)) }
{
    let PlannedProgram {
        program: _,
        ir,
        system,
        solution,
        plan,
    } = planned(alloc, text, options.age)?;
    let PrintedModule {
        module,
        nets,
        reads,
        text: verilog,
    } = printed(alloc, &ir, &plan, options)?;
    Ok(Compiled {
        ir,
        system,
        solution,
        plan,
        module,
        nets,
        reads,
        text: verilog,
    })
}

/// The Verilog text of the circuit of a program, without the port `en`, at age 0.
pub fn compile(alloc: Global, text: &[u8]) -> Result<Compiled, SourceError>
    ensures compiled { IfOk result (λ c. (p : Typing) × IsCompiled text.now 0 false None
        p c.ir c.system c.solution c.plan c.«module» c.nets.items c.reads.items c.text.items) }
    ensures fault { IfErr result (IsErrorBy (IsFaultAt text.now 0)) }
{
    let options = Options {
        enable: false,
        age: 0,
        block: None,
    };
    compile_with(alloc, text, options)
}
