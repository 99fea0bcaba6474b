// What a Verilog text that a program is compiled to denotes, and what `sim` shows of it.

ghost use Rattle.std.specs.Prelude.{◌≡◌, ℕ, Bool, List, Option};
ghost use Rattle.dk_compile.specs.Correct.{IsCorrect};
ghost use Rattle.dk_top.specs.Compiling.{IsCompiledText};
ghost use Rattle.dk_top.specs.Output.{output_file};
ghost use Rattle.dk_top.specs.Simulation.{IsSimulated};
ghost use Rattle.dk_words.specs.declared.command.PowerUp.{PowerUp as OnePower};
ghost use Rattle.dk_laws.specs.Agreement.{CompiledInput, whole_drive};

/// The theorem of the compiler: if the call ends with Done, then whatever text `compile` leaves in OUT (`IsCompiledText`), it denotes one module. This module has
/// the program's ports. From any contents it shows the program's pictures, and it stands still while `en` is 0. Its arrays have the fewest bits of all causal
/// schedules of the program's images; without `block` they are all that is stored of what came in.
pub fn correct_law()
    ensures { (source : List ℕ) (age : ℕ) (enable : Bool) (block : Option ℕ) (text : List ℕ)
        → IsCompiledText source age enable block text → IsCorrect source age enable block text }
{
    dk_compile::correct_law();
}

/// Laws: of each text that a program is compiled to, with or without the port `en`, `sim` shows the file that `run` writes of the program:
/// the pictures by its meaning, on each file of images that fits it.
/// From zeros and from ones, the module is clocked once for each pixel and then for the latency.
pub fn compile_then_sim_law()
    ensures shows { (given : CompiledInput) (fill : OnePower)
        → IsSimulated (whole_drive given fill) given.text given.file (output_file given.program given.rounds) }
    ensures only { (given : CompiledInput) (fill : OnePower) (pictures : List ℕ)
        → IsSimulated (whole_drive given fill) given.text given.file pictures → pictures
        ≡ output_file given.program given.rounds }
{
    dk_compile::one_source_law();
    dk_compile::one_at_age_law();
    dk_compile::drive_shows_law();
    buffer_plan::one_limit_law();
    wiring::one_valuation_law();
    wiring::one_next_law();
    netlist::one_run_law();
    stimulus::one_input_law();
}
