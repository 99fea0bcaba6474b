//! Laws of the definitions.

ghost use Rattle.dk_top.specs.Agreement.{NotesAgree};
ghost use Rattle.dk_top.specs.Plans.{HasOneAnswer};

/// Laws: an accepted text has one list of names and one of live reads. A text that is accepted at an age has no fault at it, and any other has one fault.
/// A report that holds has no wrong line and one claim, and any other has one first wrong line.
pub fn one_plan_law()
    ensures { HasOneAnswer }
{
    dk_compile::one_source_law();
    dk_compile::one_at_age_law();
    stencil_sets::one_answer_law();
    dk_plan::one_plan_law();
}

/// Laws: a program has one plan at an age. Each module of its Verilog texts has notes on rounds that fit, from zeros and from ones.
/// The notes of two of them have the same `valid` in each clock, and the same `dout` where it is 1.
pub fn notes_agree_law()
    ensures { NotesAgree }
{
    dk_compile::one_source_law();
    dk_compile::one_at_age_law();
    dk_compile::drive_shows_law();
    buffer_plan::one_limit_law();
    wiring::one_valuation_law();
    wiring::one_next_law();
    netlist::one_run_law();
    stimulus::one_input_law();
}
