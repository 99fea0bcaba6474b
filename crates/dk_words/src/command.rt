//! Commands, as they are read from the words that `clap` found.

ghost use Rattle.std.specs.Prelude.{◌≡◌, Option, None, Some, option_map, option_and_then, codes};
ghost use Rattle.clap.specs.Words.{first_of, rows_of, found_of, subcommand_rows_of};
ghost use Rattle.dk_words.specs.Command as command;

use crate::numbers::number_within;
use crate::{MAX_LEVELS, MAX_PHASES};
use clap::ArgMatches;
use dk_base::{MAX_AGE, MAX_BUFFER_BITS, MAX_CLOCKS, MAX_HOLD, MAX_MADE};

/// The words of `run`.
#[derive(Clone, Copy, Debug, PartialEq, Eq)]
pub struct RunWords<'a> {
    pub program: &'a str,
    pub image: &'a str,
    pub out: &'a str,
    /// The least age of each live read, 0 to `MAX_AGE`.
    pub age: u8,
}

/// The names of the files of `eval`.
#[derive(Clone, Copy, Debug, PartialEq, Eq)]
pub struct FileNames<'a> {
    pub program: &'a str,
    pub image: &'a str,
    pub out: &'a str,
}

/// The words of `compile`.
#[derive(Clone, Copy, Debug, PartialEq, Eq)]
pub struct CompileWords<'a> {
    pub program: &'a str,
    pub out: &'a str,
    /// Whether the module has a clock enable.
    pub enable: bool,
    /// The least age of each live read, 0 to `MAX_AGE`.
    pub age: u8,
    /// The fewest words of an array that is read one clock ahead, 2 to `MAX_BUFFER_BITS`; None where no array is.
    pub block: Option<u32>,
}

/// What registers and arrays hold at power-up.
#[derive(Clone, Copy, Debug, PartialEq, Eq)]
pub enum PowerUp {
    Zeros,
    Ones,
}

/// The words of `sim`.
#[derive(Clone, Copy, Debug, PartialEq, Eq)]
pub struct SimWords<'a> {
    pub verilog: &'a str,
    /// How many clocks are not held, 0 to `MAX_CLOCKS`.
    pub clocks: u32,
    pub image: &'a str,
    pub out: &'a str,
    pub fill: PowerUp,
    /// After how many clocks a held one is put in, 1 to `MAX_HOLD`; None where there are no held clocks.
    pub hold: Option<u32>,
}

/// The words of `trace`.
#[derive(Clone, Copy, Debug, PartialEq, Eq)]
pub struct TraceWords<'a> {
    pub verilog: &'a str,
    /// How many clocks there are after the reset clock, 0 to `MAX_CLOCKS`.
    pub clocks: u32,
    pub image: &'a str,
    pub vcd: &'a str,
}

/// The words of `plan`.
#[derive(Clone, Copy, Debug, PartialEq, Eq)]
pub struct PlanWords<'a> {
    pub program: &'a str,
    /// The least age of each live read, 0 to `MAX_AGE`.
    pub age: u8,
}

/// The words of `check`.
#[derive(Clone, Copy, Debug, PartialEq, Eq)]
pub struct CheckWords<'a> {
    pub program: &'a str,
    pub report: &'a str,
}

/// The words of `make`.
#[derive(Clone, Copy, Debug, PartialEq, Eq)]
pub struct MakeWords {
    /// Which program is made, 0 to `MAX_MADE`.
    pub number: u32,
}

/// How a program is rewritten.
#[derive(Clone, Copy, Debug, PartialEq, Eq)]
pub enum Rewriting {
    /// `cut`, with the most levels of operators of a body, 1 to `MAX_LEVELS`.
    Cut(u8),
    /// `narrow`.
    Narrow,
    /// `widen`, with the pixels a clock, 2 to `MAX_PHASES`.
    Widen(u8),
}

/// The words of `cut`, `narrow` and `widen`.
#[derive(Clone, Copy, Debug, PartialEq, Eq)]
pub struct RewriteWords<'a> {
    pub how: Rewriting,
    pub program: &'a str,
    pub out: &'a str,
}

/// The words of `explain`.
#[derive(Clone, Copy, Debug, PartialEq, Eq)]
pub struct ExplainWords<'a> {
    pub program: &'a str,
}

/// The words of `nets`.
#[derive(Clone, Copy, Debug, PartialEq, Eq)]
pub struct NetsWords<'a> {
    pub program: &'a str,
    /// Whether the module has a clock enable.
    pub enable: bool,
    /// The least age of each live read, 0 to `MAX_AGE`.
    pub age: u8,
    /// The fewest words of an array that is read one clock ahead, 2 to `MAX_BUFFER_BITS`; None where no array is.
    pub block: Option<u32>,
}

/// A command, with its words.
#[derive(Clone, Copy, Debug, PartialEq, Eq)]
pub enum Asked<'a> {
    Run(RunWords<'a>),
    Eval(FileNames<'a>),
    Compile(CompileWords<'a>),
    Sim(SimWords<'a>),
    Trace(TraceWords<'a>),
    Plan(PlanWords<'a>),
    Check(CheckWords<'a>),
    Make(MakeWords),
    Rewrite(RewriteWords<'a>),
    Explain(ExplainWords<'a>),
    Nets(NetsWords<'a>),
}

// The value of this word.
fn given<'a>(matches: &ArgMatches<'a>, name: &str) -> Option<&'a str>
    ensures { option_map (λ s. s.now) result ≡ first_of name.now (rows_of (found_of matches.now)) }
{
    matches.get_str(name)
}

// The number of clocks.
fn read_clocks(matches: &ArgMatches) -> Option<u32>
    ensures { result ≡ option_and_then command.clocks_of (first_of (codes "CLOCKS") (rows_of (found_of matches.now))) }
{
    number_within(given(matches, "CLOCKS")?, 0, MAX_CLOCKS as u32)
}

// What registers and arrays hold at power-up.
fn read_fill(matches: &ArgMatches) -> Option<PowerUp>
    ensures { result ≡ command.fill_of (first_of (codes "fill") (rows_of (found_of matches.now))) }
{
    match given(matches, "fill") {
        None => Some(PowerUp::Zeros),
        Some("zeros") => Some(PowerUp::Zeros),
        Some("ones") => Some(PowerUp::Ones),
        Some(_) => None,
    }
}

// After how many clocks a held one is put in, if at all.
fn read_hold(matches: &ArgMatches) -> Option<Option<u32>>
    ensures { result ≡ command.hold_of (first_of (codes "hold") (rows_of (found_of matches.now))) }
{
    match given(matches, "hold") {
        None => Some(None),
        Some(word) => Some(Some(number_within(word, 1, MAX_HOLD as u32)?)),
    }
}

// The least age of each live read.
fn read_age(matches: &ArgMatches) -> Option<u8>
    ensures { result ≡ command.age_of (first_of (codes "age") (rows_of (found_of matches.now))) }
{
    match given(matches, "age") {
        None => Some(0),
        Some(word) => Some(number_within(word, 0, MAX_AGE as u32)? as u8),
    }
}

// The fewest words of an array that is read one clock ahead, if any is.
fn read_block(matches: &ArgMatches) -> Option<Option<u32>>
    ensures { result ≡ command.block_of (first_of (codes "block") (rows_of (found_of matches.now))) }
{
    match given(matches, "block") {
        None => Some(None),
        Some(word) => Some(Some(number_within(word, 2, MAX_BUFFER_BITS as u32)?)),
    }
}

// Whether the module has a clock enable.
fn read_enable(matches: &ArgMatches) -> bool
    ensures { result ≡ command.enable_of (first_of (codes "enable") (rows_of (found_of matches.now))) }
{
    match given(matches, "enable") {
        Some("true") => true,
        _ => false,
    }
}

// Which program is made.
fn read_number(matches: &ArgMatches) -> Option<u32>
    ensures { result ≡ option_and_then command.made_number (first_of (codes "N") (rows_of (found_of matches.now))) }
{
    number_within(given(matches, "N")?, 0, MAX_MADE)
}

// The most levels of operators of a body.
fn read_levels(matches: &ArgMatches) -> Option<u8>
    ensures { result ≡ option_and_then command.levels_number (first_of (codes "N") (rows_of (found_of matches.now))) }
{
    Some(number_within(given(matches, "N")?, 1, MAX_LEVELS as u32)? as u8)
}

// How many phases are written.
fn read_phases(matches: &ArgMatches) -> Option<u8>
    ensures { result ≡ option_and_then command.phases_number (first_of (codes "P") (rows_of (found_of matches.now))) }
{
    Some(number_within(given(matches, "P")?, 2, MAX_PHASES as u32)? as u8)
}

// The words of `run`, where each has a value.
fn read_run<'a>(matches: &ArgMatches<'a>) -> Option<RunWords<'a>>
    ensures { option_map (λ r. command.run r.program.now r.image.now r.out.now r.age) result
        ≡ command.run_of_rows (rows_of (found_of matches.now)) }
{
    let program = given(matches, "PROG")?;
    let image = given(matches, "IN")?;
    let out = given(matches, "OUT")?;
    let age = read_age(matches)?;
    Some(RunWords {
        program,
        image,
        out,
        age,
    })
}

// The words of `eval`, where each has a value.
fn read_eval<'a>(matches: &ArgMatches<'a>) -> Option<FileNames<'a>>
    ensures { option_map (λ f. command.eval f.program.now f.image.now f.out.now) result
        ≡ command.eval_of_rows (rows_of (found_of matches.now)) }
{
    let program = given(matches, "PROG")?;
    let image = given(matches, "IN")?;
    let out = given(matches, "OUT")?;
    Some(FileNames {
        program,
        image,
        out,
    })
}

// The words of `compile`, where each has a value.
fn read_compile<'a>(matches: &ArgMatches<'a>) -> Option<CompileWords<'a>>
    ensures { option_map (λ k. command.compile k.program.now k.out.now k.enable k.age k.block) result
        ≡ command.compile_of_rows (rows_of (found_of matches.now)) }
{
    let program = given(matches, "PROG")?;
    let out = given(matches, "OUT")?;
    let enable = read_enable(matches);
    let age = read_age(matches)?;
    let block = read_block(matches)?;
    Some(CompileWords {
        program,
        out,
        enable,
        age,
        block,
    })
}

// The words of `sim`, where each has a value.
fn read_sim<'a>(matches: &ArgMatches<'a>) -> Option<SimWords<'a>>
    ensures { option_map (λ s. command.sim s.verilog.now s.clocks s.image.now s.out.now s.fill s.hold) result
        ≡ command.sim_of_rows (rows_of (found_of matches.now)) }
{
    Some(SimWords {
        verilog: given(matches, "VERILOG")?,
        clocks: read_clocks(matches)?,
        image: given(matches, "IN")?,
        out: given(matches, "OUT")?,
        fill: read_fill(matches)?,
        hold: read_hold(matches)?,
    })
}

// The words of `trace`, where each has a value.
fn read_trace<'a>(matches: &ArgMatches<'a>) -> Option<TraceWords<'a>>
    ensures { option_map (λ t. command.trace t.verilog.now t.clocks t.image.now t.vcd.now) result
        ≡ command.trace_of_rows (rows_of (found_of matches.now)) }
{
    let verilog = given(matches, "VERILOG")?;
    let clocks = read_clocks(matches)?;
    let image = given(matches, "IN")?;
    let vcd = given(matches, "VCD")?;
    Some(TraceWords {
        verilog,
        clocks,
        image,
        vcd,
    })
}

// The words of `plan`, where each has a value.
fn read_plan<'a>(matches: &ArgMatches<'a>) -> Option<PlanWords<'a>>
    ensures { option_map (λ p. command.plan p.program.now p.age) result
        ≡ command.plan_of_rows (rows_of (found_of matches.now)) }
{
    let program = given(matches, "PROG")?;
    let age = read_age(matches)?;
    Some(PlanWords { program, age })
}

// The words of `check`, where each has a value.
fn read_check<'a>(matches: &ArgMatches<'a>) -> Option<CheckWords<'a>>
    ensures { option_map (λ k. command.check k.program.now k.report.now) result
        ≡ command.check_of_rows (rows_of (found_of matches.now)) }
{
    let program = given(matches, "PROG")?;
    let report = given(matches, "REPORT")?;
    Some(CheckWords { program, report })
}

// The words of `make`, where each has a value.
fn read_make(matches: &ArgMatches) -> Option<MakeWords>
    ensures { option_map (λ m. command.make m.number) result
        ≡ command.make_of_rows (rows_of (found_of matches.now)) }
{
    let number = read_number(matches)?;
    Some(MakeWords { number })
}

// The words of `cut`, where each has a value.
fn read_cut<'a>(matches: &ArgMatches<'a>) -> Option<RewriteWords<'a>>
    ensures { option_map (λ k. command.rewrite k.how k.program.now k.out.now) result
        ≡ command.cut_of_rows (rows_of (found_of matches.now)) }
{
    let levels = read_levels(matches)?;
    let program = given(matches, "PROG")?;
    let out = given(matches, "OUT")?;
    let how = Rewriting::Cut(levels);
    Some(RewriteWords { how, program, out })
}

// The words of `narrow`, where each has a value.
fn read_narrow<'a>(matches: &ArgMatches<'a>) -> Option<RewriteWords<'a>>
    ensures { option_map (λ k. command.rewrite k.how k.program.now k.out.now) result
        ≡ command.narrow_of_rows (rows_of (found_of matches.now)) }
{
    let program = given(matches, "PROG")?;
    let out = given(matches, "OUT")?;
    let how = Rewriting::Narrow;
    Some(RewriteWords { how, program, out })
}

// The words of `widen`, where each has a value.
fn read_widen<'a>(matches: &ArgMatches<'a>) -> Option<RewriteWords<'a>>
    ensures { option_map (λ k. command.rewrite k.how k.program.now k.out.now) result
        ≡ command.widen_of_rows (rows_of (found_of matches.now)) }
{
    let phases = read_phases(matches)?;
    let program = given(matches, "PROG")?;
    let out = given(matches, "OUT")?;
    let how = Rewriting::Widen(phases);
    Some(RewriteWords { how, program, out })
}

// The words of `explain`, where each has a value.
fn read_explain<'a>(matches: &ArgMatches<'a>) -> Option<ExplainWords<'a>>
    ensures { option_map (λ k. command.explain k.program.now) result
        ≡ command.explain_of_rows (rows_of (found_of matches.now)) }
{
    let program = given(matches, "PROG")?;
    Some(ExplainWords { program })
}

// The words of `nets`, where each has a value.
fn read_nets<'a>(matches: &ArgMatches<'a>) -> Option<NetsWords<'a>>
    ensures { option_map (λ k. command.nets k.program.now k.enable k.age k.block) result
        ≡ command.nets_of_rows (rows_of (found_of matches.now)) }
{
    let program = given(matches, "PROG")?;
    let enable = read_enable(matches);
    let age = read_age(matches)?;
    let block = read_block(matches)?;
    Some(NetsWords {
        program,
        enable,
        age,
        block,
    })
}

// The command of the matches.
pub fn read_matches<'a>(matches: &ArgMatches<'a>) -> Option<Asked<'a>>
    ensures { option_map command.command_asked result
        ≡ command.command_from (subcommand_rows_of matches.now) }
{
    let (name, inner) = matches.subcommand()?;
    match name {
        "run" => Some(Asked::Run(read_run(inner)?)),
        "eval" => Some(Asked::Eval(read_eval(inner)?)),
        "compile" => Some(Asked::Compile(read_compile(inner)?)),
        "sim" => Some(Asked::Sim(read_sim(inner)?)),
        "trace" => Some(Asked::Trace(read_trace(inner)?)),
        "plan" => Some(Asked::Plan(read_plan(inner)?)),
        "check" => Some(Asked::Check(read_check(inner)?)),
        "make" => Some(Asked::Make(read_make(inner)?)),
        "cut" => Some(Asked::Rewrite(read_cut(inner)?)),
        "narrow" => Some(Asked::Rewrite(read_narrow(inner)?)),
        "widen" => Some(Asked::Rewrite(read_widen(inner)?)),
        "explain" => Some(Asked::Explain(read_explain(inner)?)),
        "nets" => Some(Asked::Nets(read_nets(inner)?)),
        _ => None,
    }
}
