//! The words that the program takes, as one command of `clap`.

ghost use Rattle.std.specs.Prelude.{◌≡◌, IfOk, IfErr, false, List, map, ◌++◌};
ghost use Rattle.clap.specs.Words.{app_of, shape_of, kind_of, rule_of, HasMatchesOf};
ghost use Rattle.dk_words.specs.Shapes as shapes;
ghost use Rattle.dk_words.specs.Words as words;
ghost use Rattle.dk_words.specs.Words.{texts, IsTaken};

use crate::shapes::{COMMANDS, Kind, Shape};
use clap::error::ErrorKind;
use clap::{Arg, ArgAction, ArgMatches, Command, Error};
use std::alloc::{AllocError, Global};

// An argument of this kind and name.
fn argument<'a>(alloc: Global, kind: Kind, name: &'a str) -> Arg<'a>
    ensures rule { rule_of result ≡ shapes.rule_of_kind kind name.entry.now }
    ensures local { result.global ≡ false }
{
    let argument = Arg::new(alloc, name);
    match kind {
        Kind::Word => argument.required(true),
        Kind::Valued => argument.long(name),
        Kind::Flag => argument.long(name).action(ArgAction::SetTrue),
    }
}

// The command with an argument of this kind for each name, after those that it has.
fn with_arguments<'a>(
    alloc: Global,
    command: Command<'a>,
    kind: Kind,
    names: &[&'a str],
) -> Result<Command<'a>, AllocError>
    ensures { IfOk result (λ c. shape_of c ≡ record (shape_of command.entry) {
      rules = (shape_of command.entry).rules ++ map (shapes.rule_of_kind kind) (shapes.names_of names.now);
    }) }
{
    let mut command = command;
    for name in names {
        command = command.arg(argument(alloc, kind, name))?;
    }
    Ok(command)
}

// The command of a row of the table.
fn shaped<'a>(alloc: Global, shape: &Shape<'a>) -> Result<Command<'a>, AllocError>
    ensures { IfOk result (λ c. shape_of c ≡ shapes.command_of_row shape.now) }
{
    let command = Command::new(alloc, shape.name);
    let command = with_arguments(alloc, command, Kind::Word, shape.words)?;
    let command = with_arguments(alloc, command, Kind::Valued, shape.options)?;
    let command = with_arguments(alloc, command, Kind::Flag, shape.flags)?;
    Ok(command)
}

// The program with the commands of these rows.
fn program_with<'a>(alloc: Global, rows: &[Shape<'a>]) -> Result<Command<'a>, AllocError>
    ensures { IfOk result (λ c. app_of c ≡ shapes.program_of rows.now) }
{
    let mut command = Command::new(alloc, "dk")
        .disable_help_flag(true)
        .disable_help_subcommand(true)
        .disable_version_flag(true)
        .subcommand_required(true);
    for row in rows {
        command = command.subcommand(shaped(alloc, row)?)?;
    }
    Ok(command)
}

// The program's commands.
fn program_command<'a>(alloc: Global) -> Result<Command<'a>, AllocError>
    ensures { IfOk result (λ c. app_of c ≡ words.program) }
{
    program_with(alloc, &COMMANDS)
}

/// The matches of words that are taken.
pub fn read_words<'a>(alloc: Global, words: &'a [String]) -> Result<ArgMatches<'a>, Error>
    ensures taken { IfOk result (λ _. IsTaken (texts words.now)) }
    ensures refused { IfErr result (λ e. IsTaken (texts words.now)
        → kind_of e ≡ ErrorKind.OutOfMemory) }
    ensures matches { IfOk result (HasMatchesOf Rattle.dk_words.specs.Words.program (texts words.now)) }
{
    program_command(alloc)?.try_get_matches_from(words)
}
