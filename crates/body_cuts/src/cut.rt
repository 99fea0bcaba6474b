// Whole programs.

use crate::choices::{CutChoice, cut_each, deepest, no_cuts, note_depths};
use crate::draft::{CutDraft, make_draft, program_text};
use crate::expanded::{Expanded, expanded_bodies};
use crate::names::{NamedProgram, names_of};
use dk_base::{MAX_DEFINITIONS, OutOfMemory};
use dk_types::TypedProgram;
use std::alloc::Global;

// The program with its deepest bodies cut, as many as the limit on definitions allows. No body is cut yet.
fn deepest_first(
    alloc: Global,
    names: &NamedProgram<'_>,
    expanded: &[Expanded],
    choices: &mut [CutChoice],
    most: u32,
) -> Result<CutDraft, OutOfMemory> {
    let mut best = make_draft(alloc, names, expanded, choices, most)?;
    note_depths(choices, &best.levels);
    for _ in 0..MAX_DEFINITIONS {
        let Some(number) = deepest(choices, most) else {
            break;
        };
        choices[number].is_cut = true;
        let next = make_draft(alloc, names, expanded, choices, most)?;
        if MAX_DEFINITIONS < next.definitions {
            break;
        }
        best = next;
    }
    Ok(best)
}

// The program with each body cut, if the limit on definitions allows it.
fn best_draft(
    alloc: Global,
    names: &NamedProgram<'_>,
    whole: &[u32],
    most: u32,
) -> Result<CutDraft, OutOfMemory> {
    let expanded = expanded_bodies(alloc, names.program, most)?;
    let mut choices = no_cuts(alloc, names.program, whole)?;
    cut_each(&mut choices, true);
    let all = make_draft(alloc, names, &expanded, &choices, most)?;
    if all.definitions <= MAX_DEFINITIONS {
        return Ok(all);
    }
    cut_each(&mut choices, false);
    deepest_first(alloc, names, &expanded, &mut choices, most)
}

/// The program as a text of bodies with at most this many levels of operators, after `head`. 0 levels count as 1. An operator of more levels, as `abs`, is alone in its body. If there would be too many definitions, only the deepest bodies are cut. The bodies of the images in `whole`, by their numbers, are not cut.
///
/// No contract states what the text shows.
pub fn cut_program(
    alloc: Global,
    head: &[u8],
    program: &TypedProgram,
    levels: u32,
    whole: &[u32],
) -> Result<Vec<u8>, OutOfMemory> {
    let names = names_of(alloc, program)?;
    let best = best_draft(alloc, &names, whole, levels.max(1))?;
    let text = program_text(alloc, head, &names, &best)?;
    Ok(text)
}
