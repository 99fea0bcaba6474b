// The names of the new images: the source's name with the number of the phase, or with the column's side and distance.

use crate::columns::ImageColumn;
use crate::words::push_number;
use dk_base::OutOfMemory;
use dk_types::TypedProgram;
use std::alloc::Global;

// The greatest length of a name that leaves room for what is added, in bytes.
const MAX_STEM_BYTES: usize = 60;

// The bytes that are kept of a longer name.
const SHORT_STEM_BYTES: usize = 48;

// How many shortened forms of a name are tried. A program has fewer images.
const MOST_TRIES: u32 = 1_000;

// For each image, what its new names begin with.
#[derive(Drop)]
pub(crate) struct Stems {
    items: Vec<Vec<u8>>,
    phases: u32,
}

// The name of an image of the source.
fn source_name(program: &TypedProgram, image: usize) -> &[u8] {
    if let Some(input) = program.inputs().get(image) {
        return input.name.text.as_bytes();
    }
    let Some(number) = image.checked_sub(program.inputs().len()) else {
        return b"";
    };
    match program.definitions().get(number) {
        Some(definition) => definition.name.text.as_bytes(),
        None => b"",
    }
}

fn image_count(program: &TypedProgram) -> usize {
    program
        .inputs()
        .len()
        .saturating_add(program.definitions().len())
}

// Whether an image of the source has the name.
fn is_taken(program: &TypedProgram, name: &[u8]) -> bool {
    for image in 0..image_count(program) {
        if source_name(program, image) == name {
            return true;
        }
    }
    false
}

// A name's first bytes with a number.
fn shortened(alloc: Global, name: &[u8], number: u32) -> Result<Vec<u8>, OutOfMemory> {
    let front = name.get(..SHORT_STEM_BYTES).unwrap_or(name);
    let mut stem = Vec::from_slice(alloc, front)?;
    stem.extend_from_slice(b"_i")?;
    push_number(&mut stem, u64::from(number))?;
    Ok(stem)
}

// A stem that no image of the source has, for a name that is too long. Images have different ones: a number is the image's, and `MOST_TRIES` times the number of the try.
fn short_stem(
    alloc: Global,
    program: &TypedProgram,
    name: &[u8],
    image: u32,
) -> Result<Vec<u8>, OutOfMemory> {
    for attempt in 0..MOST_TRIES {
        let number = image.saturating_add(attempt * MOST_TRIES);
        let stem = shortened(alloc, name, number)?;
        if !is_taken(program, &stem) {
            return Ok(stem);
        }
    }
    shortened(alloc, name, image)
}

// What the new names of an image begin with.
fn stem_of(alloc: Global, program: &TypedProgram, image: u32) -> Result<Vec<u8>, OutOfMemory> {
    let name = source_name(program, image as usize);
    if name.len() <= MAX_STEM_BYTES {
        let stem = Vec::from_slice(alloc, name)?;
        return Ok(stem);
    }
    short_stem(alloc, program, name, image)
}

pub(crate) fn stems_of(
    alloc: Global,
    program: &TypedProgram,
    phases: u32,
) -> Result<Stems, OutOfMemory> {
    let mut items = Vec::new(alloc);
    let images = u32::try_from(image_count(program)).unwrap_or(0);
    for image in 0..images {
        let stem = stem_of(alloc, program, image)?;
        items.push(stem)?;
    }
    Ok(Stems { items, phases })
}

// Adds what the new names of an image begin with.
fn push_stem(to: &mut Vec<u8>, stems: &Stems, image: u32) -> Result<(), OutOfMemory> {
    if let Some(stem) = stems.items.get(image as usize) {
        to.extend_from_slice(stem)?;
    }
    Ok(())
}

// Adds the name of a phase of an image.
pub(crate) fn push_phase_name(
    to: &mut Vec<u8>,
    stems: &Stems,
    image: u32,
    phase: u64,
) -> Result<(), OutOfMemory> {
    push_stem(to, stems, image)?;
    to.push(b'_')?;
    push_number(to, phase)
}

// Adds the name of a column: `l` and how far it is to the left of the first phase, or `r` and how far it is to the right of the last one.
pub(crate) fn push_column_name(
    to: &mut Vec<u8>,
    stems: &Stems,
    column: ImageColumn,
) -> Result<(), OutOfMemory> {
    push_stem(to, stems, column.image)?;
    if column.offset < 0 {
        to.extend_from_slice(b"_l")?;
        return push_number(to, column.offset.unsigned_abs());
    }
    to.extend_from_slice(b"_r")?;
    let past = column
        .offset
        .saturating_add(1)
        .saturating_sub(i64::from(stems.phases));
    push_number(to, past.unsigned_abs())
}
