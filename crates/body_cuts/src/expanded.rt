// Bodies with the bodies of inline images in place of reads.

use crate::copies::term_of;
use crate::images::{definition_number, is_output, read_levels};
use crate::levels::levels_of;
use crate::reached::reached;
use body_terms::{
    MoveFault, PixelRead, Term, TermNode, boxed, framed, is_constant, is_cut_off, moved, node_count,
};
use dk_base::{Conversion, OutOfMemory, Ty};
use dk_types::{TypedExpr, TypedProgram};
use std::alloc::{AllocError, Global};

// The most nodes that replace reads, over all definitions.
const MOST_NODES: usize = 262_144;

// A body, and the same with each read of an inline image replaced that can be.
#[derive(Drop)]
pub(crate) struct Expanded {
    // The body as it is written.
    pub(crate) written: Box<Term>,
    pub(crate) body: Box<Term>,
    nodes: usize,
    is_constant: bool,
}

// The bodies so far, and the levels of each as it is written.
#[derive(Drop)]
struct Bodies {
    all: Vec<Expanded>,
    levels: Vec<u32>,
}

// Replaces reads of inline images.
#[derive(Drop)]
pub(crate) struct Expander<'a> {
    program: &'a TypedProgram,
    // The bodies before.
    before: &'a Bodies,
    // The most levels that a body may have.
    most: u32,
    // The nodes that may still replace reads.
    room: usize,
}

// A body brought into the declared type of its image.
fn typed_body(alloc: Global, declared: Option<Ty>, body: Term) -> Result<Term, OutOfMemory> {
    match declared {
        Some(ty) => Ok(Term {
            ty,
            node: TermNode::Convert(Conversion::Cast, boxed(alloc, body)?),
        }),
        None => Ok(body),
    }
}

// The body that may replace a read of the image, with its declared type. None if the image is not inline, or an output.
fn substitute<'a>(
    program: &TypedProgram,
    before: &'a [Expanded],
    image: u32,
) -> Option<(&'a Expanded, Option<Ty>)> {
    let number = definition_number(program, image)?;
    let definition = program.definitions().get(number)?;
    if !definition.inline || is_output(program, image) {
        return None;
    }
    let expanded = before.get(number)?;
    Some((expanded, definition.declared))
}

impl<'a> Expander<'a> {
    // Whether the read is better than a choice by the frame test: it is within the limit by itself.
    fn stays(&self, read: PixelRead) -> bool {
        is_cut_off(read) && read_levels(self.program, &self.before.levels, read) <= self.most
    }

    // Whether the read is replaced by an expression of one value at all points.
    pub(crate) fn gives_constant(&self, read: PixelRead) -> bool {
        match substitute(self.program, &self.before.all, read.image) {
            Some((expanded, _)) => expanded.is_constant && !is_cut_off(read),
            None => false,
        }
    }

    // The body that is moved to replace this read, with its declared type. Its nodes are taken from the room.
    fn take(&mut self, read: PixelRead) -> Option<(&'a Expanded, Option<Ty>)> {
        if self.stays(read) {
            return None;
        }
        let (expanded, declared) = substitute(self.program, &self.before.all, read.image)?;
        self.room = self.room.checked_sub(expanded.nodes)?;
        Some((expanded, declared))
    }

    // The read of this type, or what replaces it.
    pub(crate) fn replaced(
        &mut self,
        alloc: Global,
        read: PixelRead,
        ty: Ty,
    ) -> Result<Term, OutOfMemory> {
        if let Some((expanded, declared)) = self.take(read) {
            match moved(alloc, read, &expanded.body) {
                Ok(body) => return framed(alloc, read, typed_body(alloc, declared, body)?),
                Err(MoveFault::NoRead) => {}
                Err(MoveFault::OutOfMemory) => return Err(AllocError),
            }
        }
        Ok(Term {
            ty,
            node: TermNode::Read(read),
        })
    }
}

// An expression as it is written, and with reads replaced.
fn expanded_body(
    alloc: Global,
    expander: &mut Expander<'_>,
    e: &TypedExpr,
) -> Result<Expanded, OutOfMemory> {
    let body = term_of(alloc, expander, e, false)?;
    let written = term_of(alloc, expander, e, true)?;
    Ok(Expanded {
        nodes: node_count(&body),
        is_constant: is_constant(&body),
        written,
        body,
    })
}

// Adds a body to those before.
fn add_body(
    program: &TypedProgram,
    bodies: &mut Bodies,
    body: Expanded,
) -> Result<(), OutOfMemory> {
    let levels = levels_of(program, &bodies.levels, &body.written).unwrap_or(0);
    bodies.all.push(body)?;
    bodies.levels.push(levels)?;
    Ok(())
}

// The bodies of all definitions, in order: expanded for bodies of at most `most` levels, but those that are not reached are as they are written.
pub(crate) fn expanded_bodies(
    alloc: Global,
    program: &TypedProgram,
    most: u32,
) -> Result<Vec<Expanded>, OutOfMemory> {
    let marks = reached(alloc, program)?;
    let mut room = MOST_NODES;
    let mut bodies = Bodies {
        all: Vec::new(alloc),
        levels: Vec::new(alloc),
    };
    for (definition, is_reached) in program.definitions().iter().zip(&marks) {
        let mut expander = Expander {
            program,
            before: &bodies,
            most,
            room: if *is_reached { room } else { 0 },
        };
        let body = expanded_body(alloc, &mut expander, &definition.body)?;
        if *is_reached {
            room = expander.room;
        }
        add_body(program, &mut bodies, body)?;
    }
    Ok(bodies.all)
}
