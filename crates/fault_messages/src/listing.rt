// All messages of a program's faults.

ghost use Rattle.std.specs.Prelude.{◌≡◌, ◌∷◌, ◌++◌, ◌<◌, ◌≤◌, [], List, IfOk, OnOk, length};
ghost use Rattle.dk_lexer.specs.Faithful.{IsEnded};
ghost use Rattle.source_fault.specs.declared.fault.SourceFault.{SourceFault as AnyFault};
ghost use Rattle.source_places.specs.Places.{line_of, column_of};
ghost use Rattle.fault_messages.specs.Explanations.{start_of, head as head_of, IsDetail, IsMessage, AreMessages, IsExplanation};

use crate::MAX_MESSAGES;
use crate::details::detail;
use dk_base::OutOfMemory;
use dk_lexer::{LexError, Token, lex};
use dk_parser::{ParseError, parse};
use dk_types::TypeFault;
use itoa::Buffer;
use source_fault::{SourceFault, Subject};
use source_places::{TextPosition, place_of, shown_name};
use std::alloc::{AllocError, Global};
use syntax_messages::Source;
use type_faults::{FoundFault, FoundTypes, type_faults};

// The first byte of a fault's span, or of the text.
fn start(fault: SourceFault) -> usize
    ensures { result ≡ start_of fault }
{
    match fault.subject() {
        Subject::Bytes(span) => span.start,
        Subject::Number(_) => 0,
    }
}

// What a message begins with.
fn head(alloc: Global, name: &str, at: TextPosition, kind: &str) -> Result<Vec<u8>, OutOfMemory>
    ensures { IfOk result (λ v. v.items ≡ head_of name.now at.line at.column kind.now) }
{
    let mut line = Buffer::new();
    let mut column = Buffer::new();
    let shown = shown_name(alloc, name)?;
    let mut bytes = Vec::from_slice(alloc, shown.as_bytes())?;
    bytes.extend_from_slice(b":")?;
    bytes.extend_from_slice(line.format(at.line).as_bytes())?;
    bytes.extend_from_slice(b":")?;
    bytes.extend_from_slice(column.format(at.column).as_bytes())?;
    bytes.extend_from_slice(b": error: ")?;
    bytes.extend_from_slice(kind.as_bytes())?;
    bytes.extend_from_slice(b": ")?;
    Ok(bytes)
}

// What follows its head.
fn ended_detail(
    alloc: Global,
    source: &Source<'_>,
    fault: SourceFault,
    types: FoundTypes,
) -> Result<Vec<u8>, OutOfMemory>
    ensures { IfOk result (λ v. IsDetail v.items) }
{
    let plain = detail(alloc, source, fault, types)?;
    let mut bytes = Vec::from_slice(alloc, plain.as_bytes())?;
    bytes.push(b'\n')?;
    Ok(bytes)
}

// The message of a fault. `types` are those at the fault.
fn message(
    alloc: Global,
    name: &str,
    source: &Source<'_>,
    fault: SourceFault,
    types: FoundTypes,
) -> Result<Vec<u8>, OutOfMemory>
    ensures { IfOk result (λ v. IsMessage name.now source.now.text.now fault v.items) }
{
    let at = place_of(source.text, start(fault));
    let mut bytes = head(alloc, name, at, fault.word())?;
    let detail = ended_detail(alloc, source, fault, types)?;
    bytes.extend_from_slice(&detail)?;
    Ok(bytes)
}

// Adds the message of a fault to those of others.
fn push_message(
    to: &mut Vec<u8>,
    alloc: Global,
    name: &str,
    source: &Source<'_>,
    found: FoundFault,
) -> Result<(), OutOfMemory>
    ensures { OnOk result ((faults : List AnyFault) → AreMessages name.now source.now.text.now faults to.old.items
        → AreMessages name.now source.now.text.now (faults ++ AnyFault.Types found.fault ∷ []) to.new.items) }
{
    let bytes = message(
        alloc,
        name,
        source,
        SourceFault::Types(found.fault),
        found.types,
    )?;
    to.extend_from_slice(&bytes)?;
    Ok(())
}

// All but the first, up to the limit.
fn others(found: &[FoundFault]) -> &[FoundFault]
    ensures { length result.now < MAX_MESSAGES }
{
    match found.split_first() {
        None => &found[..0],
        Some((_, others)) => {
            let (others, _) = others.split_at(others.len().min(MAX_MESSAGES - 1));
            others
        }
    }
}

// The types at the first of the faults.
fn first_types(found: &[FoundFault]) -> FoundTypes {
    match found.first() {
        Some(first) => first.types,
        None => FoundTypes::None,
    }
}

// The messages of a fault of types and of those found after it.
fn messages(
    alloc: Global,
    name: &str,
    source: &Source<'_>,
    first: TypeFault,
    found: &[FoundFault],
) -> Result<Vec<u8>, OutOfMemory>
    ensures { IfOk result (λ v. IsExplanation name.now source.now.text.now (AnyFault.Types first) v.items) }
{
    let types = first_types(found);
    let mut bytes = message(alloc, name, source, SourceFault::Types(first), types)?;
    let others = others(found);
    for other in others {
        push_message(&mut bytes, alloc, name, source, *other)?;
    }
    Ok(bytes)
}

// The message of a fault, with no others.
fn lone_message(
    alloc: Global,
    name: &str,
    source: &Source<'_>,
    fault: SourceFault,
) -> Result<Vec<u8>, OutOfMemory>
    ensures { IfOk result (λ v. IsExplanation name.now source.now.text.now fault v.items) }
{
    let bytes = message(alloc, name, source, fault, FoundTypes::None)?;
    Ok(bytes)
}

// The faults of types of a program with these tokens, of which this is the first. None if there is no program.
fn type_faults_of(
    alloc: Global,
    tokens: &[Token],
    first: TypeFault,
) -> Result<Vec<FoundFault>, OutOfMemory>
    requires { IsEnded tokens.now }
{
    match parse(alloc, tokens) {
        Ok(program) => {
            let found = type_faults(alloc, program, first)?;
            Ok(found)
        }
        Err(ParseError::OutOfMemory) => Err(AllocError),
        Err(_) => Ok(Vec::new(alloc)),
    }
}

// The messages of the faults of a text with these tokens.
fn messages_by_tokens(
    alloc: Global,
    name: &str,
    source: &Source<'_>,
    fault: SourceFault,
) -> Result<Vec<u8>, OutOfMemory>
    requires { IsEnded source.now.tokens.now }
    ensures { IfOk result (λ v. IsExplanation name.now source.now.text.now fault v.items) }
{
    if let SourceFault::Types(first) = fault {
        let found = type_faults_of(alloc, source.tokens, first)?;
        let bytes = messages(alloc, name, source, first, &found)?;
        return Ok(bytes);
    }
    let bytes = lone_message(alloc, name, source, fault)?;
    Ok(bytes)
}

// The message of the fault of a text without tokens.
fn message_by_bytes(
    alloc: Global,
    name: &str,
    text: &[u8],
    fault: SourceFault,
) -> Result<Vec<u8>, OutOfMemory>
    ensures { IfOk result (λ v. IsExplanation name.now text.now fault v.items) }
{
    let source = Source { text, tokens: &[] };
    let bytes = lone_message(alloc, name, &source, fault)?;
    Ok(bytes)
}

/// The messages of the faults of a text, which has this name: that of its first fault, and if this is a fault of names or types, those of others found after it. Each begins as a compiler's messages do, with the name as a terminal can show it, the line, the column and the fault's word.
pub fn explanation(
    alloc: Global,
    name: &str,
    text: &[u8],
    fault: SourceFault,
) -> Result<Vec<u8>, OutOfMemory>
    ensures explanation { IfOk result (λ v. IsExplanation name.now text.now fault v.items) }
{
    if fault == SourceFault::TooLong {
        let bytes = message_by_bytes(alloc, name, text, fault)?;
        return Ok(bytes);
    }
    match lex(alloc, text) {
        Ok(tokens) => {
            let source = Source {
                text,
                tokens: &tokens,
            };
            let bytes = messages_by_tokens(alloc, name, &source, fault)?;
            Ok(bytes)
        }
        Err(LexError::Fault(_)) => {
            let bytes = message_by_bytes(alloc, name, text, fault)?;
            Ok(bytes)
        }
        Err(LexError::OutOfMemory) => Err(AllocError),
    }
}
