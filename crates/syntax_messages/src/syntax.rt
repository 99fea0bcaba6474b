// Faults of syntax.

ghost use Rattle.std.specs.Prelude.{IsTrue};
ghost use Rattle.expected_tokens.specs.Expected.{IsOfAText, AreOfAText};

use crate::around::{Around, Source, bytes_at, class_at, open_bracket_at, token_at};
use crate::expected::push_expected;
use crate::helps::{push_radix, push_type_guess};
use crate::mistake::Mistake;
use crate::program_mistakes::{front_mistake, program_mistake};
use crate::read_mistakes::{expression_mistake, read_mistake};
use crate::spelling_mistakes::spelling_mistake;
use crate::words::{Detail, begin_help, push_help, push_place, push_quoted};
use dk_base::{OutOfMemory, Span};
use dk_lexer::{Token, TokenKind};
use expected_tokens::{TokenClass, expected_tokens};
use source_places::excerpt;
use source_words::Keyword;
use std::alloc::Global;

// The mistake that the tokens show. Those of the front of a text come before those of numbers, as `8x8` is both.
fn mistake(alloc: Global, a: &Around<'_>) -> Option<Mistake> {
    if let Some(mistake) = front_mistake(a) {
        return Some(mistake);
    }
    if let Some(mistake) = spelling_mistake(alloc, a) {
        return Some(mistake);
    }
    if let Some(mistake) = read_mistake(a) {
        return Some(mistake);
    }
    if let Some(mistake) = program_mistake(a) {
        return Some(mistake);
    }
    expression_mistake(a)
}

// Whether the tokens are of a text, before its end.
fn are_of_a_text(tokens: &[Token]) -> bool
    ensures { IsTrue result → AreOfAText tokens.now }
{
    for token in tokens {
        if !is_of_a_text(token) {
            return false;
        }
    }
    true
}

fn is_of_a_text(token: &Token) -> bool
    ensures { IsTrue result → IsOfAText token.now }
{
    match &token.kind {
        TokenKind::End => false,
        _ => token.span.start <= token.span.stop,
    }
}

// What could stand at the token of a fault.
fn expected_at(
    alloc: Global,
    source: &Source<'_>,
    span: Span,
) -> Result<Vec<TokenClass>, OutOfMemory> {
    let before = front(source.tokens, token_at(source.tokens, span));
    if !are_of_a_text(before) {
        return Ok(Vec::new(alloc));
    }
    let expected = expected_tokens(alloc, before)?;
    Ok(expected)
}

// The first tokens, at most `count`.
fn front(tokens: &[Token], count: usize) -> &[Token] {
    let (front, _) = tokens.split_at(count.min(tokens.len()));
    front
}

// Adds what is at a place in place of what could be.
fn push_found(to: &mut Detail, source: &Source<'_>, place: usize) {
    let bytes = bytes_at(source, place);
    if bytes.is_empty() {
        to.push("found the end of the text");
    } else {
        to.push("found ");
        push_quoted(to, bytes);
    }
}

// Adds the sentence on a faulty token.
fn push_sentence(
    to: &mut Detail,
    alloc: Global,
    source: &Source<'_>,
    span: Span,
    expected: &[TokenClass],
) {
    let place = token_at(source.tokens, span);
    if !expected.is_empty() {
        to.push("expected ");
        push_expected(to, alloc, expected, class_at(source.tokens, place));
        to.push(", ");
    }
    push_found(to, source, place);
}

// Adds where the comment begins that hides what follows the token before.
fn push_comment(to: &mut Detail, a: &Around<'_>) {
    let Some(token) = a.source.tokens.get(a.place.saturating_sub(1)) else {
        return;
    };
    begin_help(to);
    to.push("a comment begins with the `--` ");
    push_place(to, a.source.text, token.span.stop);
    to.push(", and hides the rest of that line");
}

// The place of the last definition that begins before a token.
fn definition_before(tokens: &[Token], place: usize) -> usize {
    for at in (0..place.min(tokens.len())).rev() {
        if class_at(tokens, at) == TokenClass::Keyword(Keyword::Let) {
            return at;
        }
    }
    place
}

// Adds which definition does not end.
fn push_open_definition(to: &mut Detail, a: &Around<'_>) {
    let at = definition_before(a.source.tokens, a.place);
    begin_help(to);
    to.push("write `end` before it: the definition of ");
    push_quoted(to, bytes_at(a.source, at.saturating_add(1)));
    to.push(" does not end");
}

// Adds where the bracket is that is not closed.
fn push_open_bracket(to: &mut Detail, a: &Around<'_>) {
    let Some(bracket) = open_bracket_at(a.source.tokens, a.place) else {
        return;
    };
    let Some(token) = a.source.tokens.get(bracket) else {
        return;
    };
    begin_help(to);
    to.push("the `(` ");
    push_place(to, a.source.text, token.span.start);
    to.push(" is not closed");
}

// Adds that a reserved word is in lower case.
fn push_lower_case(to: &mut Detail, word: &str) {
    begin_help(to);
    to.push("upper and lower case differ: write `");
    to.push(word);
    to.push("`");
}

// Adds the help on a mistake.
fn push_mistake(to: &mut Detail, a: &Around<'_>, mistake: Mistake) {
    match mistake {
        Mistake::Help(text) => push_help(to, text),
        Mistake::UpperCase(keyword) => push_lower_case(to, keyword.spelling()),
        Mistake::Radix => push_radix(to, a.bytes()),
        Mistake::NoType => push_type_guess(to, a.bytes()),
        Mistake::Unclosed => push_open_bracket(to, a),
        Mistake::Hidden => push_comment(to, a),
        Mistake::NoEnd => push_open_definition(to, a),
    }
}

// Adds the help on a faulty token.
fn push_syntax_help(
    to: &mut Detail,
    alloc: Global,
    source: &Source<'_>,
    span: Span,
    expected: &[TokenClass],
) {
    let a = Around::new(source, token_at(source.tokens, span), expected);
    if let Some(mistake) = mistake(alloc, &a) {
        push_mistake(to, &a, mistake);
    }
}

/// Adds the excerpt of a source at a span.
pub fn push_excerpt(to: &mut Detail, alloc: Global, source: &Source<'_>, span: Span) {
    to.append(excerpt(alloc, source.text, span));
}

/// Adds the sentence, the excerpt and the help on the faulty token with this span.
pub fn push_syntax(to: &mut Detail, alloc: Global, source: &Source<'_>, span: Span) {
    let Ok(expected) = expected_at(alloc, source, span) else {
        return to.fail();
    };
    push_sentence(to, alloc, source, span, &expected);
    push_excerpt(to, alloc, source, span);
    push_syntax_help(to, alloc, source, span, &expected);
}
