// Expressions.

ghost use Rattle.std.specs.Prelude.{◌≡◌, ◌≢◌, ◌<◌, ◌≤◌, ◌+◌, length, MatchResult, IfOk, None};
ghost use Rattle.dk_base.specs.declared.operator.Binary.{Binary};
ghost use Rattle.dk_parser.specs.declared.tree.Binding.TheVariants.{Stops};
ghost use Rattle.dk_parser.specs.Marks.{mark_terminal};
ghost use Rattle.dk_parser.specs.Tree.{Tree};
ghost use Rattle.dk_parser.specs.Grown.{Grown, GrownClosed, ReadsAs, ReadsGrown, Stands};
ghost use Rattle.dk_parser.specs.Grammar.{Closed, comparison, level, steps, primary, binding};
ghost use Rattle.dk_parser.specs.Faults.{Halts, Ends, Suffix, Inside, Opens};

use crate::built::{self, Built};
use crate::classes::{self, Ahead};
use crate::halt::Halt;
use crate::terminal::{Mark, Terminal};
use crate::tree::{Literal, Start, Step, TypeWord};
use crate::{read, single};
use dk_base::{Binary, Span};
use dk_lexer::{Symbol, Token};
use std::alloc::Global;

// An expression.
#[cycle(expression)]
pub(crate) fn comparison_of<'a>(
    alloc: Global,
    tokens: &'a [Token],
) -> Result<(Built, &'a [Token]), Halt<'a>>
    ensures parsed { ReadsAs (Grown comparison) (Ends comparison) tokens.now result }
{
    let (left, rest) = level_of(alloc, 7, tokens)?;
    match classes::look_ahead(8, rest) {
        Ahead::Operand(operator, after) => {
            let (right, behind) = level_of(alloc, 7, after)?;
            // Comparisons do not group.
            let Ahead::End = classes::look_ahead(8, behind) else {
                return Err(Halt::Faulty(behind));
            };
            Ok((built::binary(alloc, operator, left, right)?, behind))
        }
        Ahead::End => Ok((left, rest)),
        Ahead::Suffix(..) | Ahead::Tighter => unreachable!(),
    }
}

// An expression whose operators are of this level of precedence at most; level 1 binds most tightly.
#[cycle(expression)]
fn level_of<'a>(
    alloc: Global,
    precedence: u8,
    tokens: &'a [Token],
) -> Result<(Built, &'a [Token]), Halt<'a>>
    requires { precedence ≤ 7 }
    ensures parsed { ReadsAs (Grown (level precedence)) (Ends (level precedence))
        tokens.now result }
{
    if precedence == 0 {
        return unary_of(alloc, tokens);
    }
    let (left, rest) = level_of(alloc, precedence - 1, tokens)?;
    steps_of(alloc, precedence - 1, left, rest)
}

// What follows a first operand.
#[cycle(expression)]
fn steps_of<'a>(
    alloc: Global,
    precedence: u8,
    first: Built,
    tokens: &'a [Token],
) -> Result<(Built, &'a [Token]), Halt<'a>>
    requires { precedence < 7 }
    ensures parsed { (l : Tree) → Stands first l
        → ReadsAs (Grown (steps precedence l)) (Ends (steps precedence l)) tokens.now result }
{
    let mut left = first;
    let mut rest = tokens;
    'steps: loop {
        match classes::look_ahead(precedence + 1, rest) {
            Ahead::Operand(operator, after) => {
                let (right, behind) = level_of(alloc, precedence, after)?;
                left = built::binary(alloc, operator, left, right)?;
                rest = behind;
            }
            Ahead::Suffix(step, after) => {
                let (longer, behind) = suffix(alloc, left, step, after)?;
                left = longer;
                rest = behind;
            }
            Ahead::Tighter => return Err(Halt::Faulty(rest)),
            Ahead::End => return Ok((left, rest)),
        }
    }
}

// The number or the type that an operator requires after it.
fn suffix<'a>(
    alloc: Global,
    left: Built,
    step: Step,
    tokens: &'a [Token],
) -> Result<(Built, &'a [Token]), Halt<'a>>
    requires { (o : Binary) → step ≢ Step.Operand o }
    ensures parsed { (l : Tree) → Stands left l → ReadsGrown (Suffix l step) tokens.now result }
    ensures fewer { IfOk result (λ x. length x.1.now < length tokens.now) }
{
    let Some((first, kind, after)) = classes::front(tokens) else {
        return Err(Halt::Faulty(tokens));
    };
    let span = first.span;
    match step {
        Step::Number(operator) => {
            let Terminal::Number(value) = kind else {
                return Err(Halt::Faulty(tokens));
            };
            let built = built::scaled(alloc, operator, left, Literal { span, value })?;
            Ok((built, after))
        }
        Step::Type => {
            let Terminal::TypeWord(ty) = kind else {
                return Err(Halt::Faulty(tokens));
            };
            let built = built::converted(alloc, left, TypeWord { span, ty })?;
            Ok((built, after))
        }
        Step::Operand(_) => unreachable!(),
    }
}

// A primary expression, with an operator before it or with none.
#[cycle(expression)]
fn unary_of<'a>(alloc: Global, tokens: &'a [Token]) -> Result<(Built, &'a [Token]), Halt<'a>>
    ensures parsed { ReadsAs (Grown (level 0)) (Ends (level 0)) tokens.now result }
{
    let Some((first, kind, after)) = classes::front(tokens) else {
        return Err(Halt::Faulty(tokens));
    };
    match classes::start(kind) {
        Start::Prefix(operator) => {
            let (body, rest) = primary_of(alloc, after)?;
            Ok((built::unary(alloc, operator, first.span, body)?, rest))
        }
        _ => primary_of(alloc, tokens),
    }
}

// A primary expression, which no `edge` follows.
#[cycle(expression)]
fn primary_of<'a>(alloc: Global, tokens: &'a [Token]) -> Result<(Built, &'a [Token]), Halt<'a>>
    ensures parsed { ReadsAs (Grown primary) (Ends primary) tokens.now result }
{
    let Some((first, kind, after)) = classes::front(tokens) else {
        return Err(Halt::Faulty(tokens));
    };
    match classes::start(kind) {
        Start::Image => read::read_of(alloc, tokens),
        Start::Prefix(_) => Err(Halt::Faulty(tokens)),
        Start::Nothing => Err(Halt::Faulty(tokens)),
        start => {
            let (built, rest) = inside_of(alloc, start, first.span, after)?;
            match classes::edge(rest) {
                Some(_) => Err(Halt::Faulty(rest)),
                None => Ok((built, rest)),
            }
        }
    }
}

// What follows the first token of a primary expression that is no read.
#[cycle(expression)]
fn inside_of<'a>(
    alloc: Global,
    start: Start,
    first: Span,
    tokens: &'a [Token],
) -> Result<(Built, &'a [Token]), Halt<'a>>
    requires { Opens start }
    ensures parsed { ReadsGrown (Inside start first) tokens.now result }
{
    match start {
        Start::Constant(value) => Ok((built::number(first, value), tokens)),
        Start::Bracket => bracket_of(alloc, first, tokens),
        Start::Pair(operator) => pair_of(alloc, operator, first, tokens),
        Start::Absolute => absolute_of(alloc, first, tokens),
        Start::Saturate => saturate_of(alloc, first, tokens),
        Start::Choice => choice_of(alloc, first, tokens),
        Start::Prefix(_) | Start::Image | Start::Nothing => unreachable!(),
    }
}

#[cycle(expression)]
fn bracket_of<'a>(
    alloc: Global,
    first: Span,
    tokens: &'a [Token],
) -> Result<(Built, &'a [Token]), Halt<'a>>
    ensures parsed { ReadsGrown (Inside Start.Bracket first) tokens.now result }
{
    let (body, last, rest) = closed_by(alloc, Mark::Sign(Symbol::Close), tokens)?;
    let span = Span {
        start: first.start,
        stop: last.stop,
    };
    Ok((built::bracketed(span, body), rest))
}

// The two operands of a function.
#[cycle(expression)]
fn pair_of<'a>(
    alloc: Global,
    operator: Binary,
    first: Span,
    tokens: &'a [Token],
) -> Result<(Built, &'a [Token]), Halt<'a>>
    ensures parsed { ReadsGrown (Inside (Start.Pair operator) first) tokens.now result }
{
    let (_, inner) = single::mark(Mark::Sign(Symbol::Open), tokens)?;
    let (left, _, behind) = closed_by(alloc, Mark::Sign(Symbol::Comma), inner)?;
    let (right, last, rest) = closed_by(alloc, Mark::Sign(Symbol::Close), behind)?;
    let span = Span {
        start: first.start,
        stop: last.stop,
    };
    let built = built::pair(alloc, operator, span, left, right)?;
    Ok((built, rest))
}

#[cycle(expression)]
fn absolute_of<'a>(
    alloc: Global,
    first: Span,
    tokens: &'a [Token],
) -> Result<(Built, &'a [Token]), Halt<'a>>
    ensures parsed { ReadsGrown (Inside Start.Absolute first) tokens.now result }
{
    let (_, inner) = single::mark(Mark::Sign(Symbol::Open), tokens)?;
    let (body, last, rest) = closed_by(alloc, Mark::Sign(Symbol::Close), inner)?;
    let span = Span {
        start: first.start,
        stop: last.stop,
    };
    let built = built::absolute(alloc, span, body)?;
    Ok((built, rest))
}

#[cycle(expression)]
fn saturate_of<'a>(
    alloc: Global,
    first: Span,
    tokens: &'a [Token],
) -> Result<(Built, &'a [Token]), Halt<'a>>
    ensures parsed { ReadsGrown (Inside Start.Saturate first) tokens.now result }
{
    let (_, inner) = single::mark(Mark::Sign(Symbol::Open), tokens)?;
    let (body, _, behind) = closed_by(alloc, Mark::Sign(Symbol::Comma), inner)?;
    let (to, middle) = single::type_word(behind)?;
    let (last, rest) = single::mark(Mark::Sign(Symbol::Close), middle)?;
    let span = Span {
        start: first.start,
        stop: last.stop,
    };
    let built = built::saturated(alloc, span, body, to)?;
    Ok((built, rest))
}

// The test of a choice and its two operands.
#[cycle(expression)]
fn choice_of<'a>(
    alloc: Global,
    first: Span,
    tokens: &'a [Token],
) -> Result<(Built, &'a [Token]), Halt<'a>>
    ensures parsed { ReadsGrown (Inside Start.Choice first) tokens.now result }
{
    let (_, inner) = single::mark(Mark::Sign(Symbol::Open), tokens)?;
    let (test, _, middle) = closed_by(alloc, Mark::Sign(Symbol::Comma), inner)?;
    let (left, _, behind) = closed_by(alloc, Mark::Sign(Symbol::Comma), middle)?;
    let (right, last, rest) = closed_by(alloc, Mark::Sign(Symbol::Close), behind)?;
    let span = Span {
        start: first.start,
        stop: last.stop,
    };
    let built = built::selected(alloc, span, test, left, right)?;
    Ok((built, rest))
}

// An expression, the span of the mark after it, and the rest.
#[cycle(expression)]
pub(crate) fn closed_by<'a>(
    alloc: Global,
    mark: Mark,
    tokens: &'a [Token],
) -> Result<(Built, Span, &'a [Token]), Halt<'a>>
    requires { binding (mark_terminal mark) ≡ Stops }
    ensures parsed { MatchResult result (λ x. GrownClosed mark tokens.now x.0 x.1 x.2.now)
        (λ e. Halts (Closed mark) tokens.now e) }
{
    let (body, rest) = comparison_of(alloc, tokens)?;
    let Some((last, kind, after)) = classes::front(rest) else {
        return Err(Halt::Faulty(rest));
    };
    if kind == mark.terminal() {
        Ok((body, last.span, after))
    } else {
        Err(Halt::Faulty(rest))
    }
}
