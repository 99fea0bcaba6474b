// Reads of images.

ghost use Rattle.std.specs.Prelude.{◌≡◌, ◌<◌, ◌≤◌, None, IfOk, length};
ghost use Rattle.dk_parser.specs.declared.tree.Start.TheVariants.{Image};
ghost use Rattle.dk_parser.specs.Grammar.{primary, start};
ghost use Rattle.dk_parser.specs.Marks.{mark_terminal};
ghost use Rattle.dk_parser.specs.Words.{sign_of};
ghost use Rattle.dk_parser.specs.Faults.{Ends};
ghost use Rattle.dk_parser.specs.Grown.{Grown, ReadsAs, ReadsPair};
ghost use Rattle.dk_parser.specs.Front.{Begins};
ghost use Rattle.dk_parser.specs.Reads.{AfterTurn, Moved, Point, Unclamped};

use crate::built::{self, Built};
use crate::classes;
use crate::halt::Halt;
use crate::single::{self, Turn};
use crate::terminal::Mark;
use crate::tree::{ImageRead, Name, Offset};
use dk_base::Span;
use dk_lexer::{Symbol, Token};
use source_words::Keyword;
use std::alloc::Global;

// What follows a mark, or the sign of a number before it.
fn after_turn<'a>(
    mark: Mark,
    turn: Turn,
    tokens: &'a [Token],
) -> Result<(Option<Offset>, Span, &'a [Token]), Halt<'a>>
    ensures parsed { ReadsPair (AfterTurn mark turn) tokens.now result }
    ensures fewer { IfOk result (λ x. length x.2.now ≤ length tokens.now) }
{
    match turn {
        Turn::Mark(span) => Ok((None, span, tokens)),
        Turn::Signed(negative) => {
            let (amount, rest) = single::literal(tokens)?;
            let (span, after) = single::mark(mark, rest)?;
            Ok((Some(Offset { negative, amount }), span, after))
        }
    }
}

// A mark, with a signed number before it or with none.
fn moved<'a>(
    mark: Mark,
    tokens: &'a [Token],
) -> Result<(Option<Offset>, Span, &'a [Token]), Halt<'a>>
    requires { sign_of (mark_terminal mark) ≡ None }
    ensures parsed { ReadsPair (Moved mark) tokens.now result }
    ensures fewer { IfOk result (λ x. length x.2.now < length tokens.now) }
{
    let (turn, rest) = single::sign_or(mark, tokens)?;
    let (offset, span, after) = after_turn(mark, turn, rest)?;
    Ok((offset, span, after))
}

// The point that an image is read at, in brackets.
fn point<'a>(name: Name, tokens: &'a [Token]) -> Result<(Span, ImageRead, &'a [Token]), Halt<'a>>
    ensures parsed { ReadsPair (Point name) tokens.now result }
    ensures fewer { IfOk result (λ x. length x.2.now < length tokens.now) }
{
    let (_, inner) = single::mark(Mark::Sign(Symbol::Open), tokens)?;
    let (_, across) = single::mark(Mark::Reserved(Keyword::X), inner)?;
    let (x, _, middle) = moved(Mark::Sign(Symbol::Comma), across)?;
    let (_, down) = single::mark(Mark::Reserved(Keyword::Y), middle)?;
    let (y, last, after) = moved(Mark::Sign(Symbol::Close), down)?;
    let span = Span {
        start: name.span.start,
        stop: last.stop,
    };
    Ok((
        span,
        ImageRead {
            name,
            x,
            y,
            clamped: false,
        },
        after,
    ))
}

// A name and a point.
fn unclamped<'a>(
    alloc: Global,
    tokens: &'a [Token],
) -> Result<(Span, ImageRead, &'a [Token]), Halt<'a>>
    ensures parsed { ReadsPair Unclamped tokens.now result }
    ensures fewer { IfOk result (λ x. length x.2.now < length tokens.now) }
{
    let (name, rest) = single::name(alloc, tokens)?;
    let (span, read, after) = point(name, rest)?;
    Ok((span, read, after))
}

// A read, clamped or not.
pub(crate) fn read_of<'a>(
    alloc: Global,
    tokens: &'a [Token],
) -> Result<(Built, &'a [Token]), Halt<'a>>
    requires { Begins Image tokens.now }
    ensures parsed { ReadsAs (Grown primary) (Ends primary) tokens.now result }
{
    let (span, read, rest) = unclamped(alloc, tokens)?;
    let Some(middle) = classes::edge(rest) else {
        return Ok((built::read(span, read), rest));
    };
    let (last, behind) = single::mark(Mark::Reserved(Keyword::Clamp), middle)?;
    if let Some(_) = classes::edge(behind) {
        return Err(Halt::Faulty(behind));
    }
    let whole = Span {
        start: span.start,
        stop: last.stop,
    };
    let nearest = ImageRead {
        name: read.name,
        x: read.x,
        y: read.y,
        clamped: true,
    };
    Ok((built::read(whole, nearest), behind))
}
