// Right sides and assigns.

ghost use Rattle.std.specs.Prelude.{◌≡◌};
ghost use Rattle.verilog_parse.specs.Forms.{Closed, Ended, AfterFirst, AfterItem, AfterAtom, AfterBrace, AfterStart, ARight, AnAssign, Reads};

use crate::class;
use crate::halt::Halt;
use crate::kind::{Follow, Item, RightStart};
use dk_base::Span;
use verilog_lexer::Tokens;
use verilog_text::{Count, Symbol, WrittenAssign, WrittenRight};
use wiring::Atom;

// An atom and the symbol after it.
pub(crate) fn closed(symbol: Symbol, tokens: &mut Tokens<'_>) -> Result<Atom<Span>, Halt>
    ensures parsed { Reads (Closed symbol) tokens.old tokens.new result }
{
    let atom = class::atom(tokens)?;
    class::sign(symbol, tokens)?;
    Ok(atom)
}

// A symbol and `;`.
fn ended(symbol: Symbol, tokens: &mut Tokens<'_>) -> Result<(), Halt>
    ensures parsed { Reads (Ended symbol) tokens.old tokens.new result }
{
    class::sign(symbol, tokens)?;
    class::sign(Symbol::Semicolon, tokens)?;
    Ok(())
}

// What follows the first number in square brackets.
fn after_first(
    name: Span,
    first: Count,
    more: bool,
    tokens: &mut Tokens<'_>,
) -> Result<WrittenRight, Halt>
    ensures parsed { Reads (AfterFirst name first more) tokens.old tokens.new result }
{
    if more {
        let low = class::count(tokens)?;
        ended(Symbol::CloseSquare, tokens)?;
        Ok(WrittenRight::Slice(name, first.value, low.value))
    } else {
        class::sign(Symbol::Semicolon, tokens)?;
        Ok(WrittenRight::Bit(name, first.value))
    }
}

// What follows the first item in square brackets.
fn after_item(name: Span, item: Item, tokens: &mut Tokens<'_>) -> Result<WrittenRight, Halt>
    ensures parsed { Reads (AfterItem name item) tokens.old tokens.new result }
{
    match item {
        Item::Count(first) => {
            let more = class::colon_or_close(tokens)?;
            let right = after_first(name, first, more, tokens)?;
            Ok(right)
        }
        Item::Atom(index) => {
            ended(Symbol::CloseSquare, tokens)?;
            Ok(WrittenRight::Word(name, index))
        }
    }
}

// What follows an atom at the start of a right side.
fn after_atom(
    first: Atom<Span>,
    follow: Follow,
    tokens: &mut Tokens<'_>,
) -> Result<WrittenRight, Halt>
    ensures parsed { Reads (AfterAtom first follow) tokens.old tokens.new result }
{
    match follow {
        Follow::End => Ok(WrittenRight::Copy(first)),
        Follow::Operator(operator) => {
            let second = closed(Symbol::Semicolon, tokens)?;
            Ok(WrittenRight::Binary(operator, first, second))
        }
        Follow::Question => {
            let second = closed(Symbol::Colon, tokens)?;
            let third = closed(Symbol::Semicolon, tokens)?;
            Ok(WrittenRight::Choose(first, second, third))
        }
        Follow::Square(name) => {
            let item = class::item(tokens)?;
            let right = after_item(name, item, tokens)?;
            Ok(right)
        }
    }
}

// What follows the first item in braces.
fn after_brace(item: Item, tokens: &mut Tokens<'_>) -> Result<WrittenRight, Halt>
    ensures parsed { Reads (AfterBrace item) tokens.old tokens.new result }
{
    match item {
        Item::Count(count) => {
            class::sign(Symbol::OpenBrace, tokens)?;
            let atom = closed(Symbol::CloseBrace, tokens)?;
            ended(Symbol::CloseBrace, tokens)?;
            Ok(WrittenRight::Repeat(count, atom))
        }
        Item::Atom(first) => {
            class::sign(Symbol::Comma, tokens)?;
            let second = class::atom(tokens)?;
            ended(Symbol::CloseBrace, tokens)?;
            Ok(WrittenRight::Join(first, second))
        }
    }
}

fn after_start(start: RightStart, tokens: &mut Tokens<'_>) -> Result<WrittenRight, Halt>
    ensures parsed { Reads (AfterStart start) tokens.old tokens.new result }
{
    match start {
        RightStart::Tilde => {
            let atom = closed(Symbol::Semicolon, tokens)?;
            Ok(WrittenRight::Not(atom))
        }
        RightStart::Brace => {
            let item = class::item(tokens)?;
            let right = after_brace(item, tokens)?;
            Ok(right)
        }
        RightStart::Atom(first) => {
            let follow = class::follow(&first, tokens)?;
            let right = after_atom(first, follow, tokens)?;
            Ok(right)
        }
    }
}

// A right side and its `;`.
fn right(tokens: &mut Tokens<'_>) -> Result<WrittenRight, Halt>
    ensures parsed { Reads ARight tokens.old tokens.new result }
{
    let start = class::start(tokens)?;
    let right = after_start(start, tokens)?;
    Ok(right)
}

// What follows `assign`.
pub(crate) fn assign(tokens: &mut Tokens<'_>) -> Result<WrittenAssign, Halt>
    ensures parsed { Reads AnAssign tokens.old tokens.new result }
{
    let target = class::name(tokens)?;
    class::sign(Symbol::Equal, tokens)?;
    let right = right(tokens)?;
    Ok(WrittenAssign { target, right })
}
