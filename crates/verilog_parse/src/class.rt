// What one token is worth where the grammar looks at it.

ghost use Rattle.std.specs.Prelude.{◌≡◌, [], MatchResult, false};
ghost use Rattle.dk_grammar.specs.Reading.{One};
ghost use Rattle.verilog_text.specs.declared.token.TokenKind.TheVariants.{Symbol as Sym, Keyword as Key, Clock, End};
ghost use Rattle.verilog_text.specs.Grammar.{named as named_of, atomic as atomic_of, counted as counted_of, directed as directed_of};
ghost use Rattle.verilog_parse.specs.Forms.{Halts, Is, Gives, Reads, starting as starting_of, item as item_of, following as following_of, colon_or_close as colon_or_close_of};
ghost use Rattle.verilog_parse.specs.Sections.{comma_or_close as comma_or_close_of, heading as heading_of, leading as leading_of, tailing as tailing_of, arrowing as arrowing_of, targeting as targeting_of, section_of, section_after as section_after_of, is_last};

use crate::halt::Halt;
use crate::kind::{Arrow, Follow, Head, Item, PortLead, RightStart, Section, Tail, Target};
use crate::table;
use dk_base::Span;
use netlist::Direction;
use verilog_lexer::Tokens;
use verilog_text::{Count, Keyword, Symbol, TokenKind};
use wiring::Atom;

// A name.
pub(crate) fn name(tokens: &mut Tokens<'_>) -> Result<Span, Halt>
    ensures parsed { Reads (One (Gives named_of)) tokens.old tokens.new result }
{
    let token = tokens.peek();
    match table::named(token.kind, token.span) {
        Some(found) => {
            tokens.take();
            Ok(found)
        }
        None => Err(Halt::Faulty),
    }
}

// A name or a sized constant.
pub(crate) fn atom(tokens: &mut Tokens<'_>) -> Result<Atom<Span>, Halt>
    ensures parsed { Reads (One (Gives atomic_of)) tokens.old tokens.new result }
{
    let token = tokens.peek();
    match table::atomic(token.kind, token.span) {
        Some(found) => {
            tokens.take();
            Ok(found)
        }
        None => Err(Halt::Faulty),
    }
}

// A plain number.
pub(crate) fn count(tokens: &mut Tokens<'_>) -> Result<Count, Halt>
    ensures parsed { Reads (One (Gives counted_of)) tokens.old tokens.new result }
{
    let token = tokens.peek();
    match table::counted(token.kind, token.span) {
        Some(found) => {
            tokens.take();
            Ok(found)
        }
        None => Err(Halt::Faulty),
    }
}

// What a right side begins with.
pub(crate) fn start(tokens: &mut Tokens<'_>) -> Result<RightStart, Halt>
    ensures parsed { Reads (One (Gives starting_of)) tokens.old tokens.new result }
{
    let token = tokens.peek();
    match table::starting(token.kind, token.span) {
        Some(found) => {
            tokens.take();
            Ok(found)
        }
        None => Err(Halt::Faulty),
    }
}

// What comes first in brackets.
pub(crate) fn item(tokens: &mut Tokens<'_>) -> Result<Item, Halt>
    ensures parsed { Reads (One (Gives item_of)) tokens.old tokens.new result }
{
    let token = tokens.peek();
    match table::item(token.kind, token.span) {
        Some(found) => {
            tokens.take();
            Ok(found)
        }
        None => Err(Halt::Faulty),
    }
}

// What follows this atom at the start of a right side.
pub(crate) fn follow(before: &Atom<Span>, tokens: &mut Tokens<'_>) -> Result<Follow, Halt>
    ensures parsed { Reads (One (Gives (λ k s. following_of before.now k))) tokens.old tokens.new result }
{
    let token = tokens.peek();
    match table::following(before, token.kind) {
        Some(found) => {
            tokens.take();
            Ok(found)
        }
        None => Err(Halt::Faulty),
    }
}

// `:`, after which a number follows, or `]`.
pub(crate) fn colon_or_close(tokens: &mut Tokens<'_>) -> Result<bool, Halt>
    ensures parsed { Reads (One (Gives (λ k s. colon_or_close_of k))) tokens.old tokens.new result }
{
    let token = tokens.peek();
    match table::colon_or_close(token.kind) {
        Some(found) => {
            tokens.take();
            Ok(found)
        }
        None => Err(Halt::Faulty),
    }
}

// `,`, after which a port follows, or `)`.
pub(crate) fn comma_or_close(tokens: &mut Tokens<'_>) -> Result<bool, Halt>
    ensures parsed { Reads (One (Gives (λ k s. comma_or_close_of k))) tokens.old tokens.new result }
{
    let token = tokens.peek();
    match table::comma_or_close(token.kind) {
        Some(found) => {
            tokens.take();
            Ok(found)
        }
        None => Err(Halt::Faulty),
    }
}

// The direction of a port.
pub(crate) fn direction(tokens: &mut Tokens<'_>) -> Result<Direction, Halt>
    ensures parsed { Reads (One (Gives (λ k s. directed_of k))) tokens.old tokens.new result }
{
    let token = tokens.peek();
    match table::directed(token.kind) {
        Some(found) => {
            tokens.take();
            Ok(found)
        }
        None => Err(Halt::Faulty),
    }
}

// What a name with its range begins with.
pub(crate) fn head(tokens: &mut Tokens<'_>) -> Result<Head, Halt>
    ensures parsed { Reads (One (Gives heading_of)) tokens.old tokens.new result }
{
    let token = tokens.peek();
    match table::heading(token.kind, token.span) {
        Some(found) => {
            tokens.take();
            Ok(found)
        }
        None => Err(Halt::Faulty),
    }
}

// What follows the direction of a port.
pub(crate) fn lead(tokens: &mut Tokens<'_>) -> Result<PortLead, Halt>
    ensures parsed { Reads (One (Gives leading_of)) tokens.old tokens.new result }
{
    let token = tokens.peek();
    match table::leading(token.kind, token.span) {
        Some(found) => {
            tokens.take();
            Ok(found)
        }
        None => Err(Halt::Faulty),
    }
}

// What follows the name of a register or an array.
pub(crate) fn tail(tokens: &mut Tokens<'_>) -> Result<Tail, Halt>
    ensures parsed { Reads (One (Gives (λ k s. tailing_of k))) tokens.old tokens.new result }
{
    let token = tokens.peek();
    match table::tailing(token.kind) {
        Some(found) => {
            tokens.take();
            Ok(found)
        }
        None => Err(Halt::Faulty),
    }
}

// What follows the name of what is updated.
pub(crate) fn arrow(tokens: &mut Tokens<'_>) -> Result<Arrow, Halt>
    ensures parsed { Reads (One (Gives (λ k s. arrowing_of k))) tokens.old tokens.new result }
{
    let token = tokens.peek();
    match table::arrowing(token.kind) {
        Some(found) => {
            tokens.take();
            Ok(found)
        }
        None => Err(Halt::Faulty),
    }
}

// What an update begins with, or the end of the block.
pub(crate) fn target(tokens: &mut Tokens<'_>) -> Result<Target, Halt>
    ensures parsed { Reads (One (Gives targeting_of)) tokens.old tokens.new result }
{
    let token = tokens.peek();
    match table::targeting(token.kind, token.span) {
        Some(found) => {
            tokens.take();
            Ok(found)
        }
        None => Err(Halt::Faulty),
    }
}

// The first word of a section.
pub(crate) fn section(tokens: &mut Tokens<'_>) -> Result<Section, Halt>
    ensures parsed { Reads (One (Gives (λ k s. section_of k))) tokens.old tokens.new result }
{
    let token = tokens.peek();
    match table::section(token.kind) {
        Some(found) => {
            tokens.take();
            Ok(found)
        }
        None => Err(Halt::Faulty),
    }
}

// The first word of the section after this one.
pub(crate) fn section_after(before: Section, tokens: &mut Tokens<'_>) -> Result<Section, Halt>
    requires { is_last before ≡ false }
    ensures parsed { Reads (One (Gives (λ k s. section_after_of before k))) tokens.old tokens.new result }
{
    let token = tokens.peek();
    match table::section_after(before, token.kind) {
        Some(found) => {
            tokens.take();
            Ok(found)
        }
        None => Err(Halt::Faulty),
    }
}

// This symbol.
pub(crate) fn sign(symbol: Symbol, tokens: &mut Tokens<'_>) -> Result<(), Halt>
    ensures parsed { Reads (One (Is (Sym symbol))) tokens.old tokens.new result }
{
    let token = tokens.peek();
    if token.kind == TokenKind::Symbol(symbol) {
        tokens.take();
        Ok(())
    } else {
        Err(Halt::Faulty)
    }
}

// This word.
pub(crate) fn word(word: Keyword, tokens: &mut Tokens<'_>) -> Result<(), Halt>
    ensures parsed { Reads (One (Is (Key word))) tokens.old tokens.new result }
{
    let token = tokens.peek();
    if token.kind == TokenKind::Keyword(word) {
        tokens.take();
        Ok(())
    } else {
        Err(Halt::Faulty)
    }
}

// The name `clk`.
pub(crate) fn clock(tokens: &mut Tokens<'_>) -> Result<(), Halt>
    ensures parsed { Reads (One (Is Clock)) tokens.old tokens.new result }
{
    let token = tokens.peek();
    if token.kind == TokenKind::Clock {
        tokens.take();
        Ok(())
    } else {
        Err(Halt::Faulty)
    }
}

// The end of the text, which stays the next token.
pub(crate) fn end(tokens: &Tokens<'_>) -> Result<(), Halt>
    ensures parsed { MatchResult result (λ v. One (Is End) tokens.now v []) (λ e. Halts (One (Is End)) tokens.now tokens.now e) }
{
    let token = tokens.peek();
    if token.kind == TokenKind::End {
        Ok(())
    } else {
        Err(Halt::Faulty)
    }
}
