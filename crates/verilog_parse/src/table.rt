// Which way each kind of token leads.

ghost use Rattle.std.specs.Prelude.{◌≡◌};
ghost use Rattle.verilog_text.specs.Grammar.{named as named_of, atomic as atomic_of, counted as counted_of, directed as directed_of};
ghost use Rattle.verilog_parse.specs.Forms.{opening as opening_of, starting as starting_of, item as item_of, following as following_of, colon_or_close as colon_or_close_of};
ghost use Rattle.verilog_parse.specs.Sections.{comma_or_close as comma_or_close_of, heading as heading_of, leading as leading_of, tailing as tailing_of, arrowing as arrowing_of, targeting as targeting_of, section_of, statement_of, last_of, section_after as section_after_of};

use crate::kind::{Arrow, Follow, Head, Item, PortLead, RightStart, Section, Tail, Target};
use dk_base::Span;
use netlist::Direction;
use verilog_text::{Count, Keyword, Symbol, TokenKind};
use wiring::{Atom, Operator};

pub(crate) fn named(kind: TokenKind, span: Span) -> Option<Span>
    ensures { result ≡ named_of kind span }
{
    match kind {
        TokenKind::Name => Some(span),
        TokenKind::Clock => Some(span),
        _ => None,
    }
}

pub(crate) fn atomic(kind: TokenKind, span: Span) -> Option<Atom<Span>>
    ensures { result ≡ atomic_of kind span }
{
    match kind {
        TokenKind::Name => Some(Atom::Net(span)),
        TokenKind::Clock => Some(Atom::Net(span)),
        TokenKind::Sized(constant) => Some(Atom::Constant(constant)),
        _ => None,
    }
}

pub(crate) fn counted(kind: TokenKind, span: Span) -> Option<Count>
    ensures { result ≡ counted_of kind span }
{
    match kind {
        TokenKind::Plain(value) => Some(Count { value, span }),
        _ => None,
    }
}

pub(crate) fn directed(kind: TokenKind) -> Option<Direction>
    ensures { result ≡ directed_of kind }
{
    match kind {
        TokenKind::Keyword(Keyword::Input) => Some(Direction::Input),
        TokenKind::Keyword(Keyword::Output) => Some(Direction::Output),
        _ => None,
    }
}

fn opening(symbol: Symbol) -> Option<RightStart>
    ensures { result ≡ opening_of symbol }
{
    match symbol {
        Symbol::Tilde => Some(RightStart::Tilde),
        Symbol::OpenBrace => Some(RightStart::Brace),
        _ => None,
    }
}

pub(crate) fn starting(kind: TokenKind, span: Span) -> Option<RightStart>
    ensures { result ≡ starting_of kind span }
{
    match kind {
        TokenKind::Symbol(symbol) => opening(symbol),
        TokenKind::Name => Some(RightStart::Atom(Atom::Net(span))),
        TokenKind::Clock => Some(RightStart::Atom(Atom::Net(span))),
        TokenKind::Sized(constant) => Some(RightStart::Atom(Atom::Constant(constant))),
        _ => None,
    }
}

pub(crate) fn item(kind: TokenKind, span: Span) -> Option<Item>
    ensures { result ≡ item_of kind span }
{
    match kind {
        TokenKind::Plain(value) => Some(Item::Count(Count { value, span })),
        TokenKind::Name => Some(Item::Atom(Atom::Net(span))),
        TokenKind::Clock => Some(Item::Atom(Atom::Net(span))),
        TokenKind::Sized(constant) => Some(Item::Atom(Atom::Constant(constant))),
        _ => None,
    }
}

pub(crate) fn following(before: &Atom<Span>, kind: TokenKind) -> Option<Follow>
    ensures { result ≡ following_of before.now kind }
{
    match kind {
        TokenKind::Symbol(Symbol::Semicolon) => Some(Follow::End),
        TokenKind::Symbol(Symbol::Question) => Some(Follow::Question),
        TokenKind::Symbol(Symbol::Plus) => Some(Follow::Operator(Operator::Add)),
        TokenKind::Symbol(Symbol::Minus) => Some(Follow::Operator(Operator::Subtract)),
        TokenKind::Symbol(Symbol::Star) => Some(Follow::Operator(Operator::Multiply)),
        TokenKind::Symbol(Symbol::Slash) => Some(Follow::Operator(Operator::Divide)),
        TokenKind::Symbol(Symbol::Less) => Some(Follow::Operator(Operator::Less)),
        TokenKind::Symbol(Symbol::EqualEqual) => Some(Follow::Operator(Operator::Equal)),
        TokenKind::Symbol(Symbol::Ampersand) => Some(Follow::Operator(Operator::And)),
        TokenKind::Symbol(Symbol::Bar) => Some(Follow::Operator(Operator::Or)),
        TokenKind::Symbol(Symbol::Caret) => Some(Follow::Operator(Operator::Xor)),
        TokenKind::Symbol(Symbol::OpenSquare) => match before {
            Atom::Net(name) => Some(Follow::Square(*name)),
            Atom::Constant(_) => None,
        },
        _ => None,
    }
}

pub(crate) fn colon_or_close(kind: TokenKind) -> Option<bool>
    ensures { result ≡ colon_or_close_of kind }
{
    match kind {
        TokenKind::Symbol(Symbol::Colon) => Some(true),
        TokenKind::Symbol(Symbol::CloseSquare) => Some(false),
        _ => None,
    }
}

pub(crate) fn comma_or_close(kind: TokenKind) -> Option<bool>
    ensures { result ≡ comma_or_close_of kind }
{
    match kind {
        TokenKind::Symbol(Symbol::Comma) => Some(true),
        TokenKind::Symbol(Symbol::Close) => Some(false),
        _ => None,
    }
}

pub(crate) fn heading(kind: TokenKind, span: Span) -> Option<Head>
    ensures { result ≡ heading_of kind span }
{
    match kind {
        TokenKind::Symbol(Symbol::OpenSquare) => Some(Head::Square),
        TokenKind::Name => Some(Head::Name(span)),
        TokenKind::Clock => Some(Head::Name(span)),
        _ => None,
    }
}

pub(crate) fn leading(kind: TokenKind, span: Span) -> Option<PortLead>
    ensures { result ≡ leading_of kind span }
{
    match kind {
        TokenKind::Keyword(Keyword::Wire) => Some(PortLead::Wire),
        TokenKind::Symbol(Symbol::OpenSquare) => Some(PortLead::Head(Head::Square)),
        TokenKind::Name => Some(PortLead::Head(Head::Name(span))),
        TokenKind::Clock => Some(PortLead::Head(Head::Name(span))),
        _ => None,
    }
}

pub(crate) fn tailing(kind: TokenKind) -> Option<Tail>
    ensures { result ≡ tailing_of kind }
{
    match kind {
        TokenKind::Symbol(Symbol::Semicolon) => Some(Tail::End),
        TokenKind::Symbol(Symbol::OpenSquare) => Some(Tail::Words),
        _ => None,
    }
}

pub(crate) fn arrowing(kind: TokenKind) -> Option<Arrow>
    ensures { result ≡ arrowing_of kind }
{
    match kind {
        TokenKind::Symbol(Symbol::LessEqual) => Some(Arrow::Takes),
        TokenKind::Symbol(Symbol::OpenSquare) => Some(Arrow::Index),
        _ => None,
    }
}

pub(crate) fn targeting(kind: TokenKind, span: Span) -> Option<Target>
    ensures { result ≡ targeting_of kind span }
{
    match kind {
        TokenKind::Name => Some(Target::Name(span)),
        TokenKind::Clock => Some(Target::Name(span)),
        TokenKind::Keyword(Keyword::End) => Some(Target::End),
        _ => None,
    }
}

pub(crate) fn section(kind: TokenKind) -> Option<Section>
    ensures { result ≡ section_of kind }
{
    match kind {
        TokenKind::Keyword(Keyword::Wire) => Some(Section::Wire),
        TokenKind::Keyword(Keyword::Reg) => Some(Section::Reg),
        TokenKind::Keyword(Keyword::Assign) => Some(Section::Assign),
        TokenKind::Keyword(Keyword::Always) => Some(Section::Always),
        TokenKind::Keyword(Keyword::EndModule) => Some(Section::End),
        _ => None,
    }
}

fn statement(kind: TokenKind) -> Option<Section>
    ensures { result ≡ statement_of kind }
{
    match kind {
        TokenKind::Keyword(Keyword::Assign) => Some(Section::Assign),
        TokenKind::Keyword(Keyword::Always) => Some(Section::Always),
        TokenKind::Keyword(Keyword::EndModule) => Some(Section::End),
        _ => None,
    }
}

fn last(kind: TokenKind) -> Option<Section>
    ensures { result ≡ last_of kind }
{
    match kind {
        TokenKind::Keyword(Keyword::EndModule) => Some(Section::End),
        _ => None,
    }
}

pub(crate) fn section_after(before: Section, kind: TokenKind) -> Option<Section>
    ensures { result ≡ section_after_of before kind }
{
    match before {
        Section::Wire => section(kind),
        Section::Reg => section(kind),
        Section::Assign => statement(kind),
        Section::Always => last(kind),
        Section::End => None,
    }
}
