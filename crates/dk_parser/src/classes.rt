// What a terminal means where an expression begins, and where one goes on.

ghost use Rattle.std.specs.Prelude.{◌≡◌, ◌<◌, [], MatchOption};
ghost use Rattle.dk_parser.specs.Ahead.{IsAhead};
ghost use Rattle.dk_parser.specs.Front.{IsFront, IsEdge, rank};
ghost use Rattle.dk_parser.specs.Terminals.{terminal_of, terminal_of_word, terminal_at as terminal_of_place};
ghost use Rattle.dk_parser.specs.Grammar.{binding as binding_of, start as start_of};

use crate::terminal::Terminal;
use crate::tree::{Binding, Start, Step};
use dk_base::{Binary, Scaling, Unary};
use dk_lexer::{Symbol, Token, TokenKind};
use source_words::{Keyword, find_keyword, read_type};

// The first token, what the grammar sees of it, and the tokens after it.
pub(crate) fn front(tokens: &[Token]) -> Option<(&Token, Terminal, &[Token])>
    ensures { MatchOption result (tokens.now ≡ []) (λ x. IsFront tokens.now x.0.now x.1 x.2.now) }
{
    let (first, after) = tokens.split_first()?;
    Some((first, terminal(first), after))
}

// How the tokens go on with an expression before them, at a level of operators.
#[derive(Drop)]
pub(crate) enum Ahead<'a> {
    // An operator of the level that expects an operand, and the tokens after it.
    Operand(Binary, &'a [Token]),
    // An operator of the level that expects a number or a type, and the tokens after it.
    Suffix(Step, &'a [Token]),
    // An operator that binds tighter than the level.
    Tighter,
    // Nothing that the level takes.
    End,
}

pub(crate) fn look_ahead<'a>(precedence: u8, tokens: &'a [Token]) -> Ahead<'a>
    requires some { 0 < precedence }
    requires few { precedence < 9 }
    ensures { IsAhead precedence tokens.now result }
{
    let Some((_, kind, after)) = front(tokens) else {
        return Ahead::End;
    };
    let (at, step) = match binding(kind) {
        Binding::Operator(at, step) => (at, step),
        Binding::Clamps => return Ahead::Tighter,
        Binding::Stops => return Ahead::End,
    };
    if at < precedence {
        return Ahead::Tighter;
    }
    if precedence < at {
        return Ahead::End;
    }
    match step {
        Step::Operand(operator) => Ahead::Operand(operator, after),
        _ => Ahead::Suffix(step, after),
    }
}

// The tokens after `edge`, if it is the first token.
#[tactic(auto, using(crate::proofs::Edges::not_edge))]
pub(crate) fn edge(tokens: &[Token]) -> Option<&[Token]>
    ensures { MatchOption result (1 < rank tokens.now) (λ x. IsEdge tokens.now x.now) }
{
    let (_, kind, after) = front(tokens)?;
    if kind == Terminal::Keyword(Keyword::Edge) {
        Some(after)
    } else {
        None
    }
}

#[tactic(auto, unfolding(crate::specs::Terminals::terminal_of))]
pub(crate) fn terminal(token: &Token) -> Terminal
    ensures { result ≡ terminal_of token.now.kind }
{
    match &token.kind {
        TokenKind::Word(text) => word(text.as_bytes()),
        TokenKind::Number(value) => Terminal::Number(*value),
        TokenKind::Symbol(symbol) => Terminal::Symbol(*symbol),
        TokenKind::End => Terminal::EndOfText,
    }
}

/// What the grammar sees of the token at a place: the end of the text if there is none.
pub fn terminal_at(tokens: &[Token], place: usize) -> Terminal
    ensures { result ≡ terminal_of_place tokens.now place }
{
    match tokens.get(place) {
        Some(token) => terminal(token),
        None => Terminal::EndOfText,
    }
}

// A reserved word, a type word or a name.
fn word(bytes: &[u8]) -> Terminal
    ensures { result ≡ terminal_of_word bytes.now }
{
    if let Some(keyword) = find_keyword(bytes) {
        return Terminal::Keyword(keyword);
    }
    match read_type(bytes) {
        Some(ty) => Terminal::TypeWord(ty),
        None => Terminal::Name,
    }
}

pub(crate) fn binding(terminal: Terminal) -> Binding
    ensures { result ≡ binding_of terminal }
{
    match terminal {
        Terminal::Keyword(keyword) => keyword_binding(keyword),
        Terminal::Symbol(symbol) => symbol_binding(symbol),
        _ => Binding::Stops,
    }
}

fn keyword_binding(keyword: Keyword) -> Binding
    ensures { result ≡ binding_of (Terminal.Keyword keyword) }
{
    match keyword {
        Keyword::As => Binding::Operator(1, Step::Type),
        Keyword::Edge => Binding::Clamps,
        Keyword::Size | Keyword::Input | Keyword::Let | Keyword::Inline => Binding::Stops,
        Keyword::Im | Keyword::End | Keyword::Output => Binding::Stops,
        Keyword::Select | Keyword::Min | Keyword::Max => Binding::Stops,
        Keyword::Abs | Keyword::Sat => Binding::Stops,
        Keyword::X | Keyword::Y | Keyword::Clamp => Binding::Stops,
    }
}

fn symbol_binding(symbol: Symbol) -> Binding
    ensures { result ≡ binding_of (Terminal.Symbol symbol) }
{
    match symbol {
        Symbol::Star => Binding::Operator(2, Step::Operand(Binary::Multiply)),
        Symbol::Slash => Binding::Operator(2, Step::Number(Scaling::Divide)),
        Symbol::Plus => Binding::Operator(3, Step::Operand(Binary::Add)),
        Symbol::Minus => Binding::Operator(3, Step::Operand(Binary::Subtract)),
        Symbol::ShiftLeft => Binding::Operator(4, Step::Number(Scaling::ShiftLeft)),
        Symbol::ShiftRight => Binding::Operator(4, Step::Number(Scaling::ShiftRight)),
        Symbol::Ampersand => Binding::Operator(5, Step::Operand(Binary::And)),
        Symbol::Caret => Binding::Operator(6, Step::Operand(Binary::Xor)),
        Symbol::Bar => Binding::Operator(7, Step::Operand(Binary::Or)),
        Symbol::Less => Binding::Operator(8, Step::Operand(Binary::Less)),
        Symbol::LessEqual => Binding::Operator(8, Step::Operand(Binary::LessOrEqual)),
        Symbol::Greater => Binding::Operator(8, Step::Operand(Binary::Greater)),
        Symbol::GreaterEqual => Binding::Operator(8, Step::Operand(Binary::GreaterOrEqual)),
        Symbol::EqualEqual => Binding::Operator(8, Step::Operand(Binary::Equal)),
        Symbol::NotEqual => Binding::Operator(8, Step::Operand(Binary::NotEqual)),
        _ => Binding::Stops,
    }
}

pub(crate) fn start(terminal: Terminal) -> Start
    ensures { result ≡ start_of terminal }
{
    match terminal {
        Terminal::Symbol(Symbol::Minus) => Start::Prefix(Unary::Negate),
        Terminal::Symbol(Symbol::Bang) => Start::Prefix(Unary::Not),
        Terminal::Symbol(Symbol::Open) => Start::Bracket,
        Terminal::Number(value) => Start::Constant(value),
        Terminal::Name => Start::Image,
        Terminal::Keyword(keyword) => keyword_start(keyword),
        _ => Start::Nothing,
    }
}

fn keyword_start(keyword: Keyword) -> Start
    ensures { result ≡ start_of (Terminal.Keyword keyword) }
{
    match keyword {
        Keyword::Min => Start::Pair(Binary::Min),
        Keyword::Max => Start::Pair(Binary::Max),
        Keyword::Abs => Start::Absolute,
        Keyword::Sat => Start::Saturate,
        Keyword::Select => Start::Choice,
        Keyword::Size | Keyword::Input | Keyword::Let | Keyword::Inline => Start::Nothing,
        Keyword::Im | Keyword::End | Keyword::Output => Start::Nothing,
        Keyword::As | Keyword::Edge | Keyword::Clamp => Start::Nothing,
        Keyword::X | Keyword::Y => Start::Nothing,
    }
}
