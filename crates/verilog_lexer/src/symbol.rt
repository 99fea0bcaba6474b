// Symbols.

ghost use Rattle.std.specs.Prelude.{◌≡◌, ◌∷◌, [], ◌&&◌, nat_eq};
ghost use Rattle.std.specs.Map.{lookup};
ghost use Rattle.std.specs.Str.{bytes_eq};
ghost use Rattle.verilog_text.specs.Bytes.{symbols};

use verilog_text::Symbol;

pub(crate) fn two_byte_symbol(first: u8, second: u8) -> Option<Symbol>
    ensures { result ≡ lookup (bytes_eq (first ∷ second ∷ [])) symbols }
{
    match (first, second) {
        (b'<', b'=') => Some(Symbol::LessEqual),
        (b'=', b'=') => Some(Symbol::EqualEqual),
        _ => None,
    }
}

pub(crate) fn one_byte_symbol(byte: u8) -> Option<Symbol>
    ensures { result ≡ lookup (bytes_eq (byte ∷ [])) symbols }
{
    match byte {
        b'(' => Some(Symbol::Open),
        b')' => Some(Symbol::Close),
        b'[' => Some(Symbol::OpenSquare),
        b']' => Some(Symbol::CloseSquare),
        b'{' => Some(Symbol::OpenBrace),
        b'}' => Some(Symbol::CloseBrace),
        b',' => Some(Symbol::Comma),
        b';' => Some(Symbol::Semicolon),
        b':' => Some(Symbol::Colon),
        b'?' => Some(Symbol::Question),
        b'=' => Some(Symbol::Equal),
        b'<' => Some(Symbol::Less),
        b'+' => Some(Symbol::Plus),
        b'-' => Some(Symbol::Minus),
        b'*' => Some(Symbol::Star),
        b'/' => Some(Symbol::Slash),
        b'&' => Some(Symbol::Ampersand),
        b'|' => Some(Symbol::Bar),
        b'^' => Some(Symbol::Caret),
        b'~' => Some(Symbol::Tilde),
        b'@' => Some(Symbol::At),
        _ => None,
    }
}

// Whether the two bytes open a comment.
pub(crate) fn is_block_open(first: u8, second: u8) -> bool
    ensures { result ≡ (nat_eq first 47 && nat_eq second 42) }
{
    first == b'/' && second == b'*'
}
