// Words.

ghost use Rattle.std.specs.Prelude.{◌≡◌};
ghost use Rattle.std.specs.Str.{bytes_eq};
ghost use Rattle.verilog_text.specs.Bytes.{refused_or_name as refused_or_name_of, word_kind as word_kind_of};

use verilog_text::{Keyword, TokenKind};

fn same(bytes: &[u8], word: &[u8]) -> bool
    ensures { result ≡ bytes_eq bytes.now word.now }
{
    bytes == word
}

fn refused_or_name(bytes: &[u8]) -> TokenKind
    ensures { result ≡ refused_or_name_of bytes.now }
{
    if net_names::is_refused_word(bytes) {
        TokenKind::Refused
    } else if same(bytes, b"clk") {
        TokenKind::Clock
    } else {
        TokenKind::Name
    }
}

// What a word is.
pub(crate) fn word_kind(bytes: &[u8]) -> TokenKind
    ensures { result ≡ word_kind_of bytes.now }
{
    if same(bytes, b"module") {
        TokenKind::Keyword(Keyword::Module)
    } else if same(bytes, b"endmodule") {
        TokenKind::Keyword(Keyword::EndModule)
    } else if same(bytes, b"input") {
        TokenKind::Keyword(Keyword::Input)
    } else if same(bytes, b"output") {
        TokenKind::Keyword(Keyword::Output)
    } else if same(bytes, b"wire") {
        TokenKind::Keyword(Keyword::Wire)
    } else if same(bytes, b"reg") {
        TokenKind::Keyword(Keyword::Reg)
    } else if same(bytes, b"assign") {
        TokenKind::Keyword(Keyword::Assign)
    } else if same(bytes, b"always") {
        TokenKind::Keyword(Keyword::Always)
    } else if same(bytes, b"posedge") {
        TokenKind::Keyword(Keyword::Posedge)
    } else if same(bytes, b"begin") {
        TokenKind::Keyword(Keyword::Begin)
    } else if same(bytes, b"end") {
        TokenKind::Keyword(Keyword::End)
    } else {
        refused_or_name(bytes)
    }
}
