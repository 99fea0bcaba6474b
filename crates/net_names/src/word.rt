// Words, and which of them are names.

ghost use Rattle.std.specs.Prelude.{◌≡◌};
ghost use Rattle.std.specs.List.{prefix_len};
ghost use Rattle.std.specs.Str.{bytes_eq};
ghost use Rattle.net_names.specs.Words.{is_letter as letter, is_digit as digit, is_word_byte as word_byte, is_word as word, is_among, structure_words, refused_a_to_d, refused_e, refused_f, refused_g_to_n, refused_o_to_s, refused_t_to_x, is_structure_word as structure_word, is_refused_word as refused_word, is_name as name};

use crate::MOST_NAME_BYTES;

fn is_letter(byte: u8) -> bool
    ensures { result ≡ letter byte }
{
    byte.is_ascii_alphabetic() || byte == b'_'
}

fn is_digit(byte: u8) -> bool
    ensures { result ≡ digit byte }
{
    byte.is_ascii_digit()
}

fn is_word_byte(byte: u8) -> bool
    ensures { result ≡ word_byte byte }
{
    is_letter(byte) || is_digit(byte) || byte == b'$'
}

fn word_length(bytes: &[u8]) -> usize
    ensures { result ≡ prefix_len word_byte bytes.now }
{
    bytes.iter().take_while(|byte| is_word_byte(**byte)).count()
}

/// Whether the bytes are a word: a letter or `_`, followed by letters, digits, `_` or `$`.
pub fn is_word(bytes: &[u8]) -> bool
    ensures { result ≡ word bytes.now }
{
    match bytes {
        [] => false,
        [first, rest @ ..] => is_letter(*first) && word_length(rest) == rest.len(),
    }
}

fn same(left: &[u8], right: &[u8]) -> bool
    ensures { result ≡ bytes_eq left.now right.now }
{
    left == right
}

/// Whether the bytes are a word of the grammar, such as `wire`.
pub fn is_structure_word(bytes: &[u8]) -> bool
    ensures { result ≡ structure_word bytes.now }
{
    same(bytes, b"module")
        || same(bytes, b"endmodule")
        || same(bytes, b"input")
        || same(bytes, b"output")
        || same(bytes, b"wire")
        || same(bytes, b"reg")
        || same(bytes, b"assign")
        || same(bytes, b"always")
        || same(bytes, b"posedge")
        || same(bytes, b"begin")
        || same(bytes, b"end")
}

fn is_refused_a_to_d(bytes: &[u8]) -> bool
    ensures { result ≡ is_among bytes.now refused_a_to_d }
{
    same(bytes, b"and")
        || same(bytes, b"case")
        || same(bytes, b"casex")
        || same(bytes, b"casez")
        || same(bytes, b"deassign")
        || same(bytes, b"default")
        || same(bytes, b"defparam")
        || same(bytes, b"disable")
}

fn is_refused_e(bytes: &[u8]) -> bool
    ensures { result ≡ is_among bytes.now refused_e }
{
    same(bytes, b"else")
        || same(bytes, b"endcase")
        || same(bytes, b"endfunction")
        || same(bytes, b"endgenerate")
        || same(bytes, b"endtask")
        || same(bytes, b"event")
}

fn is_refused_f(bytes: &[u8]) -> bool
    ensures { result ≡ is_among bytes.now refused_f }
{
    same(bytes, b"for")
        || same(bytes, b"force")
        || same(bytes, b"forever")
        || same(bytes, b"fork")
        || same(bytes, b"function")
}

fn is_refused_g_to_n(bytes: &[u8]) -> bool
    ensures { result ≡ is_among bytes.now refused_g_to_n }
{
    same(bytes, b"generate")
        || same(bytes, b"genvar")
        || same(bytes, b"if")
        || same(bytes, b"initial")
        || same(bytes, b"inout")
        || same(bytes, b"integer")
        || same(bytes, b"join")
        || same(bytes, b"localparam")
        || same(bytes, b"nand")
        || same(bytes, b"negedge")
        || same(bytes, b"nor")
        || same(bytes, b"not")
}

fn is_refused_o_to_s(bytes: &[u8]) -> bool
    ensures { result ≡ is_among bytes.now refused_o_to_s }
{
    same(bytes, b"or")
        || same(bytes, b"parameter")
        || same(bytes, b"real")
        || same(bytes, b"realtime")
        || same(bytes, b"release")
        || same(bytes, b"repeat")
        || same(bytes, b"signed")
        || same(bytes, b"supply0")
        || same(bytes, b"supply1")
}

fn is_refused_t_to_x(bytes: &[u8]) -> bool
    ensures { result ≡ is_among bytes.now refused_t_to_x }
{
    same(bytes, b"task")
        || same(bytes, b"time")
        || same(bytes, b"tri")
        || same(bytes, b"wait")
        || same(bytes, b"wand")
        || same(bytes, b"while")
        || same(bytes, b"wor")
        || same(bytes, b"xnor")
        || same(bytes, b"xor")
}

/// Whether the bytes are a word of the standard that the subset refuses, such as `initial`.
pub fn is_refused_word(bytes: &[u8]) -> bool
    ensures { result ≡ refused_word bytes.now }
{
    is_refused_a_to_d(bytes)
        || is_refused_e(bytes)
        || is_refused_f(bytes)
        || is_refused_g_to_n(bytes)
        || is_refused_o_to_s(bytes)
        || is_refused_t_to_x(bytes)
}

/// Whether the bytes are a name: a word of at most `MOST_NAME_BYTES` that is none of the words of the grammar and none of those that the subset refuses.
pub fn is_name(bytes: &[u8]) -> bool
    ensures { result ≡ name bytes.now }
{
    is_word(bytes)
        && bytes.len() <= MOST_NAME_BYTES
        && !is_structure_word(bytes)
        && !is_refused_word(bytes)
}
