// Bytes of ASCII.

ghost use Rattle.std.specs.Prelude.{◌≡◌, ◌≤◌, length};
ghost use Rattle.std.specs.List.{prefix_len};
ghost use Rattle.dk_base.specs.Ascii as ascii;

/// Whether the byte is a blank, TAB, CR or LF.
pub fn is_white(byte: u8) -> bool
    ensures { result ≡ ascii.is_white byte }
{
    byte == b' ' || byte == b'\t' || byte == b'\r' || byte == b'\n'
}

/// Whether the byte is a letter or `_`.
pub fn is_letter(byte: u8) -> bool
    ensures { result ≡ ascii.is_letter byte }
{
    byte.is_ascii_alphabetic() || byte == b'_'
}

/// Whether the byte is a decimal digit.
pub fn is_digit(byte: u8) -> bool
    ensures { result ≡ ascii.is_digit byte }
{
    byte.is_ascii_digit()
}

/// Whether the byte is a letter, `_` or a decimal digit.
pub fn is_word_byte(byte: u8) -> bool
    ensures { result ≡ ascii.is_word_byte byte }
{
    is_letter(byte) || is_digit(byte)
}

/// How many letters, `_` and digits are at the front.
pub fn word_length(bytes: &[u8]) -> usize
    ensures is { result ≡ prefix_len ascii.is_word_byte bytes.now }
    ensures within { result ≤ length bytes.now }
{
    bytes.iter().take_while(|byte| is_word_byte(**byte)).count()
}

/// How many decimal digits are at the front.
pub fn digits_length(bytes: &[u8]) -> usize
    ensures is { result ≡ prefix_len ascii.is_digit bytes.now }
    ensures within { result ≤ length bytes.now }
{
    bytes.iter().take_while(|byte| is_digit(**byte)).count()
}
