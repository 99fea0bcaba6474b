// Bytes.

ghost use Rattle.std.specs.Prelude.{◌≡◌};
ghost use Rattle.net_names.specs.Words.{is_letter as letter, is_digit as digit, is_word_byte as word_byte};
ghost use Rattle.verilog_text.specs.Bytes.{is_white as white, is_in_number as in_number, is_in_constant as in_constant};

pub(crate) fn is_letter(byte: u8) -> bool
    ensures { result ≡ letter byte }
{
    byte.is_ascii_alphabetic() || byte == b'_'
}

pub(crate) fn is_digit(byte: u8) -> bool
    ensures { result ≡ digit byte }
{
    byte.is_ascii_digit()
}

pub(crate) fn is_white(byte: u8) -> bool
    ensures { result ≡ white byte }
{
    byte == b' ' || byte == b'\t' || byte == b'\n' || byte == 12 || byte == b'\r'
}

pub(crate) fn is_word_byte(byte: u8) -> bool
    ensures { result ≡ word_byte byte }
{
    is_letter(byte) || is_digit(byte) || byte == b'$'
}

pub(crate) fn is_in_number(byte: u8) -> bool
    ensures { result ≡ in_number byte }
{
    is_digit(byte) || byte == b'_'
}

pub(crate) fn is_in_constant(byte: u8) -> bool
    ensures { result ≡ in_constant byte }
{
    is_letter(byte) || is_digit(byte) || byte == b'\''
}
