//! A header while it is read, byte after byte.

ghost use Rattle.std.specs.Prelude.{◌≡◌, ◌<◌, IsTrue, if◌then◌else◌};
ghost use Rattle.dk_base.specs.declared.TheConstants.{MAX_HEADER_BYTES};
ghost use Rattle.dk_base.specs.Ascii.{is_white as white, is_digit as digit};
ghost use Rattle.pgm_codec.specs.Headers.{is_line_end as line_end};
ghost use Rattle.pgm_codec.specs.Automaton.{start, lost as lost_of, moved as moved_to, finished as finished_at, in_filling as filling_step, in_digits as digits_step, step as step_of};

use dk_base::{is_digit, is_white};

// What was read last.
#[derive(Clone, Copy, Debug, PartialEq, Eq)]
pub(crate) enum Stage {
    // Nothing.
    Start,
    // The `P`.
    Letter,
    // The `5`, after which a gap begins.
    Gap,
    // A byte of a gap, outside comments.
    Filled,
    // A byte of a comment.
    Comment,
    // A digit.
    Digits,
    // The white space byte after maxval.
    Whole,
    // A byte that continues no header.
    Lost,
}

// The number that is read, or comes next.
#[derive(Clone, Copy, Debug, PartialEq, Eq)]
pub(crate) enum Number {
    Width,
    Height,
    Maxval,
}

// What was read of a header. `length` counts its bytes; a byte that continues no header is not counted.
#[derive(Clone, Copy, Debug, PartialEq, Eq)]
pub(crate) struct Reading {
    pub(crate) stage: Stage,
    pub(crate) number: Number,
    pub(crate) width: u32,
    pub(crate) height: u32,
    // The number of the last digits, at most 4,294,967,295.
    pub(crate) value: u32,
    // The offset of the first of these digits.
    pub(crate) first: usize,
    pub(crate) length: usize,
}

// CR or LF.
fn is_line_end(byte: u8) -> bool
    ensures { result ≡ line_end byte }
{
    byte == b'\r' || byte == b'\n'
}

// The number with one digit more, at most 4,294,967,295.
#[tactic(auto, unfolding(crate::specs::Headers::capped))]
fn digit_after(value: u32, byte: u8) -> u32
    requires { IsTrue (digit byte) }
    ensures { result ≡ Rattle.pgm_codec.specs.Automaton.digit_after value byte }
{
    value
        .saturating_mul(10)
        .saturating_add(u32::from(byte - b'0'))
}

impl Reading {
    pub(crate) fn new() -> Self
        ensures { result ≡ start }
    {
        Reading {
            stage: Stage::Start,
            number: Number::Width,
            width: 0,
            height: 0,
            value: 0,
            first: 0,
            length: 0,
        }
    }

    // The last byte continues no header.
    fn lost(self) -> Self
        ensures { result ≡ lost_of self }
    {
        Reading {
            stage: Stage::Lost,
            ..self
        }
    }

    // One byte more was read.
    fn moved(self, stage: Stage) -> Self
        requires { self.length < MAX_HEADER_BYTES }
        ensures { result ≡ moved_to stage self }
    {
        Reading {
            stage,
            length: self.length + 1,
            ..self
        }
    }

    // The white space byte after a number was read.
    fn finished(self) -> Self
        requires { self.length < MAX_HEADER_BYTES }
        ensures { result ≡ finished_at self.number self }
    {
        let length = self.length + 1;
        match self.number {
            Number::Width => Reading {
                stage: Stage::Filled,
                number: Number::Height,
                width: self.value,
                length,
                ..self
            },
            Number::Height => Reading {
                stage: Stage::Filled,
                number: Number::Maxval,
                height: self.value,
                length,
                ..self
            },
            Number::Maxval => Reading {
                stage: Stage::Whole,
                length,
                ..self
            },
        }
    }

    fn in_filling(self, byte: u8) -> Self
        requires { self.length < MAX_HEADER_BYTES }
        ensures { result ≡ filling_step self byte }
    {
        if is_white(byte) {
            self.moved(Stage::Filled)
        } else if byte == b'#' {
            self.moved(Stage::Comment)
        } else if is_digit(byte) {
            Reading {
                stage: Stage::Digits,
                value: u32::from(byte - b'0'),
                first: self.length,
                length: self.length + 1,
                ..self
            }
        } else {
            self.lost()
        }
    }

    fn in_digits(self, byte: u8) -> Self
        requires { self.length < MAX_HEADER_BYTES }
        ensures { result ≡ digits_step self byte }
    {
        if is_digit(byte) {
            Reading {
                value: digit_after(self.value, byte),
                length: self.length + 1,
                stage: Stage::Digits,
                ..self
            }
        } else if is_white(byte) {
            self.finished()
        } else {
            self.lost()
        }
    }

    fn moved_if(self, is: bool, stage: Stage) -> Self
        requires { self.length < MAX_HEADER_BYTES }
        ensures { result ≡ (if is then moved_to stage self else lost_of self) }
    {
        if is { self.moved(stage) } else { self.lost() }
    }

    // Reads one byte more.
    pub(crate) fn step(self, byte: u8) -> Self
        requires { self.length < MAX_HEADER_BYTES }
        ensures { result ≡ step_of self byte }
    {
        match self.stage {
            Stage::Start => self.moved_if(byte == b'P', Stage::Letter),
            Stage::Letter => self.moved_if(byte == b'5', Stage::Gap),
            Stage::Gap => self.moved_if(is_white(byte), Stage::Filled),
            Stage::Filled => self.in_filling(byte),
            Stage::Comment => {
                if is_line_end(byte) {
                    self.moved(Stage::Filled)
                } else {
                    self.moved(Stage::Comment)
                }
            }
            Stage::Digits => self.in_digits(byte),
            Stage::Whole | Stage::Lost => self.lost(),
        }
    }
}
