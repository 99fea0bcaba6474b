// Common mistakes of syntax, and what helps with each.

use source_words::Keyword;

/// A mistake that a faulty token and those around it show, by what helps. Many are forms of C, Python or Verilog.
#[derive(Clone, Copy)]
pub(crate) enum Mistake {
    /// One of those below, by its line of help.
    Help(&'static str),
    /// `a--b`
    Hidden,
    /// `0xF0`
    Radix,
    /// `SIZE`
    UpperCase(Keyword),
    /// `uint8`, `u70`
    NoType,
    /// A bracket that is never closed.
    Unclosed,
    /// A definition without `end`.
    NoEnd,
}

impl Mistake {
    // Of spelling.
    /// `//`, `/*`
    pub(crate) const COMMENT: Mistake = Mistake::Help(
        "a comment begins with `--` and ends with the line",
    );
    /// `&&`
    pub(crate) const DOUBLED_AND: Mistake = Mistake::Help(
        "write one `&`, with each comparison in brackets: `(p < q) & (r < s)`",
    );
    /// `||`
    pub(crate) const DOUBLED_OR: Mistake = Mistake::Help(
        "write one `|`, with each comparison in brackets: `(p < q) | (r < s)`",
    );
    /// `**`
    pub(crate) const POWER: Mistake = Mistake::Help(
        "there is no power: write `p*p`, or `p<<3` for p times 8",
    );
    /// `=` between operands
    pub(crate) const ASSIGNMENT: Mistake = Mistake::Help("write `==` for a comparison");
    /// `12ab`
    pub(crate) const NUMBER_THEN_WORD: Mistake = Mistake::Help(
        "a number has decimal digits only, with no suffix",
    );
    /// A type of fractions.
    pub(crate) const FRACTIONS: Mistake = Mistake::Help(
        "values are whole numbers: scale them, as `(p*77)>>8` for 0.3 times p",
    );

    // Of expressions.
    /// `a < b < c`
    pub(crate) const CHAIN: Mistake = Mistake::Help(
        "comparisons do not chain, and `&`, `^`, `|` bind more tightly than they do: write `(p < q) & (q < r)`",
    );
    /// `a/3 as u8`
    pub(crate) const AFTER_NUMBER: Mistake = Mistake::Help(
        "the number after `/`, `<<` or `>>` ends its operand: put brackets around it, as in `(p/3) as u8` or `(p>>1)*2`",
    );
    /// A divisor that is no number.
    pub(crate) const DIVISOR: Mistake = Mistake::Help("images are divided by numbers only: `p/3`");
    /// A shift that is no number.
    pub(crate) const SHIFT: Mistake = Mistake::Help("images are shifted by numbers only: `p>>3`");
    /// `!-a`
    pub(crate) const TWO_SIGNS: Mistake = Mistake::Help(
        "an operand has one sign at most: write `!(-p)` or `-(-p)`",
    );
    /// `+a`
    pub(crate) const PLUS_SIGN: Mistake = Mistake::Help("there is no sign `+`: leave it out");
    /// `x` or `y` as a value
    pub(crate) const COORDINATE: Mistake = Mistake::Help(
        "`x` and `y` are not values, and occur only in reads: pass the coordinates as an input image",
    );
    /// `(a + b) edge clamp`
    pub(crate) const EDGE_AFTER_OTHER: Mistake = Mistake::Help(
        "`edge clamp` belongs to one read: write it after each, as in `a(x-1,y) edge clamp`",
    );
    /// `edge mirror`
    pub(crate) const OTHER_EDGE: Mistake = Mistake::Help(
        "the edge is `edge clamp`, or nothing: a read outside the frame is then 0",
    );
    /// `if c`
    pub(crate) const CONDITION: Mistake = Mistake::Help(
        "there is no `if`: write `select(c, p, q)`, which is p where c is 1, and q elsewhere",
    );
    /// `2 a(x,y)`
    pub(crate) const NO_OPERATOR: Mistake = Mistake::Help(
        "an operator is missing between two operands",
    );
    /// `k + 1`
    pub(crate) const NO_READ: Mistake = Mistake::Help(
        "a name here is an image, which is read at a point: `a(x,y)`; constants have no names",
    );

    // Of brackets.
    /// A bracket that closes none.
    pub(crate) const UNOPENED: Mistake = Mistake::Help("no bracket is open here");

    // Of reads.
    /// `a(1+x,y)`
    pub(crate) const OFFSET_FIRST: Mistake = Mistake::Help(
        "write the coordinate first: `a(x+1,y-1)`",
    );
    /// `a(2*x,y)`
    pub(crate) const SCALED: Mistake = Mistake::Help(
        "an image is read at a constant offset: all images have one rate",
    );
    /// `a(y,x)`
    pub(crate) const SWAPPED: Mistake = Mistake::Help(
        "the first coordinate is `x` and the second is `y`: an image cannot be transposed",
    );
    /// `a(i,j)`
    pub(crate) const OTHER_COORDINATE: Mistake = Mistake::Help(
        "the coordinates are always `x` and `y`: `a(x+1,y)`",
    );
    /// `a(x)`
    pub(crate) const ONE_COORDINATE: Mistake = Mistake::Help(
        "a read has both coordinates: `a(x,y)`",
    );
    /// `a(x,y,0)`
    pub(crate) const THIRD_COORDINATE: Mistake = Mistake::Help(
        "a read has two coordinates: `a(x,y)`",
    );
    /// `a(x+1+2,y)`
    pub(crate) const TWO_OFFSETS: Mistake = Mistake::Help(
        "an offset is one number after one sign: write `a(x+3,y)` for `a(x+1+2,y)`",
    );
    /// `a(x+k,y)`
    pub(crate) const NAMED_OFFSET: Mistake = Mistake::Help("an offset is a number: `a(x+1,y)`");
    /// `im(i,j)`
    pub(crate) const IM_COORDINATES: Mistake = Mistake::Help(
        "an image function is written `im(x,y) .. end`",
    );

    // Of items.
    /// The empty text.
    pub(crate) const EMPTY: Mistake = Mistake::Help(
        "the text is empty; a program is like `size 640 480 input a : u8 let f = im(x,y) a(x,y) end output f`",
    );

    pub(crate) const NO_SIZE: Mistake = Mistake::Help(
        "a program begins with its frame: `size 640 480`",
    );
    /// `size 8, 8`
    pub(crate) const SIZE_SIDES: Mistake = Mistake::Help(
        "the frame has two numbers, with a blank between them: `size 640 480`",
    );

    pub(crate) const NO_INPUT: Mistake = Mistake::Help(
        "a program has one input or more: `input a : u8`",
    );
    /// An input after a definition or an output.
    pub(crate) const LATE_INPUT: Mistake = Mistake::Help("inputs come first, right after the size");
    /// A definition after an output.
    pub(crate) const LATE_DEFINITION: Mistake = Mistake::Help(
        "definitions come before the outputs: move the `output` lines to the end",
    );
    /// `input a, b : u8`
    pub(crate) const INPUT_LIST: Mistake = Mistake::Help(
        "write `input` for each: `input a : u8 input b : u8`",
    );
    /// `output f, g`
    pub(crate) const OUTPUT_LIST: Mistake = Mistake::Help(
        "write `output` for each: `output f output g`",
    );

    pub(crate) const NO_OUTPUT: Mistake = Mistake::Help(
        "a program ends with one output or more: `output f`",
    );
    /// `f = im(x,y)`
    pub(crate) const NO_LET: Mistake = Mistake::Help(
        "a definition begins with `let` or `inline let`: `let f = im(x,y) a(x,y) end`",
    );
    /// Another word than those that items begin with.
    pub(crate) const OTHER_ITEM: Mistake = Mistake::Help(
        "a definition begins with `let` or `inline let`, and an output with `output`",
    );
    /// `end` without a definition.
    pub(crate) const EXTRA_END: Mistake = Mistake::Help("no definition is open here");
    /// `let f = a(x,y)`
    pub(crate) const NO_IM: Mistake = Mistake::Help(
        "a body begins with `im(x,y)`: `let f = im(x,y) a(x,y) end`",
    );
    /// `let f(x,y) = ..`
    pub(crate) const FUNCTION_FORM: Mistake = Mistake::Help("write `let f = im(x,y) a(x,y) end`");
    /// `input a u8`
    pub(crate) const NO_COLON: Mistake = Mistake::Help(
        "write `:` between a name and its type: `input a : u8`",
    );
    /// `input u8 a`
    pub(crate) const TYPE_FIRST: Mistake = Mistake::Help(
        "the name comes before its type: `input a : u8`",
    );
    /// `let edge = ..`
    pub(crate) const RESERVED_NAME: Mistake = Mistake::Help(
        "this word is reserved: choose another name",
    );
    /// `let u2 = ..`
    pub(crate) const TYPE_NAME: Mistake = Mistake::Help("this word is a type: choose another name");
    /// `output f(x,y)`
    pub(crate) const OUTPUT_READ: Mistake = Mistake::Help("an output is a name only: `output f`");
}
