// Declarations.

ghost use Rattle.std.specs.Prelude.{◌≡◌};
ghost use Rattle.verilog_parse.specs.Forms.{Reads};
ghost use Rattle.verilog_parse.specs.Sections.{AWire, AfterReg, AReg};

use crate::class;
use crate::halt::Halt;
use crate::kind::{RangedName, Tail};
use crate::port::{bits, ranged};
use verilog_lexer::Tokens;
use verilog_text::{Symbol, WrittenDeclaration, WrittenSort};

// What follows `wire`.
pub(crate) fn wire(tokens: &mut Tokens<'_>) -> Result<WrittenDeclaration, Halt>
    ensures parsed { Reads AWire tokens.old tokens.new result }
{
    let found = ranged(tokens)?;
    class::sign(Symbol::Semicolon, tokens)?;
    Ok(WrittenDeclaration {
        sort: WrittenSort::Wire,
        bits: found.bits,
        name: found.name,
    })
}

fn after_reg(
    found: RangedName,
    tail: Tail,
    tokens: &mut Tokens<'_>,
) -> Result<WrittenDeclaration, Halt>
    ensures parsed { Reads (AfterReg found tail) tokens.old tokens.new result }
{
    match tail {
        Tail::End => Ok(WrittenDeclaration {
            sort: WrittenSort::Reg,
            bits: found.bits,
            name: found.name,
        }),
        Tail::Words => {
            let words = bits(tokens)?;
            class::sign(Symbol::Semicolon, tokens)?;
            Ok(WrittenDeclaration {
                sort: WrittenSort::Array(words),
                bits: found.bits,
                name: found.name,
            })
        }
    }
}

// What follows `reg`.
pub(crate) fn reg(tokens: &mut Tokens<'_>) -> Result<WrittenDeclaration, Halt>
    ensures parsed { Reads AReg tokens.old tokens.new result }
{
    let found = ranged(tokens)?;
    let tail = class::tail(tokens)?;
    let declaration = after_reg(found, tail, tokens)?;
    Ok(declaration)
}
