// Ranges, names and ports.

ghost use Rattle.std.specs.Prelude.{◌≡◌, MatchResult};
ghost use Rattle.verilog_parse.specs.Forms.{Halts, Reads};
ghost use Rattle.verilog_parse.specs.Sections.{ABits, AfterHead, ARanged, AfterLead, APort, Ports};

use crate::class;
use crate::halt::Halt;
use crate::kind::{Head, PortLead, RangedName};
use std::alloc::Global;
use verilog_lexer::Tokens;
use verilog_text::{Range, Symbol, WrittenPort};

// A range after its `[`.
pub(crate) fn bits(tokens: &mut Tokens<'_>) -> Result<Range, Halt>
    ensures parsed { Reads ABits tokens.old tokens.new result }
{
    let first = class::count(tokens)?;
    class::sign(Symbol::Colon, tokens)?;
    let second = class::count(tokens)?;
    class::sign(Symbol::CloseSquare, tokens)?;
    Ok(Range { first, second })
}

fn after_head(head: Head, tokens: &mut Tokens<'_>) -> Result<RangedName, Halt>
    ensures parsed { Reads (AfterHead head) tokens.old tokens.new result }
{
    match head {
        Head::Square => {
            let range = bits(tokens)?;
            let name = class::name(tokens)?;
            Ok(RangedName {
                bits: Some(range),
                name,
            })
        }
        Head::Name(name) => Ok(RangedName { bits: None, name }),
    }
}

// A name with its range, where one is written.
pub(crate) fn ranged(tokens: &mut Tokens<'_>) -> Result<RangedName, Halt>
    ensures parsed { Reads ARanged tokens.old tokens.new result }
{
    let head = class::head(tokens)?;
    let name = after_head(head, tokens)?;
    Ok(name)
}

fn after_lead(lead: PortLead, tokens: &mut Tokens<'_>) -> Result<RangedName, Halt>
    ensures parsed { Reads (AfterLead lead) tokens.old tokens.new result }
{
    match lead {
        PortLead::Wire => {
            let name = ranged(tokens)?;
            Ok(name)
        }
        PortLead::Head(head) => {
            let name = after_head(head, tokens)?;
            Ok(name)
        }
    }
}

fn port(tokens: &mut Tokens<'_>) -> Result<WrittenPort, Halt>
    ensures parsed { Reads APort tokens.old tokens.new result }
{
    let direction = class::direction(tokens)?;
    let lead = class::lead(tokens)?;
    let found = after_lead(lead, tokens)?;
    Ok(WrittenPort {
        direction,
        bits: found.bits,
        name: found.name,
    })
}

// The ports and their `)`.
pub(crate) fn ports(alloc: Global, tokens: &mut Tokens<'_>) -> Result<Vec<WrittenPort>, Halt>
    ensures parsed { MatchResult result (λ v. Ports tokens.old v.items tokens.new) (λ e. Halts Ports tokens.old tokens.new e) }
{
    let mut ports = Vec::new(alloc);
    'ports: loop {
        let port = port(tokens)?;
        let more = class::comma_or_close(tokens)?;
        ports.push(port)?;
        if !more {
            return Ok(ports);
        }
    }
}
