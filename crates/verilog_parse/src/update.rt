// The block of updates.

ghost use Rattle.std.specs.Prelude.{◌≡◌, ◌++◌, ◌∷◌, [], List, MatchResult};
ghost use Rattle.verilog_text.specs.declared.written.WrittenUpdate.{WrittenUpdate as OneUpdate};
ghost use Rattle.verilog_parse.specs.Forms.{Halts, Reads};
ghost use Rattle.verilog_parse.specs.Sections.{AfterArrow, AnUpdate, UpdatesFrom, Updates, ATrigger, ABlock};

use crate::class;
use crate::halt::Halt;
use crate::kind::{Arrow, Target};
use crate::right::closed;
use dk_base::Span;
use verilog_lexer::Tokens;
use verilog_text::{Keyword, Symbol, WrittenUpdate};

fn after_arrow(name: Span, arrow: Arrow, tokens: &mut Tokens<'_>) -> Result<WrittenUpdate, Halt>
    ensures parsed { Reads (AfterArrow name arrow) tokens.old tokens.new result }
{
    match arrow {
        Arrow::Takes => {
            let value = closed(Symbol::Semicolon, tokens)?;
            Ok(WrittenUpdate::Set(name, value))
        }
        Arrow::Index => {
            let index = closed(Symbol::CloseSquare, tokens)?;
            class::sign(Symbol::LessEqual, tokens)?;
            let value = closed(Symbol::Semicolon, tokens)?;
            Ok(WrittenUpdate::Put(name, index, value))
        }
    }
}

// What follows the name of what is updated.
fn update(name: Span, tokens: &mut Tokens<'_>) -> Result<WrittenUpdate, Halt>
    ensures parsed { Reads (AnUpdate name) tokens.old tokens.new result }
{
    let arrow = class::arrow(tokens)?;
    let update = after_arrow(name, arrow, tokens)?;
    Ok(update)
}

// The update of this name, which is added to the others.
fn next_update(
    name: Span,
    updates: &mut Vec<WrittenUpdate>,
    tokens: &mut Tokens<'_>,
) -> Result<(), Halt>
    ensures parsed { MatchResult result (λ v. (u : OneUpdate) × AnUpdate name tokens.old u tokens.new
        × (updates.new.items ≡ updates.old.items ++ u ∷ [])) (λ e. Halts (AnUpdate name) tokens.old tokens.new e) }
{
    match update(name, tokens)? {
        WrittenUpdate::Set(register, value) => {
            updates.push(WrittenUpdate::Set(register, value))?;
        }
        WrittenUpdate::Put(array, index, value) => {
            updates.push(WrittenUpdate::Put(array, index, value))?;
        }
    }
    Ok(())
}

// The updates from this target on, and `end`.
fn updates_from(
    first: Target,
    updates: &mut Vec<WrittenUpdate>,
    tokens: &mut Tokens<'_>,
) -> Result<(), Halt>
    ensures parsed { MatchResult result (λ v. (us : List OneUpdate) × UpdatesFrom first tokens.old us tokens.new
        × (updates.new.items ≡ updates.old.items ++ us)) (λ e. Halts (UpdatesFrom first) tokens.old tokens.new e) }
{
    let mut target = first;
    'updates: loop {
        let Target::Name(name) = target else {
            return Ok(());
        };
        next_update(name, updates, tokens)?;
        target = class::target(tokens)?;
    }
}

// The updates and `end`.
fn updates(updates: &mut Vec<WrittenUpdate>, tokens: &mut Tokens<'_>) -> Result<(), Halt>
    ensures parsed { MatchResult result (λ v. (us : List OneUpdate) × Updates tokens.old us tokens.new
        × (updates.new.items ≡ updates.old.items ++ us)) (λ e. Halts Updates tokens.old tokens.new e) }
{
    let first = class::target(tokens)?;
    updates_from(first, updates, tokens)?;
    Ok(())
}

// `@ ( posedge clk`
fn trigger(tokens: &mut Tokens<'_>) -> Result<(), Halt>
    ensures parsed { Reads ATrigger tokens.old tokens.new result }
{
    class::sign(Symbol::At, tokens)?;
    class::sign(Symbol::Open, tokens)?;
    class::word(Keyword::Posedge, tokens)?;
    class::clock(tokens)?;
    Ok(())
}

// What follows `always`. The updates are added to those that are there.
pub(crate) fn block(list: &mut Vec<WrittenUpdate>, tokens: &mut Tokens<'_>) -> Result<(), Halt>
    ensures parsed { MatchResult result (λ v. (us : List OneUpdate) × ABlock tokens.old us tokens.new
        × (list.new.items ≡ list.old.items ++ us)) (λ e. Halts ABlock tokens.old tokens.new e) }
{
    trigger(tokens)?;
    class::sign(Symbol::Close, tokens)?;
    class::word(Keyword::Begin, tokens)?;
    updates(list, tokens)?;
    Ok(())
}
