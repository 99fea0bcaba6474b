// Whole modules.

ghost use Rattle.std.specs.Prelude.{◌≡◌, [], ◌∷◌, ◌++◌, List, MatchResult, false};
ghost use Rattle.verilog_text.specs.declared.written.WrittenAssign.{WrittenAssign as OneAssign};
ghost use Rattle.verilog_text.specs.Grammar.{source_of};
ghost use Rattle.verilog_parse.specs.Forms.{Halts, AnAssign, Reads};
ghost use Rattle.verilog_parse.specs.Sections.{Piece, AfterSection, SectionsFrom, Sections, is_last, AHeadline, AHead, AModule, source_with, Adds};

use crate::class;
use crate::declaration::{reg, wire};
use crate::halt::{Halt, add};
use crate::kind::Section;
use crate::port::ports;
use crate::right::assign;
use crate::update::block;
use dk_base::Span;
use std::alloc::Global;
use verilog_lexer::Tokens;
use verilog_text::{Keyword, Symbol, Written, WrittenAssign, WrittenRight};

// The assign after its first word, which is added to the others. A copy is taken apart, so that the checker sees the atoms that the list holds.
fn next_assign(assigns: &mut Vec<WrittenAssign>, tokens: &mut Tokens<'_>) -> Result<(), Halt>
    ensures parsed { MatchResult result (λ v. (a : OneAssign) × AnAssign tokens.old a tokens.new
        × (assigns.new.items ≡ assigns.old.items ++ a ∷ [])) (λ e. Halts AnAssign tokens.old tokens.new e) }
{
    let WrittenAssign { target, right } = assign(tokens)?;
    match right {
        WrittenRight::Copy(atom) => assigns.push(WrittenAssign {
            target,
            right: WrittenRight::Copy(atom),
        })?,
        _ => assigns.push(WrittenAssign { target, right })?,
    }
    Ok(())
}

// The section after its first word.
fn section(first: Section, written: &mut Written, tokens: &mut Tokens<'_>) -> Result<(), Halt>
    requires { is_last first ≡ false }
    ensures parsed { MatchResult result (λ v. (p : Piece) × AfterSection first tokens.old p tokens.new
        × Adds (p ∷ []) written.old written.new) (λ e. Halts (AfterSection first) tokens.old tokens.new e) }
{
    match first {
        Section::Wire => {
            let declaration = wire(tokens)?;
            add(&mut written.declarations, declaration)?;
            Ok(())
        }
        Section::Reg => {
            let declaration = reg(tokens)?;
            add(&mut written.declarations, declaration)?;
            Ok(())
        }
        Section::Assign => {
            next_assign(&mut written.assigns, tokens)?;
            Ok(())
        }
        Section::Always => {
            block(&mut written.updates, tokens)?;
            Ok(())
        }
        Section::End => unreachable!(),
    }
}

// `module NAME (`
fn headline(tokens: &mut Tokens<'_>) -> Result<Span, Halt>
    ensures parsed { Reads AHeadline tokens.old tokens.new result }
{
    class::word(Keyword::Module, tokens)?;
    let name = class::name(tokens)?;
    class::sign(Symbol::Open, tokens)?;
    Ok(name)
}

// The name and the ports, with no section yet.
fn head(alloc: Global, tokens: &mut Tokens<'_>) -> Result<Written, Halt>
    ensures parsed { MatchResult result (λ v. AHead tokens.old (source_of v) tokens.new) (λ e. Halts AHead tokens.old tokens.new e) }
{
    let name = headline(tokens)?;
    let ports = ports(alloc, tokens)?;
    class::sign(Symbol::Semicolon, tokens)?;
    Ok(Written {
        name,
        ports,
        declarations: Vec::new(alloc),
        assigns: Vec::new(alloc),
        updates: Vec::new(alloc),
    })
}

fn is_last_section(section: Section) -> bool
    ensures { result ≡ is_last section }
{
    match section {
        Section::End => true,
        _ => false,
    }
}

// The sections from this one on, and `endmodule`.
fn sections_from(first: Section, written: &mut Written, tokens: &mut Tokens<'_>) -> Result<(), Halt>
    ensures parsed { MatchResult result (λ v. (pieces : List Piece) × SectionsFrom first tokens.old pieces tokens.new
        × Adds pieces written.old written.new) (λ e. Halts (SectionsFrom first) tokens.old tokens.new e) }
{
    let mut next = first;
    'sections: loop {
        if is_last_section(next) {
            return Ok(());
        }
        section(next, written, tokens)?;
        next = class::section_after(next, tokens)?;
    }
}

// The sections and `endmodule`.
fn sections(written: &mut Written, tokens: &mut Tokens<'_>) -> Result<(), Halt>
    ensures parsed { MatchResult result (λ v. (pieces : List Piece) × Sections tokens.old pieces tokens.new
        × Adds pieces written.old written.new) (λ e. Halts Sections tokens.old tokens.new e) }
{
    let first = class::section(tokens)?;
    sections_from(first, written, tokens)?;
    Ok(())
}

// A module and the end of the text.
pub(crate) fn module(alloc: Global, tokens: &mut Tokens<'_>) -> Result<Written, Halt>
    ensures parsed { MatchResult result (λ v. AModule tokens.old (source_of v) []) (λ e. Halts AModule tokens.old tokens.new e) }
{
    let mut written = head(alloc, tokens)?;
    sections(&mut written, tokens)?;
    class::end(tokens)?;
    Ok(written)
}
