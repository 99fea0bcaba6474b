// Inputs, definitions and outputs.

ghost use Rattle.std.specs.Prelude.{◌≡◌, ◌≢◌, ◌<◌, ◌≤◌, ◌++◌, ◌∷◌, [], List, IfOk, Some, length};
ghost use Rattle.dk_grammar.specs.Reading.{One};
ghost use Rattle.dk_parser.specs.Grown.{ReadsAs, ReadsPhrase};
ghost use Rattle.dk_parser.specs.Words.{Gives};
ghost use Rattle.dk_parser.specs.Terminals.{terminal};
ghost use Rattle.dk_parser.specs.Programs.{Definition, AnInput, AfterDeclares, Declared, Header, ADefinition, declares as declares_of};
ghost use Rattle.dk_parser.specs.Items.{Item, AnItem, Items, lead_of, may_follow as may_follow_of, next, allowed as allowed_of};
ghost use Rattle.dk_parser.specs.Items as I;
ghost use Rattle.dk_parser.specs.Kept.{IsDraft, GrownDraft, GrownItem, GrownItems, Holds};

use crate::built::{self, Built};
use crate::halt::Halt;
use crate::terminal::{Mark, Terminal};
use crate::tree::{Def, Input, Name, TypeWord};
use crate::{classes, expression, single};
use dk_base::Span;
use dk_lexer::{Symbol, Token};
use source_words::Keyword;
use std::alloc::{AllocError, Global};

// The word that an input, a definition or an output begins with, or the end of the text.
#[derive(Clone, Copy, PartialEq, Eq)]
pub(crate) enum Lead {
    Input,
    Let,
    Inline,
    Output,
    End,
}

// A definition whose body may be too deep.
#[derive(Drop)]
pub(crate) struct Draft {
    pub inline: bool,
    pub name: Name,
    pub declared: Option<TypeWord>,
    pub body: Built,
}

// The items so far. Once a body is too deep, only the place is kept of the definitions.
#[derive(Drop)]
pub(crate) struct Parts {
    pub inputs: Vec<Input>,
    pub definitions: Vec<Def>,
    pub outputs: Vec<Name>,
    pub deep: Option<Span>,
}

// A name and its type.
fn input<'a>(alloc: Global, tokens: &'a [Token]) -> Result<(Input, &'a [Token]), Halt<'a>>
    ensures parsed { ReadsPhrase AnInput tokens.now result }
    ensures fewer { IfOk result (λ x. length x.1.now < length tokens.now) }
{
    let (name, colon) = single::name(alloc, tokens)?;
    let (_, middle) = single::mark(Mark::Sign(Symbol::Colon), colon)?;
    let (ty, rest) = single::type_word(middle)?;
    Ok((Input { name, ty }, rest))
}

fn declares(kind: Terminal) -> Option<bool>
    ensures { result ≡ declares_of kind }
{
    match kind {
        Terminal::Symbol(Symbol::Colon) => Some(true),
        Terminal::Symbol(Symbol::Equal) => Some(false),
        _ => None,
    }
}

// Whether a type is declared.
fn is_declared(tokens: &[Token]) -> Result<(bool, &[Token]), Halt>
    ensures parsed { ReadsPhrase (One (Gives (λ t. declares_of (terminal t)))) tokens.now result }
    ensures fewer { IfOk result (λ x. length x.1.now < length tokens.now) }
{
    let Some((_, kind, after)) = classes::front(tokens) else {
        return Err(Halt::Faulty(tokens));
    };
    match declares(kind) {
        Some(found) => Ok((found, after)),
        None => Err(Halt::Faulty(tokens)),
    }
}

fn after_declares(is_there: bool, tokens: &[Token]) -> Result<(Option<TypeWord>, &[Token]), Halt>
    ensures parsed { ReadsPhrase (AfterDeclares is_there) tokens.now result }
    ensures fewer { IfOk result (λ x. length x.1.now ≤ length tokens.now) }
{
    match is_there {
        true => {
            let (ty, middle) = single::type_word(tokens)?;
            let (_, rest) = single::mark(Mark::Sign(Symbol::Equal), middle)?;
            Ok((Some(ty), rest))
        }
        false => Ok((None, tokens)),
    }
}

// The declared type, where there is one, and the equals sign.
fn declared(tokens: &[Token]) -> Result<(Option<TypeWord>, &[Token]), Halt>
    ensures parsed { ReadsPhrase Declared tokens.now result }
    ensures fewer { IfOk result (λ x. length x.1.now < length tokens.now) }
{
    let (is_there, middle) = is_declared(tokens)?;
    let (ty, rest) = after_declares(is_there, middle)?;
    Ok((ty, rest))
}

// The word `im` and the two coordinates.
fn header(tokens: &[Token]) -> Result<(Span, &[Token]), Halt>
    ensures parsed { ReadsPhrase Header tokens.now result }
    ensures fewer { IfOk result (λ x. length x.1.now < length tokens.now) }
{
    let (_, open_at) = single::mark(Mark::Reserved(Keyword::Im), tokens)?;
    let (_, x_at) = single::mark(Mark::Sign(Symbol::Open), open_at)?;
    let (_, comma_at) = single::mark(Mark::Reserved(Keyword::X), x_at)?;
    let (_, y_at) = single::mark(Mark::Sign(Symbol::Comma), comma_at)?;
    let (_, close_at) = single::mark(Mark::Reserved(Keyword::Y), y_at)?;
    let (last, rest) = single::mark(Mark::Sign(Symbol::Close), close_at)?;
    Ok((last, rest))
}

// A definition, after its `let`.
fn definition<'a>(
    alloc: Global,
    inline: bool,
    tokens: &'a [Token],
) -> Result<(Draft, &'a [Token]), Halt<'a>>
    ensures parsed { ReadsAs (GrownDraft inline) (ADefinition inline) tokens.now result }
{
    let (name, declared_at) = single::name(alloc, tokens)?;
    let (declared, header_at) = declared(declared_at)?;
    let (_, body_at) = header(header_at)?;
    let (body, _, rest) = expression::closed_by(alloc, Mark::Reserved(Keyword::End), body_at)?;
    let draft = Draft {
        inline,
        name,
        declared,
        body,
    };
    Ok((draft, rest))
}

// The items with an input more.
fn with_input(parts: Parts, input: Input) -> Result<Parts, AllocError>
    ensures { (vs : List Item) → Holds parts vs
        → IfOk result (λ p. Holds p (vs ++ (I.input input ∷ []))) }
{
    let mut inputs = parts.inputs;
    inputs.push(input)?;
    Ok(Parts {
        inputs,
        definitions: parts.definitions,
        outputs: parts.outputs,
        deep: parts.deep,
    })
}

// The items with an output more.
fn with_output(parts: Parts, output: Name) -> Result<Parts, AllocError>
    ensures { (vs : List Item) → Holds parts vs
        → IfOk result (λ p. Holds p (vs ++ (I.output output ∷ []))) }
{
    let mut outputs = parts.outputs;
    outputs.push(output)?;
    Ok(Parts {
        inputs: parts.inputs,
        definitions: parts.definitions,
        outputs,
        deep: parts.deep,
    })
}

// The items with a definition more.
fn with_definition(parts: Parts, draft: Draft) -> Result<Parts, AllocError>
    ensures { (vs : List Item) (d : Definition) → Holds parts vs → IsDraft draft d
        → IfOk result (λ p. Holds p (vs ++ (I.definition d ∷ []))) }
{
    match parts.deep {
        Some(_) => Ok(parts),
        None => match built::finished(draft.body) {
            Ok(body) => {
                let definition = Def {
                    inline: draft.inline,
                    name: draft.name,
                    declared: draft.declared,
                    body,
                };
                let mut definitions = parts.definitions;
                definitions.push(definition)?;
                Ok(Parts {
                    inputs: parts.inputs,
                    definitions,
                    outputs: parts.outputs,
                    deep: None,
                })
            }
            Err(span) => Ok(Parts {
                inputs: parts.inputs,
                definitions: parts.definitions,
                outputs: parts.outputs,
                deep: Some(span),
            }),
        },
    }
}

// The item that this word begins.
fn item<'a>(
    alloc: Global,
    lead: Lead,
    parts: Parts,
    tokens: &'a [Token],
) -> Result<(Parts, &'a [Token]), Halt<'a>>
    requires { lead ≢ Lead.End }
    ensures parsed { (vs : List Item) → Holds parts vs
        → ReadsAs (GrownItem lead vs) (AnItem lead) tokens.now result }
    ensures fewer { IfOk result (λ x. length x.1.now < length tokens.now) }
{
    match lead {
        Lead::Input => {
            let (found, rest) = input(alloc, tokens)?;
            let more = with_input(parts, found)?;
            Ok((more, rest))
        }
        Lead::Let => {
            let (found, rest) = definition(alloc, false, tokens)?;
            let more = with_definition(parts, found)?;
            Ok((more, rest))
        }
        Lead::Inline => {
            let (_, after) = single::mark(Mark::Reserved(Keyword::Let), tokens)?;
            let (found, rest) = definition(alloc, true, after)?;
            let more = with_definition(parts, found)?;
            Ok((more, rest))
        }
        Lead::Output => {
            let (found, rest) = single::name(alloc, tokens)?;
            let more = with_output(parts, found)?;
            Ok((more, rest))
        }
        Lead::End => unreachable!(),
    }
}

fn lead_at(kind: Terminal) -> Option<Lead>
    ensures { result ≡ lead_of kind }
{
    match kind {
        Terminal::Keyword(Keyword::Input) => Some(Lead::Input),
        Terminal::Keyword(Keyword::Let) => Some(Lead::Let),
        Terminal::Keyword(Keyword::Inline) => Some(Lead::Inline),
        Terminal::Keyword(Keyword::Output) => Some(Lead::Output),
        Terminal::EndOfText => Some(Lead::End),
        _ => None,
    }
}

fn may_follow(before: Lead, after: Lead) -> bool
    ensures { result ≡ may_follow_of before after }
{
    match (before, after) {
        (Lead::Input, Lead::End) => false,
        (Lead::Input, _) => true,
        (Lead::Let | Lead::Inline, Lead::Let | Lead::Inline | Lead::Output) => true,
        (Lead::Output, Lead::Output | Lead::End) => true,
        _ => false,
    }
}

fn allowed(before: Lead, found: Option<Lead>) -> Option<Lead>
    ensures { result ≡ allowed_of before found }
{
    match found {
        Some(after) => {
            if may_follow(before, after) {
                Some(after)
            } else {
                None
            }
        }
        None => None,
    }
}

// The word that the next item begins with.
fn lead_after(before: Lead, tokens: &[Token]) -> Result<(Lead, &[Token]), Halt>
    requires { before ≢ Lead.End }
    ensures parsed { ReadsPhrase (One (λ t n. next before t ≡ Some n)) tokens.now result }
    ensures fewer { IfOk result (λ x. length x.1.now < length tokens.now) }
{
    let Some((_, kind, after)) = classes::front(tokens) else {
        return Err(Halt::Faulty(tokens));
    };
    match allowed(before, lead_at(kind)) {
        Some(found) => Ok((found, after)),
        None => Err(Halt::Faulty(tokens)),
    }
}

// All items, up to the end of the text.
pub(crate) fn items<'a>(
    alloc: Global,
    tokens: &'a [Token],
) -> Result<(Parts, &'a [Token]), Halt<'a>>
    ensures parsed { ReadsAs GrownItems (Items Lead.Input) tokens.now result }
{
    let mut parts = Parts {
        inputs: Vec::new(alloc),
        definitions: Vec::new(alloc),
        outputs: Vec::new(alloc),
        deep: None,
    };
    let mut lead = Lead::Input;
    let mut rest = tokens;
    'items: loop {
        let (more, behind) = item(alloc, lead, parts, rest)?;
        let (found, after) = lead_after(lead, behind)?;
        if found == Lead::End {
            return Ok((more, after));
        }
        parts = more;
        lead = found;
        rest = after;
    }
}
