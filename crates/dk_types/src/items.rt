// The types of inputs, definitions and outputs.

ghost use Rattle.std.specs.Prelude.{◌≡◌, ◌≤◌, ◌+◌, ◌++◌, ◌∷◌, [], ℕ, List, All, length, IsTrue, ◌↔◌, MatchResult, MatchOption, IfOk, OnOk, IfSome};
ghost use Rattle.dk_base.specs.declared.TheConstants.{MAX_INPUTS};
ghost use Rattle.dk_base.specs.Types.{IsType};
ghost use Rattle.dk_parser.specs.declared.tree.Input.{Input};
ghost use Rattle.dk_parser.specs.Tree.{tree_of, ConvertsToTypes};
ghost use Rattle.dk_parser.specs.Programs.{definition_of as source_of, definitions_as as sources_as};
ghost use Rattle.dk_parser.specs.Programs as P;
ghost use Rattle.dk_types.specs.declared.typed.TypedInput.{TypedInput};
ghost use Rattle.dk_types.specs.Typed.{Definition, definition_of, definitions_as, declared_or};
ghost use Rattle.dk_types.specs.Scopes.{inputs_scope, scope_of, name_among};
ghost use Rattle.dk_base.specs.Types.{IsPort};
ghost use Rattle.dk_types.specs.Types.{IsSide, Takes, declared_type as declared_type_of, IsInput, IsDefinition, IsOutput, AreInputs, AreDefinitions, AreOutputs};
ghost use Rattle.dk_types.specs.Faults.{Stops, at, InputFault, DefinitionFault, OutputFault, FaultyInputs, FaultyDefinitions, FaultyOutputs};

use crate::expression::expression;
use crate::fault::{TypeError, TypeFaultKind, fault};
use crate::operators::is_type;
use crate::scope::Scope;
use crate::typed::{TypedDefinition, TypedInput};
use dk_base::{MAX_DEFINITIONS, MAX_INPUTS, MAX_OUTPUTS, MAX_PORT_WIDTH, MAX_SIDE, Text, Ty};
use dk_parser::{Def, Input, Literal, Name, TypeWord};
use std::alloc::{AllocError, Global};

// A side of the frame.
pub(crate) fn side(number: Literal) -> Result<u32, TypeError>
    ensures { MatchResult result (λ n. IsSide number.value × (n ≡ number.value))
        (λ stop. ¬ IsSide number.value
        × (stop ≡ TypeError.Fault (at number.span TypeFaultKind.SizeRange))) }
{
    if 1 <= number.value && number.value <= MAX_SIDE as u64 {
        Ok(number.value as u32)
    } else {
        Err(fault(number.span, TypeFaultKind::SizeRange))
    }
}

// Whether an input or an output may have this type.
fn is_port(ty: Ty) -> bool
    ensures { IsTrue result ↔ IsPort ty }
{
    match ty {
        Ty::Unsigned(width) => 1 <= width && width <= MAX_PORT_WIDTH,
        Ty::Signed(_) => false,
    }
}

// A name of one's own.
fn owned(alloc: Global, name: &Name) -> Result<Name, AllocError>
    ensures { IfOk result (λ n. n ≡ name.now) }
{
    let text = Text::new(Vec::from_slice(alloc, name.text.as_bytes())?);
    Ok(Name {
        span: name.span,
        text,
    })
}

fn input<'a>(
    alloc: Global,
    scope: &mut Scope<'a>,
    before: usize,
    item: &'a Input,
) -> Result<TypedInput, TypeError>
    requires { length scope.old ≡ before }
    ensures { (is : List Input) (done : List TypedInput) → scope.old ≡ inputs_scope done
        → MatchResult result (λ t. IsInput is done item.now t
        × (scope.new ≡ inputs_scope (done ++ t ∷ [])))
        (λ stop. Stops (InputFault is done item.now) stop) }
{
    if MAX_INPUTS <= before {
        return Err(fault(item.name.span, TypeFaultKind::TooManyInputs));
    }
    if let Some(_) = scope.find(item.name.text.as_bytes()) {
        return Err(fault(item.name.span, TypeFaultKind::DuplicateName));
    }
    let ty = item.ty.ty;
    if !is_port(ty) {
        return Err(fault(item.ty.span, TypeFaultKind::InputType));
    }
    let name = owned(alloc, &item.name)?;
    scope.add(item.name.text.as_bytes(), ty)?;
    Ok(TypedInput { name, ty })
}

// The inputs, whose names come into the scope.
pub(crate) fn inputs<'a>(
    alloc: Global,
    scope: &mut Scope<'a>,
    items: &'a [Input],
) -> Result<Vec<TypedInput>, TypeError>
    requires { scope.old ≡ [] }
    ensures { MatchResult result
        (λ v. AreInputs items.now v.items × (scope.new ≡ inputs_scope v.items))
        (λ stop. Stops (FaultyInputs items.now) stop) }
{
    let mut done = Vec::new(alloc);
    for item in items {
        let typed = input(alloc, scope, done.len(), item)?;
        done.push(typed)?;
    }
    Ok(done)
}

fn declared_type(word: Option<TypeWord>) -> Option<Ty>
    ensures { result ≡ declared_type_of word }
{
    match word {
        None => None,
        Some(word) => Some(word.ty),
    }
}

// The type of an image whose body has the type `body`. None where the declared type does not take it.
fn image_type(declared: Option<Ty>, body: Ty) -> Option<Ty>
    requires { IsType body }
    ensures taken { MatchOption result (¬ Takes declared body)
        (λ t. Takes declared body × (t ≡ declared_or declared body)) }
    ensures is_type { IfSome result (λ t. IsType t) }
{
    match declared {
        None => Some(body),
        Some(ty) if is_type(ty) && body.converts_to(ty) => Some(ty),
        Some(_) => None,
    }
}

fn definition<'a>(
    alloc: Global,
    scope: &mut Scope<'a>,
    before: usize,
    item: &'a Def,
) -> Result<TypedDefinition, TypeError>
    requires few { length scope.old ≤ before + MAX_INPUTS }
    requires converts { ConvertsToTypes (tree_of item.now.body) }
    ensures one_more { OnOk result (length scope.new ≡ length scope.old + 1) }
    ensures judged { (is : List TypedInput) (ds : List P.Definition) (done : List Definition)
        → length done ≡ before → scope.old ≡ scope_of is done
        → MatchResult result (λ t. IsDefinition is ds done (source_of item.now) (definition_of t)
        × (scope.new ≡ scope_of is (done ++ definition_of t ∷ [])))
        (λ stop. Stops (DefinitionFault is ds done (source_of item.now)) stop) }
{
    if MAX_DEFINITIONS <= before {
        return Err(fault(item.name.span, TypeFaultKind::TooManyImages));
    }
    if let Some(_) = scope.find(item.name.text.as_bytes()) {
        return Err(fault(item.name.span, TypeFaultKind::DuplicateName));
    }
    let body = expression(alloc, scope, &item.body)?;
    let declared = declared_type(item.declared);
    let Some(ty) = image_type(declared, body.ty) else {
        return Err(fault(item.body.span, TypeFaultKind::NotConvertible));
    };
    let name = owned(alloc, &item.name)?;
    scope.add(item.name.text.as_bytes(), ty)?;
    Ok(TypedDefinition {
        inline: item.inline,
        name,
        declared,
        body,
    })
}

// The definitions, whose names come into the scope after those of the inputs.
pub(crate) fn definitions<'a>(
    alloc: Global,
    scope: &mut Scope<'a>,
    items: &'a [Def],
) -> Result<Vec<TypedDefinition>, TypeError>
    requires few { length scope.old ≤ MAX_INPUTS }
    requires converts { All (λ d. ConvertsToTypes (tree_of d.body)) items.now }
    ensures { (is : List TypedInput) → scope.old ≡ inputs_scope is
        → MatchResult result (λ v. AreDefinitions is (sources_as items.now) (definitions_as v.items)
        × (scope.new ≡ scope_of is (definitions_as v.items)))
        (λ stop. Stops (FaultyDefinitions is (sources_as items.now)) stop) }
{
    let mut done = Vec::new(alloc);
    for item in items {
        let typed = definition(alloc, scope, done.len(), item)?;
        done.push(typed)?;
    }
    Ok(done)
}

// The place of a name among these.
fn place(names: &[Name], name: &[u8]) -> Option<usize>
    ensures { result ≡ name_among names.now name.now }
{
    names.iter().position(|other| name == other.text.as_bytes())
}

fn output(scope: &Scope, before: &[Name], item: &Name) -> Result<u32, TypeError>
    ensures { (done : List ℕ)
        → MatchResult result (λ g. IsOutput scope.now before.now done item.now g)
        (λ stop. Stops (OutputFault scope.now before.now done item.now) stop) }
{
    if MAX_OUTPUTS <= before.len() {
        return Err(fault(item.span, TypeFaultKind::TooManyOutputs));
    }
    if let Some(_) = place(before, item.text.as_bytes()) {
        return Err(fault(item.span, TypeFaultKind::DuplicateName));
    }
    let Some((image, ty)) = scope.find(item.text.as_bytes()) else {
        return Err(fault(item.span, TypeFaultKind::UnknownImage));
    };
    if !is_port(ty) {
        return Err(fault(item.span, TypeFaultKind::OutputType));
    }
    Ok(image)
}

// The images that are outputs.
pub(crate) fn outputs(alloc: Global, scope: &Scope, items: &[Name]) -> Result<Vec<u32>, TypeError>
    ensures { MatchResult result (λ v. AreOutputs scope.now items.now v.items)
        (λ stop. Stops (FaultyOutputs scope.now items.now) stop) }
{
    let mut done = Vec::new(alloc);
    for (k, item) in items.iter().enumerate() {
        let (before, _) = items.split_at(k);
        let image = output(scope, before, item)?;
        done.push(image)?;
    }
    Ok(done)
}
