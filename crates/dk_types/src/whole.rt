// Programs.

ghost use Rattle.std.specs.Prelude.{◌≡◌, ◌⊎◌, ℤ, List, length, IfOk, IfErr, MatchResult, All};
ghost use Rattle.std.specs.Result.{IsErrAnd};
ghost use Rattle.dk_base.specs.declared.ty.Ty.{Ty};
ghost use Rattle.dk_base.specs.Types.{IsIn};
ghost use Rattle.dk_base.specs.Frames.{Size, Picture};
ghost use Rattle.dk_parser.specs.Programs.{Source, source_of, AllConvertToTypes};
ghost use Rattle.dk_types.specs.declared.fault.TypeFault.{TypeFault};
ghost use Rattle.dk_types.specs.Typed.{Typed, Typing, typing_of, type_of, types_of, input_types};
ghost use Rattle.dk_types.specs.Types.{IsTyping, HasNumbers};
ghost use Rattle.dk_types.specs.Kept.{IsTyped, IsWell};
ghost use Rattle.dk_types.specs.Meaning.{AreIn, AreTypes, meaning, value};
ghost use Rattle.dk_types.specs.Faults.{IsFirstFault, Stops};

use crate::fault::TypeError;
use crate::items;
use crate::scope::Scope;
use crate::typed::TypedProgram;
use dk_base::FrameSize;
use dk_parser::Program;
use std::alloc::Global;

/// Finds the one type of each expression and the image of each name, or else the first fault.
pub fn check(alloc: Global, program: &Program) -> Result<TypedProgram, TypeError>
    requires { AllConvertToTypes (source_of program.now) }
    // What is returned is right.
    ensures typed { IfOk result (λ t. IsTyping (source_of program.now) (typing_of t)) }
    ensures fault { IfErr result (λ stop. Stops (IsFirstFault (source_of program.now)) stop) }

    // What is right is returned, except if out of memory.
    ensures accepts { (t : Typing) → IsTyping (source_of program.now) t
        → MatchResult result (λ found. typing_of found ≡ t) (λ stop. stop ≡ TypeError.OutOfMemory) }
    ensures refuses { (f : TypeFault) → IsFirstFault (source_of program.now) f
        → IsErrAnd result (λ stop. (stop ≡ TypeError.Fault f)
        ⊎ (stop ≡ TypeError.OutOfMemory)) }
{
    judged(alloc, program)
}

fn judged(alloc: Global, program: &Program) -> Result<TypedProgram, TypeError>
    requires { AllConvertToTypes (source_of program.now) }
    ensures { MatchResult result (λ t. IsTyping (source_of program.now) (typing_of t))
        (λ stop. Stops (IsFirstFault (source_of program.now)) stop) }
{
    let width = items::side(program.width)?;
    let height = items::side(program.height)?;
    let Some(size) = FrameSize::checked(width, height) else {
        unreachable!()
    };
    let mut scope = Scope::new(alloc);
    let inputs = items::inputs(alloc, &mut scope, &program.inputs)?;
    let definitions = items::definitions(alloc, &mut scope, &program.definitions)?;
    let outputs = items::outputs(alloc, &scope, &program.outputs)?;
    Ok(TypedProgram::new(size, inputs, definitions, outputs))
}

/// A program has at most one typing or first fault. It has one of them if its numbers are below 2^64 and it converts to types of at most 64 bits only, as the program of a text does.
pub fn one_typing_law()
    ensures typing { (p : Source) (one other : Typing) → IsTyping p one → IsTyping p other
        → one ≡ other }
    ensures fault { (p : Source) (one other : TypeFault) → IsFirstFault p one
        → IsFirstFault p other → one ≡ other }
    ensures either { (p : Source) (t : Typing) (f : TypeFault) → IsTyping p t → IsFirstFault p f
        → ⊥ }
    ensures some { (p : Source) → All (λ d. HasNumbers d.body) p.definitions → AllConvertToTypes p
        → ((t : Typing) × IsTyping p t)
        ⊎ ((f : TypeFault) × IsFirstFault p f) }
{}

/// Wherever the values of the inputs are in their types, so are the values of each image, and of each part of a body.
pub fn values_in_types_law()
    ensures images { (p : Typing) (inputs : List Picture) → IsTyped p
        → length inputs ≡ length p.inputs → AreIn (input_types p.inputs) inputs
        → AreIn (types_of p) (meaning p inputs) }
    ensures parts { (size : Size) (types : List Ty) (known : List Picture) (e : Typed)
        → AreTypes types → AreIn types known → IsWell types e → (x y : ℤ)
        → IsIn (type_of e) (value size known e x y) }
{}
