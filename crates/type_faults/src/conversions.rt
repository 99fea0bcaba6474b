// Whether a program converts to types only. The program of a text does. Each program is tested before it is checked, so that nothing has to be proved of how it was made.

ghost use Rattle.std.specs.Prelude.{◌≡◌, IsTrue, true, IfOk, All};
ghost use Rattle.dk_base.specs.Types.{IsType};
ghost use Rattle.dk_parser.specs.Tree.{tree_of, ConvertsToTypes};
ghost use Rattle.dk_parser.specs.Programs.{source_of, AllConvertToTypes};

use dk_base::{MAX_WIDTH, OutOfMemory, Ty};
use dk_parser::{Def, Expr, Node, Program};
use dk_types::{TypeError, TypedProgram, check};
use std::alloc::{AllocError, Global};

pub(crate) fn is_type(ty: Ty) -> bool
    ensures { IsTrue result → IsType ty }
{
    1 <= ty.width() && ty.width() <= MAX_WIDTH
}

fn converts(e: &Expr) -> bool
    ensures { IsTrue result → ConvertsToTypes (tree_of e.now) }
{
    match &e.node {
        Node::Number(_) | Node::Read(_) => true,
        Node::Unary(_, a) => converts(a),
        Node::Binary(_, a, b) => converts(a) && converts(b),
        Node::Scale(_, a, _) => converts(a),
        Node::Cast(a, to) | Node::Sat(a, to) => is_type(to.ty) && converts(a),
        Node::Select(c, a, b) => converts(c) && converts(a) && converts(b),
    }
}

fn all_convert(definitions: &[Def]) -> bool
    ensures { IsTrue result → All (λ d. ConvertsToTypes (tree_of d.body)) definitions.now }
{
    for definition in definitions {
        if !converts(&definition.body) {
            return false;
        }
    }
    true
}

// Whether the program may be checked.
fn may_check(program: &Program) -> bool
    ensures { IsTrue result → AllConvertToTypes (source_of program.now) }
{
    all_convert(&program.definitions)
}

// The typed program, or its first fault. None if it may not be checked.
pub(crate) fn checked(
    alloc: Global,
    program: &Program,
) -> Result<Option<Result<TypedProgram, dk_types::TypeFault>>, OutOfMemory> {
    if !may_check(program) {
        return Ok(None);
    }
    match check(alloc, program) {
        Ok(typed) => Ok(Some(Ok(typed))),
        Err(TypeError::Fault(fault)) => Ok(Some(Err(fault))),
        Err(TypeError::OutOfMemory) => Err(AllocError),
    }
}
