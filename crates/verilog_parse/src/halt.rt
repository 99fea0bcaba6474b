// Why nothing was read.

ghost use Rattle.std.specs.Prelude.{◌≡◌, ◌++◌, ◌∷◌, [], IfOk, IfErr};
ghost use Rattle.verilog_parse.specs.declared.halt.Halt.TheVariants.{OutOfMemory};

use std::alloc::AllocFailed;

// Why nothing was read. At a faulty token the cursor is at it.
#[derive(Clone, Copy, Drop)]
pub(crate) enum Halt {
    Faulty,
    OutOfMemory,
}

impl<T: Drop> From<AllocFailed<T>> for Halt {
    ghost use Rattle.std.specs.Prelude.{◌≡◌};
    ghost use Rattle.verilog_parse.specs.declared.halt.Halt.TheVariants.{OutOfMemory};

    ghost from_gives = { λ _ e. e ≡ OutOfMemory };

    fn from(_: AllocFailed<T>) -> Self {
        Halt::OutOfMemory
    }
}

// Adds an item to a list.
pub(crate) fn add<T: Copy>(list: &mut Vec<T>, item: T) -> Result<(), Halt>
    ensures added { IfOk result (λ u. list.new.items ≡ list.old.items ++ item ∷ []) }
    ensures memory { IfErr result (λ e. e ≡ OutOfMemory) }
{
    list.push(item)?;
    Ok(())
}
