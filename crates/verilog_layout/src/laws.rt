// What a text of the layout denotes.

ghost use Rattle.std.specs.Prelude.{◌≡◌, ℕ};
ghost use Rattle.std.specs.Global.{Vec as HeldList};
ghost use Rattle.netlist.specs.Names.{NamedNetlist};
ghost use Rattle.verilog_text.specs.Stands.{StandsFor};
ghost use Rattle.verilog_layout.specs.Layout.{layout};
ghost use Rattle.verilog_layout.specs.Printable.{IsPrintable};

/// A law: a text that is the layout of a module denotes this module, and no other.
#[tactic(auto, using(crate::proofs::Standing::layout_is_module))]
pub fn layout_stands_law()
    ensures stands { (m : NamedNetlist) (text : HeldList ℕ) → IsPrintable m → text.items ≡ layout m → StandsFor text.items m }
    ensures only { (m n : NamedNetlist) (text : HeldList ℕ) → IsPrintable m → text.items ≡ layout m → StandsFor text.items n → n ≡ m }
{
    verilog_text::one_module_law();
}
