// Each definition of a fault covers all that its definition of a module leaves, and what a text denotes is what a text can describe.

ghost use Rattle.std.specs.Prelude.{◌≡◌, ◌⊎◌, ◌++◌, ◌∷◌, [], ℕ, List};
ghost use Rattle.std.specs.Global.{Vec as HeldList};
ghost use Rattle.dk_grammar.specs.Reading.{IsFaulty};
ghost use Rattle.netlist.specs.declared.parts.Parts.{Parts};
ghost use Rattle.netlist.specs.declared.fault.NetFault.{NetFault};
ghost use Rattle.netlist.specs.Names.{NamedNetlist};
ghost use Rattle.netlist.specs.Faults.{IsFault as IsNetFault, IsModuleOf};
ghost use Rattle.verilog_text.specs.declared.token.Token.{Token as OneToken};
ghost use Rattle.verilog_text.specs.declared.token.TokenKind.TheVariants.{End};
ghost use Rattle.verilog_text.specs.declared.fault.TextFault.{TextFault as OneFault};
ghost use Rattle.verilog_text.specs.declared.token.LexFault.{LexFault as OneLexFault};
ghost use Rattle.verilog_text.specs.Lexis.{HasTokens, HasLexFault};
ghost use Rattle.verilog_text.specs.Grammar.{Source, Module};
ghost use Rattle.verilog_text.specs.Stands.{StandsFor};
ghost use Rattle.verilog_text.specs.Faults.{IsModule, IsFault};
ghost use Rattle.verilog_layout.specs.Printable.{IsPrintable};

/// A law: all parts make a module or have a fault.
pub fn every_netlist_law()
    ensures some { (p : Parts) → ((m : NamedNetlist) × IsModuleOf p m) ⊎ ((f : NetFault) × IsNetFault p f) }
{}

/// A law: each text has tokens or a first fault. Tokens up to an end of a text are a module, or one of them is faulty. Each text denotes a module or has a fault.
pub fn every_verilog_text_law()
    ensures tokens { (text : List ℕ) → ((tokens : List OneToken) × HasTokens text tokens) ⊎ ((f : OneLexFault) × HasLexFault text f) }
    ensures source { (before : List OneToken) (last : OneToken) → last.kind ≡ End
        → ((s : Source) × Module (before ++ last ∷ []) s) ⊎ ((k : ℕ) × IsFaulty IsModule (before ++ last ∷ []) k) }
    ensures some { (text : HeldList ℕ) → ((m : NamedNetlist) × StandsFor text.items m) ⊎ ((f : OneFault) × IsFault text.items f) }
{}

/// A law: a module that a text denotes can be printed. It keeps the net rules, its names fit, and its arrays have no more bits than a text may have.
pub fn printable_law()
    ensures printable { (text : HeldList ℕ) (m : NamedNetlist) → StandsFor text.items m → IsPrintable m }
{
    netlist::rules_kept_law();
}
