// What the definitions say together.

ghost use Rattle.std.specs.Prelude.{◌≡◌, ℕ, List};
ghost use Rattle.netlist.specs.Names.{NamedNetlist};
ghost use Rattle.verilog_text.specs.declared.token.Token.{Token as OneToken};
ghost use Rattle.verilog_text.specs.declared.token.LexFault.{LexFault as OneLexFault};
ghost use Rattle.verilog_text.specs.declared.fault.TextFault.{TextFault as OneFault};
ghost use Rattle.verilog_text.specs.Lexis.{HasTokens, HasLexFault};
ghost use Rattle.verilog_text.specs.Grammar.{Source, Module};
ghost use Rattle.verilog_text.specs.Stands.{StandsFor};
ghost use Rattle.verilog_text.specs.Faults.{IsFault, Agrees};

/// A law: a text has one list of tokens or one first fault, and tokens say one thing.
pub fn one_reading_law()
    ensures tokens { (text : List ℕ) (a b : List OneToken) → HasTokens text a → HasTokens text b → a ≡ b }
    ensures fault { (text : List ℕ) (f g : OneLexFault) → HasLexFault text f → HasLexFault text g → f ≡ g }
    ensures apart { (text : List ℕ) (a : List OneToken) (f : OneLexFault) → HasTokens text a → HasLexFault text f → ⊥ }
    ensures source { (tokens : List OneToken) (s t : Source) → Module tokens s → Module tokens t → s ≡ t }
{}

/// A law: a text denotes one module. Two faults of a text are one, but for the target that Cycle names. A text that denotes a module has no fault.
pub fn one_module_law()
    ensures one { (text : List ℕ) (m n : NamedNetlist) → StandsFor text m → StandsFor text n → m ≡ n }
    ensures agree { (text : List ℕ) (f g : OneFault) → IsFault text f → IsFault text g → Agrees f g }
    ensures apart { (text : List ℕ) (m : NamedNetlist) (f : OneFault) → StandsFor text m → IsFault text f → ⊥ }
{
    netlist::one_fault_law();
}
