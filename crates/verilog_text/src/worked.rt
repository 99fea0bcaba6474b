// Worked readings: what the definitions say of small texts.

ghost use Rattle.std.specs.Prelude.{◌≡◌, codes, None, Some, Ok, Err};
ghost use Rattle.verilog_text.specs.declared.token.TokenKind.TheVariants as kind;
ghost use Rattle.verilog_text.specs.declared.token.Keyword.TheVariants as keyword;
ghost use Rattle.verilog_text.specs.declared.token.Symbol.TheVariants as symbol;
ghost use Rattle.verilog_text.specs.declared.token.LexKind.TheVariants as lex;
ghost use Rattle.verilog_text.specs.Lexis.{word_here, number_here, symbol_here, behind_block};

/// A law: sized constants that are good, and runs that are none.
pub fn worked_constants()
    ensures decimal { number_here (codes "8'd1;") ≡ Ok (kind.Sized (record { width = 8; value = 1 }), 4) }
    ensures hexadecimal { number_here (codes "8'hFF;") ≡ Ok (kind.Sized (record { width = 8; value = 255 }), 5) }
    ensures binary { number_here (codes "8'B1010_1010 ") ≡ Ok (kind.Sized (record { width = 8; value = 170 }), 12) }
    ensures last_underscore { number_here (codes "8'h1_") ≡ Ok (kind.Sized (record { width = 8; value = 1 }), 5) }
    ensures size { number_here (codes "1_0'd1") ≡ Ok (kind.Sized (record { width = 10; value = 1 }), 6) }
    ensures size_of_0 { number_here (codes "0_8'd1") ≡ Ok (kind.Sized (record { width = 8; value = 1 }), 6) }
    ensures before_dollar { number_here (codes "8'd1$") ≡ Ok (kind.Sized (record { width = 8; value = 1 }), 4) }
    ensures plain { number_here (codes "8 'd1") ≡ Ok (kind.Plain 8, 1) }
    ensures first_underscore { number_here (codes "8'h_1") ≡ Err (lex.BadConstant, 5) }
    ensures too_great { number_here (codes "8'd256") ≡ Err (lex.BadConstant, 6) }
    ensures no_size { number_here (codes "0'd0") ≡ Err (lex.BadConstant, 4) }
    ensures wide { number_here (codes "65'd1") ≡ Err (lex.BadConstant, 5) }
    ensures octal { number_here (codes "8'o7") ≡ Err (lex.BadConstant, 4) }
    ensures signed { number_here (codes "8'sd1") ≡ Err (lex.BadConstant, 5) }
{}

/// A law: words, symbols and comments.
pub fn worked_words()
    ensures name { word_here (codes "n0$ = n1") ≡ Ok (kind.Name, 3) }
    ensures clock { word_here (codes "clk)") ≡ Ok (kind.Clock, 3) }
    ensures keyword { word_here (codes "endmodule") ≡ Ok (kind.Keyword keyword.EndModule, 9) }
    ensures upper { word_here (codes "Wire") ≡ Ok (kind.Name, 4) }
    ensures refused { word_here (codes "initial ") ≡ Ok (kind.Refused, 7) }
    ensures longest { symbol_here (codes "<= 1") ≡ Ok (kind.Symbol symbol.LessEqual, 2) }
    ensures shorter { symbol_here (codes "< =") ≡ Ok (kind.Symbol symbol.Less, 1) }
    ensures no_symbol { symbol_here (codes "% rst") ≡ Err (lex.BadByte, 1) }
    ensures open_comment { symbol_here (codes "/* open") ≡ Err (lex.BadByte, 1) }
    ensures not_closed { behind_block (codes "/ x") ≡ None }
    ensures closed { behind_block (codes " * **/ x") ≡ Some (codes " x") }
{}
