// The names of the images of a text.

ghost use Rattle.std.specs.Prelude.{ℕ, List, length};
ghost use Rattle.dk_lexer.specs.declared.token.Token.{Token};
ghost use Rattle.dk_lexer.specs.Lexis.{HasTokens};
ghost use Rattle.dk_parser.specs.Programs.{Source};
ghost use Rattle.dk_parser.specs.Judged.{Accepted};
ghost use Rattle.dk_types.specs.Typed.{Typing};
ghost use Rattle.dk_types.specs.Types.{IsTyping};
ghost use Rattle.dk_inline.specs.Answers.{image_names};
ghost use Rattle.report_text.specs.Reports.{AreNames};

/// A law: the images of a program's text have names of the source language, no two of them equal, and at most 256 of them are not inputs.
pub fn source_names_law()
    ensures { (text : List ℕ) (tokens : List Token) (tree : Source) (p : Typing) → HasTokens text tokens → Accepted tokens tree → IsTyping tree p
        → AreNames (length p.inputs) (image_names p) }
{}
