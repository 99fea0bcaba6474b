//! Identifiers, by the definition of vcd_trace.

ghost use Rattle.std.specs.Prelude.{◌≡◌, [], ◌∷◌, map, codes};
ghost use Rattle.vcd_trace.specs.Layout.{id_of};

/// A law: identifiers are numbers in base 94 with the least digit first, digit 0 being `!`.
pub fn worked_identifiers()
    ensures { map id_of (0 ∷ 1 ∷ 93 ∷ 94 ∷ 95 ∷ 188 ∷ 8835 ∷ 8836 ∷ [])
        ≡ codes "!" ∷ codes "\"" ∷ codes "~" ∷ codes "!\"" ∷ codes "\"\"" ∷ codes "!#" ∷ codes "~~" ∷ codes "!!\"" ∷ [] }
{}
