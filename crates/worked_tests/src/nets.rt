//! Words, sizes and operators at the ends of their ranges, and places in buffers, by the definitions of net_names, wiring and line_buffer.

ghost use Rattle.std.specs.Prelude.{◌≡◌, ℕ, [], ◌∷◌, map, true, false, codes, replicate};
ghost use Rattle.net_names.specs.Words.{is_name, is_structure_word, is_refused_word};
ghost use Rattle.wiring.specs.declared.right.Operator.{Operator};
ghost use Rattle.wiring.specs.declared.right.Operator.TheVariants.{Add, Subtract, Multiply, Divide, Less, Equal, And, Or, Xor};
ghost use Rattle.wiring.specs.Sizes.{IsWidth, IsDepth, IsConstant};
ghost use Rattle.wiring.specs.Rights.{operator_value};
ghost use Rattle.line_buffer.specs.Places.{chain_place, ring_place};

/// A law: words by the list of IEEE Std 1364-2005, section 3.6 and annex B.
pub fn worked_names()
    ensures names { map is_name (codes "clk" ∷ codes "_n0$" ∷ codes "Wire" ∷ replicate 64 97 ∷ []) ≡ true ∷ true ∷ true ∷ true ∷ [] }
    ensures no_names { map is_name (codes "wire" ∷ codes "initial" ∷ codes "xor" ∷ codes "0n" ∷ [] ∷ replicate 65 97 ∷ [])
        ≡ false ∷ false ∷ false ∷ false ∷ false ∷ false ∷ [] }
    ensures structure { map is_structure_word (codes "wire" ∷ codes "Wire" ∷ codes "initial" ∷ codes "clk" ∷ []) ≡ true ∷ false ∷ false ∷ false ∷ [] }
    ensures refused { map is_refused_word (codes "initial" ∷ codes "xor" ∷ codes "wire" ∷ codes "clk" ∷ []) ≡ true ∷ true ∷ false ∷ false ∷ [] }
{}

/// A law: both ends of the sizes.
pub fn worked_sizes()
    ensures least_width { IsWidth 1 }
    ensures no_width { ¬ IsWidth 0 }
    ensures greatest_width { IsWidth 64 }
    ensures too_wide { ¬ IsWidth 65 }
    ensures least_depth { IsDepth 1 }
    ensures no_depth { ¬ IsDepth 0 }
    ensures greatest_depth { IsDepth 67108864 }
    ensures too_deep { ¬ IsDepth 67108865 }
    ensures constant { IsConstant (record { width = 8; value = 255 }) }
    ensures wide_constant { IsConstant (record { width = 64; value = 18446744073709551615 }) }
    ensures no_constant { ¬ IsConstant (record { width = 8; value = 256 }) }
{}

/// A law: each operator at the least width and the two greatest. No carry is kept.
pub fn worked_operators()
    ensures ones { map (λ (o : Operator). operator_value o 1 1 1) (Add ∷ Subtract ∷ Multiply ∷ Divide ∷ Less ∷ Equal ∷ And ∷ Or ∷ Xor ∷ [])
        ≡ 0 ∷ 0 ∷ 1 ∷ 1 ∷ 0 ∷ 1 ∷ 1 ∷ 1 ∷ 0 ∷ [] }
    ensures zero_and_one { map (λ (o : Operator). operator_value o 1 0 1) (Add ∷ Subtract ∷ Multiply ∷ Divide ∷ Less ∷ Equal ∷ And ∷ Or ∷ Xor ∷ [])
        ≡ 1 ∷ 1 ∷ 0 ∷ 0 ∷ 1 ∷ 0 ∷ 0 ∷ 1 ∷ 1 ∷ [] }
    ensures at_63 { map (λ (o : Operator). operator_value o 63 9223372036854775807 2) (Add ∷ Subtract ∷ Multiply ∷ Divide ∷ Less ∷ Equal ∷ And ∷ Or ∷ Xor ∷ [])
        ≡ 1 ∷ 9223372036854775805 ∷ 9223372036854775806 ∷ 4611686018427387903 ∷ 0 ∷ 0 ∷ 2 ∷ 9223372036854775807 ∷ 9223372036854775805 ∷ [] }
    ensures at_64 { map (λ (o : Operator). operator_value o 64 1 18446744073709551615) (Add ∷ Subtract ∷ Multiply ∷ Divide ∷ Less ∷ Equal ∷ And ∷ Or ∷ Xor ∷ [])
        ≡ 0 ∷ 2 ∷ 18446744073709551615 ∷ 0 ∷ 1 ∷ 0 ∷ 1 ∷ 18446744073709551615 ∷ 18446744073709551614 ∷ [] }
{}

/// A law: where ages 1 to 5 are at clock 10, in a chain of segments of 2 and 3 words and in a ring of 5 words.
pub fn worked_places()
    ensures chain { map (λ age. chain_place 0 (2 ∷ 5 ∷ []) age 10) (1 ∷ 2 ∷ 3 ∷ 4 ∷ 5 ∷ [])
        ≡ (record { array = 0; word = 1 }) ∷ (record { array = 0; word = 0 }) ∷ (record { array = 1; word = 0 }) ∷ (record { array = 1; word = 2 }) ∷ (record { array = 1; word = 1 }) ∷ [] }
    ensures ring { map (λ age. ring_place 0 (2 ∷ 5 ∷ []) age 10) (1 ∷ 2 ∷ 3 ∷ 4 ∷ 5 ∷ [])
        ≡ (record { array = 0; word = 4 }) ∷ (record { array = 0; word = 3 }) ∷ (record { array = 0; word = 2 }) ∷ (record { array = 0; word = 1 }) ∷ (record { array = 0; word = 0 }) ∷ [] }
{}
