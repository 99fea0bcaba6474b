//! What the definitions say of a system that was worked out by hand.

ghost use Rattle.std.specs.Prelude.{◌≡◌, pos, negsuc, [], ◌∷◌};
ghost use Rattle.raster_delay.specs.Systems.{constraints_in, coefficient_in, nodes, bits, depth};
ghost use Rattle.buffer_plan.specs.Limits.{latency_in};
ghost use Rattle.worked_tests.specs.Samples.{two_inputs, leads};

/// A law: the constraints of the sample by their kinds, the widths that begin and end at its nodes, and what its least vector needs.
pub fn system_by_hand()
    ensures holds_starts_reads_keeps { constraints_in two_inputs
        ≡ leads 0 3 (pos 0) ∷ leads 0 4 (pos 0) ∷ leads 1 5 (pos 0) ∷ leads 2 6 (pos 0) ∷ leads 0 1 (pos 0) ∷ leads 0 2 (pos 0) ∷ leads 0 1 (pos 1) ∷ leads 0 1 (pos 2) ∷ leads 0 2 (pos 1) ∷ leads 1 3 (pos 0) ∷ leads 1 4 (negsuc 0) ∷ leads 2 3 (pos 0) ∷ [] }
    ensures nodes { nodes two_inputs ≡ 7 }
    ensures inputs_begin { coefficient_in two_inputs 0 ≡ negsuc 15 }
    ensures image_begins { coefficient_in two_inputs 1 ≡ negsuc 7 }
    ensures image_ends { coefficient_in two_inputs 6 ≡ pos 8 }
    ensures past_the_nodes { coefficient_in two_inputs 7 ≡ pos 0 }
    ensures bits { bits two_inputs (0 ∷ 0 ∷ 2 ∷ 1 ∷ []) ≡ 24 }
    ensures depth { depth two_inputs (0 ∷ 0 ∷ 2 ∷ 1 ∷ []) 0 ≡ 2 }
    ensures latency { latency_in two_inputs (0 ∷ 0 ∷ 2 ∷ 1 ∷ []) ≡ 2 }
{}
