// Phases, worked out by hand.

ghost use Rattle.std.specs.Prelude.{◌≡◌, ℤ, pos, negsuc, [], ◌∷◌};
ghost use Rattle.dk_base.specs.Frames.{Picture};
ghost use Rattle.same_phases.specs.Phases.{phase_of, phases_of};

/// A law: the columns of the two phases of a picture, to the left of its first column too, and the phases of a round of two pictures.
pub fn worked_phases()
    ensures first { (picture : Picture) (y : ℤ) → phase_of 2 0 picture (pos 1) y
        ≡ picture (pos 2) y }
    ensures second { (picture : Picture) (y : ℤ) → phase_of 2 1 picture (pos 1) y
        ≡ picture (pos 3) y }
    ensures before { (picture : Picture) (y : ℤ) → phase_of 2 1 picture (negsuc 0) y
        ≡ picture (negsuc 0) y }
    ensures round { (a b : Picture) → phases_of 2 (a ∷ b ∷ [])
        ≡ phase_of 2 0 a ∷ phase_of 2 1 a ∷ phase_of 2 0 b ∷ phase_of 2 1 b ∷ [] }
{}
