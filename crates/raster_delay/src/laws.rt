// What a flow says of every solution.

ghost use Rattle.std.specs.Prelude.{ℕ, List, ◌≤◌, ◌≤ℤ◌, pos, All, slice_index};
ghost use Rattle.raster_delay.specs.Network.{Holds, IsFlow, IsWithin, Buffer, worth, objective};
ghost use Rattle.raster_delay.specs.Systems.{System, IsSystem, IsCausal, IsBalanced, bits, worth_of};
ghost use Rattle.raster_delay.specs.declared.network.Constraint.{Constraint as TheConstraint};

/// A law of systems of differences: no flow is worth more than the objective of any numbers that keep the constraints.
pub fn weak_duality_law()
    ensures { (cs : List TheConstraint) (bs : List Buffer) (n : ℕ) (flow p : List ℕ)
        → IsWithin n cs bs → IsFlow cs bs flow → All (Holds p) cs
        → All (λ b. slice_index p b.begin ≤ slice_index p b.end) bs
        → worth cs flow ≤ℤ pos (objective bs p) }
{}

/// A law: no balanced flow is worth more than the bits of any causal delays, so one that is worth the bits of some shows them least.
pub fn flow_shows_least_law()
    ensures { (s : System) (flow d : List ℕ) → IsSystem s → IsBalanced s flow → IsCausal s d
        → worth_of s flow ≤ℤ pos (bits s d) }
{}
