// How far a streamed `run` reads its images.

ghost use Rattle.std.specs.Prelude.{◌≡◌, ℕ, ◌<◌, ◌≤◌, List, length, Option, Some};
ghost use Rattle.dk_types.specs.Typed.{Typing};
ghost use Rattle.dk_top.specs.Streaming.{ReadsToFault, ReadsToFailure};

/// Laws: the file determines what a streamed `run` leaves of it at its first fault, and a failed read leaves no less.
/// So no failed read hides an earlier fault.
pub fn one_rest_law()
    ensures fault { (p : Typing) (file : List ℕ) (left other : Option (List ℕ)) (xs ys : List ℕ)
        → 0 < p.size.height → ReadsToFault p file left xs → ReadsToFault p file other ys → left
        ≡ other }
    ensures failure { (p : Typing) (file after rest xs ys : List ℕ) → 0 < p.size.height
        → ReadsToFault p file (Some after) xs → ReadsToFailure p file (Some rest) ys
        → length after ≤ length rest }
{
    pgm_codec::one_reading_law();
}
