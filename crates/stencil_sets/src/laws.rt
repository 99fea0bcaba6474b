// Laws of live reads.

ghost use Rattle.std.specs.Prelude.{◌≡◌, ℕ, ◌≤◌, List, length};
ghost use Rattle.dk_base.specs.declared.TheConstants.{MAX_LIVE_READS};
ghost use Rattle.dk_base.specs.declared.stencils.Image.{Image};
ghost use Rattle.dk_base.specs.declared.stencils.LiveRead.{LiveRead};
ghost use Rattle.dk_base.specs.Stencils.{Stencils};
ghost use Rattle.pointwise_ir.specs.Programs.{Program};
ghost use Rattle.pointwise_ir.specs.Stencils.{AreImages, AreReads, AreStencilsOf};
ghost use Rattle.stencil_sets.specs.Live.{HasCount};

/// A law: a program has one list of kept images and one of live reads in order, and one number of these; and where it has stencils, that number is at most `MAX_LIVE_READS`.
pub fn one_answer_law()
    ensures images { (p : Program) (a b : List Image) → AreImages p a → AreImages p b → a ≡ b }
    ensures reads { (p : Program) (a b : List LiveRead) → AreReads p a → AreReads p b → a ≡ b }
    ensures count { (p : Program) (m n : ℕ) → HasCount p m → HasCount p n → m ≡ n }
    ensures apart { (p : Program) (s : Stencils) (n : ℕ) → AreStencilsOf p s
        → length s.reads ≤ MAX_LIVE_READS → HasCount p n → n ≤ MAX_LIVE_READS }
{}
