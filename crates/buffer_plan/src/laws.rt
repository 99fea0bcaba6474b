// What the definitions say together.

ghost use Rattle.std.specs.Prelude.{◌≡◌, ◌≤◌, ◌⊎◌, ℕ, List};
ghost use Rattle.dk_base.specs.declared.TheConstants.{MAX_BUFFER_BITS};
ghost use Rattle.dk_base.specs.Stencils.{IsKept};
ghost use Rattle.raster_delay.specs.Systems.{System};
ghost use Rattle.flow_dual.specs.Solutions.{IsLeastVector};
ghost use Rattle.buffer_plan.specs.declared.fault.PlanFault.{PlanFault};
ghost use Rattle.buffer_plan.specs.declared.fault.PlanFault.TheVariants.{OutOfMemory};
ghost use Rattle.buffer_plan.specs.Limits.{KeepsLimits, IsPlanFault};
ghost use Rattle.buffer_plan.specs.Plans.{Plan, IsPlan, AreAges, ages_of, depth_of, last_of};

/// Laws: a system has one least vector. Where it is within the limits no limit is passed, and otherwise one is the first.
pub fn one_limit_law()
    ensures vector { (s : System) (d e : List ℕ) → IsLeastVector s d → IsLeastVector s e → d ≡ e }
    ensures apart { (s : System) (f : PlanFault) → KeepsLimits s → IsPlanFault s f → f ≡ OutOfMemory }
    ensures fault { (s : System) (f g : PlanFault) → IsPlanFault s f → IsPlanFault s g → (f ≡ OutOfMemory) ⊎ (g ≡ OutOfMemory) ⊎ (f ≡ g) }
{}

/// A law: an image has one list of distinct ages, ascending, the last of which is its depth, and no depth is above the limit on bits.
pub fn ages_of_images_law()
    ensures ages { (p : Plan) (g : ℕ) → AreAges p g (ages_of p g) }
    ensures one { (p : Plan) (g : ℕ) (ages : List ℕ) → AreAges p g ages → ages ≡ ages_of p g }
    ensures depth { (p : Plan) (g : ℕ) → last_of 0 (ages_of p g) ≡ depth_of p g }
    ensures most { (p : Plan) (g : ℕ) → IsPlan p → IsKept p.system.stencils.images g → depth_of p g ≤ MAX_BUFFER_BITS }
{}
