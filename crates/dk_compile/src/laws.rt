// Laws of the definitions.

ghost use Rattle.std.specs.Prelude.{◌≡◌, ◌⊎◌, Bool, Option, ℕ, ◌+◌, ◌-◌, ◌*◌, ◌<◌, ◌≤◌, min, List, length, map, take, All, unsigned_abs};
ghost use Rattle.std.specs.List.{flat_map, range_with_len};
ghost use Rattle.dk_base.specs.Frames.{Size, Picture, area, pixel_of, raster, picture_at};
ghost use Rattle.dk_base.specs.Stencils.{Stencils};
ghost use Rattle.dk_types.specs.Typed.{Typing};
ghost use Rattle.pointwise_ir.specs.Programs.{Program};
ghost use Rattle.source_fault.specs.declared.fault.SourceFault.{SourceFault};
ghost use Rattle.pointwise_ir.specs.Stencils.{AreStencilsOf};
ghost use Rattle.dk_compile.specs.Sources.{IsText, IsAccepted, IsSourceFault};
ghost use Rattle.dk_compile.specs.Fronts.{IsForm, IsFront};
ghost use Rattle.dk_compile.specs.Limits.{HasSystem, IsAcceptedAt, IsFaultAt};
ghost use Rattle.dk_compile.specs.Compiled.{IsPlanned, IsCompiled};
ghost use Rattle.dk_compile.specs.Correct.{IsCorrect};
ghost use Rattle.netlist.specs.Names.{NamedNetlist};
ghost use Rattle.wiring.specs.declared.netlist.Net.{Net};
ghost use Rattle.wiring.specs.Netlist.{Netlist};
ghost use Rattle.wiring.specs.Snapshot.{Contents, Snapshot, Fit, FitsContents};
ghost use Rattle.wiring.specs.Runs.{Runs, picture};
ghost use Rattle.raster_delay.specs.Systems.{System};
ghost use Rattle.flow_dual.specs.declared.solution.Solution.{Solution};
ghost use Rattle.buffer_plan.specs.Plans.{Plan, latency_of};
ghost use Rattle.circuit.specs.Rounds.{Rounds, AreRounds, pixel, pixel_count, pictures_in};
ghost use Rattle.circuit.specs.Driven.{Drives, Agree, driven, input_widths, output_at};

/// A law: a text is that of one program at most; one that is accepted has no fault; and two faults of a text are one. Each text is accepted or has a fault. What has a form and stencils within the limits is accepted, and the stencils of any form have the program's own live reads.
pub fn one_source_law()
    ensures program { (text : List ℕ) (p q : Typing) → IsText text p → IsText text q → p ≡ q }
    ensures apart { (text : List ℕ) (p : Typing) (f : SourceFault) → IsAccepted text p → IsSourceFault text f → ⊥ }
    ensures fault { (text : List ℕ) (f g : SourceFault) → IsSourceFault text f → IsSourceFault text g → f ≡ g }
    ensures some { (text : List ℕ) → ((p : Typing) × IsAccepted text p) ⊎ ((f : SourceFault) × IsSourceFault text f) }
    ensures accepted { (text : List ℕ) (p : Typing) (ir : Program) (s : Stencils) → IsFront text p ir s → IsAccepted text p }
    ensures reads { (text : List ℕ) (p : Typing) (ir : Program) (s : Stencils) → (accepted : IsAccepted text p) → IsForm p ir → AreStencilsOf ir s
        → s.reads ≡ accepted.reads }
{
    dk_lexer::one_reading_law();
    dk_lexer::faithful_law();
    dk_parser::one_judgement_law();
    dk_types::one_typing_law();
}

/// A law, of texts at an age: a text has one system of live reads; one that is planned is accepted; one that is accepted has no fault; and two faults of a text are one.
pub fn one_at_age_law()
    ensures system { (text : List ℕ) (age : ℕ) (p q : Typing) (a b : Program) (s t : System) → HasSystem text age p a s → HasSystem text age q b t → s ≡ t }
    ensures accepted { (text : List ℕ) (age : ℕ) (p : Typing) (ir : Program) (s : System) (x : Solution) (plan : Plan) → IsPlanned text age p ir s x plan
        → IsAcceptedAt text age p }
    ensures apart { (text : List ℕ) (age : ℕ) (p : Typing) (f : SourceFault) → IsAcceptedAt text age p → IsFaultAt text age f → ⊥ }
    ensures fault { (text : List ℕ) (age : ℕ) (f g : SourceFault) → IsFaultAt text age f → IsFaultAt text age g → f ≡ g }
{
    one_source_law();
    stencil_sets::one_answer_law();
    buffer_plan::one_limit_law();
}

/// The theorem of the compiler: a text that is compiled from a program denotes one module. This module has the program's ports. From any contents it shows the program's pictures, and it stands still while `en` is 0. Its arrays have the fewest bits of all causal schedules of the program's images; without `block` they are all that is stored of what came in.
pub fn correct_law()
    ensures { (source : List ℕ) (age : ℕ) (enable : Bool) (block : Option ℕ) (p : Typing) (ir : Program) (system : System) (solution : Solution) (plan : Plan)
        (m : NamedNetlist) (nets reads : List Net) (verilog : List ℕ) → IsCompiled source age enable block p ir system solution plan m nets reads verilog
        → IsCorrect source age enable block verilog }
{
    one_at_age_law();
    wiring::one_valuation_law();
    wiring::one_next_law();
    netlist::one_run_law();
}

/// A law: an output's picture of a drive is its pixels in raster order, counted on through the rounds, as many as there are clocks after its latency; and pixels that are counted on through pictures are these pictures' rasters, one after another.
///
/// A drive may continue after an output's last pixel, as it does for each output that is earlier than the latest one. Its `valid` stays 1 to the end. The first samples at which it is 1, as many as the rounds have pixels, are still the output's pixels (`first`), and its pictures where the drive is long enough (`whole`). Later samples are not pixels.
pub fn drive_shows_law()
    ensures picture { (m : Netlist) (p : Program) (plan : Plan) → Drives m p plan → (from to : Contents) (dins : List (List ℕ)) (shots : List Snapshot)
        → FitsContents m from → All (Fit (input_widths p)) dins
        → Runs m from (driven (length p.inputs) dins) shots to → (rounds : Rounds) → AreRounds p rounds → Agree p rounds dins → (k : ℕ) → k < length p.outputs
        → length dins ≤ pixel_count p rounds + latency_of plan k
        → picture k shots ≡ map (λ q. unsigned_abs (pixel p rounds (output_at p k) q)) (range_with_len 0 (length dins - latency_of plan k)) }
    ensures first { (m : Netlist) (p : Program) (plan : Plan) → Drives m p plan → (from to : Contents) (dins : List (List ℕ)) (shots : List Snapshot)
        → FitsContents m from → All (Fit (input_widths p)) dins
        → Runs m from (driven (length p.inputs) dins) shots to → (rounds : Rounds) → AreRounds p rounds → Agree p rounds dins → (k : ℕ) → k < length p.outputs
        → take (pixel_count p rounds) (picture k shots)
        ≡ map (λ q. unsigned_abs (pixel p rounds (output_at p k) q)) (range_with_len 0 (min (pixel_count p rounds) (length dins - latency_of plan k))) }
    ensures whole { (m : Netlist) (p : Program) (plan : Plan) → Drives m p plan → (from to : Contents) (dins : List (List ℕ)) (shots : List Snapshot)
        → FitsContents m from → All (Fit (input_widths p)) dins
        → Runs m from (driven (length p.inputs) dins) shots to → (rounds : Rounds) → AreRounds p rounds → Agree p rounds dins → (k : ℕ) → k < length p.outputs
        → pixel_count p rounds + latency_of plan k ≤ length dins
        → take (pixel_count p rounds) (picture k shots)
        ≡ flat_map (λ r. raster p.size (picture_at (pictures_in p rounds r) (output_at p k))) (range_with_len 0 (length rounds)) }
    ensures rasters { (size : Size) (pictures : ℕ → Picture) (n : ℕ)
        → map (λ q. unsigned_abs (pixel_of size pictures q)) (range_with_len 0 (n * area size))
        ≡ flat_map (λ k. raster size (pictures k)) (range_with_len 0 n) }
{}
