// Laws, which callers use.

ghost use Rattle.std.specs.Prelude.{◌≡◌, ℕ, ◌*◌, ◌++◌, Bool, List, []};
ghost use Rattle.std.specs.List.Sorted.{IsStrictlyIncreasing};
ghost use Rattle.wiring.specs.declared.netlist.Net.{Net};
ghost use Rattle.wiring.specs.declared.netlist.Shape.{Shape};
ghost use Rattle.wiring.specs.Netlist.{Netlist};
ghost use Rattle.wiring.specs.BufferBits.{array_bits};
ghost use Rattle.net_build.specs.Includes.{Includes};
ghost use Rattle.net_build.specs.Draft.{IsNet, IsDraft};
ghost use Rattle.net_build.specs.Runs.{NeverStops};
ghost use Rattle.net_build.specs.Control.{IsControlled};
ghost use Rattle.net_build.specs.Logic.{AddsLogic};
ghost use Rattle.net_build.specs.Counters.{AddsRegister};
ghost use Rattle.line_buffer.specs.Places.{Place, depth_of, ring_shapes, chain_shapes};
ghost use Rattle.line_buffer.specs.Buffers.{AddsBuffer, IsBuffer, AreMadeOfBuffer};
ghost use Rattle.line_buffer.specs.Indices.{AreReadOnce};
ghost use Rattle.line_buffer.specs.Fills.{AreFilled};

/// A law: a buffer has exactly as many bits as its width times its depth.
pub fn exact_bits_law()
    ensures ring { (width : ℕ) (ages : List ℕ) → array_bits (ring_shapes width ages)
        ≡ width * depth_of ages }
    ensures chain { (width : ℕ) (ages : List ℕ) → IsStrictlyIncreasing ages
        → array_bits (chain_shapes width ages) ≡ width * depth_of ages }
{}

/// A law: what calls add, one buffer after another, with wires and counters between them. What never stops still never stops, and what is controlled stays so, with the copies that were added.
pub fn buffers_join_law()
    ensures none { (b : Netlist) → AddsBuffer b b [] [] }
    ensures logic { (new old : Netlist) → AddsLogic new old → AddsBuffer new old [] [] }
    ensures register { (new old : Netlist) (width : ℕ) → AddsRegister new old width
        → AddsBuffer new old [] [] }
    ensures joined { (c b a : Netlist) (before after : List Shape) (copies more : List ℕ)
        → AddsBuffer b a before copies → AddsBuffer c b after more
        → AddsBuffer c a (before ++ after) (copies ++ more) }
    ensures stops { (new old : Netlist) (shapes : List Shape) (copies : List ℕ)
        → AddsBuffer new old shapes copies → NeverStops old → NeverStops new }
    ensures control { (new old : Netlist) (shapes : List Shape) (copies others : List ℕ)
        → IsDraft old → AddsBuffer new old shapes copies → IsControlled old others
        → IsControlled new (others ++ copies) }
    ensures plain { (new old : Netlist) (shapes : List Shape) (others : List ℕ)
        → AddsBuffer new old shapes [] → IsControlled old others → IsControlled new others }
    ensures once { (c b a : Netlist) (after : List Shape) (copies : List ℕ) → AreReadOnce b a
        → AddsBuffer c b after copies → AreReadOnce c b → AreReadOnce c a }
{}

/// A law: a buffer stays one, as the netlist grows.
pub fn buffers_last_law()
    ensures buffer { (b a : Netlist) (copies : List ℕ) (place : (age t : ℕ) → Place) (ages : List ℕ)
        (taps : List Net) (value : Net) → Includes b a → IsNet a value
        → IsBuffer a copies place ages taps value → IsBuffer b copies place ages taps value }
    ensures fills { (b a : Netlist) (direct : ℕ → Bool) (copies : List ℕ) (first end : ℕ)
        (value : Net) → Includes b a → AreFilled a direct copies first end value
        → AreFilled b direct copies first end value }
    ensures made { (b a : Netlist) (most first end : ℕ) (ages : List ℕ) (taps : List Net)
        → Includes b a → AreMadeOfBuffer a most first end ages taps
        → AreMadeOfBuffer b most first end ages taps }
{}
