// What a chain of steps makes of one coordinate.

ghost use Rattle.std.specs.Prelude.{◌≡◌, ◌+◌, ◌*◌, ◌^◌, ◌≤◌, ◌<◌, ◌↔◌, ◌⊎◌, ℕ, ℤ, pos, ◌+ℤ◌, ◌-ℤ◌, ◌<ℤ◌, ◌≤ℤ◌, neg_ℤ, IsTrue, IfSome, unsigned_abs};
ghost use Rattle.std.specs.Int.{int_min, int_max};
ghost use Rattle.dk_base.specs.declared.TheConstants.{MAX_SIDE};
ghost use Rattle.dk_base.specs.Frames.{is_below};
ghost use Rattle.frame_paths.specs.Moves.{brought, Leads, LeadsOn, LeadsThen, LeadWithin, IsMoves, IsInterval, IsInOn, IsOffset, AreNear};

use dk_base::MAX_SIDE;
use pointwise_ir::Edge;

// A shift of more leads as this one.
const GREATEST_SHIFT: i64 = MAX_SIDE as i64;

/// A chain of steps in one coordinate: the coordinates from `first` to `last` go through it, and each ends at itself plus `shift`, brought into `least` to `most`.
#[derive(Clone, Copy)]
pub struct Moves {
    pub first: i64,
    pub last: i64,
    pub shift: i64,
    pub least: i64,
    pub most: i64,
}

/// The coordinates from `first` to `last`.
#[derive(Clone, Copy)]
pub struct Interval {
    pub first: u32,
    pub last: u32,
}

/// The offsets from `least` to `greatest`.
#[derive(Clone, Copy, Default)]
pub struct Offsets {
    pub least: i32,
    pub greatest: i32,
}

fn sum(a: i64, b: i64) -> i64
    requires left { unsigned_abs a ≤ 2 ^ 41 }
    requires right { unsigned_abs b ≤ 2 ^ 41 }
    ensures { result ≡ a +ℤ b }
{
    a + b
}

fn bring(v: i64, least: i64, most: i64) -> i64
    ensures { result ≡ brought least most v }
{
    least.max(most.min(v))
}

fn difference(a: i64, b: i64) -> i32
    requires left { unsigned_abs a ≤ MAX_SIDE }
    requires right { unsigned_abs b ≤ MAX_SIDE }
    ensures value { result ≡ a -ℤ b }
    ensures near { unsigned_abs result ≤ 2 * MAX_SIDE }
{
    (a - b) as i32
}

// The last of this many coordinates.
fn last_of(side: u32) -> i64
    ensures { result ≡ pos side -ℤ pos 1 }
{
    i64::from(side) - 1
}

impl Moves {
    /// No step, in a frame with this many coordinates.
    pub fn none(side: u32) -> Moves
        requires some { 1 ≤ side }
        ensures moves { IsMoves side result }
        ensures leads { (x u : ℤ) → Leads result x u ↔ (u ≡ x) × IsTrue (is_below x side) }
    {
        let last = last_of(side);
        Moves {
            first: 0,
            last,
            shift: 0,
            least: 0,
            most: last,
        }
    }

    // The first coordinate that goes on, where the least end would be `low`.
    fn first_inside(self, low: i64, shift: i64) -> i64
        requires shift { unsigned_abs shift ≤ 2 ^ 41 }
        ensures { ((low <ℤ pos 0) × (result ≡ int_max self.first (neg_ℤ shift))) ⊎ ((pos 0 ≤ℤ low) × (result ≡ self.first)) }
    {
        if low < 0 {
            self.first.max(-shift)
        } else {
            self.first
        }
    }

    // The last coordinate that goes on, where the greatest end would be `high` and may be `edge`.
    fn last_inside(self, high: i64, edge: i64, shift: i64) -> i64
        requires shift { unsigned_abs shift ≤ 2 ^ 41 }
        requires edge { unsigned_abs edge ≤ MAX_SIDE }
        ensures { ((edge <ℤ high) × (result ≡ int_min self.last (edge -ℤ shift))) ⊎ ((high ≤ℤ edge) × (result ≡ self.last)) }
    {
        if high > edge {
            self.last.min(edge - shift)
        } else {
            self.last
        }
    }

    // A step that is not clamped goes on from what stays in the frame.
    fn unclamped(self, side: u32, by: i64) -> Option<Moves>
        requires moves { IsMoves side self }
        requires side { side ≤ MAX_SIDE }
        requires step { unsigned_abs by ≤ 2 ^ 32 }
        ensures within { IfSome result (λ m. LeadWithin side m) }
        ensures shift { IfSome result (λ m. m.shift ≡ self.shift +ℤ by) }
        ensures leads { (x u : ℤ) → LeadsOn result x u ↔ LeadsThen side self Edge.Zero by x u }
    {
        let edge = last_of(side);
        let shift = sum(self.shift, by);
        let low = sum(self.least, by);
        let high = sum(self.most, by);
        let first = self.first_inside(low, shift);
        let last = self.last_inside(high, edge, shift);
        if low > edge {
            return None;
        }
        if high < 0 {
            return None;
        }
        if first > last {
            return None;
        }
        Some(Moves {
            first,
            last,
            shift,
            least: low.max(0),
            most: high.min(edge),
        })
    }

    // A clamped step goes on from everywhere.
    fn clamped(self, side: u32, by: i64) -> Moves
        requires moves { IsMoves side self }
        requires side { side ≤ MAX_SIDE }
        requires step { unsigned_abs by ≤ 2 ^ 32 }
        ensures within { LeadWithin side result }
        ensures shift { result.shift ≡ self.shift +ℤ by }
        ensures leads { (x u : ℤ) → Leads result x u ↔ LeadsThen side self Edge.Clamp by x u }
    {
        let edge = last_of(side);
        let shift = sum(self.shift, by);
        let low = sum(self.least, by);
        let high = sum(self.most, by);
        let least = bring(low, 0, edge);
        let most = bring(high, 0, edge);
        Moves {
            first: self.first,
            last: self.last,
            shift,
            least,
            most,
        }
    }

    // The moves with a further step, or None where no coordinate goes on.
    fn stepped(self, side: u32, edge: Edge, by: i64) -> Option<Moves>
        requires moves { IsMoves side self }
        requires side { side ≤ MAX_SIDE }
        requires step { unsigned_abs by ≤ 2 ^ 32 }
        ensures within { IfSome result (λ m. LeadWithin side m) }
        ensures shift { IfSome result (λ m. m.shift ≡ self.shift +ℤ by) }
        ensures leads { (x u : ℤ) → LeadsOn result x u ↔ LeadsThen side self edge by x u }
    {
        match edge {
            Edge::Zero => self.unclamped(side, by),
            Edge::Clamp => Some(self.clamped(side, by)),
        }
    }

    // The same moves with a small shift. One that is greater than the frame leads each coordinate to the same end.
    fn near(self, side: u32) -> Moves
        requires within { LeadWithin side self }
        requires side { side ≤ MAX_SIDE }
        requires shift { unsigned_abs self.shift ≤ 2 ^ 41 }
        ensures moves { IsMoves side result }
        ensures leads { (x u : ℤ) → Leads result x u ↔ Leads self x u }
    {
        let shift = bring(self.shift, -GREATEST_SHIFT, GREATEST_SHIFT);
        Moves {
            first: self.first,
            last: self.last,
            shift,
            least: self.least,
            most: self.most,
        }
    }

    /// The moves with a further step, or None where no coordinate goes on.
    pub fn step(self, side: u32, edge: Edge, by: i32) -> Option<Moves>
        requires moves { IsMoves side self }
        requires side { side ≤ MAX_SIDE }
        ensures moves { IfSome result (λ m. IsMoves side m) }
        ensures leads { (x u : ℤ) → LeadsOn result x u ↔ LeadsThen side self edge by x u }
    {
        match self.stepped(side, edge, i64::from(by)) {
            Some(moves) => Some(moves.near(side)),
            None => None,
        }
    }

    /// The coordinates that are led by exactly `by`, or None where there is none.
    pub fn led_by(self, side: u32, by: i32) -> Option<Interval>
        requires moves { IsMoves side self }
        requires side { side ≤ MAX_SIDE }
        ensures interval { IfSome result (λ i. IsInterval side i) }
        ensures led { (x : ℕ) → IsInOn result x ↔ Leads self (pos x) (pos x +ℤ by) }
    {
        let by = i64::from(by);
        let first = self.first.max(self.first_led(by));
        let last = self.last.min(self.last_led(by));
        if first > last {
            return None;
        }
        Some(Interval {
            first: first as u32,
            last: last as u32,
        })
    }

    /// How far the coordinates are led, each from where it is: these offsets, each of some coordinate.
    pub fn offsets(self, side: u32) -> Offsets
        requires moves { IsMoves side self }
        requires side { side ≤ MAX_SIDE }
        ensures offsets { (d : ℤ) → IsOffset result d ↔ (x : ℤ) × Leads self x (x +ℤ d) }
        ensures near { AreNear result }
    {
        let least = self.offset_of(side, self.last);
        let greatest = self.offset_of(side, self.first);
        Offsets { least, greatest }
    }

    // How far coordinate `x` is led.
    fn offset_of(self, side: u32, x: i64) -> i32
        requires moves { IsMoves side self }
        requires side { side ≤ MAX_SIDE }
        requires small { unsigned_abs x ≤ MAX_SIDE }
        ensures offset { result ≡ brought self.least self.most (x +ℤ self.shift) -ℤ x }
        ensures near { unsigned_abs result ≤ 2 * MAX_SIDE }
    {
        let to = sum(x, self.shift);
        let end = bring(to, self.least, self.most);
        let offset = difference(end, x);
        offset
    }

    // Where, of all coordinates, those that are led by `by` begin.
    fn first_led(self, by: i64) -> i64
        requires least { unsigned_abs self.least ≤ MAX_SIDE }
        requires most { unsigned_abs self.most ≤ MAX_SIDE }
        requires by { unsigned_abs by ≤ 2 ^ 32 }
        ensures { ((self.shift ≤ℤ by) × (result ≡ self.least -ℤ by)) ⊎ ((by <ℤ self.shift) × (result ≡ self.most -ℤ by)) }
    {
        if by >= self.shift {
            self.least - by
        } else {
            self.most - by
        }
    }

    // Where they end.
    fn last_led(self, by: i64) -> i64
        requires least { unsigned_abs self.least ≤ MAX_SIDE }
        requires most { unsigned_abs self.most ≤ MAX_SIDE }
        requires by { unsigned_abs by ≤ 2 ^ 32 }
        ensures { ((by ≤ℤ self.shift) × (result ≡ self.most -ℤ by)) ⊎ ((self.shift <ℤ by) × (result ≡ self.least -ℤ by)) }
    {
        if by <= self.shift {
            self.most - by
        } else {
            self.least - by
        }
    }
}
