// What the solver answers.

ghost use Rattle.std.specs.Prelude.{◌≡◌};

use std::marker::Model;

/// A list of numbers.
#[derive(Debug, Drop)]
pub struct Numbers {
    items: Vec<u64>,
}

impl Model for Numbers {
    ghost use Rattle.std.specs.Prelude.{ℕ, List};

    ghost Value = { List ℕ };

    ghost view = { λ n. n.items.items };
}

impl Numbers {
    /// These numbers. It takes no memory.
    pub fn new(items: Vec<u64>) -> Numbers
        ensures { result ≡ items.items }
    {
        Numbers { items }
    }

    /// The numbers in order.
    pub fn as_slice(&self) -> &[u64]
        ensures { result.now ≡ self.now }
    {
        &self.items
    }

    /// The numbers, given back in the memory that they came in.
    pub fn into_vec(self) -> Vec<u64>
        ensures { result.items ≡ self }
    {
        self.items
    }
}

/// A delay and an end in clocks for each kept image in order, and a flow in bits for each constraint in order. The end is the delay with the image's depth.
#[derive(Debug, Drop)]
pub struct Solution {
    pub delays: Numbers,
    pub ends: Numbers,
    pub flow: Numbers,
}
