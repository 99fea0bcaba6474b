// Modules.

use crate::names::Names;
use std::marker::Model;
use wiring::Netlist;

/// A netlist that keeps the net rules, with names beside it and an order in which its assigns can be evaluated.
#[derive(Debug, Drop)]
pub struct Module {
    names: Names,
    wiring: Netlist,
    order: Vec<usize>,
}

impl Model for Module {
    ghost use Rattle.wiring.specs.Netlist.{netlist_of};
    ghost use Rattle.wiring.specs.Rules.{KeepsRules};
    ghost use Rattle.wiring.specs.Order.{IsEvaluationOrder};
    ghost use Rattle.netlist.specs.Names.{NamedNetlist, names_of, HasNames};

    ghost Value = { NamedNetlist };

    ghost view = { λ m. record { netlist = netlist_of m.wiring; names = names_of m.names } };

    ghost invariant = { λ m. KeepsRules (netlist_of m.wiring) × HasNames (netlist_of m.wiring) (names_of m.names) × IsEvaluationOrder m.wiring.assigns.items m.order.items };
}

impl Module {
    ghost use Rattle.std.specs.Prelude.{◌≡◌};
    ghost use Rattle.wiring.specs.Netlist.{netlist_of};
    ghost use Rattle.wiring.specs.Rules.{KeepsRules};
    ghost use Rattle.wiring.specs.Order.{IsEvaluationOrder};
    ghost use Rattle.wiring.specs.Snapshot.{HasOneSnapshot, HasOneNext};
    ghost use Rattle.netlist.specs.Names.{names_of, HasNames};

    /// The module of these, whose rules and order are known. It takes no memory.
    pub fn in_order(names: Names, wiring: Netlist, order: Vec<usize>) -> Module
        requires rules { KeepsRules (netlist_of wiring) }
        requires names { HasNames (netlist_of wiring) (names_of names) }
        requires ordered { IsEvaluationOrder wiring.assigns.items order.items }
        ensures { result ≡ record { netlist = netlist_of wiring; names = names_of names } }
    {
        Module {
            names,
            wiring,
            order,
        }
    }

    /// The netlist.
    pub fn wiring(&self) -> &Netlist
        ensures netlist { netlist_of result.now ≡ self.now.netlist }
        ensures rules { KeepsRules self.now.netlist }
    {
        &self.wiring
    }

    /// The names.
    pub fn names(&self) -> &Names
        ensures names { names_of result.now ≡ self.now.names }
        ensures fit { HasNames self.now.netlist self.now.names }
    {
        &self.names
    }

    /// An order in which the assigns can be evaluated: each follows those that it reads.
    pub fn order(&self) -> &[usize]
        ensures { IsEvaluationOrder self.now.netlist.assigns result.now }
    {
        &self.order
    }

    /// A law: there is exactly one valuation for each contents and inputs, and one next contents.
    pub fn law(&self)
        ensures one_valuation { HasOneSnapshot self.now.netlist }
        ensures one_next { HasOneNext self.now.netlist }
    {
        let _order = &self.order;
        wiring::one_valuation_law();
        wiring::one_next_law();
    }
}
