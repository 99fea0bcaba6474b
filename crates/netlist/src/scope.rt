// What names denote.

use crate::fault::{Declared, NetError, NetFault};
use indexmap::IndexMap;
use std::alloc::Global;
use std::marker::Model;

// What a name denotes.
#[derive(Clone, Copy, Debug)]
pub(crate) enum Stands {
    Clock,
    Input(usize),
    Output(usize),
    Wire(usize),
    Reg(usize),
    Array(usize),
}

// Declared names, each once, with what they denote, in the order of the text.
#[derive(Drop)]
pub(crate) struct Scope<'a> {
    names: IndexMap<&'a [u8], Stands>,
}

impl<'a> Model for Scope<'a> {
    ghost use Rattle.std.specs.Prelude.{List};
    ghost use Rattle.netlist.specs.Names.{AreDistinct};
    ghost use Rattle.netlist.specs.Scopes.{Entry};
    ghost use Rattle.netlist.specs.Entries.{entries_in, names_in};

    ghost Value = { List Entry };

    ghost view = { λ s. entries_in s.names.entries };

    ghost invariant = { λ s. AreDistinct (names_in (entries_in s.names.entries)) };
}

impl<'a> Scope<'a> {
    ghost use Rattle.std.specs.Prelude.{◌≡◌, ◌++◌, ◌∷◌, [], length, slice_get, MatchResult};
    ghost use Rattle.std.specs.Option.{option_map};
    ghost use Rattle.netlist.specs.Names.{AreDistinct};
    ghost use Rattle.netlist.specs.Scopes.{Entry, stands_for};
    ghost use Rattle.netlist.specs.Entries.{meaning_of, names_in, IsTaken};
    ghost use Rattle.netlist.specs.Faults.{IsErrorBy};

    pub(crate) fn new(alloc: Global) -> Scope<'a>
        ensures { result ≡ [] }
    {
        Scope {
            names: IndexMap::new(alloc),
        }
    }

    // What the name denotes.
    pub(crate) fn find(&self, name: &[u8]) -> Option<Stands>
        ensures { option_map meaning_of result ≡ stands_for self.now name.now }
    {
        self.names.get(name).copied()
    }

    // Adds the next name, or reports that it is there.
    pub(crate) fn add(
        &mut self,
        name: &'a [u8],
        stands: Stands,
        declared: Declared,
    ) -> Result<(), NetError>
        ensures { MatchResult result (λ _. self.new
            ≡ self.old ++ (record { name = name.now; meaning = meaning_of stands }) ∷ [])
            (IsErrorBy (IsTaken self.old name.now declared)) }
    {
        if self.names.contains_key(name) {
            return Err(NetError::Fault(NetFault::Duplicate(declared)));
        }
        self.names.insert(name, stands)?;
        Ok(())
    }

    // How many names there are.
    pub(crate) fn len(&self) -> usize
        ensures { result ≡ length self.now }
    {
        self.names.len()
    }

    // What the name at this place denotes.
    pub(crate) fn stands_at(&self, place: usize) -> Option<Stands>
        ensures { option_map meaning_of result
            ≡ option_map (λ (e : Entry). e.meaning) (slice_get self.now place) }
    {
        let (_, stands) = self.names.get_index(place)?;
        Some(*stands)
    }

    // A law: no name is there twice.
    pub(crate) fn law(&self)
        ensures { AreDistinct (names_in self.now) }
    {
        let _names = &self.names;
    }
}
