// Names, which contracts see as lists of bytes.

use crate::word;
use std::marker::Model;

/// A name of a Verilog text.
#[derive(Debug, Drop)]
pub struct Name {
    bytes: Vec<u8>,
}

impl Model for Name {
    ghost use Rattle.std.specs.Prelude.{◌≡◌, ℕ, List, true};
    ghost use Rattle.net_names.specs.Words.{is_name};

    ghost Value = { List ℕ };

    ghost view = { λ n. n.bytes.items };

    ghost invariant = { λ n. is_name n.bytes.items ≡ true };
}

impl Name {
    ghost use Rattle.std.specs.Prelude.{◌≡◌, ◌↔◌, true, IsSome, IfSome};
    ghost use Rattle.net_names.specs.Words.{is_name};

    /// The name of these bytes, or None where they are none. It takes no memory.
    pub fn checked(bytes: Vec<u8>) -> Option<Name>
        ensures made { IsSome result ↔ (is_name bytes.items ≡ true) }
        ensures bytes { IfSome result (λ n. n ≡ bytes.items) }
    {
        if word::is_name(&bytes) {
            Some(Name { bytes })
        } else {
            None
        }
    }

    /// The name of these bytes. It takes no memory.
    pub fn new(bytes: Vec<u8>) -> Name
        requires { is_name bytes.items ≡ true }
        ensures { result ≡ bytes.items }
    {
        Name { bytes }
    }

    /// The bytes.
    pub fn as_bytes(&self) -> &[u8]
        ensures bytes { result.now ≡ self.now }
        ensures name { is_name self.now ≡ true }
    {
        &self.bytes
    }
}
