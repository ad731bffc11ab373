//! One name, kept by copy.

ghost use Rattle.std.specs.Prelude.{◌≡◌, ◌≤◌, [], length};

use crate::names::MOST_NAME_BYTES;
use std::marker::Model;

/// A name of up to `MOST_NAME_BYTES` bytes.
#[derive(Drop)]
pub struct Name {
    bytes: [u8; MOST_NAME_BYTES],
    len: usize,
}

// Clauses see the bytes of the name.
impl Model for Name {
    ghost use Rattle.std.specs.Prelude.{◌≤◌, List, ℕ, take};

    ghost Value = { List ℕ };

    ghost view = { λ n. take n.len n.bytes };

    ghost invariant = { λ n. n.len ≤ 32 };
}

impl Name {
    pub fn empty() -> Name
        ensures { result ≡ [] }
    {
        Name {
            bytes: [0; MOST_NAME_BYTES],
            len: 0,
        }
    }

    pub fn of(name: &[u8]) -> Name
        requires { length name.now ≤ 32 }
        ensures { result ≡ name.now }
    {
        let mut bytes = [0; MOST_NAME_BYTES];
        bytes[..name.len()].copy_from_slice(name);
        Name {
            bytes,
            len: name.len(),
        }
    }

    pub fn bytes(&self) -> &[u8]
        ensures { result.now ≡ self.now }
    {
        &self.bytes[..self.len]
    }
}
