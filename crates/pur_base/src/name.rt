ghost use Rattle.std.specs.Prelude.{◌≡◌, ◌↔◌, ◌==◌, ◌≤◌, ℕ, length, IsTrue, IsOk, IfOk};
ghost use Rattle.std.specs.List.{list_all};
ghost use Rattle.pur_base.specs.Names.{is_name, is_name_byte};

use crate::limits::NAME_BYTES;
use std::hash::{Hash, Hasher};
use std::marker::Model;

/// The name of a volume or snapshot: 1 to 24 bytes of `a-z 0-9 - _ .`. Contracts see the list of its bytes.
#[derive(Clone, Copy, Drop)]
pub struct Name {
    bytes: [u8; NAME_BYTES],
    len: u8,
}

impl Model for Name {
    ghost use Rattle.std.specs.Prelude.{List, ℕ};

    ghost Value = { List ℕ };

    ghost use Rattle.std.specs.Prelude.{◌++◌, ◌-◌, take, length, replicate};
    ghost use Rattle.pur_base.specs.NameFields.{IsPadded, inverse-view};

    ghost view = { λ n. take n.len n.bytes };

    ghost invariant = { λ n. IsPadded n.bytes n.len };

    ghost inverse = { λ text. record { bytes = text ++ replicate (24 - length text) 0; len = length text } };

    ghost inverse_ok = { λ n h. inverse-view n h };
}

/// The text is no name.
#[derive(Clone, Copy, PartialEq, Eq)]
pub struct BadName;

fn is_name_byte_of(byte: u8) -> bool
    ensures { result ≡ is_name_byte byte }
{
    byte.is_ascii_lowercase()
        || byte.is_ascii_digit()
        || byte == b'-'
        || byte == b'_'
        || byte == b'.'
}

fn is_lawful(text: &[u8]) -> bool
    ensures { result ≡ list_all is_name_byte text.now }
{
    text.iter().all(|byte| is_name_byte_of(*byte))
}

fn is_name_text(text: &[u8]) -> bool
    ensures name { result ≡ is_name text.now }
    ensures len { IsTrue result → length text.now ≤ 24 }
{
    let low = 1 <= text.len();
    let high = text.len() <= NAME_BYTES;
    let lawful = is_lawful(text);
    low && high && lawful
}

impl Name {
    /// The name that a text spells, or `BadName` where the text isn't a name.
    pub fn read(text: &[u8]) -> Result<Name, BadName>
        ensures variant { IsOk result ↔ IsTrue (is_name text.now) }
        ensures ok { IfOk result (λ name. name ≡ text.now) }
    {
        if !is_name_text(text) {
            return Err(BadName);
        }
        let mut bytes = [0; NAME_BYTES];
        bytes[..text.len()].copy_from_slice(text);
        let len = text.len() as u8;
        Ok(Name { bytes, len })
    }

    /// The bytes of the name.
    pub fn as_bytes(&self) -> &[u8]
        ensures bytes { result.now ≡ self.now }
        ensures len { length self.now ≤ 24 }
    {
        &self.bytes[..self.len as usize]
    }
}

impl PartialEq for Name {
    ghost use Rattle.std.specs.Prelude.{bytes_eq};
    ghost use Rattle.std.specs.Cmp.{partial_equiv_from_equiv};
    ghost use Rattle.std.specs.Cmp.Lexicographic.{nat_list_eq_equiv};

    ghost eq = { bytes_eq };

    ghost laws = { partial_equiv_from_equiv nat_list_eq_equiv };

    fn eq(&self, other: &Name) -> bool {
        self.as_bytes() == other.as_bytes()
    }
}

impl Eq for Name {
    ghost use Rattle.std.specs.Cmp.Lexicographic.{nat_list_eq_equiv};

    ghost laws = { nat_list_eq_equiv };
}

/// A name is hashed as one write of its bytes.
impl Hash for Name {
    ghost use Rattle.std.specs.Prelude.{[], ◌∷◌};
    ghost use Rattle.pur_base.specs.NameFields.{hashed-alike};

    ghost hash_input = { λ n. n ∷ [] };

    ghost respects_eq = { hashed-alike };

    fn hash<H: Hasher>(&self, state: &mut H) {
        state.write(self.as_bytes());
    }
}
