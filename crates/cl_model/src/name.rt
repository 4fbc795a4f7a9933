//! Names of cores, stimuli, labels, tasks, runnables, chains and requirements.
ghost use Rattle.std.specs.Prelude.{◌≡◌, ◌↔◌, IsSome, IfSome, Some, nat_eq, refl};
ghost use Rattle.std.specs.List.{list_all};
ghost use Rattle.std.specs.Ordering.{nat_cmp};
ghost use Rattle.std.specs.Cmp.{partial_equiv_from_equiv};
ghost use Rattle.std.specs.Cmp.Lexicographic.{pointwise, slice_cmp, nat_list_eq_equiv, nat_list_cmp_total, texts_po, texts_ties};
ghost use Rattle.std.specs.Cmp.Rules.{hashing};
ghost use Rattle.std.specs.Hash as fed;
ghost use Rattle.std.proofs.Common.{rules};
ghost use Rattle.cl_model.specs.Name.{is_name_byte, is_name, IsName};

use crate::copying::TryCopy;
use arrayvec::ArrayString;
use cl_time::NoMemory;
use std::alloc::Global;
use std::cmp::Ordering;
use std::hash::{Hash, Hasher};
use std::marker::Model;
use std::{fmt, str};

/// The most bytes that a name may have.
pub const LONGEST_NAME: usize = 64;

/// A name: 1 to 64 bytes, each an ASCII letter, a digit, `_`, `.` or `-`. Names compare by their
/// bytes.
#[derive(Drop)]
pub struct Name {
    text: ArrayString<LONGEST_NAME>,
}

impl Model for Name {
    ghost use Rattle.std.specs.Prelude.{List, ℕ};
    ghost use Rattle.cl_model.specs.Name.{IsName};

    ghost Value = { List ℕ };

    ghost view = { λ n. n.text.bytes };

    ghost invariant = { λ n. IsName n.text.bytes };
}

fn is_name_byte(byte: u8) -> bool
    ensures { result ≡ is_name_byte byte }
{
    byte.is_ascii_alphanumeric() || byte == b'_' || byte == b'.' || byte == b'-'
}

fn has_name_bytes(word: &[u8]) -> bool
    ensures { result ≡ list_all is_name_byte word.now }
{
    word.iter().all(|byte| is_name_byte(*byte))
}

fn is_name(word: &[u8]) -> bool
    ensures { result ≡ is_name word.now }
{
    !word.is_empty() && word.len() <= LONGEST_NAME && has_name_bytes(word)
}

impl Name {
    /// Makes the name that a word spells, or returns `None` exactly where the word isn't of the
    /// name grammar.
    pub fn read(word: &[u8]) -> Option<Name>
        ensures grammar { IsSome result ↔ IsName word.now }
        ensures bytes { IfSome result (λ name. name ≡ word.now) }
    {
        if !is_name(word) {
            return None;
        }
        let Ok(text) = str::from_utf8(word) else {
            unreachable!();
        };
        Name::of_text(text)
    }

    /// Makes the name that a text spells, or returns `None` exactly where the text isn't of the
    /// name grammar.
    pub fn of_text(text: &str) -> Option<Name>
        ensures grammar { IsSome result ↔ IsName text.now }
        ensures bytes { IfSome result (λ name. name ≡ text.now) }
    {
        if !is_name(text.as_bytes()) {
            return None;
        }
        let Ok(text) = ArrayString::from(text) else {
            unreachable!();
        };
        Some(Name { text })
    }

    /// Returns the bytes of the name, which are of the name grammar.
    pub fn as_slice(&self) -> &[u8]
        ensures bytes { result.now ≡ self.now }
        ensures name { IsName self.now }
    {
        self.text.as_str().as_bytes()
    }

    /// Copies the name. It takes no memory.
    pub fn copy(&self) -> Name
        ensures { result ≡ self.now }
    {
        Name { text: self.text }
    }
}

impl TryCopy for Name {
    fn try_copy(&self, _alloc: Global) -> Result<Name, NoMemory> {
        Ok(self.copy())
    }
}

impl PartialEq for Name {
    ghost eq = { pointwise nat_eq };

    ghost laws = { partial_equiv_from_equiv nat_list_eq_equiv };

    fn eq(&self, other: &Name) -> bool {
        self.text.as_str() == other.text.as_str()
    }
}

impl Eq for Name {
    ghost laws = { nat_list_eq_equiv };
}

impl PartialOrd for Name {
    ghost partial_cmp = { λ a b. Some (slice_cmp nat_cmp a b) };

    ghost laws = { texts_po };

    fn partial_cmp(&self, other: &Name) -> Option<Ordering> {
        Some(self.cmp(other))
    }
}

impl Ord for Name {
    ghost cmp = { slice_cmp nat_cmp };

    ghost total = { nat_list_cmp_total };

    ghost matches_partial_cmp = { λ a b. refl };

    ghost matches_eq = { texts_ties };

    fn cmp(&self, other: &Name) -> Ordering {
        self.as_slice().cmp(other.as_slice())
    }
}

impl Hash for Name {
    ghost hash_input = { λ name. fed.str name };

    ghost respects_eq = { Prim.search (hashing, rules) };

    fn hash<H: Hasher>(&self, state: &mut H) {
        self.text.as_str().hash(state);
    }
}

impl fmt::Display for Name {
    ghost output = { λ name. Some name };

    fn fmt<W: fmt::Write>(&self, f: &mut fmt::Formatter<W>) -> fmt::Result {
        f.pad(self.text.as_str())
    }
}

impl fmt::Debug for Name {
    fn fmt<W: fmt::Write>(&self, f: &mut fmt::Formatter<W>) -> fmt::Result {
        fmt::Debug::fmt(self.text.as_str(), f)
    }
}
