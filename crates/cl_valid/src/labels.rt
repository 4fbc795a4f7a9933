//! The labels of a runnable, in order, among which one is found fast.
ghost use Rattle.std.specs.Prelude.{◌≡◌};
ghost use Rattle.cl_model.specs.Named.{has_name};

use cl_model::{Name, NameSet};
use std::alloc::Global;
use std::marker::Model;

/// Labels in order. Few labels stay in the list that they come in, since a search through it is
/// faster than making a set, and many are put into a set. One of the two is empty.
#[derive(Drop)]
pub struct Labels<'a> {
    few: &'a [Name],
    many: NameSet,
}

impl<'a> Model for Labels<'a> {
    ghost use Rattle.std.specs.Prelude.{List, ℕ, ◌++◌};

    ghost Value = { List (List ℕ) };

    ghost view = { λ labels. labels.few.now ++ labels.many };
}

/// Whether a label is in a list.
fn is_in_list(labels: &[Name], label: &Name) -> bool
    ensures { result ≡ has_name label.now labels.now }
{
    labels.contains(label)
}

impl<'a> Labels<'a> {
    /// Takes few labels, which stay in their list.
    pub fn few(alloc: Global, few: &'a [Name]) -> Labels<'a>
        ensures { result ≡ few.now }
    {
        let many = NameSet::new(alloc);
        Labels { few, many }
    }

    /// Takes a set of many labels.
    pub fn many(many: NameSet) -> Labels<'a>
        ensures { result ≡ many }
    {
        Labels { few: &[], many }
    }

    /// Whether a label is among them.
    #[tactic(auto, using(crate::proofs::FewOrMany::in_either))]
    pub fn contains(&self, label: &Name) -> bool
        ensures { result ≡ has_name label.now self.now }
    {
        is_in_list(self.few, label) || self.many.contains(label)
    }
}
