//! Chains: two names in a row, seen as one.
ghost use Rattle.std.specs.Prelude.{◌≡◌, ◌+◌, ◌≤◌, ◌<◌, ◌↔◌, ◌++◌, List, ℕ, length, IsErr, IfOk};
ghost use Rattle.dns_label.specs.Name.{IsName, labels_wire};
ghost use Rattle.dns_wire.specs.Chain.{AreOfName, before_root, StandsInOne};

mod ends;

use crate::ToRelativeName;
use dns_label::Label;
use dns_wire::ToLabelIter;
use dns_wire::compare::count_labels;
use thiserror::Error;

/// The two names have more than 254 octets before any root.
#[derive(Clone, Copy, Debug, PartialEq, Eq, Error)]
#[error("long domain name")]
pub struct LongChainError;

/// The labels of a relative name, followed by those of another name, absolute or relative.
#[derive(Debug, Drop)]
pub struct Chain<L: ToLabelIter, R: ToLabelIter> {
    left: L,
    right: R,
    /// The number of labels of the first name.
    count: usize,
    ghost counted: { count ≡ length (L.labels left) },
    ghost are: { ∥ AreOfName (L.labels left ++ R.labels right) ∥₁ },
    ghost few: { length (L.labels left) + length (R.labels right) ≤ 128 },
    ghost short: { length (labels_wire (L.labels left)) + length (labels_wire (R.labels right)) ≤ 255 },
}

impl<L: ToLabelIter, R: ToLabelIter> Chain<L, R> {
    ghost use Rattle.dns_flat.specs.ChainParts.{left_of, right_of};

    /// Chains the two names. Fails if they have more than 254 octets before any root.
    pub fn new(left: L, right: R) -> Result<Self, LongChainError>
    where
        L: ToRelativeName + Drop,
        R: Drop,
        ensures ok { IfOk result (λ chain. (left_of chain ≡ left) × (right_of chain ≡ right)) }
        ensures long { IsErr result ↔ (254 < length (labels_wire (L.labels left)) + length (labels_wire (before_root (R.labels right)))) }
    {
        let len = relative_len(&left) + len_before_root(&right);
        if len > 254 {
            return Err(LongChainError);
        }
        let count = count_labels(&left);
        Ok(Chain { left, right, count })
    }

    /// Returns the two names.
    pub fn unwrap(self) -> (L, R)
        ensures { (result.0 ≡ left_of self) × (result.1 ≡ right_of self) }
    {
        let Chain { left, right, .. } = self;
        (left, right)
    }
}

/// Returns the number of octets of the relative name.
fn relative_len<N: ToRelativeName>(name: &N) -> usize
    ensures len { result ≡ length (labels_wire (N.labels name.now)) }
    ensures name { IsName (N.labels name.now) }
{
    match name.as_flat_slice() {
        Some(octets) => octets.len(),
        None => usize::from(name.compose_len()),
    }
}

/// Returns the number of octets of the labels before the root's.
fn len_before_root<N: ToLabelIter>(name: &N) -> usize
    ensures len { result ≡ length (labels_wire (before_root (N.labels name.now))) }
    ensures short { result ≤ 255 }
    ensures are { ∥ AreOfName (N.labels name.now) ∥₁ }
{
    let mut len = 0usize;
    for label in name.iter_labels() {
        if label.is_root() {
            break;
        }
        len += label.len() + 1;
    }
    len
}

impl<L: ToLabelIter, R: ToLabelIter> ToLabelIter for Chain<L, R> {
    ghost use Rattle.dns_flat.specs.ChainParts.{left_of, right_of};

    ghost labels = { λ chain. L.labels (left_of chain) ++ R.labels (right_of chain) };

    ghost stands = { λ chain index place.
        StandsInOne (L.stands (left_of chain)) (R.stands (right_of chain)) (length (L.labels (left_of chain))) index place };

    fn label(&self, index: usize) -> Option<Label<'_>> {
        match index.checked_sub(self.count) {
            None => self.left.label(index),
            Some(behind) => self.right.label(behind),
        }
    }

    fn compose_len(&self) -> u16 {
        self.left.compose_len() + self.right.compose_len()
    }

    fn first_place(&self) -> Option<usize> {
        if self.count == 0 {
            self.right.first_place()
        } else {
            self.left.first_place()
        }
    }

    fn label_at(&self, index: usize, place: Option<usize>) -> Option<(Label<'_>, Option<usize>)> {
        if let Some(behind) = index.checked_sub(self.count) {
            return self.right.label_at(behind, place);
        }
        let (label, next) = self.left.label_at(index, place)?;
        if index + 1 == self.count {
            return Some((label, self.right.first_place()));
        }
        Some((label, next))
    }
}
