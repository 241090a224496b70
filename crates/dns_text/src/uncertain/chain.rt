//! Uncertain names with a suffix.
ghost use Rattle.std.specs.Prelude.{◌≡◌, ◌↔◌, ◌<◌, ◌+◌, length, Some, IsErr, IfOk, false};
ghost use Rattle.dns_label.specs.Name.{labels_wire};
ghost use Rattle.dns_name.specs.Chain.{before_root};
ghost use Rattle.dns_text.specs.Uncertain.{is_absolute, labels_of, chained_labels};
ghost use Rattle.dns_name.specs.PrintedLabels.{printed_seen};
ghost use Rattle.dns_text.specs.UncertainChain.{labels_in, name_in, rooted_in, StandsIn};

use super::UncertainName;
use dns_name::laws::seen_labels_print_as_their_name;
use dns_name::{Chain, Label, LongChainError, Name, Octets, RelativeName, ToLabelIter, ToName};
use std::alloc::{AllocError, Global};
use std::fmt;

/// An uncertain name with a suffix: an absolute name stays as it is, and a relative one is followed by the suffix.
#[derive(Debug, Drop)]
pub enum UncertainChain<Octs: Octets, R: ToLabelIter>
where
    RelativeName<Octs>: ToLabelIter,
{
    /// The absolute name, without the suffix.
    Absolute(Name<Octs>),
    /// The relative name, followed by the suffix.
    Relative(Chain<RelativeName<Octs>, R>),
}

impl<Octs: Octets> UncertainName<Octs> {
    /// Appends a suffix: an absolute name stays as it is, and the labels of a relative one are followed by those of the
    /// suffix. Fails if these have more than 254 octets before any root.
    pub fn chain<R: ToLabelIter + Drop>(
        self,
        suffix: R,
    ) -> Result<UncertainChain<Octs, R>, LongChainError>
    where
        Octs: Drop,
        ensures ok { IfOk result (λ chain. labels_in R.labels chain ≡ chained_labels self (R.labels suffix)) }
        ensures long { IsErr result ↔ ((is_absolute self ≡ false)
            × (254 < length (labels_wire (labels_of self)) + length (labels_wire (before_root (R.labels suffix))))) }
    {
        match self {
            UncertainName::Absolute(name) => Ok(UncertainChain::Absolute(name)),
            UncertainName::Relative(name) => {
                Ok(UncertainChain::Relative(Chain::new(name, suffix)?))
            }
        }
    }
}

impl<Octs: Octets, R: ToLabelIter> ToLabelIter for UncertainChain<Octs, R> {
    ghost labels = { labels_in R.labels };

    ghost stands = { StandsIn R.labels R.stands };

    fn label(&self, index: usize) -> Option<Label<'_>> {
        match self {
            UncertainChain::Absolute(name) => name.label(index),
            UncertainChain::Relative(chain) => chain.label(index),
        }
    }

    fn compose_len(&self) -> u16 {
        match self {
            UncertainChain::Absolute(name) => name.compose_len(),
            UncertainChain::Relative(chain) => chain.compose_len(),
        }
    }

    fn first_place(&self) -> Option<usize> {
        match self {
            UncertainChain::Absolute(name) => name.first_place(),
            UncertainChain::Relative(chain) => chain.first_place(),
        }
    }

    fn label_at(&self, index: usize, place: Option<usize>) -> Option<(Label<'_>, Option<usize>)> {
        match self {
            UncertainChain::Absolute(name) => name.label_at(index, place),
            UncertainChain::Relative(chain) => chain.label_at(index, place),
        }
    }
}

/// The name is absolute, with or without the suffix.
impl<Octs: Octets, R: ToName> ToName for UncertainChain<Octs, R> {
    ghost name = { name_in R.name };

    ghost is_absolute = { rooted_in R.labels R.name R.is_absolute };

    fn as_flat_slice(&self) -> Option<&[u8]> {
        match self {
            UncertainChain::Absolute(name) => name.as_flat_slice(),
            UncertainChain::Relative(chain) => chain.as_flat_slice(),
        }
    }

    fn to_vec(&self, alloc: Global) -> Result<Name<Vec<u8>>, AllocError> {
        match self {
            UncertainChain::Absolute(name) => name.to_vec(alloc),
            UncertainChain::Relative(chain) => chain.to_vec(alloc),
        }
    }
}

/// Shows the labels with a dot between two, and a last dot if the root's is the last; the root is a dot.
impl<Octs: Octets, R: ToLabelIter> fmt::Display for UncertainChain<Octs, R> {
    ghost output = { λ chain. Some (printed_seen (labels_in R.labels chain)) };

    fn fmt<W: fmt::Write>(&self, f: &mut fmt::Formatter<W>) -> fmt::Result {
        seen_labels_print_as_their_name();
        match self {
            UncertainChain::Absolute(name) => {
                let _octets = name.as_slice();
                name.fmt(f)
            }
            UncertainChain::Relative(chain) => chain.fmt(f),
        }
    }
}
