//! Names as text (RFC 1035 5.1).
ghost use Rattle.std.specs.Prelude.{◌≡◌, ◌++◌, List, ℕ, Some};
ghost use Rattle.std.specs.Fmt.{DisplaysOnOk};
ghost use Rattle.dns_label.specs.Printed.{printed_name};
ghost use Rattle.dns_wire.specs.Chain.{AreOfName};
ghost use Rattle.dns_flat.specs.PrintedLabels.{printed_behind, printed_relative, printed_seen};

mod plain;

use crate::{Chain, Name, RelativeName, ToName};
use arrayvec::ArrayString;
use dns_octets::Octets;
use dns_wire::{LabelIter, ToLabelIter};
use plain::{PLAIN, ROOM, plain_text, push_name};
use std::fmt;
use std::marker::Model;

/// Shows an absolute name with a dot after each label; the root is a dot.
#[derive(Drop)]
pub struct DisplayWithDot<'a, N: ToName> {
    name: &'a N,
}

impl<'a, N: ToName> Model for DisplayWithDot<'a, N> {
    ghost Value = { List (List ℕ) };

    ghost view = { λ shown. N.name shown.name.now };
}

impl<'a, N: ToName> DisplayWithDot<'a, N> {
    /// Returns what shows the name.
    pub(crate) fn of(name: &'a N) -> Self
        ensures { result ≡ N.name name.now }
    {
        DisplayWithDot { name }
    }
}

impl<N: ToName> fmt::Display for DisplayWithDot<'_, N> {
    ghost output = { λ name. Some (printed_name name) };

    fn fmt<W: fmt::Write>(&self, f: &mut fmt::Formatter<W>) -> fmt::Result {
        if let Some(octets) = self.name.as_flat_slice() {
            let mut text = [PLAIN; ROOM];
            if let Some(text) = plain_text(&mut text, octets) {
                return f.write_str(text);
            }
        }
        write_name(f, self.name)
    }
}

/// Shows the name with a dot after each label; the root is a dot.
impl<Octs: Octets> fmt::Display for Name<Octs> {
    ghost output = { λ name. Some (printed_name name) };

    fn fmt<W: fmt::Write>(&self, f: &mut fmt::Formatter<W>) -> fmt::Result {
        self.fmt_with_dot().fmt(f)
    }
}

/// Shows the name with a dot between two labels; the name without labels is the empty text.
impl<Octs: Octets> fmt::Display for RelativeName<Octs> {
    ghost output = { λ name. Some (printed_relative name) };

    fn fmt<W: fmt::Write>(&self, f: &mut fmt::Formatter<W>) -> fmt::Result {
        let _octets = self.as_slice();
        write_name(f, self)
    }
}

/// Shows the labels with a dot between two, and a last dot if the name is absolute; the root is a dot.
impl<L: ToLabelIter, R: ToLabelIter> fmt::Display for Chain<L, R> {
    ghost use Rattle.dns_flat.specs.ChainParts.{left_of, right_of};

    ghost output = { λ chain. Some (printed_seen (L.labels (left_of chain) ++ R.labels (right_of chain))) };

    fn fmt<W: fmt::Write>(&self, f: &mut fmt::Formatter<W>) -> fmt::Result {
        write_name::<Self, W>(f, self)
    }
}

/// Writes the labels with a dot between two, the root's empty one too; the root alone is a dot.
fn write_name<N: ToLabelIter, W: fmt::Write>(f: &mut fmt::Formatter<W>, name: &N) -> fmt::Result
    ensures text { DisplaysOnOk W.write_str_gives f.old result (Some (printed_seen (N.labels name.now))) f.new }
    ensures are { ∥ AreOfName (N.labels name.now) ∥₁ }
{
    let mut text = ArrayString::new();
    match push_name(&mut text, name) {
        Some(()) => f.write_str(&text),
        None => write_labels(f, name),
    }
}

/// Writes the labels one by one, with a dot between two.
fn write_labels<N: ToLabelIter, W: fmt::Write>(f: &mut fmt::Formatter<W>, name: &N) -> fmt::Result
    ensures { DisplaysOnOk W.write_str_gives f.old result (Some (printed_seen (N.labels name.now))) f.new }
{
    let mut labels = name.iter_labels();
    let Some(first) = labels.next() else {
        return Ok(());
    };
    if first.is_root() {
        return f.write_char('.');
    }
    write!(f, "{first}")?;
    write_behind(f, labels)
}

/// Writes a dot before each label.
fn write_behind<N: ToLabelIter, W: fmt::Write>(
    f: &mut fmt::Formatter<W>,
    labels: LabelIter<'_, N>,
) -> fmt::Result
    ensures { DisplaysOnOk W.write_str_gives f.old result (Some (printed_behind labels.entry)) f.new }
{
    for label in labels {
        write!(f, ".{label}")?;
    }
    Ok(())
}
