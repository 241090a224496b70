//! Labels that own their octets.
use crate::name_calls::labels::{are_hashed_alike, label};
use dns_name::{LabelFromStrError, OwnedLabel};
use rows::{Answer, Row, RowError};
use std::alloc::Global;

pub fn answer(alloc: Global, row: &mut Row<'_>, out: &mut Answer) -> Result<(), RowError> {
    match row.method() {
        "from_label" => {
            let octets = row.octets(alloc)?;
            let owned = OwnedLabel::from_label(label(octets.as_slice())?);
            out.octets(owned.as_wire_slice())
        }
        "from_chars" => {
            let text = row.text(alloc)?;
            write_owned(OwnedLabel::from_chars(text.chars()), out)
        }
        "from_str" => {
            let text = row.text(alloc)?;
            write_owned(text.parse(), out)
        }
        "make_canonical" => make_canonical(row.value()?, out),
        "to_string" => out.shown(&row.value::<OwnedLabel>()?),
        "cmp" => compare(&row.value()?, &row.value()?, out),
        _ => Err(RowError::UnknownCall),
    }
}

/// Writes the octets of a label after their length, or why there is none.
fn write_owned(
    owned: Result<OwnedLabel, LabelFromStrError>,
    out: &mut Answer,
) -> Result<(), RowError> {
    match owned {
        Ok(owned) => out.octets(owned.as_wire_slice()),
        Err(error) => out.refused(&error),
    }
}

/// Writes the label in lower case, and a copy made before that.
fn make_canonical(mut owned: OwnedLabel, out: &mut Answer) -> Result<(), RowError> {
    let copy = owned;
    owned.make_canonical();
    out.octets(owned.as_label().as_slice())?;
    out.octets(copy.clone()?.as_label().as_slice())
}

/// Writes the order of two labels, and whether they are equal, less, and of the same hash.
fn compare(left: &OwnedLabel, right: &OwnedLabel, out: &mut Answer) -> Result<(), RowError> {
    out.named(&left.cmp(right))?;
    out.shown(&(left == right))?;
    out.shown(&(left < right))?;
    out.shown(&are_hashed_alike(left, right))
}
