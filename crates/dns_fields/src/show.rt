//! Fields and rows that are printed.
ghost use Rattle.std.specs.Prelude.{◌≡◌, drop, IfOk, OnOk};
ghost use Rattle.dns_text.specs.Documents.{block_of};
ghost use Rattle.dns_text.specs.Writing.{Adds};
ghost use Rattle.dns_fields.specs.Shown.{field_pieces, commented, data_pieces};
ghost use Rattle.dns_fields.specs.Comments.{texts, first_comment};

mod comments;
mod dotted;
mod leaves;
mod rests;

use crate::{HasField, HasFields, Last, LastValue};
use comments::comments_of;
use dns_text::Formatter;
use std::fmt;

/// A field that is printed.
pub trait ShowField: HasField {
    /// Writes the tokens of the field. An error is one of the formatter.
    fn show_field<F: Formatter>(&self, formatter: &mut F) -> fmt::Result
        ensures { OnOk result (Adds F.writes formatter.old (field_pieces (Self.field self.now)) formatter.new) };
}

/// A last field that is printed.
pub trait ShowLast: LastValue {
    /// Writes the tokens of the field. An error is one of the formatter.
    fn show_last<F: Formatter>(&self, formatter: &mut F) -> fmt::Result
        ensures { OnOk result (Adds F.writes formatter.old (field_pieces (Self.field self.now)) formatter.new) };
}

/// A row that is printed.
pub trait ShowRow: HasFields {
    /// Writes the tokens of the fields, and each comment after the field at its place. An error is one of the formatter.
    fn show_fields<F: Formatter>(
        &self,
        comments: &[Option<&'static str>],
        formatter: &mut F,
    ) -> fmt::Result
        ensures { OnOk result (Adds F.writes formatter.old (commented (texts comments.now) (Self.fields self.now))
            formatter.new) };
}

impl ShowRow for () {
    fn show_fields<F: Formatter>(
        &self,
        comments: &[Option<&'static str>],
        formatter: &mut F,
    ) -> fmt::Result {
        Ok(())
    }
}

impl<A: ShowField, B: ShowRow> ShowRow for (A, B) {
    fn show_fields<F: Formatter>(
        &self,
        comments: &[Option<&'static str>],
        formatter: &mut F,
    ) -> fmt::Result {
        let (first, others) = self;
        first.show_field(formatter)?;
        let comments = show_comment(comments, formatter)?;
        others.show_fields(comments, formatter)
    }
}

impl<V: ShowLast> ShowRow for Last<V> {
    fn show_fields<F: Formatter>(
        &self,
        comments: &[Option<&'static str>],
        formatter: &mut F,
    ) -> fmt::Result {
        self.0.show_last(formatter)?;
        show_comment(comments, formatter)?;
        Ok(())
    }
}

/// Writes the first comment, if there is one, and returns the comments after it. An error is one of the formatter.
fn show_comment<'a, F: Formatter>(
    comments: &'a [Option<&'static str>],
    formatter: &mut F,
) -> Result<&'a [Option<&'static str>], fmt::Error>
    ensures shown { OnOk result (Adds F.writes formatter.old (first_comment (texts comments.now)) formatter.new) }
    ensures others { IfOk result (λ others. texts others.now ≡ drop 1 (texts comments.now)) }
{
    let Some((first, others)) = comments.split_first() else {
        return Ok(comments);
    };
    if let Some(comment) = *first {
        formatter.write_comment(comment)?;
    }
    Ok(others)
}

/// Writes the row of a type as a block, with the comments of the type. An error is one of the formatter.
pub fn show_row<R: ShowRow, F: Formatter>(rtype: u16, row: &R, formatter: &mut F) -> fmt::Result
    ensures { OnOk result (Adds F.writes formatter.old (block_of (data_pieces rtype (R.fields row.now))) formatter.new) }
{
    formatter.block(
        |inner: &mut F| -> fmt::Result
            ensures { OnOk result (Adds F.writes inner.old (data_pieces rtype (R.fields row.entry.now)) inner.new) }
        { row.show_fields(comments_of(rtype), inner) },
    )
}
