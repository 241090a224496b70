//! The arguments that `let` lines name.
use crate::RowError;
use crate::words::{Value, Words};
use std::alloc::Global;

/// An argument and its name.
#[derive(Drop)]
struct Named {
    name: String,
    value: Value,
}

/// The arguments that the `let` lines so far name.
#[derive(Drop)]
pub(crate) struct Names {
    named: Vec<Named>,
}

impl Names {
    /// Returns no names.
    pub(crate) fn new(alloc: Global) -> Self {
        Names {
            named: Vec::new(alloc),
        }
    }

    /// Adds the name of `NAME = ARGUMENT`. Fails if an earlier line gives that name, or if this is no name or argument.
    pub(crate) fn add(&mut self, alloc: Global, line: &str) -> Result<(), RowError> {
        let Some((name, argument)) = line.split_once(" = ") else {
            return Err(RowError::BadLet);
        };
        if !is_name(name) || argument.is_empty() {
            return Err(RowError::BadLet);
        }
        if self.find(name).is_some() {
            return Err(RowError::NamedTwice);
        }
        let value = Words::read(alloc, self, argument)?.into_value()?;
        let name = String::from_str(alloc, name)?;
        self.named.push(Named { name, value })?;
        Ok(())
    }

    /// Returns the argument of a name.
    pub(crate) fn find(&self, name: &str) -> Option<&Value> {
        let named = self.named.iter().find(|it| it.name.as_str() == name)?;
        Some(&named.value)
    }
}

/// Returns the name and what follows it of a piece `$NAME` or `$NAME*TIMES`. Returns None if the piece is another.
pub(crate) fn split_name(piece: &str) -> Option<(&str, &str)> {
    let rest = piece.strip_prefix('$')?;
    let end = rest.find('*').unwrap_or(rest.len());
    let (name, times) = rest.split_at_checked(end)?;
    if is_name(name) {
        Some((name, times))
    } else {
        None
    }
}

/// Returns whether a text is a name: one or more ASCII letters, digits and `_`.
fn is_name(text: &str) -> bool {
    !text.is_empty()
        && text
            .bytes()
            .all(|it| it.is_ascii_alphanumeric() || it == b'_')
}
