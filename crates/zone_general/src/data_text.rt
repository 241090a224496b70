//! The text that takes the place of a row's data.
ghost use Rattle.std.specs.Prelude.{◌≡◌, ◌++◌, OnOk};
ghost use Rattle.zone_general.specs.DataText.{text_of};

use crate::general_form::append_general_form;
use std::alloc::AllocError;

/// The text of a row's data.
#[derive(Clone, Copy, Debug)]
pub(crate) enum DataText<'t> {
    /// This text.
    Written(&'t [u8]),
    /// The general form of these octets.
    General(&'t [u8]),
}

impl DataText<'_> {
    /// Appends the text.
    ///
    /// Fails if out of memory. It may then have appended a part of it.
    #[inline(always)]
    pub(crate) fn append_to(self, out: &mut Vec<u8>) -> Result<(), AllocError>
        ensures { OnOk result (out.new.items ≡ out.old.items ++ text_of self.entry) }
    {
        match self {
            DataText::Written(text) => out.extend_from_slice(text),
            DataText::General(octets) => append_general_form(octets, out),
        }
    }
}
