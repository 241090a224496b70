//! Why a task failed.
ghost use Rattle.std.specs.Prelude.{◌≡◌};
ghost use Rattle.tool_main.specs.declared.fault.Fault.TheVariants.{OutOfMemory};

use std::alloc::AllocError;
use std::io;
use std::io::ErrorKind;
use zone::ZoneError;
use zone_forms::FormError;

/// Why a task failed.
#[derive(Debug, Drop)]
pub(crate) enum Fault<'a> {
    /// A read of the file failed, for this reason.
    Read(&'a str, io::Error),
    /// A write of the output failed.
    Write,
    /// The file is not the text of a zone.
    Zone(&'a str, ZoneError),
    /// A row of the file is no entry.
    Form(&'a str, FormError),
    /// Out of memory.
    OutOfMemory,
}

impl<'a> Fault<'a> {
    /// Returns why a read of the file failed.
    pub(crate) fn of_read(file: &'a str, error: io::Error) -> Fault<'a> {
        if error.kind() == ErrorKind::OutOfMemory {
            Fault::OutOfMemory
        } else {
            Fault::Read(file, error)
        }
    }

    /// Returns why the text of the file is not rewritten.
    pub(crate) fn of_form(file: &'a str, error: FormError) -> Fault<'a> {
        match error {
            FormError::OutOfMemory => Fault::OutOfMemory,
            error => Fault::Form(file, error),
        }
    }

    /// Returns why the text of the file is not read as a zone.
    pub(crate) fn of_zone(file: &'a str, error: ZoneError) -> Fault<'a> {
        match error {
            ZoneError::OutOfMemory => Fault::OutOfMemory,
            error => Fault::Zone(file, error),
        }
    }
}

impl<'a> From<AllocError> for Fault<'a> {
    ghost from_gives = { λ _ fault. fault ≡ OutOfMemory };

    fn from(_: AllocError) -> Fault<'a> {
        Fault::OutOfMemory
    }
}
