//! How the text of a zone is read.
ghost use Rattle.std.specs.Prelude.{◌≡◌};

use dns_name::{Class, Name};

/// The name of standard input, in place of a file's.
pub const STANDARD_INPUT: &str = "-";

/// What the words say of how a zone's text is read.
#[derive(Debug, Drop)]
pub struct Reading {
    /// The origin of relative names in the text.
    pub origin: Option<Name<Vec<u8>>>,
    /// The zone's class.
    pub class: Class,
}

impl Reading {
    /// Returns the origin with borrowed octets.
    pub fn origin_ref(&self) -> Option<Name<&[u8]>>
        ensures { result ≡ self.now.origin }
    {
        match &self.origin {
            Some(name) => Some(name.for_ref()),
            None => None,
        }
    }
}
