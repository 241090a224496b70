//! Names made lower case in place (RFC 4034 6.2).
ghost use Rattle.std.specs.Prelude.{◌≡◌};
ghost use Rattle.dns_label.specs.Name.{low};

use super::Name;
use arrayvec::ArrayVec;

impl Name<Vec<u8>> {
    /// Changes the ASCII letters to lower case.
    pub fn make_canonical(&mut self)
        ensures { self.new ≡ low self.old }
    {
        self.octets.as_mut_slice().make_ascii_lowercase();
    }
}

impl<const N: usize> Name<ArrayVec<u8, N>> {
    /// Changes the ASCII letters to lower case.
    pub fn make_canonical(&mut self)
        ensures { self.new ≡ low self.old }
    {
        let octets = self.octets.as_mut_slice();
        octets.make_ascii_lowercase();
    }
}
