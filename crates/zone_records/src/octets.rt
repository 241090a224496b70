//! What the type of a slice of octets says.
ghost use Rattle.dns_label.specs.Octets.{AreOctets};

/// Does nothing. It tells the proof what the type guarantees: that each of these is an octet.
pub fn are_octets(_octets: &[u8])
    ensures { AreOctets _octets.now }
{}
