//! Scanners that append what they scan to octets.
ghost use Rattle.std.specs.Prelude.{◌≡◌, false, IfErr, OnErr, OnOk};
ghost use Rattle.dns_scan.specs.Token.{SameNames};
ghost use Rattle.dns_entry_scanner.specs.AppendedName.{AppendsName, SpellsNoName};
ghost use Rattle.dns_entry_scanner.specs.AppendedString.{AppendsString, AppendsStrings, AppendsText, SpellsNoOctets, SpellsNoString, SpellsNoStrings};

use dns_scan::Scanner;

/// A scanner that appends the octets of the next token directly, without a value for them.
pub trait WireScanner: Scanner {
    /// Takes the next token, and appends the octets of the name that it spells (RFC 1035 3.1).
    ///
    /// Fails as `scan_name` does, and then appends nothing.
    fn scan_name_into(&mut self, octets: &mut Vec<u8>) -> Result<(), Self::Error>
        ensures ok { OnOk result (AppendsName (Self.names self.old) (Self.tokens self.old) (Self.tokens self.new) octets.old.items octets.new.items) }
        ensures err { IfErr result (λ error. Self.Error.is_short error ≡ false → SpellsNoName (Self.names self.old) (Self.tokens self.old)) }
        ensures names { SameNames (Self.names self.old) (Self.names self.new) }
        ensures same { OnErr result (octets.new.items ≡ octets.old.items) };

    /// Takes the next token, and appends the octets that it spells (RFC 1035 5.1).
    ///
    /// Fails as `scan_octets` does, and then appends nothing.
    fn scan_octets_into(&mut self, octets: &mut Vec<u8>) -> Result<(), Self::Error>
        ensures ok { OnOk result (AppendsText (Self.tokens self.old) (Self.tokens self.new) octets.old.items octets.new.items) }
        ensures err { IfErr result (λ error. Self.Error.is_short error ≡ false → SpellsNoOctets (Self.tokens self.old)) }
        ensures names { SameNames (Self.names self.old) (Self.names self.new) }
        ensures same { OnErr result (octets.new.items ≡ octets.old.items) };

    /// Takes the next token, and appends the character string that it spells, its length first (RFC 1035 3.3).
    ///
    /// Fails as `scan_charstr` does, and then appends nothing.
    fn scan_charstr_into(&mut self, octets: &mut Vec<u8>) -> Result<(), Self::Error>
        ensures ok { OnOk result (AppendsString (Self.tokens self.old) (Self.tokens self.new) octets.old.items octets.new.items) }
        ensures err { IfErr result (λ error. Self.Error.is_short error ≡ false → SpellsNoString (Self.tokens self.old)) }
        ensures names { SameNames (Self.names self.old) (Self.names self.new) }
        ensures same { OnErr result (octets.new.items ≡ octets.old.items) };

    /// Takes all remaining tokens, and appends the character strings that they spell, each after its length octet.
    ///
    /// Fails as `scan_charstr_entry` does, and then appends nothing.
    fn scan_charstr_entry_into(&mut self, octets: &mut Vec<u8>) -> Result<(), Self::Error>
        ensures ok { OnOk result (AppendsStrings (Self.tokens self.old) (Self.tokens self.new) octets.old.items octets.new.items) }
        ensures err { IfErr result (λ error. Self.Error.is_short error ≡ false → SpellsNoStrings (Self.tokens self.old)) }
        ensures names { SameNames (Self.names self.old) (Self.names self.new) }
        ensures same { OnErr result (octets.new.items ≡ octets.old.items) };
}
