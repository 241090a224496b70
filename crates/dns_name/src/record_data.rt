//! The data of records (RFC 1035 3.2.1): what all its types have in common.
ghost use Rattle.std.specs.Prelude.{◌≡◌, ◌≤◌, ◌<◌, ◌+◌, ◌++◌, ◌↔◌, ℕ, Bool, true, false, List, Err, length, is_some, IfOk, IfSome, IsNone, OnSome, OnOk, OnErr};
ghost use Rattle.std.specs.Int.{to_be_bytes, w16};
ghost use Rattle.dns_octets.specs.Builder.{GrowsTo, IsWithin, IsPast};
ghost use Rattle.dns_octets.specs.Parser.{octets_of, place_of};
ghost use Rattle.dns_octets.specs.declared.error.AppendError.TheVariants.{ShortBuf, BadLength};
ghost use Rattle.dns_name.specs.Page.{Parts, write};
ghost use Rattle.dns_name.specs.Page.Parts.{End, Counted};
ghost use Rattle.dns_name.specs.RecordData.{page_of, counted_length, IsComposedLength, IsUntold, IsAtEnd};

mod counted;
mod reference;

use crate::Composer;
use counted::{append_canonical_counted, append_counted};
use dns_octets::{AppendError, ParseError, Parser};
use dns_values::Rtype;

/// Data of a record, which has a type.
pub trait RecordData {
    ghost rtype: { Self → ℕ };

    /// Returns the type of the data.
    fn rtype(&self) -> Rtype
        ensures { result ≡ rtype self.now };
}

/// Data that is written into messages.
///
/// `parts` are its octets, and the names that may be written with pointers (RFC 3597 4); `canonical_octets` is its
/// canonical form, with every name in full and in lower case (RFC 4034 6.2).
pub trait ComposeRecordData: RecordData {
    ghost parts: { Self → Parts };

    ghost canonical_octets: { Self → List ℕ };

    /// Returns the number of octets of the data in a message. `compress` says that the target may write names with
    /// pointers. Returns `None` exactly if it may and there is a name to compress, or if the data is more than 65,535
    /// octets with every name in full.
    fn rdlen(&self, compress: bool) -> Option<u16>
        ensures some { IfSome result (λ len. IsComposedLength compress (parts self.now) len) }
        ensures none { IsNone result ↔ IsUntold compress (parts self.now) };

    /// Appends the data, all or nothing. Fails with `ShortBuf` only if the target is too full, and with `OutOfMemory`
    /// only if out of memory.
    fn compose_rdata<Target: Composer>(&self, target: &mut Target) -> Result<(), AppendError>
        ensures ok { OnOk result (page_of (Target.list target.new) (Target.known target.new)
            ≡ write Target.spelling (page_of (Target.list target.old) (Target.known target.old)) (parts self.now)) }
        ensures err { OnErr result ((Target.list target.new ≡ Target.list target.old)
            × (Target.known target.new ≡ Target.known target.old)) }
        ensures grows { GrowsTo (Target.list target.old) (Target.known target.old) (Target.list target.new)
            (Target.known target.new) }
        ensures short { result ≡ Err ShortBuf → IsPast (Target.bound target.old)
            (length (write Target.spelling (page_of (Target.list target.old) (Target.known target.old))
            (parts self.now)).octets) }
        ensures not_bad { result ≡ Err BadLength → ⊥ }
        ensures same_bound { Target.bound target.new ≡ Target.bound target.old }
        ensures stays { Target.stays target.old target.new };

    /// Appends the canonical form of the data, all or nothing. Fails as `compose_rdata` does.
    fn compose_canonical_rdata<Target: Composer>(
        &self,
        target: &mut Target,
    ) -> Result<(), AppendError>
        ensures ok { OnOk result (Target.list target.new ≡ Target.list target.old ++ canonical_octets self.now) }
        ensures err { OnErr result (Target.list target.new ≡ Target.list target.old) }
        ensures known { Target.known target.new ≡ Target.known target.old }
        ensures short { result ≡ Err ShortBuf
            → IsPast (Target.bound target.old) (length (Target.list target.old ++ canonical_octets self.now)) }
        ensures not_bad { result ≡ Err BadLength → ⊥ }
        ensures same_bound { Target.bound target.new ≡ Target.bound target.old }
        ensures stays { Target.stays target.old target.new };

    /// Appends the data after two octets that count it, all or nothing. Fails as `compose_rdata` does, and with
    /// `BadLength` only if more than 65,535 octets would have to be counted.
    final fn compose_len_rdata<Target: Composer>(
        &self,
        target: &mut Target,
    ) -> Result<(), AppendError>
        ensures ok { OnOk result (page_of (Target.list target.new) (Target.known target.new)
            ≡ write Target.spelling (page_of (Target.list target.old) (Target.known target.old))
            (Counted (parts self.now) End)) }
        ensures counts { OnOk result (counted_length Target.spelling (page_of (Target.list target.old)
            (Target.known target.old)) (parts self.now) ≤ 65535) }
        ensures err { OnErr result ((Target.list target.new ≡ Target.list target.old)
            × (Target.known target.new ≡ Target.known target.old)) }
        ensures grows { GrowsTo (Target.list target.old) (Target.known target.old) (Target.list target.new)
            (Target.known target.new) }
        ensures short { result ≡ Err ShortBuf → IsPast (Target.bound target.old)
            (length (write Target.spelling (page_of (Target.list target.old) (Target.known target.old))
            (Counted (parts self.now) End)).octets) }
        ensures bad { result ≡ Err BadLength
            → 65535 < counted_length Target.spelling (page_of (Target.list target.old)
            (Target.known target.old)) (parts self.now) }
        ensures same_bound { Target.bound target.new ≡ Target.bound target.old }
        ensures stays { Target.stays target.old target.new }
    {
        let len = target.octets().len();
        match append_counted(self, target) {
            Ok(()) => Ok(()),
            Err(error) => {
                target.truncate(len);
                Err(error)
            }
        }
    }

    /// Appends the canonical form of the data after two octets that count it, all or nothing. Fails as
    /// `compose_len_rdata` does.
    final fn compose_canonical_len_rdata<Target: Composer>(
        &self,
        target: &mut Target,
    ) -> Result<(), AppendError>
        ensures ok { OnOk result (Target.list target.new
            ≡ Target.list target.old ++ (to_be_bytes w16 (length (canonical_octets self.now))
            ++ canonical_octets self.now)) }
        ensures counts { OnOk result (length (canonical_octets self.now) ≤ 65535) }
        ensures err { OnErr result (Target.list target.new ≡ Target.list target.old) }
        ensures known { Target.known target.new ≡ Target.known target.old }
        ensures short { result ≡ Err ShortBuf → IsPast (Target.bound target.old)
            (length (Target.list target.old) + 2 + length (canonical_octets self.now)) }
        ensures bad { result ≡ Err BadLength → 65535 < length (canonical_octets self.now) }
        ensures same_bound { Target.bound target.new ≡ Target.bound target.old }
        ensures stays { Target.stays target.old target.new }
    {
        let before = target.octets().len();
        match append_canonical_counted(self, target) {
            Ok(()) => Ok(()),
            Err(error) => {
                target.truncate(before);
                Err(error)
            }
        }
    }
}

/// Data of some types that is parsed from a message.
///
/// `takes` says which types, and `reads` relates the octets of a message, the place where the data begins, and its type
/// to the data that ends with these octets.
pub trait ParseRecordData<'a>: RecordData + Sized {
    ghost takes: { ℕ → Bool };

    ghost reads: { List ℕ → ℕ → ℕ → Self → Type 0 };

    /// Parses the data of a type up to the end of the parser, or returns `None` if it takes no such type. Fails if what
    /// is left is no data of the type. If it returns no data, the parser stays where it is.
    fn parse_rdata(rtype: Rtype, parser: &mut Parser<'a>) -> Result<Option<Self>, ParseError>
        ensures taken { IfOk result (λ found. is_some found ≡ takes rtype) }
        ensures ok { IfOk result (λ found. IfSome found (λ rdata. reads (octets_of parser.old)
            (place_of parser.old) rtype rdata)) }
        ensures of_type { IfOk result (λ found. IfSome found (λ rdata. Self.rtype rdata ≡ rtype)) }
        ensures end { IfOk result (λ found. OnSome found (IsAtEnd parser.old parser.new)) }
        ensures none { IfOk result (λ found. takes rtype ≡ false → parser.new ≡ parser.old) }
        ensures refused { OnErr result (takes rtype ≡ true) }
        ensures no_data { OnErr result ((rdata : Self)
            → reads (octets_of parser.old) (place_of parser.old) rtype rdata → ⊥) }
        ensures err { OnErr result (parser.new ≡ parser.old) };
}

/// Data of any type that is parsed from a message; `reads_any` is like `reads` of `ParseRecordData`.
pub trait ParseAnyRecordData<'a>: RecordData + Sized {
    ghost reads_any: { List ℕ → ℕ → ℕ → Self → Type 0 };

    /// Parses the data of a type up to the end of the parser. Fails if what is left is no data of the type. The parser
    /// then stays where it is.
    fn parse_any_rdata(rtype: Rtype, parser: &mut Parser<'a>) -> Result<Self, ParseError>
        ensures ok { IfOk result (λ rdata. reads_any (octets_of parser.old) (place_of parser.old) rtype rdata) }
        ensures of_type { IfOk result (λ rdata. Self.rtype rdata ≡ rtype) }
        ensures end { OnOk result (IsAtEnd parser.old parser.new) }
        ensures no_data { OnErr result ((rdata : Self)
            → reads_any (octets_of parser.old) (place_of parser.old) rtype rdata → ⊥) }
        ensures err { OnErr result (parser.new ≡ parser.old) };
}
