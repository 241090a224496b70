//! The EDNS fields of a message (RFC 6891 6.1).
ghost use Rattle.std.specs.Prelude.{◌≡◌, ◌==◌, ◌⊎◌, ℕ, List, Some, None, Ok, Err, IfSome, IfNone};
ghost use Rattle.dns_octets.specs.declared.error.ParseError.{ParseError};
ghost use Rattle.dns_header.specs.Opt.{EdnsOption, ReadsOptions};
ghost use Rattle.dns_header.specs.OptFields.{opt_fields};
ghost use Rattle.dns_header.specs.Record.{RecordOf};
ghost use Rattle.dns_sections.specs.Firsts.{GivesFirst};
ghost use Rattle.dns_sections.specs.Message.{octets_in};
ghost use Rattle.dns_sections.specs.Options.{HasResponseCode};
ghost use Rattle.dns_sections.specs.declared.section.Section.TheVariants.{Additional};

use crate::Message;
use dns_header::{Opt, OptRecord};
use dns_name::{Octets, OptRcode};

impl<Octs: Octets> Message<Octs> {
    /// Returns the OPT record: the first of the additional section, of any class.
    ///
    /// Returns None if there is none, if its data does not parse, if the header or length of a record before it does
    /// not parse, or if the section cannot be reached.
    pub fn opt(&self) -> Option<OptRecord<&[u8]>>
        ensures some { IfSome result (λ opt. (rr : RecordOf (List (List ℕ)) (List EdnsOption))
            × GivesFirst (λ number. number == 41) ReadsOptions (octets_in Octs.list self.now) Additional (Some (Ok rr))
            × (opt ≡ record { fields = opt_fields rr.class rr.ttl; options = rr.rdata })) }
        ensures none { IfNone result
            (GivesFirst (λ number. number == 41) ReadsOptions (octets_in Octs.list self.now) Additional None
            ⊎ ((error : ParseError) × GivesFirst (λ number. number == 41) ReadsOptions (octets_in Octs.list self.now) Additional
            (Some (Err error)))) }
    {
        let additional = match self.additional() {
            Ok(additional) => additional,
            Err(_) => return None,
        };
        match additional.limit_to::<Opt<&[u8]>>().next() {
            Some(Ok(rr)) => Some(OptRecord::from_record(rr)),
            Some(Err(_)) => None,
            None => None,
        }
    }

    /// Returns the response code. Its high eight bits are in the OPT record, and are zero if `opt` returns None.
    pub fn opt_rcode(&self) -> OptRcode
        ensures { HasResponseCode (octets_in Octs.list self.now) result }
    {
        let header = self.header();
        match self.opt() {
            Some(opt) => opt.rcode(header),
            None => OptRcode::masked_from_int(u16::from(header.rcode().to_int())),
        }
    }
}
