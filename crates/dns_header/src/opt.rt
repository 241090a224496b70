//! Data of type OPT: options of EDNS (RFC 6891 6.1.2).
//!
//! ```text
//! code (two octets) | length (two octets) | octets of the option | next option ..
//! ```
ghost use Rattle.std.specs.Prelude.{◌≡◌, ◌≤◌, ◌↔◌, ◌==◌, List, length, IsOk, IfOk, IfErr};
ghost use Rattle.dns_octets.specs.declared.error.ParseError.TheVariants.{ShortInput};
ghost use Rattle.dns_name.specs.Page.Parts.{End, Octets};
ghost use Rattle.dns_header.specs.Opt.{EdnsOption, AreOptions, AreCutOptions, ReadsOptions, options_of, options_octets};

mod header;
mod iter;
mod record;

use dns_name::{
    AppendError, ComposeRecordData, Composer, LongRecordData, Octets, ParseError, ParseRecordData,
    Parser, RecordData, Rtype,
};
pub use header::OptHeader;
pub use iter::OptIter;
use iter::are_options;
pub use record::OptRecord;
use std::marker::Model;

/// Data of an OPT record, kept as its octets.
///
/// Contracts see the list of the options. They have at most 65,535 octets.
#[derive(Debug, Drop)]
pub struct Opt<Octs: Octets> {
    octets: Octs,
}

impl<Octs: Octets> Model for Opt<Octs> {
    ghost Value = { List EdnsOption };

    ghost view = { λ opt. options_of (Octs.list opt.octets) };

    ghost invariant = { λ opt. AreCutOptions (Octs.list opt.octets) × (length (Octs.list opt.octets) ≤ 65535) };
}

impl<Octs: Octets> Opt<Octs> {
    /// Returns the data with these octets.
    ///
    /// Fails with `ShortInput` if they are at most 65,535 octets but not whole options, and with another error if they
    /// are more.
    pub fn from_octets(octets: Octs) -> Result<Self, ParseError>
    where
        Octs: Drop,
        ensures ok { IfOk result (λ opt. Octs.list octets ≡ options_octets opt) }
        ensures are { IsOk result ↔ (AreOptions (Octs.list octets) × (length (Octs.list octets) ≤ 65535)) }
        ensures short { IfErr result (λ error. (error ≡ ShortInput) ↔ (length (Octs.list octets) ≤ 65535)) }
    {
        LongRecordData::check_len(octets.octets().len())?;
        if !are_options(octets.octets()) {
            return Err(ParseError::ShortInput);
        }
        Ok(Opt { octets })
    }

    /// Returns the octets of the options.
    pub fn as_slice(&self) -> &[u8]
        ensures octets { result.now ≡ options_octets self.now }
        ensures short { length (options_octets self.now) ≤ 65535 }
    {
        self.octets.octets()
    }

    /// Iterates over the code and the octets of each option.
    pub fn iter(&self) -> OptIter<'_>
        ensures { result ≡ self.now }
    {
        OptIter::over(self.octets.octets())
    }
}

/// The type is always OPT.
impl<Octs: Octets> RecordData for Opt<Octs> {
    ghost rtype = { λ _. 41 };

    fn rtype(&self) -> Rtype {
        Rtype::OPT
    }
}

/// Writes the octets of the options as they are. This is their canonical form too.
impl<Octs: Octets> ComposeRecordData for Opt<Octs> {
    ghost parts = { λ options. Octets (options_octets options) End };

    ghost canonical_octets = { options_octets };

    fn rdlen(&self, _compress: bool) -> Option<u16> {
        Some(self.as_slice().len() as u16)
    }

    fn compose_rdata<Target: Composer>(&self, target: &mut Target) -> Result<(), AppendError> {
        target.append_slice(self.as_slice())
    }

    fn compose_canonical_rdata<Target: Composer>(
        &self,
        target: &mut Target,
    ) -> Result<(), AppendError> {
        let octets = self.as_slice();
        target.append_slice(octets)
    }
}

/// Parses data of type OPT only.
impl<'a> ParseRecordData<'a> for Opt<&'a [u8]> {
    ghost takes = { λ number. number == 41 };

    ghost reads = { ReadsOptions };

    fn parse_rdata(rtype: Rtype, parser: &mut Parser<'a>) -> Result<Option<Self>, ParseError> {
        if rtype.to_int() != 41 {
            return Ok(None);
        }
        let opt = Opt::from_octets(parser.peek_all())?;
        parser.advance_to_end();
        Ok(Some(opt))
    }
}
