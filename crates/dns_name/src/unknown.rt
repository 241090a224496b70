//! Data of a record of any type, as its octets (RFC 3597 3).
ghost use Rattle.std.specs.Prelude.{◌≡◌, ◌≤◌, ◌++◌, ◌↔◌, true, length, Some, None, Err, IsOk, IfOk, IfErr};
ghost use Rattle.dns_octets.specs.declared.error.AppendError.TheVariants.{ShortBuf, BadLength};
ghost use Rattle.std.proofs.Common.{rules};
ghost use Rattle.std.specs.Cmp.{partial_order_from_own_ties};
ghost use Rattle.std.specs.Cmp.Rules.{comparing, hashing};
ghost use Rattle.std.specs.Hash as fed;
ghost use Rattle.std.specs.Ordering.{as_partial_cmp};
ghost use Rattle.dns_name.specs.Page.Parts.{End, Octets};
ghost use Rattle.dns_name.specs.Unknown.{UnknownData, unknown_eq, unknown_cmp, IsUnknownAt};

mod flatten;
mod show;

use crate::{
    ComposeRecordData, Composer, LongRecordData, ParseAnyRecordData, ParseRecordData, RecordData,
};
use arrayvec::ArrayVec;
use dns_octets::{AppendError, Octets, OctetsFrom, ParseError, Parser};
use dns_values::{CanonicalOrd, Rtype};
use std::alloc::Global;
use std::cmp::Ordering;
use std::hash::{Hash, Hasher};
use std::marker::Model;

/// Unknown data of a type: at most 65,535 octets, whatever they mean.
///
/// A contract sees it as the number of its type and its octets.
#[derive(Debug, Drop)]
pub struct UnknownRecordData<Octs: Octets> {
    rtype: Rtype,
    octets: Octs,
}

impl<Octs: Octets> Model for UnknownRecordData<Octs> {
    ghost Value = { UnknownData };

    ghost view = { λ rdata. record { number = rdata.rtype; octets = Octs.list rdata.octets } };

    ghost invariant = { λ rdata. length (Octs.list rdata.octets) ≤ 65535 };
}

impl<Octs: Octets> UnknownRecordData<Octs> {
    /// Makes data of the type of these octets. Fails if there are more than 65,535.
    pub fn from_octets(rtype: Rtype, octets: Octs) -> Result<Self, LongRecordData>
    where
        Octs: Drop,
        ensures ok { IfOk result (λ rdata. rdata ≡ record { number = rtype; octets = Octs.list octets }) }
        ensures short { IsOk result ↔ (length (Octs.list octets) ≤ 65535) }
    {
        LongRecordData::check_len(octets.octets().len())?;
        Ok(UnknownRecordData { rtype, octets })
    }

    /// Returns the type.
    pub fn rtype(&self) -> Rtype
        ensures { result ≡ self.now.number }
    {
        let UnknownRecordData { rtype, .. } = self;
        *rtype
    }

    /// Returns what holds the octets.
    pub fn data(&self) -> &Octs
        ensures octets { Octs.list result.now ≡ self.now.octets }
        ensures short { length self.now.octets ≤ 65535 }
    {
        &self.octets
    }
}

impl<Octs: Octets> RecordData for UnknownRecordData<Octs> {
    ghost rtype = { λ rdata. rdata.number };

    fn rtype(&self) -> Rtype {
        UnknownRecordData::rtype(self)
    }
}

/// Writes the octets as they are; this is their canonical form too.
impl<Octs: Octets> ComposeRecordData for UnknownRecordData<Octs> {
    ghost parts = { λ rdata. Octets rdata.octets End };

    ghost canonical_octets = { λ rdata. rdata.octets };

    fn rdlen(&self, _compress: bool) -> Option<u16> {
        Some(self.octets.octets().len() as u16)
    }

    fn compose_rdata<Target: Composer>(&self, target: &mut Target) -> Result<(), AppendError> {
        target.append_slice(self.octets.octets())
    }

    fn compose_canonical_rdata<Target: Composer>(
        &self,
        target: &mut Target,
    ) -> Result<(), AppendError> {
        let octets = self.octets.octets();
        target.append_slice(octets)
    }
}

/// Takes all that is left in the parser, of any type. Fails if there are more than 65,535 octets.
impl<'a> ParseAnyRecordData<'a> for UnknownRecordData<&'a [u8]> {
    ghost reads_any = { IsUnknownAt };

    fn parse_any_rdata(rtype: Rtype, parser: &mut Parser<'a>) -> Result<Self, ParseError> {
        let rdata = UnknownRecordData::from_octets(rtype, parser.peek_all())?;
        parser.advance_to_end();
        Ok(rdata)
    }
}

/// Takes every type.
impl<'a> ParseRecordData<'a> for UnknownRecordData<&'a [u8]> {
    ghost takes = { λ _. true };

    ghost reads = { IsUnknownAt };

    fn parse_rdata(rtype: Rtype, parser: &mut Parser<'a>) -> Result<Option<Self>, ParseError> {
        Ok(Some(UnknownRecordData::parse_any_rdata(rtype, parser)?))
    }
}

/// Copies the data to a vector. Fails if out of memory.
impl<S: Octets + Drop> OctetsFrom<UnknownRecordData<S>> for UnknownRecordData<Vec<u8>> {
    ghost octets_from_gives = { λ source result. IfOk result (λ rdata. rdata ≡ source)
        × (result ≡ Err ShortBuf → ⊥)
        × (result ≡ Err BadLength → ⊥) };

    fn try_octets_from(alloc: Global, source: UnknownRecordData<S>) -> Result<Self, AppendError> {
        let octets = Vec::try_octets_from(alloc, source.octets.octets())?;
        Ok(UnknownRecordData {
            rtype: source.rtype,
            octets,
        })
    }
}

/// Copies the data to an array. Fails if it has no room.
impl<S: Octets + Drop, const N: usize> OctetsFrom<UnknownRecordData<S>>
    for UnknownRecordData<ArrayVec<u8, N>> {
    ghost octets_from_gives = { λ source result. IfOk result (λ rdata. rdata ≡ source)
        × (IsOk result ↔ (length source.octets ≤ N))
        × IfErr result (λ error. error ≡ ShortBuf) };

    fn try_octets_from(alloc: Global, source: UnknownRecordData<S>) -> Result<Self, AppendError> {
        let octets = ArrayVec::try_octets_from(alloc, source.octets.octets())?;
        Ok(UnknownRecordData {
            rtype: source.rtype,
            octets,
        })
    }
}

impl<Octs: Octets> PartialEq for UnknownRecordData<Octs> {
    ghost eq = { unknown_eq };

    ghost laws = { Prim.search (comparing, rules) };

    fn eq(&self, other: &Self) -> bool {
        self.rtype == other.rtype && self.octets.octets() == other.octets.octets()
    }
}

impl<Octs: Octets> Eq for UnknownRecordData<Octs> {
    ghost laws = { Prim.search (comparing, rules) };
}

/// Compares the numbers of the types, and then the octets.
impl<Octs: Octets> Ord for UnknownRecordData<Octs> {
    ghost cmp = { unknown_cmp };

    ghost total = { Prim.search (comparing, rules) };

    ghost matches_partial_cmp = { Prim.search (comparing, rules) };

    ghost matches_eq = { Prim.search (comparing, rules) };

    fn cmp(&self, other: &Self) -> Ordering {
        self.rtype
            .cmp(&other.rtype)
            .then(self.octets.octets().cmp(other.octets.octets()))
    }
}

impl<Octs: Octets> PartialOrd for UnknownRecordData<Octs> {
    ghost partial_cmp = { as_partial_cmp unknown_cmp };

    ghost laws = { partial_order_from_own_ties (Prim.search (comparing, rules)) (Prim.search (comparing, rules)) };

    fn partial_cmp(&self, other: &Self) -> Option<Ordering> {
        Some(self.cmp(other))
    }
}

/// The same as `Ord`.
impl<Octs: Octets> CanonicalOrd for UnknownRecordData<Octs> {
    ghost canonical = { unknown_cmp };

    fn canonical_cmp(&self, other: &Self) -> Ordering {
        self.cmp(other)
    }
}

impl<Octs: Octets> Hash for UnknownRecordData<Octs> {
    ghost hash_input = { λ rdata. fed.u16 rdata.number ++ fed.slice fed.u8 rdata.octets };

    ghost respects_eq = { Prim.search (hashing, rules) };

    fn hash<H: Hasher>(&self, state: &mut H) {
        self.rtype.to_int().hash(state);
        self.octets.octets().hash(state);
    }
}
