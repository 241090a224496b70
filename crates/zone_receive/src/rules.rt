//! The rules that the records of a transfer keep, one after another.
ghost use Rattle.std.specs.Prelude.{◌≡◌, ◌+◌, ◌↔◌, [], ℕ, List, false, length, IsTrue, IfOk, IfErr, OnOk};
ghost use Rattle.std.specs.List.{AllByRecursion, push};
ghost use Rattle.zone_records.specs.Record as spec;
ghost use Rattle.zone_receive.specs.Asked.{asked_of};
ghost use Rattle.zone_records.specs.Records.{IsRecordOf};
ghost use Rattle.dns_message.specs.Record.{ReadsRecord};
ghost use Rattle.zone_receive.specs.Receiving.{IsRecordFault, KeepsFirstRule};
ghost use Rattle.zone_receive.specs.FrameBuffer.{HoldsFront, IsNext, HasRole};

use crate::error::ReceiveError;
use crate::owned_query::OwnedQuery;
use zone_records::checks::is_spellable;
use zone_records::octets::are_octets;
use zone_records::record::Record;
use zone_records::record_data::is_same_soa;
use zone_records::record_list::RecordList;

/// What a record is in a transfer.
#[derive(Clone, Copy, Debug, PartialEq, Eq)]
pub(crate) enum RecordRole {
    /// A record of the zone.
    Inner,
    /// The SOA again, which ends the transfer.
    Last,
}

/// Checks the last of these records, which has this number in the transfer, against the rules. `closed` says whether
/// the last SOA came between it and the records before it. Fails with the first rule that the record breaks.
pub(crate) fn judge_record(
    query: &OwnedQuery,
    records: &RecordList,
    closed: bool,
    number: usize,
) -> Result<RecordRole, ReceiveError>
    requires { IsNext (asked_of query.now) records.now closed number }
    ensures ok { IfOk result (λ role. (held : List spec.Record) (r : spec.Record) → records.now ≡ push held r
        → HasRole (asked_of query.now) held r role) }
    ensures known { OnOk result (AllByRecursion (IsRecordOf query.now.class) records.now) }
    ensures open { OnOk result (closed ≡ false) }
    ensures err { IfErr result (λ error. (held front : List spec.Record) (r : spec.Record) (message : List ℕ) (place end : ℕ)
        → records.now ≡ push held r → HoldsFront (asked_of query.now) held closed front → number ≡ length front + 1
        → ReadsRecord message place r end → IsRecordFault (asked_of query.now) front message place error) }
{
    let last = records.len() - 1;
    let octets = records.octets_at(last);
    are_octets(octets);
    let next = Record::from_octets(octets);
    if last == 0 && !is_first_soa(query, &next) {
        return Err(ReceiveError::FirstNotSoa);
    }
    if next.class() != query.class {
        return Err(ReceiveError::Class(number));
    }
    if !next.is_under(&query.name) {
        return Err(ReceiveError::OutOfZone(number));
    }
    let role = if last == 0 || !next.is_soa() {
        RecordRole::Inner
    } else {
        if !is_same_soa(&records.record_at(0), &next) {
            return Err(ReceiveError::SoaDiffers(number));
        }
        RecordRole::Last
    };
    if closed {
        return Err(ReceiveError::AfterLast(number));
    }
    if !is_spellable(&next) {
        return Err(ReceiveError::Unspellable(number));
    }
    Ok(role)
}

/// Returns whether a record is an SOA of the query's name.
fn is_first_soa(query: &OwnedQuery, next: &Record<'_>) -> bool
    ensures { IsTrue result ↔ KeepsFirstRule (asked_of query.now) [] next.now }
{
    next.is_soa() && next.is_at(&query.name)
}
