//! Laws of streams that are sent with every name written out, and of the zones and queries for which they are sent.

ghost use Rattle.std.specs.Prelude.{◌≡◌, ◌<◌, ◌≤◌, ◌^◌, ℕ, List, length};
ghost use Rattle.zone_records.specs.Record.{Record};
ghost use Rattle.zone_records.specs.Records.{AreOctets, AreRecordsOf, AreSendable};
ghost use Rattle.zone_core.specs.Cutting.{Fits, IsFullCut, IsBlocked, Grows};
ghost use Rattle.zone_core.specs.Query.{AxfrQuery, IsQuery};
ghost use Rattle.zone_core.specs.Transfer.{IsTransfer, IsExactTransfer};
ghost use Rattle.zone_send.specs.Sent.{AsksFor, IsQueryFor, IsSent, size};
ghost use Rattle.zone.specs.View.{apex_of};

/// The records of a `Zone` satisfy what the laws of sending require, and so does a query that `check_query` parses and
/// that has the name and class of the zone.
pub fn zones_can_be_sent()
    ensures sendable { (class : ℕ) (records : List Record) → AreRecordsOf class records → AreSendable class records }
    ensures asked { (query : AxfrQuery) (class : ℕ) (records : List Record) (octets : List ℕ) → AreOctets octets → IsQuery octets query →
        AsksFor query (apex_of records) class → AreRecordsOf class records → IsQueryFor records class query }
{}

/// What is sent for a zone and a query that asks for it, with every name written out, is a transfer that answers the
/// query, of the same records: their octets equal those of the zone, names included, and so do those of the last SOA.
/// Each message is short enough for its length field.
pub fn sent_is_a_transfer()
    ensures { (records : List Record) (class : ℕ) (query : AxfrQuery) (max : ℕ) (stream : List ℕ) →
        max < 2 ^ 16 → AreSendable class records → IsQueryFor records class query →
        IsSent records query max stream → IsExactTransfer query stream records }
{}

/// What is sent for a zone with every name written out, and received as a transfer, is received as the zone's records.
/// What is sent for these in the same way is the same stream again: the same messages, with the same SOA at the end.
pub fn received_is_sent_again()
    ensures { (records others : List Record) (class : ℕ) (query : AxfrQuery) (max : ℕ) (stream : List ℕ) →
        max < 2 ^ 16 → AreSendable class records → IsQueryFor records class query →
        IsSent records query max stream → IsTransfer query stream others →
        (records ≡ others) × IsSent others query max stream }
{}

/// If names are written out, a message is no shorter than one with a part of its records, whatever the query. So a full
/// cut has the fewest groups of all cuttings that fit, and if a record is blocked, no cutting fits.
pub fn plain_full_cut_is_fewest()
    ensures grows { (query : AxfrQuery) → Grows (size query) }
    ensures fewest { (query : AxfrQuery) (max : ℕ) (records : List Record) (full others : List (List Record)) →
        IsFullCut (size query) max records full → Fits (size query) max records others →
        length full ≤ length others }
    ensures none_fits { (query : AxfrQuery) (max : ℕ) (records : List Record) (n : ℕ) (groups : List (List Record)) →
        IsBlocked (size query) max records n → Fits (size query) max records groups → ⊥ }
{}
