//! Laws of the canonical octets of zones that are sent.

ghost use Rattle.std.specs.Prelude.{◌↔◌, ℕ, ◌<◌, ◌^◌, List};
ghost use Rattle.zone.specs.Canonical.{IsCanonical};
ghost use Rattle.zone_records.specs.Record.{Record};
ghost use Rattle.zone_records.specs.Records.{AreSendable};
ghost use Rattle.zone_core.specs.Query.{AxfrQuery};
ghost use Rattle.zone_core.specs.Transfer.{IsTransfer};
ghost use Rattle.zone_send.specs.Sent.{IsQueryFor};
ghost use Rattle.zone_send.specs.SentBy.{IsSentBy};
ghost use Rattle.zone_send.specs.SpelledSent.{IsNear};
ghost use Rattle.zone_core.specs.declared.spelling.Spelling.{Spelling};
ghost use Rattle.std.specs.List.{AllByRecursion, AllZip};
ghost use Rattle.zone.specs.Canonical.{HasCanonicalForm};

/// Records that differ only in the ASCII case of owners and compressible names have the same canonical octets.
pub fn near_records_have_the_same_canonical_octets()
    ensures { (records others : List Record) (octets : List ℕ) → AllByRecursion HasCanonicalForm records → AllZip IsNear records others →
        IsCanonical records octets ↔ IsCanonical others octets }
{}

/// What is received from a sent stream has the canonical octets of the zone, whichever way names were written.
pub fn transfers_keep_canonical_octets()
    ensures { (spelling : Spelling) (records others : List Record) (class : ℕ) (query : AxfrQuery) (max : ℕ) (stream octets : List ℕ) →
        max < 2 ^ 16 → AreSendable class records → IsQueryFor records class query → IsSentBy spelling records query max stream →
        IsTransfer query stream others → IsCanonical records octets ↔ IsCanonical others octets }
{}
