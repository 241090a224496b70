//! For records and a query one stream is sent, or none for one reason.

ghost use Rattle.std.specs.Prelude.{◌≡◌, ◌<◌, ◌^◌, ℕ, List};
ghost use Rattle.zone_records.specs.Record.{Record};
ghost use Rattle.zone_records.specs.Records.{AreSendable};
ghost use Rattle.zone_core.specs.Query.{AxfrQuery};
ghost use Rattle.zone_core.specs.Transfer.{IsTransfer};
ghost use Rattle.zone_send.specs.Sent.{IsQueryFor};
ghost use Rattle.zone_send.specs.SentBy.{IsSentBy, IsBlockedBy, KeepsCase};
ghost use Rattle.zone_core.specs.declared.spelling.Spelling.{Spelling};

/// For any spelling and limit, at most one stream is sent for records and a query, octet for octet, and at most one
/// record is blocked. If one is blocked, nothing is sent.
pub fn one_stream_or_one_blocked_record()
    ensures one_stream { (spelling : Spelling) (records : List Record) (query : AxfrQuery) (max : ℕ) (stream other : List ℕ) →
        IsSentBy spelling records query max stream → IsSentBy spelling records query max other → stream ≡ other }
    ensures not_both { (spelling : Spelling) (records : List Record) (query : AxfrQuery) (max n : ℕ) (stream : List ℕ) →
        IsSentBy spelling records query max stream → IsBlockedBy spelling records query max n → ⊥ }
    ensures one_blocked { (spelling : Spelling) (records : List Record) (query : AxfrQuery) (max m n : ℕ) →
        IsBlockedBy spelling records query max m → IsBlockedBy spelling records query max n → m ≡ n }
{}

/// If names keep their case, whatever is sent under the same spelling for the records received from a stream is that
/// stream again, octet for octet.
pub fn sent_again_is_the_same()
    ensures { (spelling : Spelling) (records others : List Record) (class : ℕ) (query : AxfrQuery) (max : ℕ) (stream again : List ℕ) →
        KeepsCase spelling → max < 2 ^ 16 → AreSendable class records → IsQueryFor records class query →
        IsSentBy spelling records query max stream → IsTransfer query stream others →
        IsSentBy spelling others query max again → again ≡ stream }
{}
