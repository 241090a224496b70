//! Laws of transfers.

ghost use Rattle.std.specs.Prelude.{◌≡◌, ℕ, Bool, List};
ghost use Rattle.zone_records.specs.Record.{Record};
ghost use Rattle.zone_core.specs.Query.{AxfrQuery};
ghost use Rattle.zone_core.specs.Transfer.{IsAnswer, IsTransfer};

/// For a query, a stream is a transfer of at most one list of records, and a message an answer with at most one.
pub fn transfers_are_one()
    ensures answers { (query : AxfrQuery) (first : Bool) (message : List ℕ) (records others : List Record) →
        IsAnswer query first message records → IsAnswer query first message others → records ≡ others }
    ensures transfers { (query : AxfrQuery) (stream : List ℕ) (records others : List Record) →
        IsTransfer query stream records → IsTransfer query stream others → records ≡ others }
{}
