//! Laws of streams that are received. A law is a function with an empty body whose contract is the law.

ghost use Rattle.std.specs.Prelude.{◌≡◌, ◌++◌, ◌⊎◌, ℕ, List};
ghost use Rattle.dns_label.specs.Octets.{AreOctets};
ghost use Rattle.zone_records.specs.Record.{Record};
ghost use Rattle.zone_core.specs.Query.{AxfrQuery};
ghost use Rattle.zone_receive.specs.Receiving.{IsBegun, HasBadMessage};
ghost use Rattle.zone_core.specs.Transfer.{IsTransfer};
ghost use Rattle.zone_receive.specs.declared.error.ReceiveError.{ReceiveError};

/// At most one of three things holds of a stream: a beginning of it is a transfer, or it is at fault, or it is begun.
/// It has at most one beginning that is a transfer, and at most one fault.
pub fn at_most_one_of_three()
    ensures transfer_or_fault { (query : AxfrQuery) (stream front rest : List ℕ) (records : List Record) (error : ReceiveError) →
        stream ≡ front ++ rest → IsTransfer query front records → HasBadMessage query stream error → ⊥ }
    ensures transfer_or_begun { (query : AxfrQuery) (stream front rest : List ℕ) (records : List Record) →
        stream ≡ front ++ rest → IsTransfer query front records → IsBegun query stream → ⊥ }
    ensures begun_or_fault { (query : AxfrQuery) (stream : List ℕ) (error : ReceiveError) →
        IsBegun query stream → HasBadMessage query stream error → ⊥ }
    ensures one_beginning { (query : AxfrQuery) (stream front rest other other_rest : List ℕ) (records others : List Record) →
        stream ≡ front ++ rest → stream ≡ other ++ other_rest →
        IsTransfer query front records → IsTransfer query other others → front ≡ other }
    ensures one_fault { (query : AxfrQuery) (stream : List ℕ) (e d : ReceiveError) →
        HasBadMessage query stream e → HasBadMessage query stream d → e ≡ d }
{}

/// One of three things holds of every stream of octets: a beginning of it is a transfer, or it is begun, or it is at
/// fault.
pub fn one_of_three()
    ensures { (query : AxfrQuery) (stream : List ℕ) → AreOctets stream →
        ((front rest : List ℕ) × (records : List Record) × (stream ≡ front ++ rest) × IsTransfer query front records)
        ⊎ (IsBegun query stream ⊎ ((error : ReceiveError) × HasBadMessage query stream error)) }
{}
