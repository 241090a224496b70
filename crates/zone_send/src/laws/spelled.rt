//! Laws of cuttings into messages whose names are written with pointers, whatever the parts of a record. `item` gives
//! these parts.

ghost use Rattle.std.specs.Prelude.{◌≡◌, ℕ, ◌<◌, ◌≤◌, ◌^◌, false, List, length, min};
ghost use Rattle.std.specs.List.{AllByRecursion, AllZip};
ghost use Rattle.dns_label.specs.Name.{IsName};
ghost use Rattle.dns_name.specs.Spelling.{Spelling, tree_spelling, hash_spelling};
ghost use Rattle.dns_name.specs.Page.{Parts};
ghost use Rattle.dns_message.specs.Record.{IsRecord, IsWritten};
ghost use Rattle.dns_compression_laws.specs.Cost.{same_name};
ghost use Rattle.dns_compression_laws.specs.CostSum.{AreTheSuffixes};
ghost use Rattle.dns_compression_laws.specs.Alike.{HaveNames};
ghost use Rattle.zone_records.specs.Record.{Record};
ghost use Rattle.zone_records.specs.Records.{AreSendable};
ghost use Rattle.zone_core.specs.Cutting.{IsCutting, Fits, IsFullCut, IsBlocked, FrontsFit, PartsFit};
ghost use Rattle.zone_core.specs.Query.{AxfrQuery};
ghost use Rattle.zone_send.specs.Sent.{IsQueryFor};
ghost use Rattle.zone_send.specs.Spelled.{spelled_size, IsFreeAnswer, SpellGroups, record_items, message_names, message_sum};
ghost use Rattle.zone_send.specs.SpelledSent.{IsSpelledSent, IsTakenAs};
ghost use Rattle.zone_core.specs.Transfer.{IsTransfer, IsExactTransfer};

/// If a tree or a hash table remembers suffixes, the octets of a message are a sum, provided that the message or the
/// sum is at most 16,384: 12 for the header; 4 for the question's type and class; for each record 10, and those of its
/// data outside the names that may be compressed; for each distinct suffix of the names but the root, one and the
/// length of its first label; and for each name one if it is the root or the first with its last label, otherwise two.
pub fn message_octets_are_a_sum()
    ensures tree { (query : AxfrQuery) (data_parts : Record → Parts) (group : List Record) (suffixes : List (List (List ℕ))) →
        AreTheSuffixes (same_name tree_spelling) (message_names query data_parts group) suffixes →
        min (message_sum tree_spelling query data_parts group suffixes) (spelled_size tree_spelling query (record_items data_parts) group) ≤ 16384 →
        spelled_size tree_spelling query (record_items data_parts) group ≡ message_sum tree_spelling query data_parts group suffixes }
    ensures hash { (query : AxfrQuery) (data_parts : Record → Parts) (group : List Record) (suffixes : List (List (List ℕ))) →
        IsName query.name → AllByRecursion (λ r. HaveNames (record_items data_parts r)) group →
        AreTheSuffixes (same_name hash_spelling) (message_names query data_parts group) suffixes →
        min (message_sum hash_spelling query data_parts group suffixes) (spelled_size hash_spelling query (record_items data_parts) group) ≤ 16384 →
        spelled_size hash_spelling query (record_items data_parts) group ≡ message_sum hash_spelling query data_parts group suffixes }
{}

/// The names among the parts that a writer gives of a record are names.
pub fn written_records_have_names()
    ensures { (r : Record) (parts : Parts) → IsRecord r → IsWritten r parts → HaveNames parts }
{}

/// For any spelling and limit, a message that fits still fits without its last records: a page only grows. So records
/// have at most one full cut, or one blocked record, also past the 16,384 octets that pointers reach.
pub fn spelled_fronts_fit()
    ensures { (s : Spelling) (query : AxfrQuery) (item : Record → Parts) (max : ℕ) → FrontsFit (spelled_size s query item) max }
{}

/// If a tree remembers suffixes, a message of at most 16,384 octets still fits without its first records and without
/// its last. So a full cut has the fewest groups of all cuttings that fit, and if a record is blocked, no cutting fits.
pub fn tree_full_cut_is_fewest()
    ensures parts { (query : AxfrQuery) (item : Record → Parts) (max : ℕ) → max ≤ 16384 → PartsFit (spelled_size tree_spelling query item) max }
    ensures fewest { (query : AxfrQuery) (item : Record → Parts) (max : ℕ) (records : List Record) (full others : List (List Record)) → max ≤ 16384 →
        IsFullCut (spelled_size tree_spelling query item) max records full → Fits (spelled_size tree_spelling query item) max records others →
        length full ≤ length others }
    ensures none_fits { (query : AxfrQuery) (item : Record → Parts) (max : ℕ) (records : List Record) (n : ℕ) (groups : List (List Record)) → max ≤ 16384 →
        IsBlocked (spelled_size tree_spelling query item) max records n → Fits (spelled_size tree_spelling query item) max records groups → ⊥ }
{}

/// The same if a hash table remembers suffixes up to ASCII case, provided that the names of the records are names.
pub fn hash_full_cut_is_fewest()
    ensures fewest { (query : AxfrQuery) (item : Record → Parts) (max : ℕ) (records : List Record) (full others : List (List Record)) → max ≤ 16384 →
        IsName query.name → AllByRecursion (λ r. HaveNames (item r)) records →
        IsFullCut (spelled_size hash_spelling query item) max records full → Fits (spelled_size hash_spelling query item) max records others →
        length full ≤ length others }
    ensures none_fits { (query : AxfrQuery) (item : Record → Parts) (max : ℕ) (records : List Record) (n : ℕ) (groups : List (List Record)) → max ≤ 16384 →
        IsName query.name → AllByRecursion (λ r. HaveNames (item r)) records →
        IsBlocked (spelled_size hash_spelling query item) max records n → Fits (spelled_size hash_spelling query item) max records groups → ⊥ }
{}

/// If a tree remembers suffixes, no messages within a limit of at most 16,384 octets that spell consecutive groups of
/// the records freely are fewer than those of the full cut, and if a record is blocked, there are none. No message that
/// spells a group freely is shorter than the tree's. The headers of these messages may be any.
pub fn free_messages_are_no_fewer()
    ensures fewest { (query : AxfrQuery) (item : Record → Parts) (max : ℕ) (records : List Record) (full groups : List (List Record))
        (messages : List (List ℕ)) → max ≤ 16384 → IsFullCut (spelled_size tree_spelling query item) max records full →
        IsCutting records groups → SpellGroups query item max messages groups → length full ≤ length messages }
    ensures none { (query : AxfrQuery) (item : Record → Parts) (max : ℕ) (records : List Record) (n : ℕ) (groups : List (List Record))
        (messages : List (List ℕ)) → max ≤ 16384 → IsBlocked (spelled_size tree_spelling query item) max records n →
        IsCutting records groups → SpellGroups query item max messages groups → ⊥ }
    ensures shortest { (query : AxfrQuery) (item : Record → Parts) (group : List Record) (message : List ℕ) → length message ≤ 16384 →
        IsFreeAnswer query item message group → spelled_size tree_spelling query item group ≤ length message }
{}

/// What is sent for a zone with names written by a spelling is a transfer that answers the query: of the same records
/// if the spelling compares octets, and of records that differ at most in the ASCII case of owners and compressible
/// names if it folds case.
pub fn spelled_is_a_transfer()
    ensures taken { (s : Spelling) (records : List Record) (class : ℕ) (query : AxfrQuery) (max : ℕ) (stream : List ℕ) → max < 2 ^ 16 →
        AreSendable class records → IsQueryFor records class query → IsSpelledSent s records query max stream →
        (others : List Record) × IsTransfer query stream others × AllZip (IsTakenAs s.folds) records others }
    ensures exact { (s : Spelling) (records : List Record) (class : ℕ) (query : AxfrQuery) (max : ℕ) (stream : List ℕ) → s.folds ≡ false →
        max < 2 ^ 16 → AreSendable class records → IsQueryFor records class query → IsSpelledSent s records query max stream →
        IsExactTransfer query stream records }
{}

/// If the spelling compares octets, what is received from the stream is the zone's records, and what is sent for these
/// by the same spelling is the same stream again.
pub fn spelled_is_sent_again()
    ensures { (s : Spelling) (records others : List Record) (class : ℕ) (query : AxfrQuery) (max : ℕ) (stream : List ℕ) → s.folds ≡ false →
        max < 2 ^ 16 → AreSendable class records → IsQueryFor records class query → IsSpelledSent s records query max stream →
        IsTransfer query stream others → (records ≡ others) × IsSpelledSent s others query max stream }
{}
