//! Laws of cutting records into messages. `size` is the size of a group of records, and `max` is the largest size that
//! a message may have.

ghost use Rattle.std.specs.Prelude.{◌≡◌, ℕ, ◌+◌, ◌≤◌, List, length, sum_by};
ghost use Rattle.zone_records.specs.Record.{Record};
ghost use Rattle.zone_core.specs.Cutting.{Fits, IsFullCut, IsBlocked, CutOrBlocked, FrontsFit, PartsFit, Grows};

/// A full cut has the fewest groups: no cutting of the same records that fits has fewer.
pub fn full_cut_is_fewest()
    ensures { (size : List Record → ℕ) (max : ℕ) (records : List Record)
        (full others : List (List Record)) →
        PartsFit size max → IsFullCut size max records full → Fits size max records others →
        length full ≤ length others }
{}

/// Records have at most one full cut.
pub fn full_cut_is_one()
    ensures { (size : List Record → ℕ) (max : ℕ) (records : List Record)
        (full others : List (List Record)) →
        FrontsFit size max → IsFullCut size max records full → IsFullCut size max records others →
        full ≡ others }
{}

/// If a record is blocked, no cutting of the records fits.
pub fn blocked_record_fits_no_cutting()
    ensures { (size : List Record → ℕ) (max : ℕ) (records : List Record) (n : ℕ)
        (groups : List (List Record)) →
        PartsFit size max → IsBlocked size max records n → Fits size max records groups → ⊥ }
{}

/// At most one of the records is blocked.
pub fn blocked_record_is_one()
    ensures { (size : List Record → ℕ) (max : ℕ) (records : List Record) (m n : ℕ) →
        FrontsFit size max → IsBlocked size max records m → IsBlocked size max records n → m ≡ n }
{}

/// Any records have a full cut or a blocked record, and never both: a sender that returns the one or the other has
/// exactly one result.
pub fn cut_or_blocked()
    ensures one_of_them { (size : List Record → ℕ) (max : ℕ) (records : List Record) →
        CutOrBlocked size max records }
    ensures not_both { (size : List Record → ℕ) (max : ℕ) (records : List Record)
        (groups : List (List Record)) (n : ℕ) →
        FrontsFit size max → IsFullCut size max records groups → IsBlocked size max records n → ⊥ }
{}

/// If a size grows, each front and each back of what fits fits.
pub fn parts_fit_where_size_grows()
    ensures { (size : List Record → ℕ) (max : ℕ) → Grows size → PartsFit size max }
{}

/// A size that sums up the sizes of the records, plus a constant for the rest of the message, grows.
pub fn sum_of_sizes_grows()
    ensures { (base : ℕ) (f : Record → ℕ) → Grows (λ group. base + sum_by f group) }
{}
