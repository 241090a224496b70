//! Laws of canonical octets, canonical forms and changes. Each function does nothing; its contract is the law.
ghost use Rattle.std.specs.Prelude.{◌≡◌, ◌↔◌, [], ℕ, List};
ghost use Rattle.std.specs.List.{AllByRecursion, AllZip};
ghost use Rattle.zone_records.specs.Record.{Record};
ghost use Rattle.zone_canonical.specs.Canonical.{AreFormsOf, HasCanonicalForm, IsCanonical, AreAlike, AreAmong};
ghost use Rattle.zone_canonical.specs.Changes.{AreChanges};
ghost use Rattle.zone_canonical.specs.declared.change_list.Change.{Change};

/// Records have at most one list of canonical octets (RFC 4034 6).
pub fn canonical_octets_are_one()
    ensures { (records : List Record) (octets other_octets : List ℕ) → IsCanonical records octets → IsCanonical records other_octets →
        octets ≡ other_octets }
{}

/// Two lists of records have the same canonical octets exactly if each record of either list has the canonical form of
/// a record of the other.
pub fn canonical_octets_tell_records_apart()
    ensures { (records others : List Record) (octets other_octets : List ℕ) → AllByRecursion HasCanonicalForm records →
        AllByRecursion HasCanonicalForm others → IsCanonical records octets → IsCanonical others other_octets →
        (octets ≡ other_octets) ↔ (AreAmong records others × AreAmong others records) }
{}

/// Lists whose records have the same canonical forms, one by one, have the same canonical octets: the case of owners
/// and of names in data is ignored (RFC 4034 6.2).
pub fn case_is_not_in_canonical_octets()
    ensures { (records others : List Record) (octets : List ℕ) → AllZip AreAlike records others →
        IsCanonical records octets ↔ IsCanonical others octets }
{}

/// Records have at most one list of canonical forms (RFC 4034 6).
pub fn canonical_forms_are_one()
    ensures { (records forms others : List Record) → AreFormsOf records forms → AreFormsOf records others → forms ≡ others }
{}

/// Two lists of records have at most one list of changes between them.
pub fn changes_are_one()
    ensures { (old new : List Record) (changes others : List Change) → AreChanges old new changes → AreChanges old new others →
        changes ≡ others }
{}

/// Nothing changed exactly if each record of either list has the canonical form of a record of the other.
pub fn alike_records_have_no_changes()
    ensures { (old new : List Record) (changes : List Change) → AreChanges old new changes →
        (changes ≡ []) ↔ (AreAmong old new × AreAmong new old) }
{}
