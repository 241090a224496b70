//! Laws of a zone's text: it has one reading, or one fault.
ghost use Rattle.std.specs.Prelude.{◌≡◌, ◌≢◌, ℕ, List, Option};
ghost use Rattle.zone_records.specs.Record.{Record};
ghost use Rattle.zone_records.specs.Zone.{any_class};
ghost use Rattle.zone.specs.ZoneText.{IsZoneFault, IsZoneText};
ghost use Rattle.zone.specs.declared.zone_error.ZoneError.{ZoneError};
ghost use Rattle.zone.specs.declared.zone_error.ZoneError.TheVariants as zone_error;

/// A text is a zone's with at most one list of records.
pub fn text_has_one_reading()
    ensures { (text : List ℕ) (origin : Option (List (List ℕ))) (class : ℕ) (a b : List Record) →
        IsZoneText text origin class a → IsZoneText text origin class b → a ≡ b }
{}

/// A zone's text has no fault other than `OutOfMemory`.
pub fn zone_text_breaks_no_rule()
    ensures { (text : List ℕ) (origin : Option (List (List ℕ))) (class : ℕ) (records : List Record) (e : ZoneError) →
        IsZoneText text origin class records → IsZoneFault text origin class e → e ≡ zone_error.OutOfMemory }
{}

/// A text has at most one fault other than `OutOfMemory`.
pub fn one_zone_fault()
    ensures { (text : List ℕ) (origin : Option (List (List ℕ))) (class : ℕ) (e d : ZoneError) →
        e ≢ zone_error.OutOfMemory → d ≢ zone_error.OutOfMemory →
        IsZoneFault text origin class e → IsZoneFault text origin class d → e ≡ d }
{}

/// A text of class ANY has one fault, `ClassAny`.
pub fn class_any_has_one_fault()
    ensures { (text : List ℕ) (origin : Option (List (List ℕ))) (e : ZoneError) →
        IsZoneFault text origin any_class e → e ≡ zone_error.ClassAny }
{}

/// A text is a zone's, or it has a fault other than `OutOfMemory`: it cannot be neither.
pub fn zone_text_or_fault()
    ensures { (text : List ℕ) (origin : Option (List (List ℕ))) (class : ℕ) →
        ((records : List Record) → IsZoneText text origin class records → ⊥) →
        ((e : ZoneError) → e ≢ zone_error.OutOfMemory → IsZoneFault text origin class e → ⊥) → ⊥ }
{}
