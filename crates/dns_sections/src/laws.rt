//! Laws of cursors. Each function does nothing; what it ensures is the law.
ghost use Rattle.std.specs.Prelude.{◌≡◌, ◌<◌, ◌⊎◌, ℕ, Bool, List, Option, Some, None, Result, Ok, Err};
ghost use Rattle.std.specs.Iterator.{size};
ghost use Rattle.dns_octets.specs.declared.error.ParseError.{ParseError};
ghost use Rattle.dns_header.specs.ParsedRecord.{Parsed};
ghost use Rattle.dns_header.specs.Question.{Question};
ghost use Rattle.dns_header.specs.Record.{RecordOf};
ghost use Rattle.dns_sections.specs.Cursor.{Cursor, items_left};
ghost use Rattle.dns_sections.specs.Given.{GivesAll, GivesAsked, GivesQuestion, GivesRecord, IsAny, IsTaken, Sectioned};
ghost use Rattle.dns_sections.specs.Sections.{SectionCursor, all_left};

use dns_name::{ParseAnyRecordData, ParseRecordData};

/// Every cursor ends: each item that it returns, an error included, leaves fewer of them.
pub fn question_and_record_cursors_end<'a, Data: ParseRecordData<'a> + ParseAnyRecordData<'a>>()
    ensures questions { (old new : Cursor) (result : Result Question ParseError) → GivesQuestion old (Some result) new
        → size (items_left new) < size (items_left old) }
    ensures records { (old new : Cursor) (result : Result Parsed ParseError) → GivesRecord old (Some result) new
        → size (items_left new) < size (items_left old) }
    ensures taken { (in_only : Bool) (old new : Cursor) (result : Result (RecordOf (List (List ℕ)) Data) ParseError)
        → GivesAsked (IsTaken Data.takes in_only) Data.reads old (Some result) new → size (items_left new) < size (items_left old) }
    ensures any { (old new : Cursor) (result : Result (RecordOf (List (List ℕ)) Data) ParseError)
        → GivesAsked IsAny Data.reads_any old (Some result) new → size (items_left new) < size (items_left old) }
    ensures all { (old new : Option SectionCursor) (result : Result Sectioned ParseError) → GivesAll old (Some result) new
        → size (all_left new) < size (all_left old) }
{}

/// A cursor returns the error of a question or a record once, and a cursor that has ended stays so: after both it
/// returns nothing. A cursor over all records returns the error a second time if another section follows, and then
/// ends.
pub fn question_and_record_errors_come_once()
    ensures question_error { (old mid new : Cursor) (error : ParseError) (result : Option (Result Question ParseError))
        → GivesQuestion old (Some (Err error)) mid → GivesQuestion mid result new → result ≡ None }
    ensures record_error { (old mid new : Cursor) (error : ParseError) (result : Option (Result Parsed ParseError))
        → GivesRecord old (Some (Err error)) mid → GivesRecord mid result new → result ≡ None }
    ensures question_end { (old mid new : Cursor) (result : Option (Result Question ParseError))
        → GivesQuestion old None mid → GivesQuestion mid result new → result ≡ None }
    ensures record_end { (old mid new : Cursor) (result : Option (Result Parsed ParseError))
        → GivesRecord old None mid → GivesRecord mid result new → result ≡ None }
    ensures all_error { (old mid new : Option SectionCursor) (error : ParseError) (result : Option (Result Sectioned ParseError))
        → GivesAll old (Some (Err error)) mid → GivesAll mid result new
        → (result ≡ None) ⊎ ((result ≡ Some (Err error)) × (new ≡ None)) }
    ensures all_end { (new : Option SectionCursor) (result : Option (Result Sectioned ParseError)) → GivesAll None result new → result ≡ None }
{}
