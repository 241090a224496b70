//! Laws of zone files. Each function does nothing; its contract is the law.
ghost use Rattle.std.specs.Prelude.{◌≡◌, ◌≢◌, ◌↔◌, ◌+◌, ◌++◌, ℕ, suc, [], ◌∷◌, true, false, List, None, Ok, Err, length};
ghost use Rattle.std.specs.List.{list_all};
ghost use Rattle.dns_entry_scanner.specs.EntryError.{is_memory};
ghost use Rattle.dns_entry_scanner.specs.declared.entry_error.EntryError.{EntryError};
ghost use Rattle.dns_zonefile.specs.Entry.{Context, Entry};
ghost use Rattle.dns_text.specs.Rows.{BeginsWithRows, TokenRow};
ghost use Rattle.dns_text.specs.Tokens.{from_feed, is_end, is_gap};
ghost use Rattle.dns_zonefile.specs.Entries.{AreEntries, HasEntries, IsRefusedAfter, refused_number};
ghost use Rattle.dns_zonefile.specs.Reader.{Gives, GivesEach, Reader, left_of, without_directives};

/// A text has its entries in one way: it is at most one list of entries up to its end, or fails after at most one, but
/// not both. So the number of the entry that fails is determined (RFC 1035 5.1).
pub fn texts_have_one_list_of_entries()
    ensures whole { (start : Context) (text : List ℕ) (entries others : List Entry) → HasEntries start text entries
        → HasEntries start text others → entries ≡ others }
    ensures refused { (start : Context) (text : List ℕ) (entries others : List Entry) → IsRefusedAfter start text entries
        → IsRefusedAfter start text others → (entries ≡ others) × (refused_number entries ≡ refused_number others) }
    ensures not_both { (start : Context) (text : List ℕ) (entries others : List Entry) → HasEntries start text entries
        → IsRefusedAfter start text others → ⊥ }
{}

/// A text that goes on after its last whole row has the entries of those rows, and then those of what follows, in the
/// context after the rows.
pub fn longer_texts_have_more_entries()
    ensures { (start after : Context) (text more : List ℕ) (rows : List TokenRow) (entries all : List Entry) → BeginsWithRows text rows []
        → AreEntries start rows entries after → HasEntries start (text ++ more) all
        → (behind : List Entry) × (all ≡ entries ++ behind) × HasEntries after more behind }
{}

/// A text that goes on has the entries of its whole rows, and then those of the rest after them, with what follows.
///
/// `space`: a rest of white space is to them one space. `comment`: a rest with a comment goes on to the next line feed.
pub fn longer_texts_go_on_after_their_rest()
    ensures rest { (start after : Context) (text rest more : List ℕ) (rows : List TokenRow) (entries all : List Entry)
        → BeginsWithRows text rows rest → AreEntries start rows entries after → HasEntries start (text ++ more) all
        → (behind : List Entry) × (all ≡ entries ++ behind) × HasEntries after (rest ++ more) behind }
    ensures space { (start : Context) (rest more : List ℕ) (entries : List Entry) → rest ≢ [] → list_all is_gap rest ≡ true
        → (HasEntries start (rest ++ more) entries ↔ HasEntries start (32 ∷ more) entries) }
    ensures comment { (start : Context) (rest more : List ℕ) (entries : List Entry) → is_end rest ≡ true → list_all is_gap rest ≡ false
        → (HasEntries start (rest ++ more) entries ↔ HasEntries start (from_feed more) entries) }
{}

/// The results of a reader, called repeatedly, are the records and includes of its text, in order (RFC 1035 5.1).
///
/// `whole`: if it returns None at last, the unread text had these entries, with directives between them, and all of
/// them are counted. `refused`: if it fails, and not because it is out of memory, the text fails after these entries,
/// and the number of the failing entry is known.
pub fn readers_give_the_entries_of_their_text()
    ensures whole { (old mid new : Reader) (entries : List Entry) → GivesEach old entries mid → Gives mid (Ok None) new
        → (all : List Entry) × HasEntries old.context (left_of old) all × (entries ≡ without_directives all)
        × (new.count ≡ old.count + length all) }
    ensures refused { (old mid new : Reader) (entries : List Entry) (error : EntryError) → GivesEach old entries mid
        → Gives mid (Err error) new → is_memory error ≡ false
        → (all : List Entry) × IsRefusedAfter old.context (left_of old) all × (entries ≡ without_directives all)
        × (suc new.count ≡ old.count + refused_number all) }
{}
