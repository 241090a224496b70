//! Laws of the entries of texts in both forms. Each function does nothing; its contract is the law.
ghost use Rattle.std.specs.Prelude.{◌≡◌, ℕ, List};
ghost use Rattle.dns_text.specs.Document.{Layout};
ghost use Rattle.dns_zonefile.specs.Entries.{HasEntries};
ghost use Rattle.dns_zonefile.specs.Entry.{Context, Entry};
ghost use Rattle.zone_general.specs.LongerEntries.{HasLongerEntries};
ghost use Rattle.zone_forms.specs.Presented.{IsGeneralOf, IsPresentedOf};

/// A text that a `Zonefile` reads has the same entries by the longer table, which has the further types too.
pub fn entries_read_by_the_longer_table()
    ensures { (start : Context) (text : List ℕ) (entries : List Entry) → HasEntries start text entries
        → HasLongerEntries start text entries }
{}

/// A text is at most one list of entries by the longer table.
pub fn texts_have_one_list_of_longer_entries()
    ensures { (start : Context) (text : List ℕ) (entries others : List Entry) → HasLongerEntries start text entries
        → HasLongerEntries start text others → entries ≡ others }
{}

/// A text that is rewritten to one form and then to the other keeps its entries.
///
/// `presented`: its data is in general form first, and then in presentation form. `general`: the other way round, and then a
/// `Zonefile` reads these entries.
pub fn forms_have_the_same_entries()
    ensures presented { (layout : Layout) (start : Context) (text general shown : List ℕ) → IsGeneralOf start text general
        → IsPresentedOf layout start general shown
        → (entries : List Entry) × HasLongerEntries start text entries × HasLongerEntries start shown entries }
    ensures general { (layout : Layout) (start : Context) (text shown general : List ℕ) → IsPresentedOf layout start text shown
        → IsGeneralOf start shown general
        → (entries : List Entry) × HasLongerEntries start text entries × HasEntries start general entries }
{}

/// A text that a `Zonefile` reads is its own general form, octet for octet. So is a text in general form.
pub fn texts_in_general_form_stay()
    ensures plain { (start : Context) (text new : List ℕ) (entries : List Entry) → IsGeneralOf start text new
        → HasEntries start text entries → new ≡ text }
    ensures again { (start : Context) (text general again : List ℕ) → IsGeneralOf start text general
        → IsGeneralOf start general again → again ≡ general }
{}
