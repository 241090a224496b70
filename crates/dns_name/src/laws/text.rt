//! Laws of the texts of names (RFC 1035 5.1).
ghost use Rattle.std.specs.Prelude.{◌≡◌, List, ℕ};
ghost use Rattle.std.specs.List.{AllByRecursion};
ghost use Rattle.dns_label.specs.Name.{IsName, with_root};
ghost use Rattle.dns_label.specs.NameText.{IsAbsoluteText, IsNameText, IsRelativeNameText};
ghost use Rattle.dns_label.specs.Printed.{printed_name};
ghost use Rattle.dns_label.specs.Octets.{AreOctets};
ghost use Rattle.dns_flat.specs.PrintedLabels.{printed_relative, printed_seen};

/// The text that `fmt_with_dot` shows spells the name, with its last dot, and no other.
pub fn dotted_text_reads_back()
    ensures spells { (name : List (List ℕ)) → IsName name → AllByRecursion AreOctets name → IsAbsoluteText (printed_name name) name }
    ensures alone { (name other : List (List ℕ)) → IsName name → AllByRecursion AreOctets name → IsNameText (printed_name name) other → other ≡ name }
{}

/// The text of a relative name spells it, and no other.
pub fn relative_text_reads_back()
    ensures spells { (name : List (List ℕ)) → IsName name → AllByRecursion AreOctets name → IsRelativeNameText (printed_relative name) name }
    ensures alone { (name other : List (List ℕ)) → IsName name → AllByRecursion AreOctets name → IsRelativeNameText (printed_relative name) other → other ≡ name }
{}

/// A text spells one name, whether its last dot is there or not; one relative name; and not a relative name and an
/// absolute one with its last dot.
pub fn text_spells_one_name()
    ensures name { (text : List ℕ) (name other : List (List ℕ)) → IsNameText text name → IsNameText text other → name ≡ other }
    ensures relative { (text : List ℕ) (name other : List (List ℕ)) → IsRelativeNameText text name → IsRelativeNameText text other → name ≡ other }
    ensures apart { (text : List ℕ) (name other : List (List ℕ)) → IsRelativeNameText text name → IsAbsoluteText text other → ⊥ }
{}

/// The labels of a name, seen one by one, print as the name does, absolute or relative.
pub fn seen_labels_print_as_their_name()
    ensures absolute { (name : List (List ℕ)) → IsName name → printed_seen (with_root name) ≡ printed_name name }
    ensures relative { (name : List (List ℕ)) → IsName name → printed_seen name ≡ printed_relative name }
{}
