//! How many octets parts take with pointers, and that no free spelling takes fewer.
ghost use Rattle.std.specs.Prelude.{◌≡◌, ◌≤◌, ◌++◌, ℕ, List, false, length, min};
ghost use Rattle.std.specs.List.{AllByRecursion};
ghost use Rattle.dns_name.specs.Page.{Parts};
ghost use Rattle.dns_name.specs.Spelling.{Spelling, plain, tree_spelling, hash_spelling};
ghost use Rattle.dns_compression_laws.specs.Alike.{HaveNames};
ghost use Rattle.dns_compression_laws.specs.Cost.{same_name, names_in, parts_cost, written};
ghost use Rattle.dns_compression_laws.specs.CostSum.{AreTheSuffixes, suffixes_sum};
ghost use Rattle.dns_compression_laws.specs.Free.{IsFree};
ghost use Rattle.dns_compression_laws.specs.Groups.{HasOneHead, group_size};
ghost use Rattle.dns_compression_laws.specs.Joined.{AreAsLong, join_parts};

/// Parts that are written by a tree or by a hash table take their cost if what is written, or the cost, is at most
/// 16,384 octets. Up to that place pointers reach each suffix written before.
pub fn written_octets_are_the_cost()
    ensures tree { (parts : Parts) → min (parts_cost tree_spelling parts) (length (written tree_spelling parts)) ≤ 16384
        → length (written tree_spelling parts) ≡ parts_cost tree_spelling parts }
    ensures hash { (parts : Parts) → HaveNames parts → min (parts_cost hash_spelling parts) (length (written hash_spelling parts)) ≤ 16384
        → length (written hash_spelling parts) ≡ parts_cost hash_spelling parts }
{}

/// So their number is a sum: the octets outside names; for each distinct suffix of the names but the root, one octet
/// and the length of its first label; and for the end of each name, one octet for the root and for the first name with
/// its last label, two for every other. Names are distinct octet for octet for a tree, and up to ASCII case for a hash
/// table.
pub fn written_octets_are_a_sum_over_suffixes()
    ensures tree { (parts : Parts) (suffixes : List (List (List ℕ))) → AreTheSuffixes (same_name tree_spelling) (names_in parts) suffixes
        → min (suffixes_sum tree_spelling suffixes parts) (length (written tree_spelling parts)) ≤ 16384
        → length (written tree_spelling parts) ≡ suffixes_sum tree_spelling suffixes parts }
    ensures hash { (parts : Parts) (suffixes : List (List (List ℕ))) → HaveNames parts → AreTheSuffixes (same_name hash_spelling) (names_in parts) suffixes
        → min (suffixes_sum hash_spelling suffixes parts) (length (written hash_spelling parts)) ≤ 16384
        → length (written hash_spelling parts) ≡ suffixes_sum hash_spelling suffixes parts }
    ensures cost { (s : Spelling) (parts : Parts) (suffixes : List (List (List ℕ))) → AreTheSuffixes (same_name s) (names_in parts) suffixes
        → parts_cost s parts ≡ suffixes_sum s suffixes parts }
    ensures suffixes { (s : Spelling) (names : List (List (List ℕ))) → (suffixes : List (List (List ℕ))) × AreTheSuffixes (same_name s) names suffixes }
{}

/// Parts that fit in a message still fit if a run of them is taken out and the parts before it have as many octets and
/// the same names: with names in full in a message of any length, and with pointers in one of at most 16,384 octets.
/// What a run of names saves the names after it is no more than the run takes.
pub fn parts_fit_without_a_run()
    ensures plain { (before other run after : Parts) → AreAsLong before other
        → length (written plain (join_parts other after)) ≤ length (written plain (join_parts before (join_parts run after))) }
    ensures tree { (before other run after : Parts) (max : ℕ) → max ≤ 16384 → AreAsLong before other
        → length (written tree_spelling (join_parts before (join_parts run after))) ≤ max
        → length (written tree_spelling (join_parts other after)) ≤ max }
    ensures hash { (before other run after : Parts) (max : ℕ) → max ≤ 16384 → AreAsLong before other
        → HaveNames before → HaveNames run → HaveNames after
        → length (written hash_spelling (join_parts before (join_parts run after))) ≤ max
        → length (written hash_spelling (join_parts other after)) ≤ max }
{}

/// No message that spells parts freely is shorter than what a tree or a hash table writes for them, if it has at most
/// 16,384 octets. What a spelling writes that does not fold is such a message: so what a tree writes is a shortest one.
pub fn no_free_spelling_is_shorter()
    ensures cost { (s : Spelling) (parts : Parts) (message : List ℕ) → IsFree message parts → parts_cost s parts ≤ length message }
    ensures tree { (parts : Parts) (message : List ℕ) → IsFree message parts → length message ≤ 16384
        → length (written tree_spelling parts) ≤ length message }
    ensures hash { (parts : Parts) (message : List ℕ) → HaveNames parts → IsFree message parts → length message ≤ 16384
        → length (written hash_spelling parts) ≤ length message }
    ensures own { (s : Spelling) (parts : Parts) → s.folds ≡ false → IsFree (written s parts) parts }
{}

/// So a message of records, each given by its parts, that fits still fits without its first records, and without its
/// last. Its head may count the records, if it has the same names and as many octets for each group.
pub fn groups_fit_in_part()
    ensures plain { (head : List Parts → Parts) (front back : List Parts) → HasOneHead head
        → (group_size plain head (λ parts. parts) front ≤ group_size plain head (λ parts. parts) (front ++ back))
        × (group_size plain head (λ parts. parts) back ≤ group_size plain head (λ parts. parts) (front ++ back)) }
    ensures tree { (head : List Parts → Parts) (front back : List Parts) (max : ℕ) → max ≤ 16384 → HasOneHead head
        → group_size tree_spelling head (λ parts. parts) (front ++ back) ≤ max
        → (group_size tree_spelling head (λ parts. parts) front ≤ max) × (group_size tree_spelling head (λ parts. parts) back ≤ max) }
    ensures hash { (head : List Parts → Parts) (front back : List Parts) (max : ℕ) → max ≤ 16384 → HasOneHead head
        → ((group : List Parts) → HaveNames (head group)) → AllByRecursion HaveNames (front ++ back)
        → group_size hash_spelling head (λ parts. parts) (front ++ back) ≤ max
        → (group_size hash_spelling head (λ parts. parts) front ≤ max) × (group_size hash_spelling head (λ parts. parts) back ≤ max) }
{}
