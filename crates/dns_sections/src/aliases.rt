//! Aliases: a CNAME record tells that its owner is an alias of the name in its data (RFC 1034 3.6.2).
ghost use Rattle.std.specs.Prelude.{◌≡◌, ℕ, List, is_some, option_map, IfNone};
ghost use Rattle.dns_name.specs.ParsedName.{labels_of};
ghost use Rattle.dns_sections.specs.Aliases as spec;
ghost use Rattle.dns_sections.specs.Aliases.{Alias, HasAliases};
ghost use Rattle.dns_sections.specs.Seen.{records_at};

use crate::RecordSection;
use dns_name::ParsedName;
use dns_rr_data::Cname;

/// How many aliases are followed at most.
const MAX_ALIASES: usize = 20;

/// Follows at most 20 aliases, and returns the name that is no alias. Returns None if more follow.
pub(crate) fn resolved<'a>(
    records: RecordSection<'a>,
    mut name: ParsedName<&'a [u8]>,
) -> Option<ParsedName<&'a [u8]>>
    ensures { (aliases : List Alias) × HasAliases (records_at records.entry).cursor aliases
        × (option_map labels_of result ≡ spec.resolved aliases 20 (labels_of name.entry)) }
{
    for _ in 0..MAX_ALIASES {
        let Some(next) = aliased(records, &name) else {
            return Some(name);
        };
        name = next;
    }
    if is_alias(records, &name) {
        return None;
    }
    Some(name)
}

/// Returns the name that these records make `name` an alias of, or None if it is no alias.
fn aliased<'a>(
    records: RecordSection<'a>,
    name: &ParsedName<&'a [u8]>,
) -> Option<ParsedName<&'a [u8]>>
    ensures first { (aliases : List Alias) → HasAliases (records_at records.entry).cursor aliases
        → option_map labels_of result ≡ spec.aliased aliases (labels_of name.now) }
    ensures none { IfNone result ((aliases : List Alias) × HasAliases (records_at records.entry).cursor aliases) }
{
    let mut aliases = records.limit_to::<Cname<ParsedName<&'a [u8]>>>();
    while let Some(alias) = aliases.next() {
        let alias = match alias {
            Ok(alias) => alias,
            Err(_) => continue,
        };
        if *alias.owner() == *name {
            return Some(alias.into_data().into_cname());
        }
    }
    None
}

/// Returns whether these records make the name an alias. Parses all of them.
fn is_alias<'a>(records: RecordSection<'a>, name: &ParsedName<&'a [u8]>) -> bool
    ensures { (aliases : List Alias) × HasAliases (records_at records.entry).cursor aliases
        × (result ≡ is_some (spec.aliased aliases (labels_of name.now))) }
{
    let mut aliases = records.limit_to::<Cname<ParsedName<&'a [u8]>>>();
    let mut found = false;
    while let Some(alias) = aliases.next() {
        let alias = match alias {
            Ok(alias) => alias,
            Err(_) => continue,
        };
        if *alias.owner() != *name {
            continue;
        }
        found = true;
    }
    found
}
