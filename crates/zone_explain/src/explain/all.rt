//! Each fault of a zone's text.
ghost use Rattle.std.specs.Prelude.{option_copied, IfOk};
ghost use Rattle.zone_explain.specs.AllFaults.{AreAllFaults};

use super::walk::Walk;
use super::{Finding, entry_of, explain};
use dns_name::{Class, Name};
use std::alloc::{AllocError, Global};

/// Returns each fault of the text of a zone of the class, in order, or none if it is a zone's text (RFC 1035 5). Names
/// are relative to the origin, if there is one.
///
/// What is refused is passed over, and the entries after it are read as if it were not there. A record that breaks a rule
/// still counts: the first SOA gives the apex. If the front of the zone is missing or does not read, records are judged
/// by their data alone up to the first SOA. A rule that no entry breaks is alone.
///
/// Fails if out of memory.
pub fn explain_all(
    alloc: Global,
    text: &[u8],
    origin: Option<&Name<&[u8]>>,
    class: Class,
) -> Result<Vec<Finding>, AllocError>
    ensures { IfOk result (λ findings. AreAllFaults text.now (option_copied origin.entry) class findings.items) }
{
    let mut findings = Vec::new(alloc);
    let Some(first) = explain(alloc, text, origin, class)? else {
        return Ok(findings);
    };
    if entry_of(first.fault).is_none() {
        findings.push(first)?;
        return Ok(findings);
    }
    let mut walk = Walk::new(alloc, text, origin, class)?;
    while let Some(finding) = walk.next_finding(text)? {
        findings.push(finding)?;
    }
    Ok(findings)
}
