//! Laws of differences and sorted texts. Each function does nothing; its contract is the law.
ghost use Rattle.std.specs.Prelude.{◌≡◌, ◌↔◌, [], ℕ, List};
ghost use Rattle.zone_records.specs.Record.{Record};
ghost use Rattle.zone_canonical.specs.Canonical.{AreAmong};
ghost use Rattle.zone_tool.specs.Differences.{IsDifference};
ghost use Rattle.zone_tool.specs.Selected.{selected_of};
ghost use Rattle.zone_tool.specs.declared.selection.Selection.{Selection};

use zone_canonical::laws::alike_records_have_no_changes;

/// The difference of two zones is empty exactly if each record of either that is compared has the canonical form of one
/// of the other.
pub fn alike_zones_have_no_difference()
    ensures { (selection : Selection) (old new : List Record) (text : List ℕ) → IsDifference selection old new text →
        (text ≡ []) ↔ (AreAmong (selected_of selection old) (selected_of selection new)
        × AreAmong (selected_of selection new) (selected_of selection old)) }
{
    alike_records_have_no_changes();
}
