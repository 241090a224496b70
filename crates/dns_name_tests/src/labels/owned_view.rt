//! Labels that own their octets, changed in place.
ghost use Rattle.std.specs.Prelude.{◌≡◌};
ghost use Rattle.dns_label.specs.OwnedLabel.{octets_owned};
ghost use Rattle.dns_label.specs.Composed.{low_label};

use dns_label::OwnedLabel;
use std::test::Fail;

#[test]
fn a_label_that_holds_its_octets_is_lowered_by_a_view(rt: HostRuntime) -> Result<(), Fail> {
    let mut label: OwnedLabel = "WwW".parse()?;
    assert!(rt; label.as_label_mut().as_label().as_slice() == b"WwW".as_slice());
    lower(&mut label);
    assert!(rt; label.as_wire_slice() == b"\x03www".as_slice());
    Ok(())
}

/// The contracts say what the label is when its view's borrow ends.
fn lower(label: &mut OwnedLabel)
    ensures { octets_owned label.new ≡ low_label (octets_owned label.old) }
{
    let mut view = label.as_label_mut();
    view.make_canonical();
}
