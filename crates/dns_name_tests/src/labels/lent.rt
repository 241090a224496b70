//! Labels that are changed in place.
ghost use Rattle.std.specs.Prelude.{◌≡◌, ◌≤◌, length};
ghost use Rattle.dns_label.specs.Composed.{low_label};

use dns_label::{Label, LabelMut, LabelTypeError, SplitLabelError};
use std::test::Fail;

#[test]
fn a_label_is_lowered_where_it_stands(rt: HostRuntime) -> Result<(), Fail> {
    let mut octets = *b"xWWwx";
    let mut label = LabelMut::from_slice(&mut octets[1..4])?;
    label.make_canonical();
    assert!(rt; label.as_slice() == b"www".as_slice());
    assert!(rt; label.as_label() == Label::from_slice(b"WWW")?);
    assert!(rt;
        octets.as_slice() == b"xwwwx".as_slice() && LabelMut::from_slice(&mut [0; 64]).is_err()
    );
    let mut octets = *b"WWw";
    lower(&mut octets);
    assert!(rt; octets.as_slice() == b"www".as_slice());
    Ok(())
}

#[test]
fn a_label_is_split_off_and_lowered(rt: HostRuntime) -> Result<(), Fail> {
    let mut octets = *b"\x01A\x01BC";
    let (mut label, rest) = LabelMut::split_from(&mut octets)?;
    label.make_canonical();
    let (mut label, rest) = LabelMut::split_from(rest)?;
    label.make_canonical();
    assert!(rt;
        label.as_slice() == b"b".as_slice()
            && &rest[..] == b"C".as_slice()
            && octets.as_slice() == b"\x01a\x01bC".as_slice()
            && refusal(&mut [0xc0, 0x0c]) == Some(SplitLabelError::Pointer(12))
            && refusal(&mut [0x41]) == Some(SplitLabelError::BadType(LabelTypeError::Extended))
            && refusal(&mut [2, 0]) == Some(SplitLabelError::ShortInput)
    );
    Ok(())
}

/// The contracts say what the octets are when the label's borrow ends.
fn lower(octets: &mut [u8])
    requires { length octets.old ≤ 63 }
    ensures { octets.new ≡ low_label octets.old }
{
    let mut label = LabelMut::of_short(octets);
    label.make_canonical();
}

fn refusal(octets: &mut [u8]) -> Option<SplitLabelError> {
    match LabelMut::split_from(octets) {
        Ok(_) => None,
        Err(error) => Some(error),
    }
}
