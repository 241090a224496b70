//! Bitmaps of types (RFC 4034, section 4.1.2).
ghost use Rattle.std.specs.Prelude.{OnOk};
ghost use Rattle.dns_field_texts.specs.Appended.{GoesOn, Appends};
ghost use Rattle.dns_field_texts.specs.TypeBitmap.{IsBitmapOf};

mod iter;
mod rtype_bitmap;
mod scan;
mod show;
mod type_set;
mod windows;

use dns_name::Rtype;
pub use iter::RtypeBitmapIter;
pub use rtype_bitmap::{RtypeBitmap, RtypeBitmapError};
pub use scan::scan_types_into;
pub use show::show_types;
use std::alloc::AllocError;
use type_set::TypeSet;
pub use windows::is_type_bitmap;

/// Appends the bitmap of the types, which may be in any order and repeated. Fails if out of memory. It may then have
/// appended some octets.
pub fn append_types(types: &[Rtype], octets: &mut Vec<u8>) -> Result<(), AllocError>
    ensures ok { OnOk result (Appends (IsBitmapOf types.now) octets.old.items octets.new.items) }
    ensures more { GoesOn octets.old.items octets.new.items }
{
    let mut set = TypeSet::new(*octets.allocator());
    for rtype in types {
        set.insert(rtype.to_int())?;
    }
    set.append_to(octets)
}
