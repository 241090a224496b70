//! Names that tokens spell under an origin (RFC 1035 5.1).
use dns_entry_scanner::{EntryError, ScannedName, scan_name};
use dns_name::{Name, ToName};
use std::alloc::Global;
use std::test::Fail;

/// Returns the printed name, or the text of the error.
fn shown(alloc: Global, name: Result<ScannedName, EntryError>) -> Result<String, Fail> {
    match name {
        Ok(name) => Ok(format!(in alloc; "{}", name.fmt_with_dot())?),
        Err(error) => Ok(format!(in alloc; "refused: {}", error)?),
    }
}

fn name_of(alloc: Global, text: &[u8], origin: Option<&Name<Vec<u8>>>) -> Result<String, Fail> {
    shown(alloc, scan_name(alloc, text, origin))
}

#[test]
fn names(rt: HostRuntime) -> Result<(), Fail> {
    let alloc = rt.alloc();
    let origin = Name::vec_from_str(alloc, "a.")?;
    let a = name_of(alloc, b"\\097.", None)?;
    assert!(rt; a.as_str() == "a.");
    let b = name_of(alloc, b"@", Some(&origin))?;
    assert!(rt; b.as_str() == "a.");
    let c = name_of(alloc, b"b", Some(&origin))?;
    assert!(rt; c.as_str() == "b.a.");
    let d = name_of(alloc, b"\\@", Some(&origin))?;
    assert!(rt; d.as_str() == "@.a." || d.as_str() == "\\@.a.");
    let e = name_of(alloc, b"a\\.b", Some(&origin))?;
    assert!(rt; e.as_str() == "a\\.b.a.");
    let f = name_of(alloc, b"b", None)?;
    assert!(rt; f.as_str() == "refused: relative name without an origin");
    let g = name_of(alloc, b"@", None)?;
    assert!(rt; g.as_str() == "refused: no origin");
    let h = name_of(alloc, b".", Some(&origin))?;
    assert!(rt; h.as_str() == ".");
    let i = name_of(alloc, b"", Some(&origin))?;
    assert!(rt; i.as_str() == "refused: empty name");
    let j = name_of(alloc, b"b..", Some(&origin))?;
    assert!(rt; j.as_str() == "refused: invalid name");
    let k = name_of(alloc, b"c.d.", Some(&origin))?;
    assert!(rt; k.as_str() == "c.d.");
    Ok(())
}

#[test]
fn long_names(rt: HostRuntime) -> Result<(), Fail> {
    let alloc = rt.alloc();
    let mut text = Vec::new(alloc);
    for _ in 0..3u32 {
        for _ in 0..63u32 {
            text.push(b'x')?;
        }
        text.push(b'.')?;
    }
    for _ in 0..59u32 {
        text.push(b'y')?;
    }
    let origin = Name::vec_from_str(alloc, "a.")?;
    let root = Name::root_vec(alloc)?;
    let ok = scan_name(alloc, text.as_slice(), Some(&origin));
    match ok {
        Ok(name) => {
            let flat = name.to_vec(alloc)?;
            assert!(rt; flat.len() == 255);
        }
        Err(_) => {
            assert!(rt; false);
        }
    }
    text.push(b'z')?;
    let long = name_of(alloc, text.as_slice(), Some(&origin))?;
    assert!(rt; long.as_str() == "refused: long domain name");
    let fits = scan_name(alloc, text.as_slice(), Some(&root));
    match fits {
        Ok(name) => {
            let flat = name.to_vec(alloc)?;
            assert!(rt; flat.len() == 254);
        }
        Err(_) => {
            assert!(rt; false);
        }
    }
    text.push(b'.')?;
    let dotted = scan_name(alloc, text.as_slice(), None);
    match dotted {
        Ok(name) => {
            let flat = name.to_vec(alloc)?;
            assert!(rt; flat.len() == 254);
        }
        Err(_) => {
            assert!(rt; false);
        }
    }
    Ok(())
}
