//! Documents with blocks inside blocks, comments outside of blocks and line ends, and a target that takes no more.
ghost use Rattle.std.specs.Prelude.{[], ◌∷◌, OnOk, codes};
ghost use Rattle.dns_text.specs.Document.Piece.{Token, Open, Close, Newline};
ghost use Rattle.dns_text.specs.Documents.{block_of};
ghost use Rattle.dns_text.specs.Tried.{bare, marks, nested};
ghost use Rattle.dns_text.specs.Writing.{Adds};

use dns_text::{DisplayKind, Formatter, ZonefileFmt};
use std::alloc::{AllocError, Global};
use std::fmt::{self, Write};
use std::test::Fail;

/// Returns the text of a value in a layout.
fn shown<T: ZonefileFmt + Drop>(
    alloc: Global,
    value: &T,
    kind: DisplayKind,
) -> Result<String, AllocError> {
    value.display_zonefile(kind).to_string(alloc)
}

/// A block inside a block, a line end inside one, a token after one, and a line that begins with one.
#[derive(Drop)]
struct Nested;

/// Writes the token `c` in a block.
fn write_inner<F: Formatter>(formatter: &mut F) -> fmt::Result
    ensures { OnOk result (Adds F.writes formatter.old (block_of (Token (codes "c") ∷ [])) formatter.new) }
{
    formatter.block(
        |inner: &mut F| -> fmt::Result
            ensures { OnOk result (Adds F.writes inner.old (Token (codes "c") ∷ []) inner.new) }
        { inner.write_token("c") },
    )
}

impl ZonefileFmt for Nested {
    ghost document = { λ _. nested };

    fn fmt<F: Formatter>(&self, formatter: &mut F) -> fmt::Result {
        formatter.newline()?;
        formatter.block(
            |inner: &mut F| -> fmt::Result
                ensures { OnOk result (Adds F.writes inner.old (Token (codes "b") ∷ Newline ∷ Open ∷ Token (codes "c") ∷ Close ∷ Token (codes "d") ∷ []) inner.new) }
            {
                inner.write_token("b")?;
                inner.newline()?;
                write_inner(inner)?;
                inner.write_token("d")
            },
        )?;
        formatter.write_token("e")?;
        formatter.newline()
    }
}

/// A block without tokens, and a comment outside of blocks.
#[derive(Drop)]
struct Bare;

impl ZonefileFmt for Bare {
    ghost document = { λ _. bare };

    fn fmt<F: Formatter>(&self, formatter: &mut F) -> fmt::Result {
        formatter.write_token("a")?;
        formatter.write_comment("note")?;
        formatter.newline()?;
        formatter.write_token("b")?;
        formatter.block(
            |inner: &mut F| -> fmt::Result
                ensures { OnOk result (Adds F.writes inner.old [] inner.new) }
            { Ok(()) },
        )?;
        formatter.newline()
    }
}

/// The marks of blocks one by one; the last closes no block.
#[derive(Drop)]
struct Marks;

impl ZonefileFmt for Marks {
    ghost document = { λ _. marks };

    fn fmt<F: Formatter>(&self, formatter: &mut F) -> fmt::Result {
        formatter.write_token("a")?;
        formatter.open_block()?;
        formatter.write_token("b")?;
        formatter.open_block()?;
        formatter.write_token("c")?;
        formatter.close_block()?;
        formatter.close_block()?;
        formatter.write_token("d")?;
        formatter.close_block()?;
        formatter.write_token("e")?;
        formatter.newline()
    }
}

#[test]
fn blocks_inside_blocks_add_nothing(rt: HostRuntime) -> Result<(), Fail> {
    let alloc = rt.alloc();
    assert!(rt; shown(alloc, &Nested, DisplayKind::Simple)?.as_str() == "\nb c d e\n");
    assert!(rt; shown(alloc, &Nested, DisplayKind::Tabbed)?.as_str() == "\nb c d\te\n");
    assert!(rt;
        shown(alloc, &Nested, DisplayKind::Multiline)?.as_str()
            == "\n(\n        b\n        c\n        d\n        ) e\n"
    );
    Ok(())
}

#[test]
fn blocks_without_tokens_are_seen_under_multiline_alone(rt: HostRuntime) -> Result<(), Fail> {
    let alloc = rt.alloc();
    assert!(rt; shown(alloc, &Bare, DisplayKind::Simple)?.as_str() == "a\nb\n");
    assert!(rt; shown(alloc, &Bare, DisplayKind::Tabbed)?.as_str() == "a\nb\n");
    assert!(rt;
        shown(alloc, &Bare, DisplayKind::Multiline)?.as_str() == "a\t; note\nb (\n        )\n"
    );
    Ok(())
}

#[test]
fn marks_one_by_one(rt: HostRuntime) -> Result<(), Fail> {
    let alloc = rt.alloc();
    assert!(rt; shown(alloc, &Marks, DisplayKind::Simple)?.as_str() == "a b c d e\n");
    assert!(rt; shown(alloc, &Marks, DisplayKind::Tabbed)?.as_str() == "a\tb c\td\te\n");
    assert!(rt;
        shown(alloc, &Marks, DisplayKind::Multiline)?.as_str()
            == "a (\n        b\n        c\n        ) d e\n"
    );
    Ok(())
}

/// A target that takes a limited number of texts.
#[derive(Drop)]
struct Room {
    left: usize,
}

impl fmt::Write for Room {
    fn write_str(&mut self, _text: &str) -> fmt::Result {
        let Some(left) = self.left.checked_sub(1) else {
            return Err(fmt::Error);
        };
        self.left = left;
        Ok(())
    }
}

/// An error in the middle of a document is returned, whichever text causes it.
#[test]
fn refusals_of_the_target_are_told(rt: HostRuntime) -> Result<(), Fail> {
    for kind in [
        DisplayKind::Simple,
        DisplayKind::Tabbed,
        DisplayKind::Multiline,
    ] {
        let mut room = Room { left: 1000 };
        assert!(rt; room.write(Bare.display_zonefile(kind)).is_ok());
        let taken = 1000_usize.saturating_sub(room.left);
        assert!(rt; taken >= 4);
        for left in 0..taken {
            let mut less = Room { left };
            assert!(rt; less.write(Bare.display_zonefile(kind)).is_err());
        }
        let mut enough = Room { left: taken };
        assert!(rt; enough.write(Bare.display_zonefile(kind)).is_ok());
    }
    Ok(())
}
