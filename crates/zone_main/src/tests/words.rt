//! Which words are read, the text of a command line that fails, and layouts that are compared. The fields of jobs are
//! tested by rows of `zonewire_rows`.

use program_words::{UsageError, words_after_path};
use std::env::{Env, FillError};
use std::process::Abort;
use std::test::Fail;
use zonewire::{DisplayKind, job};

/// The words of a command line, the program's path first, and an empty environment.
#[derive(Drop)]
struct Given<'a> {
    words: &'a [&'a [u8]],
}

impl Env for Given<'_> {
    fn arg(&self, i: usize, buf: &mut [u8]) -> Result<usize, FillError> {
        let Some(word) = self.words.get(i) else {
            return Err(FillError::NotPresent);
        };
        if word.len() > buf.len() {
            return Err(FillError::TooLong);
        }
        buf[..word.len()].copy_from_slice(word);
        Ok(word.len())
    }

    fn var(&self, _name: &str, _buf: &mut [u8]) -> Result<usize, FillError> {
        Err(FillError::NotPresent)
    }

    fn var_at(&self, _i: usize, _buf: &mut [u8]) -> Result<usize, FillError> {
        Err(FillError::NotPresent)
    }
}

#[test]
fn the_path_of_the_program_may_be_any_octets(rt: HostRuntime) -> Result<(), Fail> {
    let long = [b'a'; 300];
    let words: [&[u8]; 3] = [b"/\xff/zonewire", b"check", long.as_slice()];
    let given = Given {
        words: words.as_slice(),
    };
    let read = words_after_path(&(given, rt.alloc())).expect(&rt, "words");
    assert!(rt;
        read.len() == 2 && read[0].as_str() == "check" && read[1].as_bytes() == long.as_slice()
    );
    Ok(())
}

#[test]
fn a_word_that_is_not_utf_8_is_refused(rt: HostRuntime) -> Result<(), Fail> {
    let words: [&[u8]; 2] = [b"zonewire", b"\xff"];
    let given = Given {
        words: words.as_slice(),
    };
    let read = words_after_path(&(given, rt.alloc()));
    assert!(rt; read.err() == Some(UsageError::NotText));
    Ok(())
}

#[test]
fn a_refused_line_shows_how_lines_are(rt: HostRuntime) -> Result<(), Fail> {
    let alloc = rt.alloc();
    let words = ["zonewire", "sign"];
    let fault = job(alloc, words.as_slice()).expect_err(&rt, "a fault");
    let text = format!(in alloc; "{fault}")?;
    assert!(rt;
        text.as_str()
            .starts_with("error: unrecognized subcommand 'sign'")
            && text.as_str().contains("Usage: zonewire <COMMAND>")
    );
    Ok(())
}

#[test]
fn layouts_are_compared(rt: HostRuntime) -> Result<(), Fail> {
    let kind = DisplayKind::Simple;
    assert!(rt; kind == DisplayKind::Simple && kind.clone()? == kind);
    Ok(())
}
