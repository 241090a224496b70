//! The words of a row as they are written. Quoted texts and names are replaced by words without them.
use crate::RowError;
use crate::names::{Names, split_name};
use std::alloc::Global;

/// What a word or a piece of one denotes.
#[derive(Drop)]
pub(crate) struct Value {
    /// Whether it is quoted, and not written as it is.
    is_text: bool,
    /// The word without quotes. An octet that a row has no character for is `%` and two hexadecimal digits.
    word: String,
}

/// The place of the next character.
#[derive(Clone, Copy, PartialEq, Eq)]
enum Place {
    /// Where a piece begins.
    Start,
    /// In a piece without quotes.
    Bare,
    /// Between quotes.
    Quoted,
    /// After a backslash between quotes.
    Escape,
    /// After `\x`.
    High,
    /// After `\x` and a digit.
    Low,
    /// After the second quote.
    Closed,
}

/// The words that are read so far.
#[derive(Drop)]
pub(crate) struct Words<'a> {
    alloc: Global,
    names: &'a Names,
    place: Place,
    /// The piece that is read. A quoted one is without its quotes.
    piece: String,
    /// What follows the quotes of the piece.
    times: String,
    /// The pieces before it in its word, if there are some.
    word: Option<Value>,
    /// The words before that one, each with a space after it.
    line: String,
}

/// Returns whether a row has neither quoted texts nor names, and so is read as it is.
pub(crate) fn is_plain(line: &str) -> bool {
    !line
        .split(' ')
        .any(|word| word.split('+').any(|piece| is_replaced(piece)))
}

/// Returns whether a piece is, or begins with, a quoted text or a name.
fn is_replaced(piece: &str) -> bool {
    piece.starts_with('"') || split_name(piece).is_some()
}

impl<'a> Words<'a> {
    /// Reads words. Fails if a quoted text does not end, or if a name or a piece is unknown.
    pub(crate) fn read(alloc: Global, names: &'a Names, text: &str) -> Result<Self, RowError> {
        let mut words = Words {
            alloc,
            names,
            place: Place::Start,
            piece: String::new(alloc),
            times: String::new(alloc),
            word: None,
            line: String::new(alloc),
        };
        for c in text.chars() {
            words.take(c)?;
        }
        words.end_piece()?;
        Ok(words)
    }

    /// Returns the words as a line without quoted texts and names.
    pub(crate) fn into_line(mut self) -> Result<String, RowError> {
        self.end_word()?;
        Ok(self.line)
    }

    /// Returns the only word. Fails if there are others.
    pub(crate) fn into_value(self) -> Result<Value, RowError> {
        let Words { line, word, .. } = self;
        if !line.is_empty() {
            return Err(RowError::TrailingWord);
        }
        match word {
            Some(value) => Ok(value),
            None => Err(RowError::MissingWord),
        }
    }

    /// Reads a character.
    fn take(&mut self, c: char) -> Result<(), RowError> {
        match self.place {
            Place::Start if c == '"' => {
                self.place = Place::Quoted;
                Ok(())
            }
            Place::Start | Place::Bare | Place::Closed => self.take_outside(c),
            Place::Quoted => self.take_quoted(c),
            Place::Escape => self.take_escaped(c),
            Place::High => self.take_digit(c, Place::Low),
            Place::Low => self.take_digit(c, Place::Quoted),
        }
    }

    /// Reads a character outside quotes.
    fn take_outside(&mut self, c: char) -> Result<(), RowError> {
        match c {
            '+' => self.end_piece(),
            ' ' => {
                self.end_piece()?;
                self.end_word()?;
                self.line.push(' ')?;
                Ok(())
            }
            _ if self.place == Place::Closed => Ok(self.times.push(c)?),
            _ => {
                self.place = Place::Bare;
                Ok(self.piece.push(c)?)
            }
        }
    }

    /// Reads a character between quotes.
    fn take_quoted(&mut self, c: char) -> Result<(), RowError> {
        match c {
            '"' => self.place = Place::Closed,
            '\\' => self.place = Place::Escape,
            ' ' => self.piece.push_str("%20")?,
            '%' => self.piece.push_str("%25")?,
            _ => self.piece.push(c)?,
        }
        Ok(())
    }

    /// Reads the character after a backslash.
    fn take_escaped(&mut self, c: char) -> Result<(), RowError> {
        self.place = Place::Quoted;
        match c {
            'n' => self.piece.push_str("%0a")?,
            'r' => self.piece.push_str("%0d")?,
            't' => self.piece.push_str("%09")?,
            '"' | '\\' => self.piece.push(c)?,
            'x' => {
                self.place = Place::High;
                self.piece.push('%')?;
            }
            _ => return Err(RowError::BadWord),
        }
        Ok(())
    }

    /// Reads a digit of `\xHH`, before this place.
    fn take_digit(&mut self, c: char, next: Place) -> Result<(), RowError> {
        if !c.is_ascii_hexdigit() {
            return Err(RowError::BadWord);
        }
        self.place = next;
        Ok(self.piece.push(c)?)
    }

    /// Ends a piece: appends what it denotes to its word.
    fn end_piece(&mut self) -> Result<(), RowError> {
        let piece = std::mem::replace(&mut self.piece, String::new(self.alloc));
        let times = std::mem::replace(&mut self.times, String::new(self.alloc));
        let place = std::mem::replace(&mut self.place, Place::Start);
        match place {
            Place::Closed => self.append(true, piece.as_str(), times_of(times.as_str())?),
            Place::Start | Place::Bare => self.append_bare(piece.as_str()),
            _ => Err(RowError::OpenQuote),
        }
    }

    /// Appends what a piece without quotes denotes.
    fn append_bare(&mut self, piece: &str) -> Result<(), RowError> {
        let Some((name, times)) = split_name(piece) else {
            return self.append(false, piece, 1);
        };
        let names = self.names;
        match names.find(name) {
            Some(value) => self.append(value.is_text, value.word.as_str(), times_of(times)?),
            None => Err(RowError::UnknownName),
        }
    }

    /// Appends a piece to the word this number of times.
    fn append(&mut self, is_text: bool, piece: &str, times: u32) -> Result<(), RowError> {
        for _ in 0..times {
            match &mut self.word {
                Some(word) => word.append(is_text, piece)?,
                None => {
                    let word = String::from_str(self.alloc, piece)?;
                    self.word = Some(Value { is_text, word });
                }
            }
        }
        Ok(())
    }

    /// Ends a word: appends it to the line.
    fn end_word(&mut self) -> Result<(), RowError> {
        let Some(value) = self.word.take() else {
            return Err(RowError::BadWord);
        };
        match value.word.as_str() {
            "" if value.is_text => self.line.push('-')?,
            "-" if value.is_text => self.line.push_str("%2d")?,
            word => self.line.push_str(word)?,
        }
        Ok(())
    }
}

impl Value {
    /// Appends a piece. Texts follow each other, and other pieces keep the `+` between them.
    fn append(&mut self, is_text: bool, piece: &str) -> Result<(), RowError> {
        if self.is_text != is_text {
            return Err(RowError::BadWord);
        }
        if !is_text {
            self.word.push('+')?;
        }
        Ok(self.word.push_str(piece)?)
    }
}

/// Returns the number after the `*` of a piece, which is at least 1, or 1 if nothing follows the piece.
fn times_of(text: &str) -> Result<u32, RowError> {
    if text.is_empty() {
        return Ok(1);
    }
    let Some(digits) = text.strip_prefix('*') else {
        return Err(RowError::BadWord);
    };
    match digits.parse::<u32>() {
        Ok(times) if times > 0 => Ok(times),
        _ => Err(RowError::BadWord),
    }
}
