// Bytes as a table writes them: pieces, and streams with changes.
use crate::table::Problem;
use std::alloc::{AllocError, Global};

/// A stream that later lines name.
#[derive(Drop)]
pub(crate) struct Stream {
    pub(crate) name: String,
    pub(crate) bytes: Vec<u8>,
}

/// What the next word of a line is.
#[derive(Clone, Copy, Debug, PartialEq, Eq)]
enum Expected {
    /// A byte, or a byte that comes again, or the name of what follows.
    Piece,
    /// The name of a stream.
    Name,
    /// How many first bytes stay.
    First,
    /// How many first bytes go.
    From,
    /// Which bytes go.
    Without,
    /// The place of the byte that the next piece replaces.
    Byte,
    /// The place before which the next piece is put in.
    Put,
}

/// Where the next piece goes.
#[derive(Clone, Copy, Debug, PartialEq, Eq)]
enum Place {
    /// Behind all bytes.
    End,
    /// In place of the bytes from there on.
    Over(usize),
    /// Before the byte that stands there.
    Before(usize),
}

/// A line that is read word by word.
#[derive(Drop)]
struct Line {
    bytes: Vec<u8>,
    expected: Expected,
    place: Place,
}

/// What a word says of the next one, where it isn't a piece itself.
fn expected_behind(word: &str) -> Option<Expected> {
    match word {
        "=" => Some(Expected::Name),
        "first" => Some(Expected::First),
        "from" => Some(Expected::From),
        "without" => Some(Expected::Without),
        "byte" => Some(Expected::Byte),
        "put" => Some(Expected::Put),
        _ => None,
    }
}

/// A byte of two hexadecimal digits.
fn byte_of(word: &str) -> Result<u8, Problem> {
    if word.len() != 2 {
        return Err(Problem::NoPiece);
    }
    u8::from_str_radix(word, 16).map_err(|_| Problem::NoPiece)
}

/// A number of decimal digits.
pub(crate) fn number_of(word: &str) -> Result<usize, Problem> {
    word.parse::<usize>().map_err(|_| Problem::NoNumber)
}

/// Bytes of frames with edges: byte k is k / 3 + 13 (k / 1009) modulo 256.
fn pattern(alloc: Global, count: usize) -> Result<Vec<u8>, AllocError> {
    let mut bytes = Vec::new(alloc);
    for k in 0..count {
        bytes.push(((k / 3).wrapping_add(13usize.wrapping_mul(k / 1009)) % 256) as u8)?;
    }
    Ok(bytes)
}

/// The bytes of a piece: one byte, so many equal ones, or so many of the pattern.
fn piece_of(alloc: Global, word: &str) -> Result<Vec<u8>, Problem> {
    match word.split_once('*') {
        Some((count, "pattern")) => Ok(pattern(alloc, number_of(count)?)?),
        Some((count, byte)) => Ok(vec![in alloc; byte_of(byte)?; number_of(count)?]?),
        None => Ok(vec![in alloc; byte_of(word)?]?),
    }
}

/// The bytes of a stream that stands further up.
fn bytes_named<'a>(streams: &'a [Stream], name: &str) -> Result<&'a [u8], Problem> {
    for stream in streams {
        if stream.name.as_str() == name {
            return Ok(&stream.bytes);
        }
    }
    Err(Problem::NoStream)
}

impl Line {
    /// Takes the bytes behind a place away, and answers them.
    fn cut_at(&mut self, place: usize) -> Result<Vec<u8>, Problem> {
        if place > self.bytes.len() {
            return Err(Problem::NoPlace);
        }
        Ok(self.bytes.split_off(place)?)
    }

    /// Puts a piece where it goes.
    fn put(&mut self, piece: &[u8]) -> Result<(), Problem> {
        let (place, replaced) = match self.place {
            Place::End => (self.bytes.len(), 0),
            Place::Over(place) => (place, piece.len()),
            Place::Before(place) => (place, 0),
        };
        let back = self.cut_at(place)?;
        let Some(back) = back.get(replaced..) else {
            return Err(Problem::NoPlace);
        };
        self.bytes.extend_from_slice(piece)?;
        let end = self.bytes.len();
        self.bytes.extend_from_slice(back)?;
        self.place = match self.place {
            Place::End => Place::End,
            Place::Over(_) => Place::Over(end),
            Place::Before(_) => Place::Before(end),
        };
        Ok(())
    }

    /// Takes the bytes of a range `A..B` away, A and B with them.
    fn leave_out(&mut self, range: &str) -> Result<(), Problem> {
        let (first, last) = range.split_once("..").ok_or(Problem::NoNumber)?;
        let (first, last) = (number_of(first)?, number_of(last)?);
        let back = self.cut_at(last)?;
        let (_, back) = back.split_first().ok_or(Problem::NoPlace)?;
        self.cut_at(first)?;
        self.bytes.extend_from_slice(back)?;
        Ok(())
    }

    /// Does what a word says that stands behind the name of a change.
    fn change(&mut self, streams: &[Stream], word: &str) -> Result<(), Problem> {
        match self.expected {
            Expected::Piece => {}
            Expected::Name => self.bytes.extend_from_slice(bytes_named(streams, word)?)?,
            Expected::First => {
                self.cut_at(number_of(word)?)?;
            }
            Expected::From => self.bytes = self.cut_at(number_of(word)?)?,
            Expected::Without => self.leave_out(word)?,
            Expected::Byte => self.place = Place::Over(number_of(word)?),
            Expected::Put => self.place = Place::Before(number_of(word)?),
        }
        self.expected = Expected::Piece;
        Ok(())
    }

    /// Takes the next word of the line.
    fn take(&mut self, alloc: Global, streams: &[Stream], word: &str) -> Result<(), Problem> {
        if self.expected != Expected::Piece {
            return self.change(streams, word);
        }
        match expected_behind(word) {
            Some(expected) => {
                self.expected = expected;
                Ok(())
            }
            None => self.put(&piece_of(alloc, word)?),
        }
    }
}

/// The bytes of a line: pieces, and streams by their names, each with changes.
pub(crate) fn bytes_of(alloc: Global, streams: &[Stream], line: &str) -> Result<Vec<u8>, Problem> {
    let mut read = Line {
        bytes: Vec::new(alloc),
        expected: Expected::Piece,
        place: Place::End,
    };
    for word in line.split_whitespace() {
        read.take(alloc, streams, word)?;
    }
    if read.expected != Expected::Piece {
        return Err(Problem::EndsEarly);
    }
    Ok(read.bytes)
}
