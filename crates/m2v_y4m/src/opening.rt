ghost use Rattle.std.specs.Prelude.{◌≡◌, ◌+◌, ◌<◌, ◌≤◌, ◌==◌, length, take, drop, IfOk, IfSome};
ghost use Rattle.std.specs.List.{position_or_len};
ghost use Rattle.m2v_y4m.specs.Header.{opening, with_words, words_from, none_seen, header_of};
ghost use Rattle.m2v_y4m.specs.Reading.{IsSeen};
ghost use Rattle.m2v_y4m.specs.Rules.{IsHeader};

use crate::answer::{Y4mFault, Y4mKind};
use crate::header::Y4mHeader;
use crate::lines::{begins, find_byte, line_length};
use crate::words::{Seen, with_word};

/// A header line.
#[derive(Clone, Copy)]
pub(crate) struct Opening {
    pub header: Y4mHeader,
    /// How many bytes the line has with its newline.
    pub length: usize,
}

/// The bytes of a word, up to the first space or to the end.
fn word_length(rest: &[u8]) -> usize
    ensures value { result ≡ position_or_len (λ b. b == 32) rest.now }
    ensures most { result ≤ length rest.now }
{
    match find_byte(rest, b' ') {
        Some(n) => n,
        None => rest.len(),
    }
}

/// Where the word that begins at a place ends.
fn word_end(line: &[u8], at: usize) -> usize
    requires within { at ≤ length line.now }
    ensures value { result ≡ at + position_or_len (λ b. b == 32) (drop at line.now) }
    ensures most { result ≤ length line.now }
{
    at + word_length(&line[at..])
}

/// The parameters of a header line without its newline, from its tenth byte on.
fn read_words(line: &[u8]) -> Result<Seen, Y4mFault>
    requires short { length line.now < 1024 }
    ensures value { result ≡ with_words none_seen 10 (words_from 10 line.now) }
    ensures seen { IfOk result IsSeen }
{
    let mut seen = Seen {
        width: None,
        height: None,
        rate: None,
        top: None,
        chroma: None,
    };
    let mut at = 10;
    while at <= line.len() {
        let end = word_end(line, at);
        match with_word(&seen, &line[at..end]) {
            Ok(more) => seen = more,
            Err(kind) => {
                return Err(Y4mFault {
                    kind,
                    place: at as u64,
                });
            }
        }
        at = end + 1;
    }
    Ok(seen)
}

#[tactic(auto, unfolding(crate::specs::Header::header_of))]
/// The header of the parameters; None where W, H or F is missing.
fn header_of(seen: &Seen) -> Option<Y4mHeader>
    requires seen { IsSeen seen.now }
    ensures value { result ≡ header_of seen.now }
    ensures within { IfSome result IsHeader }
{
    match (seen.width, seen.height, seen.rate) {
        (Some(width), Some(height), Some(rate_code)) => Some(Y4mHeader {
            width,
            height,
            rate_code,
            top: seen.top == Some(true),
        }),
        _ => None,
    }
}

#[tactic(auto, unfolding(crate::specs::Header::opening))]
/// The header line of a text, of which the bytes of a longest line are there or all.
pub(crate) fn read_opening(text: &[u8]) -> Result<Opening, Y4mFault>
    ensures value { result ≡ opening text.now }
    ensures within { IfOk result (λ o. o.length ≤ length text.now) }
    ensures header { IfOk result (λ o. IsHeader o.header) }
{
    if !begins(b"YUV4MPEG2", text) {
        return Err(Y4mFault {
            kind: Y4mKind::Magic,
            place: 0,
        });
    }
    let Some(n) = line_length(text) else {
        return Err(Y4mFault {
            kind: Y4mKind::Line,
            place: 0,
        });
    };
    let seen = read_words(&text[..n])?;
    match header_of(&seen) {
        Some(header) => Ok(Opening {
            header,
            length: n + 1,
        }),
        None => Err(Y4mFault {
            kind: Y4mKind::Field,
            place: n as u64,
        }),
    }
}
