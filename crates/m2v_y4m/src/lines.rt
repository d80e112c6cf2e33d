ghost use Rattle.std.specs.Prelude.{◌≡◌, ◌<◌, ◌≤◌, ◌||◌, ◌==◌, length, slice_index_or, IfOk, IfSome, position};
ghost use Rattle.m2v_y4m.specs.Texts.{line_length, begins};
ghost use Rattle.m2v_y4m.specs.Frames.{frame_line};

use crate::answer::Y4mKind;

/// How many bytes a line has with its newline, at most.
const LINE: usize = 1024;

/// The place of the first byte of this value.
pub(crate) fn find_byte(text: &[u8], value: u8) -> Option<usize>
    ensures value { result ≡ position (λ b. b == value) text.now }
    ensures within { IfSome result (λ n. n < length text.now) }
{
    text.iter().position(|b| *b == value)
}

#[tactic(auto, using(crate::proofs::LineLaws::take_least), unfolding(crate::specs::Texts::line_length))]
/// The bytes of a line before its newline; None where its first 1,024 bytes hold no newline.
pub(crate) fn line_length(text: &[u8]) -> Option<usize>
    ensures value { result ≡ line_length text.now }
    ensures within { IfSome result (λ n. n < length text.now) }
    ensures most { IfSome result (λ n. n < 1024) }
{
    let most = text.len().min(LINE);
    find_byte(&text[..most], b'\n')
}

#[tactic(auto, unfolding(crate::specs::Texts::begins))]
/// Whether a text begins with this word, and then comes a space or a newline.
pub(crate) fn begins(word: &[u8], text: &[u8]) -> bool
    ensures value { result ≡ begins word.now text.now }
{
    let is_word = text.starts_with(word);
    let ends = ends_word(text, word.len());
    is_word && ends
}

/// Whether a space or a newline stands there.
fn ends_word(text: &[u8], at: usize) -> bool
    ensures value { result
        ≡ (slice_index_or text.now at 0 == 32 || slice_index_or text.now at 0 == 10) }
{
    match text.get(at) {
        Some(b) => *b == b' ' || *b == b'\n',
        None => false,
    }
}

#[tactic(auto, unfolding(crate::specs::Frames::frame_line))]
/// The bytes of a frame line with its newline, or what is wrong with it.
pub(crate) fn frame_line(text: &[u8]) -> Result<usize, Y4mKind>
    ensures value { result ≡ frame_line text.now }
    ensures within { IfOk result (λ n. n ≤ length text.now) }
    ensures most { IfOk result (λ n. n ≤ 1024) }
{
    let Some(n) = line_length(text) else {
        return Err(Y4mKind::Line);
    };
    if begins(b"FRAME", text) {
        Ok(n + 1)
    } else {
        Err(Y4mKind::Frame)
    }
}
