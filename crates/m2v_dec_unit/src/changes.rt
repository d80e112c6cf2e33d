//! What a part of the stream does to the state: the headers in force, and the picture that is open.
ghost use Rattle.std.specs.Prelude.{◌≡◌, ◌+◌, ◌<◌, ◌^◌, List, ℕ, IfSome};
ghost use Rattle.m2v_head.specs.Fits.{IsLoaded, SequenceFits, MatrixFits};
ghost use Rattle.m2v_model.specs.m2v_macroblock.Conditions.{IsMatrix};
ghost use Rattle.m2v_model.specs.States as states;
ghost use Rattle.m2v_model.specs.Streams.{after};
ghost use Rattle.m2v_dec_unit.specs.Among.{HeaderFits, AreMatrices, part_of};

use crate::header::Header;
use crate::state::{anchors_after, opened, waiting_after, with_slice, with_unread_slice};
use m2v_head::{MatrixInfo, PictureExtension, PictureInfo};
use m2v_model::{Sequence, State};
use m2v_quant::default_matrix;

/// The state before anything was read.
pub fn first_state() -> State
    ensures value { result ≡ states.at_first }
    ensures matrices { AreMatrices result }
{
    State {
        first: None,
        sequence: None,
        intra: default_matrix(true),
        non_intra: default_matrix(false),
        closed_gop: false,
        anchors: 0,
        waiting: None,
        headers_only: false,
        picture: None,
    }
}

/// The matrix that is loaded, or another one.
fn loaded_or(loaded: &Option<[u8; 64]>, other: [u8; 64]) -> [u8; 64]
    ensures value { result ≡ states.loaded_or loaded.now other }
    ensures fits { IsLoaded loaded.now → IsMatrix other → IsMatrix result }
{
    match loaded {
        Some(matrix) => *matrix,
        None => other,
    }
}

/// Puts a sequence header with its extension in force.
fn enter_sequence(st: &mut State, s: &Sequence)
    ensures state { st.new ≡ states.after_sequence st.old s.now }
    ensures matrices { SequenceFits s.now.info → AreMatrices st.new }
{
    if st.first.is_none() {
        st.first = Some(*s);
    }
    st.sequence = Some(*s);
    st.intra = loaded_or(&s.info.load_intra, default_matrix(true));
    st.non_intra = loaded_or(&s.info.load_non_intra, default_matrix(false));
    st.picture = None;
}

/// Opens a picture.
fn enter_picture(st: &mut State, info: &PictureInfo, extension: &PictureExtension)
    ensures state { st.new ≡ states.after_picture st.old info.now extension.now }
{
    let picture = opened(st, info, extension);
    let anchors = anchors_after(st, info, extension);
    let waiting = waiting_after(st, info, extension);
    st.anchors = anchors;
    st.waiting = waiting;
    st.picture = Some(picture);
}

/// Puts the matrices of a quant matrix extension in force.
fn enter_matrices(st: &mut State, m: &MatrixInfo)
    ensures state { st.new ≡ states.after_matrices st.old m.now }
    ensures matrices { MatrixFits m.now → AreMatrices st.old → AreMatrices st.new }
{
    st.intra = loaded_or(&m.intra, st.intra);
    st.non_intra = loaded_or(&m.non_intra, st.non_intra);
}

/// Puts in force what stands in a unit that isn't a slice.
#[tactic(auto, unfolding(m2v_model::specs::Streams::after))]
pub fn enter(st: &mut State, header: &Header)
    ensures state { (u : List ℕ) → st.new ≡ after st.old (part_of u header.now) }
    ensures matrices { HeaderFits header.now → AreMatrices st.old → AreMatrices st.new }
{
    match header {
        Header::Sequence(s) => enter_sequence(st, s),
        Header::Group(g) => {
            st.closed_gop = g.closed_gop;
            st.picture = None;
        }
        Header::Picture(info, extension) => enter_picture(st, info, extension),
        Header::Matrices(m) => enter_matrices(st, m),
        Header::Skipped => {}
        Header::Ending => st.picture = None,
    }
}

/// Counts a slice of a row of the picture that is open: the next uncovered macroblock, and how many large ones it has.
pub fn enter_slice(st: &mut State, row: u32, covered: u32, large: u32)
    requires { IfSome st.old.picture (λ p. p.large_macroblocks + large < 2 ^ 32) }
    ensures { st.new ≡ states.after_slice st.old row covered large }
{
    if let Some(p) = &st.picture {
        let next = with_slice(p, row, covered, large);
        st.picture = Some(next);
    }
}

/// Counts a slice of a row of the picture that is open, which stays unread.
pub fn enter_unread_slice(st: &mut State, row: u32)
    ensures { st.new ≡ states.after_unread_slice st.old row }
{
    if let Some(p) = &st.picture {
        let next = with_unread_slice(p, row);
        st.picture = Some(next);
    }
}
