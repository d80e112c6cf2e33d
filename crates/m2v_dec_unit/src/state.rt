//! What the headers in force say of what follows, and what a part of the stream does to them.
ghost use Rattle.std.specs.Prelude.{◌≡◌, ◌+◌, ◌*◌, ◌/◌, ◌||◌, is_some, ◌<◌, ◌≤◌, ◌^◌, Some, if◌then◌else◌};
ghost use Rattle.m2v_plane.specs.Sizes.{IsSize};
ghost use Rattle.m2v_model.specs.m2v_macroblock.Conditions.{IsPicture};
ghost use Rattle.m2v_model.specs.States as states;
ghost use Rattle.m2v_dec_unit.specs.declared.header.Header.TheVariants.{Picture};
ghost use Rattle.m2v_dec_unit.specs.Among.{HeaderFits, AreMatrices};

use m2v_head::{PictureExtension, PictureInfo};
use m2v_model::macro_library::PictureContext;
use m2v_model::{FirstField, Open, Sequence, SliceSetup, State};

// ---- questions

/// Whether a picture is a frame, and not a field (table 6-14).
fn is_frame(extension: &PictureExtension) -> bool
    ensures { result ≡ states.is_frame extension.now }
{
    extension.structure == 3
}

/// How many macroblock rows a picture has: a frame's, or those of a field.
pub fn picture_rows(s: &Sequence, p: &Open) -> u64
    ensures value { result ≡ states.picture_rows s.now p.now }
    ensures below { result < 2 ^ 30 }
{
    let rows = s.rows();
    if is_frame(&p.extension) {
        rows
    } else {
        rows / 2
    }
}

/// How many macroblocks a picture has (clause 6.3.3).
fn macroblocks_in(s: &Sequence, p: &Open) -> u64
    ensures { result ≡ states.columns_of s.now * states.picture_rows s.now p.now }
{
    s.columns() * picture_rows(s, p)
}

/// Whether each macroblock of the picture that is open was read, unless its slices stay unread.
pub fn is_complete(sequence: &Option<Sequence>, picture: &Option<Open>) -> bool
    ensures { result ≡ states.is_complete sequence.now picture.now }
{
    match (sequence, picture) {
        (Some(s), Some(p)) => p.slices_unread || u64::from(p.covered) == macroblocks_in(s, p),
        _ => true,
    }
}

/// Whether a quant matrix extension may stand here: behind a picture coding extension and before the first slice.
pub fn takes_matrices(picture: &Option<Open>) -> bool
    ensures { result ≡ states.takes_matrices picture.now }
{
    match picture {
        Some(p) => !p.has_slice,
        None => false,
    }
}

/// Whether a sequence says the size, scan and chroma format of the first (clause 6.1.1.6).
pub fn is_same_sequence(first: &Option<Sequence>, s: &Sequence) -> bool
    ensures { result ≡ states.is_same_sequence first.now s.now }
{
    match first {
        Some(first) => {
            first.width() == s.width()
                && first.height() == s.height()
                && first.extension.progressive_sequence == s.extension.progressive_sequence
                && first.extension.chroma_format == s.extension.chroma_format
        }
        None => true,
    }
}

/// Whether the sequence header in force is that of a progressive sequence.
pub fn is_progressive(sequence: &Option<Sequence>) -> bool
    ensures { result ≡ states.is_progressive sequence.now }
{
    match sequence {
        Some(s) => s.extension.progressive_sequence,
        None => false,
    }
}

/// Whether a second field may have a type: I or P behind I, else that of the first field (clause 6.1.1.4.1).
fn may_follow(first: u8, kind: u8) -> bool
    ensures { result ≡ states.may_follow first kind }
{
    kind == first || (first == 1 && kind == 2)
}

/// Whether a picture is the second field, where one is due: a field of the other parity and of a type that may follow.
pub fn is_second_field_due(
    waiting: &Option<FirstField>,
    info: &PictureInfo,
    extension: &PictureExtension,
) -> bool
    ensures { result ≡ states.is_second_field_due waiting.now info.now extension.now }
{
    match waiting {
        Some(first) => {
            !is_frame(extension)
                && extension.structure != first.structure
                && may_follow(first.kind, info.kind)
        }
        None => true,
    }
}

/// Whether a picture that is P has an anchor, or is a second field.
pub fn has_anchor(st: &State, info: &PictureInfo) -> bool
    ensures { result ≡ states.has_anchor st.now info.now }
{
    info.kind != 2 || st.waiting.is_some() || 1 <= st.anchors
}

// ---- a picture that begins

/// Whether a picture of a type is dropped: a B picture where fewer than two anchors were decoded, unless one was and
/// the group is closed.
fn drops(st: &State, kind: u8) -> bool
    ensures { result ≡ states.drops st.now kind }
{
    kind == 3 && !(2 <= st.anchors || (st.anchors == 1 && st.closed_gop))
}

/// Whether the forward reference of a picture has a field, 1 top or 2 bottom (clause 7.6.2.1).
fn has_forward(st: &State, kind: u8, structure: u8, field: u8) -> bool
    ensures { result ≡ states.has_forward st.now kind structure field }
{
    if kind == 2 {
        return 1 <= st.anchors || (st.waiting.is_some() && structure != field);
    }
    kind == 3 && 2 <= st.anchors
}

/// Which fields of its references a picture has: forward top, forward bottom, backward top, backward bottom.
fn references_for(st: &State, kind: u8, structure: u8) -> [bool; 4]
    ensures { result ≡ states.references_for st.now kind structure }
{
    let top = has_forward(st, kind, structure, 1);
    let bottom = has_forward(st, kind, structure, 2);
    let backward = kind == 3 && 1 <= st.anchors;
    [top, bottom, backward, backward]
}

/// A picture that begins here.
pub fn opened(st: &State, info: &PictureInfo, extension: &PictureExtension) -> Open
    ensures { result ≡ states.opened st.now info.now extension.now }
{
    let dropped = drops(st, info.kind);
    Open {
        info: *info,
        extension: *extension,
        second_field: st.waiting.is_some(),
        dropped,
        slices_unread: st.headers_only || dropped,
        references: references_for(st, info.kind, extension.structure),
        has_slice: false,
        row: 0,
        covered: 0,
        large_macroblocks: 0,
        crowded_row: 0,
    }
}

/// Whether a picture ends its frame: a frame, or a second field.
fn ends_frame(st: &State, extension: &PictureExtension) -> bool
    ensures { result ≡ (states.is_frame extension.now || is_some st.now.waiting) }
{
    is_frame(extension) || st.waiting.is_some()
}

/// One anchor more, counted up to 2.
fn one_anchor_more(anchors: u8) -> u8
    ensures { result ≡ states.one_anchor_more anchors }
{
    if anchors < 2 { anchors + 1 } else { 2 }
}

/// How many anchors there are behind a picture's headers: a frame picture and a second field of an anchor make it one
/// more, counted up to 2.
pub fn anchors_after(st: &State, info: &PictureInfo, extension: &PictureExtension) -> u8
    ensures { result ≡ (states.after_picture st.now info.now extension.now).anchors }
{
    if ends_frame(st, extension) && info.kind != 3 {
        one_anchor_more(st.anchors)
    } else {
        st.anchors
    }
}

/// The first field that waits behind a picture's headers.
pub fn waiting_after(
    st: &State,
    info: &PictureInfo,
    extension: &PictureExtension,
) -> Option<FirstField>
    ensures { result ≡ (states.after_picture st.now info.now extension.now).waiting }
{
    if ends_frame(st, extension) {
        return None;
    }
    Some(FirstField {
        kind: info.kind,
        structure: extension.structure,
    })
}

// ---- slices

/// What the slices of a picture are read by.
#[tactic(auto, unfolding(m2v_model::specs::States::slice_setup))]
pub fn slice_setup(st: &State, s: &Sequence, p: &Open) -> SliceSetup
    requires { IsSize (states.dims_of s.now) }
    ensures value { result ≡ states.slice_setup st.now s.now p.now }
    ensures picture { AreMatrices st.now → HeaderFits (Picture p.now.info p.now.extension)
        → IsPicture result.context }
    ensures size { IsSize result.dims }
    ensures columns { result.dims.mb_width ≡ result.context.columns }
    ensures rows { states.picture_rows s.now p.now
        ≡ (if states.is_frame result.context.extension
        then result.dims.mb_rows else result.dims.mb_rows / 2) }
{
    let dims = s.dims();
    SliceSetup {
        context: PictureContext {
            kind: p.info.kind,
            second: p.second_field,
            columns: dims.mb_width,
            extension: p.extension,
            intra: st.intra,
            non_intra: st.non_intra,
        },
        dims,
        references: p.references,
    }
}

/// How many large macroblocks the first row of a picture has that has more than two, or 0: a row above that of its last
/// slice, or that one.
pub fn crowded_by(p: &Open) -> u32
    ensures { result ≡ states.crowded_by p.now }
{
    if 0 < p.crowded_row {
        p.crowded_row
    } else if 2 < p.large_macroblocks {
        p.large_macroblocks
    } else {
        0
    }
}

/// A picture behind a slice of a row: the next uncovered macroblock, and with so many large macroblocks more.
pub fn with_slice(p: &Open, row: u32, covered: u32, large: u32) -> Open
    requires { p.now.large_macroblocks + large < 2 ^ 32 }
    ensures { states.with_slice (Some p.now) row covered large ≡ Some result }
{
    let mut next = *p;
    next.has_slice = true;
    next.covered = covered;
    if row == p.row {
        next.large_macroblocks += large;
    } else {
        next.row = row;
        next.large_macroblocks = large;
        next.crowded_row = crowded_by(p);
    }
    next
}

/// A picture behind a slice of a row that stays unread.
pub fn with_unread_slice(p: &Open, row: u32) -> Open
    ensures { states.with_unread_slice (Some p.now) row ≡ Some result }
{
    let mut next = *p;
    next.has_slice = true;
    next.row = row;
    next
}
