//! Each header read: the elements that several have, and then header by header (clauses 6.2.2 to 6.2.4).
ghost use Rattle.std.specs.Prelude.{◌≡◌, ◌<◌, ◌≤◌, ◌^◌, false, IfOk, IfSome, IfNone, None};
ghost use Rattle.m2v_bits.specs.Syntax.{Gives, choose, done};
ghost use Rattle.m2v_head.specs.Elements.{id_at, information_at, loaded_at, marker_at, matrix_at, pair_at, pairs_at, some_at};
ghost use Rattle.m2v_head.specs.Fits.{AreFCodes, GroupFits, IsLoaded, MatrixFits, PictureExtensionFits, PictureFits, SequenceExtensionFits, SequenceFits, SliceFits};
ghost use Rattle.m2v_head.specs.Headers.{chroma_format_at, composite_at, display_at, f_codes_at, group_at, intra_slice_at, kind_at, matrices_at, picture_at, picture_extension_at, sequence_at, sequence_extension_at, slice_at, vectors_at};

use crate::fault::HeadFault;
use crate::fault::HeadFault::Truncated;
use crate::group::GroupInfo;
use crate::matrix::MatrixInfo;
use crate::picture::{PictureExtension, PictureInfo};
use crate::sequence::{SequenceExtension, SequenceInfo};
use crate::slice::SliceInfo;
use m2v_bits::{BitReader, check, flag, number};
use m2v_quant::scan;

/// A marker, which is 1.
#[tactic(auto, unfolding(crate::specs::Elements::marker_at, m2v_bits::specs::Syntax::seq, m2v_bits::specs::Syntax::bind, m2v_bits::specs::Syntax::here))]
pub fn marker(input: &mut BitReader) -> Result<(), HeadFault>
    ensures exact { Gives result input.new.rest (marker_at.read input.old.rest) }
    ensures text { input.new.text ≡ input.old.text }
{
    let at = input.fork();
    let bit = number(input, 1, Truncated)?;
    check(input, &at, bit == 1, HeadFault::BadMarker)
}

/// The id of an extension.
#[tactic(auto, unfolding(crate::specs::Elements::id_at, m2v_bits::specs::Syntax::seq, m2v_bits::specs::Syntax::bind, m2v_bits::specs::Syntax::here))]
pub fn id(input: &mut BitReader, own: u32) -> Result<(), HeadFault>
    ensures exact { Gives result input.new.rest ((id_at own).read input.old.rest) }
    ensures text { input.new.text ≡ input.old.text }
{
    let at = input.fork();
    let id = number(input, 4, Truncated)?;
    check(input, &at, id == own, HeadFault::NoCode)
}

/// A number of n bits that isn't 0; `field` is the element's number in its header.
#[tactic(auto, unfolding(crate::specs::Elements::some_at, m2v_bits::specs::Syntax::seq, m2v_bits::specs::Syntax::bind, m2v_bits::specs::Syntax::here, m2v_bits::specs::Syntax::done))]
pub fn some(input: &mut BitReader, field: u8, n: u8) -> Result<u32, HeadFault>
    requires { n ≤ 32 }
    ensures exact { Gives result input.new.rest ((some_at field n).read input.old.rest) }
    ensures below { IfOk result (λ v. v < 2 ^ n) }
    ensures some { IfOk result (λ v. 1 ≤ v) }
    ensures text { input.new.text ≡ input.old.text }
{
    let at = input.fork();
    let v = number(input, n, Truncated)?;
    check(input, &at, v != 0, HeadFault::Forbidden { field })?;
    Ok(v)
}

/// The eight bits of extra information behind a 1.
#[tactic(auto, unfolding(crate::specs::Elements::information_at, m2v_bits::specs::Syntax::seq, m2v_bits::specs::Syntax::bind, m2v_bits::specs::Syntax::done))]
fn information(input: &mut BitReader) -> Result<(bool, ()), HeadFault>
    ensures exact { Gives result input.new.rest (information_at.read input.old.rest) }
    ensures text { input.new.text ≡ input.old.text }
{
    number(input, 8, Truncated)?;
    Ok((true, ()))
}

/// A 1 and eight bits, or the 0 behind the last of them. Whether it was a pair.
#[tactic(auto, unfolding(crate::specs::Elements::pair_at, m2v_bits::specs::Syntax::seq, m2v_bits::specs::Syntax::bind, m2v_bits::specs::Syntax::choose, m2v_bits::specs::Syntax::done))]
fn pair(input: &mut BitReader) -> Result<(bool, ()), HeadFault>
    ensures exact { Gives result input.new.rest ((pair_at tt).read input.old.rest) }
    ensures text { input.new.text ≡ input.old.text }
{
    let more = flag(input, Truncated)?;
    if more {
        return information(input);
    }
    Ok((false, ()))
}

/// Passes over pairs of a 1 and eight bits, and the closing 0.
pub fn pairs(input: &mut BitReader) -> Result<(), HeadFault>
    ensures exact { Gives result input.new.rest (pairs_at.read input.old.rest) }
    ensures text { input.new.text ≡ input.old.text }
{
    while pair(input)?.0 {}
    Ok(())
}

/// Reads the flag of a matrix, and the matrix where it is set; `field` is the flag's number in its header.
#[tactic(auto, unfolding(crate::specs::Elements::loaded_at, m2v_bits::specs::Syntax::seq, m2v_bits::specs::Syntax::bind, m2v_bits::specs::Syntax::choose, m2v_bits::specs::Syntax::done))]
pub fn loaded(input: &mut BitReader, field: u8) -> Result<Option<[u8; 64]>, HeadFault>
    ensures exact { Gives result input.new.rest ((loaded_at field).read input.old.rest) }
    ensures fits { IfOk result IsLoaded }
    ensures text { input.new.text ≡ input.old.text }
{
    let load = flag(input, Truncated)?;
    if load {
        return matrix(input, field);
    }
    Ok(None)
}

/// Reads the 64 numbers of a matrix, which stand in zigzag order.
fn matrix(input: &mut BitReader, field: u8) -> Result<Option<[u8; 64]>, HeadFault>
    ensures exact { Gives result input.new.rest ((matrix_at field).read input.old.rest) }
    ensures fits { IfOk result IsLoaded }
    ensures text { input.new.text ≡ input.old.text }
{
    let mut numbers = [0; 64];
    for i in 0..64 {
        numbers[scan(false, i) as usize] = some(input, field, 8)? as u8;
    }
    Ok(Some(numbers))
}

impl SequenceInfo {
    /// Reads a header. Where an element breaks a rule, the reader stays at it: `Truncated`, `BadMarker`, or
    /// `Forbidden` at a number of a matrix that is 0.
    #[tactic(auto, unfolding(crate::specs::Headers::sequence_at, m2v_bits::specs::Syntax::seq, m2v_bits::specs::Syntax::bind, m2v_bits::specs::Syntax::done))]
    pub fn read(input: &mut BitReader) -> Result<Self, HeadFault>
        ensures exact { Gives result input.new.rest (sequence_at.read input.old.rest) }
        ensures fits { IfOk result SequenceFits }
        ensures text { input.new.text ≡ input.old.text }
    {
        let horizontal_size = number(input, 12, Truncated)?;
        let vertical_size = number(input, 12, Truncated)?;
        let aspect = number(input, 4, Truncated)? as u8;
        let frame_rate_code = number(input, 4, Truncated)? as u8;
        let bit_rate = number(input, 18, Truncated)?;
        marker(input)?;
        let vbv_buffer_size = number(input, 10, Truncated)?;
        let constrained = flag(input, Truncated)?;
        let load_intra = loaded(input, 9)?;
        let load_non_intra = loaded(input, 10)?;
        Ok(SequenceInfo {
            horizontal_size,
            vertical_size,
            aspect,
            frame_rate_code,
            bit_rate,
            vbv_buffer_size,
            constrained,
            load_intra,
            load_non_intra,
        })
    }
}

impl SequenceExtension {
    /// Reads an extension, its id first. Where an element breaks a rule, the reader stays at it.
    #[tactic(auto, unfolding(crate::specs::Headers::sequence_extension_at, m2v_bits::specs::Syntax::seq, m2v_bits::specs::Syntax::bind, m2v_bits::specs::Syntax::done))]
    pub fn read(input: &mut BitReader) -> Result<Self, HeadFault>
        ensures exact { Gives result input.new.rest (sequence_extension_at.read input.old.rest) }
        ensures fits { IfOk result SequenceExtensionFits }
        ensures text { input.new.text ≡ input.old.text }
    {
        id(input, 1)?;
        let profile_and_level = number(input, 8, Truncated)? as u8;
        let progressive_sequence = flag(input, Truncated)?;
        let chroma_format = chroma_format(input)?;
        let horizontal_ext = number(input, 2, Truncated)? as u8;
        let vertical_ext = number(input, 2, Truncated)? as u8;
        let bit_rate_ext = number(input, 12, Truncated)?;
        marker(input)?;
        let vbv_ext = number(input, 8, Truncated)? as u8;
        let low_delay = flag(input, Truncated)?;
        let rate_n = number(input, 2, Truncated)? as u8;
        let rate_d = number(input, 5, Truncated)? as u8;
        Ok(SequenceExtension {
            profile_and_level,
            progressive_sequence,
            chroma_format,
            horizontal_ext,
            vertical_ext,
            bit_rate_ext,
            vbv_ext,
            low_delay,
            rate_n,
            rate_d,
        })
    }
}

/// Reads chroma_format, which is 1.
#[tactic(auto, unfolding(crate::specs::Headers::chroma_format_at, m2v_bits::specs::Syntax::seq, m2v_bits::specs::Syntax::bind, m2v_bits::specs::Syntax::here, m2v_bits::specs::Syntax::done))]
fn chroma_format(input: &mut BitReader) -> Result<u8, HeadFault>
    ensures exact { Gives result input.new.rest (chroma_format_at.read input.old.rest) }
    ensures value { IfOk result (λ v. v ≡ 1) }
    ensures text { input.new.text ≡ input.old.text }
{
    let at = input.fork();
    let value = number(input, 2, Truncated)?;
    check(input, &at, value != 0, HeadFault::Forbidden { field: 4 })?;
    check(
        input,
        &at,
        value == 1,
        HeadFault::Unsupported { field: 4, value },
    )?;
    Ok(value as u8)
}

impl GroupInfo {
    /// Reads a header. Where an element breaks a rule, the reader stays at it: `Truncated` or `BadMarker`.
    #[tactic(auto, unfolding(crate::specs::Headers::group_at, m2v_bits::specs::Syntax::seq, m2v_bits::specs::Syntax::bind, m2v_bits::specs::Syntax::done))]
    pub fn read(input: &mut BitReader) -> Result<Self, HeadFault>
        ensures exact { Gives result input.new.rest (group_at.read input.old.rest) }
        ensures fits { IfOk result GroupFits }
        ensures text { input.new.text ≡ input.old.text }
    {
        let drop = flag(input, Truncated)?;
        let hours = number(input, 5, Truncated)? as u8;
        let minutes = number(input, 6, Truncated)? as u8;
        marker(input)?;
        let seconds = number(input, 6, Truncated)? as u8;
        let pictures = number(input, 6, Truncated)? as u8;
        let closed_gop = flag(input, Truncated)?;
        let broken_link = flag(input, Truncated)?;
        Ok(GroupInfo {
            drop,
            hours,
            minutes,
            seconds,
            pictures,
            closed_gop,
            broken_link,
        })
    }
}

impl PictureInfo {
    /// Reads a header and passes over extra information. Where an element breaks a rule, the reader stays at it:
    /// `Truncated`, or `Forbidden` or `Unsupported` at the type.
    #[tactic(auto, unfolding(crate::specs::Headers::picture_at, m2v_bits::specs::Syntax::seq, m2v_bits::specs::Syntax::bind, m2v_bits::specs::Syntax::done))]
    pub fn read(input: &mut BitReader) -> Result<Self, HeadFault>
        ensures exact { Gives result input.new.rest (picture_at.read input.old.rest) }
        ensures fits { IfOk result PictureFits }
        ensures text { input.new.text ≡ input.old.text }
    {
        let temporal_reference = number(input, 10, Truncated)?;
        let kind = kind(input)?;
        let vbv_delay = number(input, 16, Truncated)?;
        let (full_pel_forward, forward_f_code) = direction(input, kind != 1)?;
        let (full_pel_backward, backward_f_code) = direction(input, kind == 3)?;
        pairs(input)?;
        Ok(PictureInfo {
            temporal_reference,
            kind,
            vbv_delay,
            full_pel_forward,
            forward_f_code,
            full_pel_backward,
            backward_f_code,
        })
    }
}

/// Reads picture_coding_type: 1, 2 or 3.
#[tactic(auto, unfolding(crate::specs::Headers::kind_at, m2v_bits::specs::Syntax::seq, m2v_bits::specs::Syntax::bind, m2v_bits::specs::Syntax::here, m2v_bits::specs::Syntax::done))]
fn kind(input: &mut BitReader) -> Result<u8, HeadFault>
    ensures exact { Gives result input.new.rest (kind_at.read input.old.rest) }
    ensures range { IfOk result (λ v. (1 ≤ v) × (v ≤ 3)) }
    ensures text { input.new.text ≡ input.old.text }
{
    let at = input.fork();
    let value = number(input, 3, Truncated)?;
    let allowed = 1 <= value && value <= 4;
    check(input, &at, allowed, HeadFault::Forbidden { field: 2 })?;
    check(
        input,
        &at,
        value < 4,
        HeadFault::Unsupported { field: 2, value },
    )?;
    Ok(value as u8)
}

/// Reads what the header has of a direction, which is nothing where the picture's type doesn't have it.
#[tactic(auto, unfolding(m2v_bits::specs::Syntax::choose, m2v_bits::specs::Syntax::done))]
fn direction(input: &mut BitReader, told: bool) -> Result<(bool, u8), HeadFault>
    ensures exact { Gives result input.new.rest
        ((choose told vectors_at (done (false, 0))).read input.old.rest) }
    ensures f_code { IfOk result (λ x. x.1 < 2 ^ 3) }
    ensures untold { IfOk result (λ x. told ≡ false → (x.0 ≡ false) × (x.1 ≡ 0)) }
    ensures text { input.new.text ≡ input.old.text }
{
    if told {
        return vectors(input);
    }
    Ok((false, 0))
}

/// Reads full_pel_vector and f_code of a direction.
#[tactic(auto, unfolding(crate::specs::Headers::vectors_at, m2v_bits::specs::Syntax::seq, m2v_bits::specs::Syntax::bind, m2v_bits::specs::Syntax::done))]
fn vectors(input: &mut BitReader) -> Result<(bool, u8), HeadFault>
    ensures exact { Gives result input.new.rest (vectors_at.read input.old.rest) }
    ensures f_code { IfOk result (λ x. x.1 < 2 ^ 3) }
    ensures text { input.new.text ≡ input.old.text }
{
    let full_pel = flag(input, Truncated)?;
    let f_code = number(input, 3, Truncated)? as u8;
    Ok((full_pel, f_code))
}

impl PictureExtension {
    /// Reads an extension, its id first. Where an element breaks a rule, the reader stays at it: `Truncated`, `NoCode`
    /// at the id, or `Forbidden` at a picture_structure of 0.
    #[tactic(auto, unfolding(crate::specs::Headers::picture_extension_at, m2v_bits::specs::Syntax::seq, m2v_bits::specs::Syntax::bind, m2v_bits::specs::Syntax::done))]
    pub fn read(input: &mut BitReader) -> Result<Self, HeadFault>
        ensures exact { Gives result input.new.rest (picture_extension_at.read input.old.rest) }
        ensures fits { IfOk result PictureExtensionFits }
        ensures text { input.new.text ≡ input.old.text }
    {
        id(input, 8)?;
        let f_code = f_codes(input)?;
        let dc_precision = number(input, 2, Truncated)? as u8;
        let structure = some(input, 7, 2)? as u8;
        let top_field_first = flag(input, Truncated)?;
        let frame_pred_frame_dct = flag(input, Truncated)?;
        let concealment = flag(input, Truncated)?;
        let q_scale_type = flag(input, Truncated)?;
        let intra_vlc_format = flag(input, Truncated)?;
        let alternate_scan = flag(input, Truncated)?;
        let repeat_first_field = flag(input, Truncated)?;
        let chroma_420_type = flag(input, Truncated)?;
        let progressive_frame = flag(input, Truncated)?;
        let composite = composite(input)?;
        Ok(PictureExtension {
            f_code,
            dc_precision,
            structure,
            top_field_first,
            frame_pred_frame_dct,
            concealment,
            q_scale_type,
            intra_vlc_format,
            alternate_scan,
            repeat_first_field,
            chroma_420_type,
            progressive_frame,
            composite,
        })
    }
}

/// Reads the f_code of each direction and component.
#[tactic(auto, unfolding(crate::specs::Headers::f_codes_at, m2v_bits::specs::Syntax::seq, m2v_bits::specs::Syntax::bind, m2v_bits::specs::Syntax::done))]
fn f_codes(input: &mut BitReader) -> Result<[[u8; 2]; 2], HeadFault>
    ensures exact { Gives result input.new.rest (f_codes_at.read input.old.rest) }
    ensures fits { IfOk result AreFCodes }
    ensures text { input.new.text ≡ input.old.text }
{
    let forward_horizontal = number(input, 4, Truncated)? as u8;
    let forward_vertical = number(input, 4, Truncated)? as u8;
    let backward_horizontal = number(input, 4, Truncated)? as u8;
    let backward_vertical = number(input, 4, Truncated)? as u8;
    Ok([
        [forward_horizontal, forward_vertical],
        [backward_horizontal, backward_vertical],
    ])
}

/// Reads composite_display_flag and what stands behind it.
#[tactic(auto, unfolding(crate::specs::Headers::composite_at, m2v_bits::specs::Syntax::seq, m2v_bits::specs::Syntax::bind, m2v_bits::specs::Syntax::choose, m2v_bits::specs::Syntax::done))]
fn composite(input: &mut BitReader) -> Result<Option<u32>, HeadFault>
    ensures exact { Gives result input.new.rest (composite_at.read input.old.rest) }
    ensures below { IfOk result (λ x. IfSome x (λ v. v < 2 ^ 20)) }
    ensures text { input.new.text ≡ input.old.text }
{
    let told = flag(input, Truncated)?;
    if told {
        return display(input);
    }
    Ok(None)
}

/// Reads the 20 bits behind composite_display_flag.
#[tactic(auto, unfolding(crate::specs::Headers::display_at, m2v_bits::specs::Syntax::seq, m2v_bits::specs::Syntax::bind, m2v_bits::specs::Syntax::done))]
fn display(input: &mut BitReader) -> Result<Option<u32>, HeadFault>
    ensures exact { Gives result input.new.rest (display_at.read input.old.rest) }
    ensures below { IfOk result (λ x. IfSome x (λ v. v < 2 ^ 20)) }
    ensures text { input.new.text ≡ input.old.text }
{
    let display = number(input, 20, Truncated)?;
    Ok(Some(display))
}

impl MatrixInfo {
    /// Reads an extension, its id first. Where an element breaks a rule, the reader stays at it: `Truncated`, `NoCode`
    /// at the id, or `Forbidden` at a number of a matrix that is 0.
    #[tactic(auto, unfolding(crate::specs::Headers::matrices_at, m2v_bits::specs::Syntax::seq, m2v_bits::specs::Syntax::bind, m2v_bits::specs::Syntax::done))]
    pub fn read(input: &mut BitReader) -> Result<Self, HeadFault>
        ensures exact { Gives result input.new.rest (matrices_at.read input.old.rest) }
        ensures fits { IfOk result MatrixFits }
        ensures text { input.new.text ≡ input.old.text }
    {
        id(input, 3)?;
        let intra = loaded(input, 2)?;
        let non_intra = loaded(input, 3)?;
        let chroma_intra = loaded(input, 4)?;
        let chroma_non_intra = loaded(input, 5)?;
        Ok(MatrixInfo {
            intra,
            non_intra,
            chroma_intra,
            chroma_non_intra,
        })
    }
}

impl SliceInfo {
    /// Reads a header and passes over extra information. Where an element breaks a rule, the reader stays at it:
    /// `Truncated`, or `Forbidden` at a quantiser_scale_code of 0.
    #[tactic(auto, unfolding(crate::specs::Headers::slice_at, m2v_bits::specs::Syntax::seq, m2v_bits::specs::Syntax::bind, m2v_bits::specs::Syntax::done))]
    pub fn read(input: &mut BitReader) -> Result<Self, HeadFault>
        ensures exact { Gives result input.new.rest (slice_at.read input.old.rest) }
        ensures fits { IfOk result SliceFits }
        ensures text { input.new.text ≡ input.old.text }
    {
        let quantiser = some(input, 1, 5)? as u8;
        let told = flag(input, Truncated)?;
        let (intra_slice, reserved) = intra_part(input, told)?;
        Ok(SliceInfo {
            quantiser,
            intra_slice,
            reserved,
        })
    }
}

/// What stands behind the flag: intra_slice and seven reserved bits where it is set.
#[tactic(auto, unfolding(m2v_bits::specs::Syntax::choose, m2v_bits::specs::Syntax::done))]
fn intra_part(input: &mut BitReader, told: bool) -> Result<(Option<bool>, u8), HeadFault>
    ensures exact { Gives result input.new.rest
        ((choose told intra_slice_at (done (None, 0))).read input.old.rest) }
    ensures reserved { IfOk result (λ x. x.1 < 2 ^ 7) }
    ensures untold { IfOk result (λ x. IfNone x.0 (x.1 ≡ 0)) }
    ensures text { input.new.text ≡ input.old.text }
{
    if told {
        return told_behind(input);
    }
    Ok((None, 0))
}

/// What stands behind a flag that is set.
#[tactic(auto, unfolding(crate::specs::Headers::intra_slice_at, m2v_bits::specs::Syntax::seq, m2v_bits::specs::Syntax::bind, m2v_bits::specs::Syntax::done))]
fn told_behind(input: &mut BitReader) -> Result<(Option<bool>, u8), HeadFault>
    ensures exact { Gives result input.new.rest (intra_slice_at.read input.old.rest) }
    ensures reserved { IfOk result (λ x. x.1 < 2 ^ 7) }
    ensures untold { IfOk result (λ x. IfNone x.0 (x.1 ≡ 0)) }
    ensures text { input.new.text ≡ input.old.text }
{
    let intra_slice = flag(input, Truncated)?;
    let reserved = number(input, 7, Truncated)? as u8;
    pairs(input)?;
    Ok((Some(intra_slice), reserved))
}
