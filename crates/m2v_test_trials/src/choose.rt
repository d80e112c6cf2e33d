ghost use Rattle.std.specs.Prelude.{◌≡◌, true, false, [], ◌∷◌, pos, ◌-ℤ◌, ◌≤◌, ◌<◌};
ghost use Rattle.m2v_quant.specs.Matrices.{default_matrix as default_matrix_of};
ghost use Rattle.m2v_macroblock.specs.Conditions.{AreDc};
ghost use Rattle.m2v_choose.specs.Own.{IsOwn, IsOwnState};

use m2v_choose::{Choice, Limits, choose};
use m2v_macro::head::PictureExtension;
use m2v_macro::{PictureContext, SliceState};
use m2v_plane::{Dims, Frame};
use m2v_pred::Block16;
use m2v_quant::default_matrix;
use std::alloc::{AllocError, Global};

// One macroblock.
const SIZE: Dims = Dims {
    width: 16,
    height: 16,
    mb_width: 1,
    mb_rows: 1,
};

// What the headers say of a progressive I picture.
fn extension() -> PictureExtension
    ensures f_code { result.f_code ≡ (15 ∷ 15 ∷ []) ∷ (15 ∷ 15 ∷ []) ∷ [] }
    ensures structure { result.structure ≡ 3 }
    ensures precision { result.dc_precision ≡ 0 }
    ensures concealment { result.concealment ≡ false }
    ensures scale { result.q_scale_type ≡ false }
    ensures table { result.intra_vlc_format ≡ false }
{
    PictureExtension {
        f_code: [[15, 15], [15, 15]],
        dc_precision: 0,
        structure: 3,
        top_field_first: true,
        frame_pred_frame_dct: true,
        concealment: false,
        q_scale_type: false,
        intra_vlc_format: false,
        alternate_scan: false,
        repeat_first_field: false,
        chroma_420_type: false,
        progressive_frame: true,
        composite: None,
    }
}

// An I picture of one macroblock.
fn picture(extension: PictureExtension) -> PictureContext
    ensures kind { result.kind ≡ 1 }
    ensures columns { result.columns ≡ 1 }
    ensures extension { result.extension ≡ extension }
    ensures intra { result.intra ≡ default_matrix_of true }
    ensures non_intra { result.non_intra ≡ default_matrix_of false }
{
    PictureContext {
        kind: 1,
        second: false,
        columns: 1,
        extension,
        intra: default_matrix(true),
        non_intra: default_matrix(false),
    }
}

fn i_picture() -> PictureContext
    ensures own { IsOwn result }
    ensures kind { result.kind ≡ 1 }
    ensures columns { result.columns ≡ 1 }
{
    picture(extension())
}

// The state at the start of the first slice.
fn start(context: &PictureContext, q: u8) -> SliceState
    requires own { IsOwn context.now }
    requires least { 1 ≤ q }
    requires most { q ≤ 31 }
    ensures state { IsOwnState result }
    ensures dc { AreDc 0 result.dc }
    ensures address { result.address ≡ pos 0 -ℤ pos 1 }
{
    SliceState::at_start(context, 0, q, 0)
}

// The choice of the first macroblock of an I picture, whose references are not read.
fn chosen(q: u8, source: &Block16, unread: &Frame, context: &PictureContext) -> Choice
    requires least { 1 ≤ q }
    requires most { q ≤ 31 }
    requires own { IsOwn context.now }
    requires kind { context.now.kind ≡ 1 }
    requires columns { context.now.columns ≡ 1 }
{
    let state = start(context, q);
    let limits = Limits {
        q,
        search: 4,
        room: 4608,
        first: true,
        last: false,
        column: 0,
        row: 0,
    };
    choose(source, unread, unread, context, &state, &limits)
}

// A sample of noise around 128, of which the values lie within `strength` of each other.
fn noise(i: usize, strength: usize) -> u8
    requires i { i < 384 }
    requires strength { strength ≤ 256 }
{
    let value = (i * 7919 + 13) * (i * 104729 + 7) / 256 % 256;
    (value * strength / 256 + (128 - strength / 2)) as u8
}

// Noise of this strength, coded in an I picture.
fn coded_noise(alloc: Global, q: u8, strength: usize) -> Result<Choice, AllocError>
    requires least { 1 ≤ q }
    requires most { q ≤ 31 }
    requires strength { strength ≤ 256 }
{
    let unread = Frame::blank(alloc, SIZE)?;
    let mut block = Block16 { at: [0; 384] };
    for i in 0..384 {
        block.at[i] = noise(i, strength);
    }
    Ok(chosen(q, &block, &unread, &i_picture()))
}

// Whether a choice is intra with these first levels of its first and its last block, and so many bits.
fn is_intra(x: Choice, first: [i32; 6], last: [i32; 6], quantiser: Option<u8>, bits: u32) -> bool {
    for i in 0..6 {
        if x.levels[0].at[i] != first[i] || x.levels[5].at[i] != last[i] {
            return false;
        }
    }
    let sent = if x.syntax.kind.quant {
        Some(x.syntax.quantiser)
    } else {
        None
    };
    !x.skip && x.syntax.kind.intra && sent == quantiser && x.bits == bits
}

// The values of these three tests are printed by bench/cases/encoded_noise.py, whose choice is written from the rules alone. The loudest
// noise has 4,899 bits by quantiser 1, more than a macroblock may have, so the second quantiser is taken, and sent.
#[test]
fn noise_by_quantiser_1_that_is_too_long_takes_the_second(
    rt: HostRuntime,
) -> Result<(), AllocError> {
    let choice = coded_noise(rt.alloc(), 1, 256)?;
    assert!(rt;
        is_intra(
            choice,
            [112, -3, 2, -3, -4, 1],
            [106, -1, 2, -1, 2, 5],
            Some(9),
            1732
        )
    );
    Ok(())
}

#[test]
fn noise_by_quantiser_1_keeps_large_levels(rt: HostRuntime) -> Result<(), AllocError> {
    let choice = coded_noise(rt.alloc(), 1, 128)?;
    assert!(rt;
        is_intra(
            choice,
            [120, -12, 10, -13, -19, 3],
            [117, -5, 7, -3, 7, 21],
            None,
            3794
        )
    );
    Ok(())
}

#[test]
fn noise_by_quantiser_31_keeps_few_levels(rt: HostRuntime) -> Result<(), AllocError> {
    let choice = coded_noise(rt.alloc(), 31, 256)?;
    assert!(rt;
        is_intra(
            choice,
            [112, -1, 1, -1, -1, 0],
            [106, 0, 0, 0, 0, 1],
            None,
            745
        )
    );
    Ok(())
}
