//! The headers of a picture: their values, and the context of its slices.
ghost use Rattle.std.specs.Prelude.{◌≡◌, ◌<◌};
ghost use Rattle.m2v_head.specs.Fits.{PictureFits, PictureExtensionFits};
ghost use Rattle.m2v_choose.specs.Own.{own_f_codes, IsOwn};
ghost use Rattle.m2v_slice.specs.Headers.{is_film, picture_of, extension_of, context_of, IsJob};

use crate::sequence::is_progressive;
use m2v_head::{PictureExtension, PictureInfo};
use m2v_macroblock::macro_library::PictureContext;
use m2v_order::{PictureJob, repeat_first_field, top_field_first};
use m2v_quant::default_matrix;
use m2v_set::{Passed, Settings};

/// The picture header, with a delay of so many ticks of 1/90,000 s.
#[tactic(auto, unfolding(crate::specs::Headers::picture_of))]
pub fn picture(job: &PictureJob, delay: u32) -> PictureInfo
    requires job { IsJob job.now }
    requires delay { delay < 65536 }
    ensures value { result ≡ picture_of job.now delay }
    ensures fits { PictureFits result }
{
    PictureInfo {
        temporal_reference: job.frame,
        kind: job.kind,
        vbv_delay: delay,
        full_pel_forward: false,
        forward_f_code: if job.kind == 1 { 0 } else { 7 },
        full_pel_backward: false,
        backward_f_code: if job.kind == 3 { 7 } else { 0 },
    }
}

/// Whether frames were shot as frames.
#[tactic(auto, unfolding(crate::specs::Headers::is_film))]
fn film(settings: &Settings) -> bool
    ensures value { result ≡ is_film settings.now }
{
    is_progressive(settings.scan) || settings.pulldown
}

/// The f_codes of a direction.
fn f_codes(occur: bool) -> [u8; 2]
    ensures value { result ≡ own_f_codes occur }
{
    if occur { [2, 2] } else { [15, 15] }
}

/// The picture coding extension.
#[tactic(auto, unfolding(crate::specs::Headers::extension_of))]
pub fn picture_extension(settings: &Settings, job: &PictureJob) -> PictureExtension
    requires job { IsJob job.now }
    ensures value { result ≡ extension_of settings.now job.now }
    ensures fits { PictureExtensionFits result }
{
    let film = film(settings);
    PictureExtension {
        f_code: [
            f_codes(job.kind == 2 || job.kind == 3),
            f_codes(job.kind == 3),
        ],
        dc_precision: 0,
        structure: job.structure,
        top_field_first: top_field_first(settings, job.display),
        frame_pred_frame_dct: film,
        concealment: false,
        q_scale_type: false,
        intra_vlc_format: false,
        alternate_scan: !film,
        repeat_first_field: repeat_first_field(settings, job.display),
        chroma_420_type: film,
        progressive_frame: film,
        composite: None,
    }
}

/// The context in which the slices of a picture are coded.
#[tactic(auto, unfolding(crate::specs::Headers::context_of, crate::specs::Headers::extension_of, m2v_set::specs::Numbers::dims_of))]
pub fn picture_context(settings: &Passed, job: &PictureJob) -> PictureContext
    requires job { IsJob job.now }
    ensures value { result ≡ context_of settings.now job.now }
    ensures own { IsOwn result }
{
    let known = settings.settings();
    PictureContext {
        kind: job.kind,
        second: job.structure == 2,
        columns: settings.dims().mb_width,
        extension: picture_extension(known, job),
        intra: default_matrix(true),
        non_intra: default_matrix(false),
    }
}
