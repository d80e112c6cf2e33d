ghost use Rattle.std.specs.Prelude.{◌≡◌, ◌≤◌, IfOk, IfErr, length, not, ◌||◌};
ghost use Rattle.m2v_head.specs.Fits.{PictureExtensionFits};
ghost use Rattle.m2v_model.specs.Headers.{whole_header, picture_extension_in, is_f_code, uses_forward as forward_is_used, f_code_at, f_codes_at};
ghost use Rattle.m2v_model.specs.Headers as headers;
ghost use Rattle.m2v_model.specs.Looking.{passes};
ghost use Rattle.m2v_model.specs.Stops.{Tells};
ghost use Rattle.m2v_dec_unit.specs.Reads.{IsReadPicture};

use crate::ahead::{check, end, left_of, look};
use m2v_bits::BitReader;
use m2v_head::{PictureExtension, PictureInfo};
use m2v_model::{FaultKind, Stop, of_head, stopped};

/// Whether forward vectors stand in a picture: in P and B pictures, and in any with concealment vectors.
fn uses_forward(kind: u8, concealment: Option<u32>) -> bool
    ensures { result ≡ forward_is_used kind concealment }
{
    match concealment {
        Some(concealment) => kind != 1 || concealment == 1,
        None => kind != 1,
    }
}

/// Whether an f_code may stand where it does: one that is used is from 1 to 9 (table 7-7).
fn is_allowed(used: bool, code: Option<u32>) -> bool
    ensures { result ≡ (not used || passes is_f_code code) }
{
    match code {
        Some(code) => !used || (1 <= code && code <= 9),
        None => true,
    }
}

/// The rule on the f_code that stands some bits on.
#[tactic(auto, unfolding(m2v_model::specs::Headers::f_code_at, m2v_model::specs::Looking::look, m2v_bits::specs::Syntax::seq, m2v_bits::specs::Syntax::bind, m2v_bits::specs::Syntax::rule))]
fn check_f_code(input: &BitReader, used: bool, at: u64, from: u8) -> Result<(), Stop>
    ensures exact { Tells result input.now.rest ((f_code_at used at from).read input.now.rest) }
    ensures left { IfErr result (λ e. e.left ≤ at) }
{
    let allowed = is_allowed(used, look(input, from, 4));
    check(
        allowed,
        FaultKind::Forbidden,
        at.saturating_sub(u64::from(from)),
    )
}

/// The rules on the four f_codes.
#[tactic(auto, unfolding(m2v_model::specs::Headers::f_codes_at, m2v_model::specs::Looking::look, m2v_bits::specs::Syntax::seq, m2v_bits::specs::Syntax::bind, m2v_bits::specs::Syntax::rule))]
fn check_f_codes(input: &BitReader, kind: u8, at: u64) -> Result<(), Stop>
    ensures exact { Tells result input.now.rest ((f_codes_at kind at).read input.now.rest) }
    ensures left { IfErr result (λ e. e.left ≤ at) }
{
    let forward = uses_forward(kind, look(input, 26, 1));
    let backward = kind == 3;
    check_f_code(input, forward, at, 4)?;
    check_f_code(input, forward, at, 8)?;
    check_f_code(input, backward, at, 12)?;
    check_f_code(input, backward, at, 16)
}

/// Whether picture_structure may stand in a picture: 0 is reserved, and progressive sequences have no field pictures.
fn is_structure(progressive: bool, structure: Option<u32>) -> bool
    ensures { result ≡ passes (headers.is_structure progressive) structure }
{
    match structure {
        Some(structure) => structure != 0 && (!progressive || structure == 3),
        None => true,
    }
}

/// An extension, behind the rules that look ahead: the f_codes stand 4 to 16 bits on, and picture_structure 22.
#[tactic(auto, unfolding(m2v_model::specs::Headers::picture_extension_in, m2v_bits::specs::Syntax::renamed, m2v_model::specs::Looking::look, m2v_bits::specs::Syntax::seq, m2v_bits::specs::Syntax::bind, m2v_bits::specs::Syntax::here, m2v_bits::specs::Syntax::rule))]
fn extension_in(
    input: &mut BitReader,
    progressive: bool,
    info: &PictureInfo,
) -> Result<PictureExtension, Stop>
    ensures exact { Tells result input.new.rest
        ((picture_extension_in progressive info.now).read input.old.rest) }
    ensures text { input.new.text ≡ input.old.text }
    ensures left { IfErr result (λ e. e.left ≤ length input.old.text) }
    ensures fits { IfOk result PictureExtensionFits }
{
    let at = left_of(input);
    check_f_codes(input, info.kind, at)?;
    let allowed = is_structure(progressive, look(input, 22, 2));
    check(allowed, FaultKind::Forbidden, at.saturating_sub(22))?;
    match PictureExtension::read(input) {
        Ok(extension) => Ok(extension),
        Err(e) => Err(stopped(input, of_head(e))),
    }
}

/// Reads a picture coding extension's unit behind its start code and its picture header (clause 6.2.3.1), in a
/// progressive sequence or not.
#[tactic(auto, unfolding(m2v_model::specs::Headers::whole_header, m2v_bits::specs::Syntax::seq, m2v_bits::specs::Syntax::bind, m2v_bits::specs::Syntax::done))]
pub fn picture_extension(
    input: &mut BitReader,
    progressive: bool,
    info: &PictureInfo,
) -> Result<PictureExtension, Stop>
    ensures exact { Tells result input.new.rest
        ((whole_header (picture_extension_in progressive info.now)).read input.old.rest) }
    ensures left { IfErr result (λ e. e.left ≤ length input.old.text) }
    ensures fits { IfOk result (IsReadPicture info.now) }
{
    let extension = extension_in(input, progressive, info)?;
    end(input)?;
    Ok(extension)
}
