ghost use Rattle.std.specs.Prelude.{◌≡◌, ◌-◌, ◌≤◌, IfOk, IfErr, length, not, nat_eq, nat_le};
ghost use Rattle.m2v_head.specs.Fits.{SequenceExtensionFits};
ghost use Rattle.m2v_model.specs.Headers.{whole_header, sequence_extension_in, size_passes, size_at};
ghost use Rattle.m2v_model.specs.Looking.{number_from};
ghost use Rattle.m2v_model.specs.Stops.{Tells};
ghost use Rattle.m2v_dec_unit.specs.Reads.{IsReadSequence};

use crate::ahead::{check, end, left_of, look};
use m2v_bits::BitReader;
use m2v_head::{SequenceExtension, SequenceInfo};
use m2v_model::{FaultKind, Stop, of_head, stopped};

/// Whether a size isn't 0. It is looked at where the chroma format before it is read.
fn is_some_size(low: u32, format: Option<u32>, ext: Option<u32>) -> bool
    ensures { result ≡ size_passes (λ size. not (nat_eq size 0)) low format ext }
{
    match (format, ext) {
        (Some(format), Some(ext)) => format != 1 || u64::from(ext) * 4096 + u64::from(low) != 0,
        _ => true,
    }
}

/// Whether a size isn't above a limit.
fn is_size_within(low: u32, most: u32, format: Option<u32>, ext: Option<u32>) -> bool
    ensures { result ≡ size_passes (λ size. nat_le size most) low format ext }
{
    match (format, ext) {
        (Some(format), Some(ext)) => {
            format != 1 || u64::from(ext) * 4096 + u64::from(low) <= u64::from(most)
        }
        _ => true,
    }
}

/// The rules on a size, whose extension stands some bits on.
#[tactic(auto, unfolding(m2v_model::specs::Headers::size_at, m2v_bits::specs::Syntax::seq, m2v_bits::specs::Syntax::bind, m2v_bits::specs::Syntax::rule))]
fn check_size(
    input: &BitReader,
    low: u32,
    most: u32,
    format: Option<u32>,
    at: u64,
    from: u8,
) -> Result<(), Stop>
    ensures exact { Tells result input.now.rest
        ((size_at low most format (number_from from 2 input.now.rest)
        (at - from)).read input.now.rest) }
    ensures left { IfErr result (λ e. e.left ≤ at) }
{
    let ext = look(input, from, 2);
    let left = at.saturating_sub(u64::from(from));
    check(is_some_size(low, format, ext), FaultKind::Forbidden, left)?;
    check(
        is_size_within(low, most, format, ext),
        FaultKind::Unsupported,
        left,
    )
}

/// An extension, behind the rules that look ahead: chroma_format stands 13 bits on, and the extensions of the sizes 15
/// and 17.
#[tactic(auto, unfolding(m2v_model::specs::Headers::sequence_extension_in, m2v_bits::specs::Syntax::renamed, m2v_model::specs::Looking::look, m2v_bits::specs::Syntax::seq, m2v_bits::specs::Syntax::bind, m2v_bits::specs::Syntax::here, m2v_bits::specs::Syntax::rule))]
fn extension_in(input: &mut BitReader, info: &SequenceInfo) -> Result<SequenceExtension, Stop>
    ensures exact { Tells result input.new.rest
        ((sequence_extension_in info.now).read input.old.rest) }
    ensures text { input.new.text ≡ input.old.text }
    ensures left { IfErr result (λ e. e.left ≤ length input.old.text) }
    ensures fits { IfOk result SequenceExtensionFits }
{
    let at = left_of(input);
    let format = look(input, 13, 2);
    check_size(input, info.horizontal_size, 1920, format, at, 15)?;
    check_size(input, info.vertical_size, 1152, format, at, 17)?;
    match SequenceExtension::read(input) {
        Ok(extension) => Ok(extension),
        Err(e) => Err(stopped(input, of_head(e))),
    }
}

/// Reads a sequence extension's unit behind its start code and its sequence header (clause 6.2.2.3).
#[tactic(auto, unfolding(m2v_model::specs::Headers::whole_header, m2v_bits::specs::Syntax::seq, m2v_bits::specs::Syntax::bind, m2v_bits::specs::Syntax::done))]
pub fn sequence_extension(
    input: &mut BitReader,
    info: &SequenceInfo,
) -> Result<SequenceExtension, Stop>
    ensures exact { Tells result input.new.rest
        ((whole_header (sequence_extension_in info.now)).read input.old.rest) }
    ensures left { IfErr result (λ e. e.left ≤ length input.old.text) }
    ensures fits { IfOk result (IsReadSequence info.now) }
{
    let extension = extension_in(input, info)?;
    end(input)?;
    Ok(extension)
}
