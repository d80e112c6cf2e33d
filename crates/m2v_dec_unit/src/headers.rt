ghost use Rattle.std.specs.Prelude.{◌≡◌, ◌<◌, ◌≤◌, ◌^◌, IfOk, IfErr, List, ℕ, length, [], true, false, is_some};
ghost use Rattle.m2v_bits.specs.Syntax.{rule};
ghost use Rattle.m2v_model.specs.declared.fault.FaultKind.TheVariants.{MissingMacroblocks, FieldPair};
ghost use Rattle.m2v_model.specs.Units.{Units};
ghost use Rattle.m2v_model.specs.States.{is_complete as complete, none_waits};
ghost use Rattle.m2v_model.specs.Headers.{whole_header, sequence_extension_in, picture_extension_in};
ghost use Rattle.m2v_head.specs.Fits.{MatrixFits};
ghost use Rattle.m2v_model.specs.Streams.{value_of, extension_in, extension_behind, matrices, onward, «final», over, text_end};
ghost use Rattle.m2v_model.specs.Streams as streams;
ghost use Rattle.m2v_dec_unit.specs.Reads.{IsReadSequence, IsReadPicture};
ghost use Rattle.m2v_dec_unit.specs.Among.{TellsIn, TellsAs, is_slice as slice_stands, told, HeaderFits, HeaderFollows, EndsText};

use crate::ahead::check;
use crate::header::Header;
use crate::reader::UnitReader;
use crate::state::{
    has_anchor, is_complete, is_progressive, is_same_sequence, is_second_field_due, takes_matrices,
};
use crate::unit::Unit;
use crate::units::{
    group_inside, id_inside, matrices_inside, next_unit, picture_extension_inside, picture_inside,
    sequence_extension_inside, sequence_inside,
};
use m2v_head::{MatrixInfo, PictureExtension, PictureInfo, SequenceExtension, SequenceInfo};
use m2v_model::{FaultKind, Sequence, State, Stop};

/// The picture that is open ends here, with each of its macroblocks read.
fn close(st: &State, start: u64) -> Result<(), Stop>
    ensures held { IfOk result (λ done. complete st.now.sequence st.now.picture ≡ true) }
    ensures broken { IfErr result (λ e. (complete st.now.sequence st.now.picture ≡ false)
        × (e ≡ record { kind = MissingMacroblocks; left = start })) }
{
    let complete = is_complete(&st.sequence, &st.picture);
    check(complete, FaultKind::MissingMacroblocks, start)
}

/// No first field waits for its second.
fn no_second_field_due(st: &State, start: u64) -> Result<(), Stop>
    ensures held { IfOk result (λ done. none_waits st.now.waiting ≡ true) }
    ensures broken { IfErr result (λ e. (none_waits st.now.waiting ≡ false)
        × (e ≡ record { kind = FieldPair; left = start })) }
{
    check(st.waiting.is_none(), FaultKind::FieldPair, start)
}

/// A sequence extension in the unit behind a sequence header, whose id must be 1.
#[tactic(auto, unfolding(m2v_model::specs::Streams::extension_in, m2v_bits::specs::Syntax::seq, m2v_bits::specs::Syntax::bind, m2v_bits::specs::Syntax::rule))]
fn sequence_extension_in(
    v: &Unit,
    start: u64,
    info: &SequenceInfo,
    units: &UnitReader,
) -> Result<SequenceExtension, Stop>
    requires { start < 2 ^ 41 }
    ensures exact { TellsIn result units.now
        ((extension_in 1 v.now start
        (whole_header (sequence_extension_in info.now))).read units.now) }
    ensures left { IfErr result (λ e. e.left < 2 ^ 41) }
    ensures fits { IfOk result (IsReadSequence info.now) }
{
    let id = id_inside(v, units)?;
    check(id == 1, FaultKind::NotMpeg2, start)?;
    sequence_extension_inside(v, info, units)
}

/// The unit behind a sequence header, which must be a sequence extension.
#[tactic(auto, unfolding(m2v_model::specs::Streams::extension_behind, m2v_model::specs::Looking::refuse, m2v_bits::specs::Syntax::choose))]
fn sequence_extension_behind(
    v: &Option<Unit>,
    start: u64,
    info: &SequenceInfo,
    units: &UnitReader,
) -> Result<SequenceExtension, Stop>
    requires { start < 2 ^ 41 }
    ensures exact { TellsIn result units.now
        ((extension_behind 1 v.now start
        (whole_header (sequence_extension_in info.now))).read units.now) }
    ensures left { IfErr result (λ e. e.left < 2 ^ 41) }
    ensures fits { IfOk result (IsReadSequence info.now) }
{
    if let Some(v) = v {
        if v.value() == 0xB5 {
            return sequence_extension_in(v, start, info, units);
        }
    }
    Err(Stop {
        kind: FaultKind::NotMpeg2,
        left: start,
    })
}

/// A sequence header and its extension; changes are looked at behind both.
#[tactic(auto, unfolding(m2v_model::specs::Streams::sequence_unit, m2v_model::specs::Streams::close, m2v_model::specs::Streams::no_second_field_due, m2v_model::specs::Streams::onward, m2v_bits::specs::Syntax::seq, m2v_bits::specs::Syntax::bind, m2v_bits::specs::Syntax::here, m2v_bits::specs::Syntax::rule, m2v_bits::specs::Syntax::done))]
fn sequence_unit(st: &State, start: u64, u: &Unit, units: &mut UnitReader) -> Result<Header, Stop>
    requires { start < 2 ^ 41 }
    ensures exact { TellsAs (told u.now) result units.new
        ((onward (streams.sequence_unit st.now start u.now)).read units.old) }
    ensures shorter { length units.new ≤ length units.old }
    ensures left { IfErr result (λ e. e.left < 2 ^ 41) }
    ensures fits { IfOk result HeaderFits }
    ensures follows { IfOk result (HeaderFollows st.now) }
{
    close(st, start)?;
    no_second_field_due(st, start)?;
    let info = sequence_inside(u, units)?;
    let next = units.left();
    let v = next_unit(units);
    let extension = sequence_extension_behind(&v, next, &info, units)?;
    let sequence = Sequence { info, extension };
    let same = is_same_sequence(&st.first, &sequence);
    check(same, FaultKind::SequenceChanged, start)?;
    Ok(Header::Sequence(sequence))
}

#[tactic(auto, unfolding(m2v_model::specs::Streams::group_unit, m2v_model::specs::Streams::close, m2v_model::specs::Streams::no_second_field_due, m2v_model::specs::Streams::onward, m2v_bits::specs::Syntax::seq, m2v_bits::specs::Syntax::bind, m2v_bits::specs::Syntax::rule, m2v_bits::specs::Syntax::done))]
fn group_unit(st: &State, start: u64, u: &Unit, units: &UnitReader) -> Result<Header, Stop>
    requires { start < 2 ^ 41 }
    ensures exact { TellsAs (told u.now) result units.now
        ((onward (streams.group_unit st.now start u.now)).read units.now) }
    ensures left { IfErr result (λ e. e.left < 2 ^ 41) }
    ensures fits { IfOk result HeaderFits }
    ensures follows { IfOk result (HeaderFollows st.now) }
{
    close(st, start)?;
    no_second_field_due(st, start)?;
    let group = group_inside(u, units)?;
    Ok(Header::Group(group))
}

/// A picture coding extension in the unit behind a picture header, whose id must be 8.
#[tactic(auto, unfolding(m2v_model::specs::Streams::extension_in, m2v_bits::specs::Syntax::seq, m2v_bits::specs::Syntax::bind, m2v_bits::specs::Syntax::rule))]
fn picture_extension_in(
    v: &Unit,
    start: u64,
    progressive: bool,
    info: &PictureInfo,
    units: &UnitReader,
) -> Result<PictureExtension, Stop>
    requires { start < 2 ^ 41 }
    ensures exact { TellsIn result units.now
        ((extension_in 8 v.now start
        (whole_header (picture_extension_in progressive info.now))).read units.now) }
    ensures left { IfErr result (λ e. e.left < 2 ^ 41) }
    ensures fits { IfOk result (IsReadPicture info.now) }
{
    let id = id_inside(v, units)?;
    check(id == 8, FaultKind::NotMpeg2, start)?;
    picture_extension_inside(v, progressive, info, units)
}

/// The unit behind a picture header, which must be a picture coding extension.
#[tactic(auto, unfolding(m2v_model::specs::Streams::extension_behind, m2v_model::specs::Looking::refuse, m2v_bits::specs::Syntax::choose))]
fn picture_extension_behind(
    v: &Option<Unit>,
    start: u64,
    progressive: bool,
    info: &PictureInfo,
    units: &UnitReader,
) -> Result<PictureExtension, Stop>
    requires { start < 2 ^ 41 }
    ensures exact { TellsIn result units.now
        ((extension_behind 8 v.now start
        (whole_header (picture_extension_in progressive info.now))).read units.now) }
    ensures left { IfErr result (λ e. e.left < 2 ^ 41) }
    ensures fits { IfOk result (IsReadPicture info.now) }
{
    if let Some(v) = v {
        if v.value() == 0xB5 {
            return picture_extension_in(v, start, progressive, info, units);
        }
    }
    Err(Stop {
        kind: FaultKind::NotMpeg2,
        left: start,
    })
}

/// A picture header and its picture coding extension. Behind both it is looked at that the picture is the second field
/// that is due, and that a P picture has an anchor.
#[tactic(auto, unfolding(m2v_model::specs::Streams::picture_unit, m2v_model::specs::Streams::close, m2v_model::specs::Streams::onward, m2v_bits::specs::Syntax::seq, m2v_bits::specs::Syntax::bind, m2v_bits::specs::Syntax::here, m2v_bits::specs::Syntax::rule, m2v_bits::specs::Syntax::done))]
fn picture_unit(st: &State, start: u64, u: &Unit, units: &mut UnitReader) -> Result<Header, Stop>
    requires start { start < 2 ^ 41 }
    requires known { is_some st.now.sequence ≡ true }
    ensures exact { TellsAs (told u.now) result units.new
        ((onward (streams.picture_unit st.now start u.now)).read units.old) }
    ensures shorter { length units.new ≤ length units.old }
    ensures left { IfErr result (λ e. e.left < 2 ^ 41) }
    ensures fits { IfOk result HeaderFits }
    ensures follows { IfOk result (HeaderFollows st.now) }
{
    close(st, start)?;
    let info = picture_inside(u, units)?;
    let next = units.left();
    let v = next_unit(units);
    let progressive = is_progressive(&st.sequence);
    let extension = picture_extension_behind(&v, next, progressive, &info, units)?;
    let due = is_second_field_due(&st.waiting, &info, &extension);
    check(due, FaultKind::FieldPair, start)?;
    let anchor = has_anchor(st, &info);
    check(anchor, FaultKind::MissingReference, start)?;
    Ok(Header::Picture(info, extension))
}

/// A quant matrix extension, which stands before a picture's first slice alone.
#[tactic(auto, unfolding(m2v_model::specs::Streams::matrix_unit, m2v_bits::specs::Syntax::seq, m2v_bits::specs::Syntax::bind, m2v_bits::specs::Syntax::rule, m2v_bits::specs::Syntax::done))]
fn matrix_unit(st: &State, start: u64, u: &Unit, units: &UnitReader) -> Result<MatrixInfo, Stop>
    requires { start < 2 ^ 41 }
    ensures exact { TellsAs matrices result units.now
        ((streams.matrix_unit st.now start u.now).read units.now) }
    ensures left { IfErr result (λ e. e.left < 2 ^ 41) }
    ensures fits { IfOk result MatrixFits }
{
    let allowed = takes_matrices(&st.picture);
    check(allowed, FaultKind::Forbidden, start)?;
    matrices_inside(u, units)
}

/// An extension that doesn't follow a header at once: 1 and 8 may not, 5, 9 and 10 are those of scalable streams, and
/// those with other ids are skipped.
#[tactic(auto, unfolding(m2v_model::specs::Streams::extension_unit, m2v_model::specs::Streams::onward, m2v_model::specs::Looking::refuse, m2v_bits::specs::Syntax::choose, m2v_bits::specs::Syntax::seq, m2v_bits::specs::Syntax::bind, m2v_bits::specs::Syntax::done))]
fn extension_unit(st: &State, start: u64, u: &Unit, units: &UnitReader) -> Result<Header, Stop>
    requires { start < 2 ^ 41 }
    ensures exact { TellsAs (told u.now) result units.now
        ((onward (streams.extension_unit st.now start u.now)).read units.now) }
    ensures left { IfErr result (λ e. e.left < 2 ^ 41) }
    ensures fits { IfOk result HeaderFits }
    ensures follows { IfOk result (HeaderFollows st.now) }
{
    let id = id_inside(u, units)?;
    if id == 1 || id == 8 {
        return Err(Stop {
            kind: FaultKind::Forbidden,
            left: start,
        });
    }
    if id == 3 {
        let matrices = matrix_unit(st, start, u, units)?;
        return Ok(Header::Matrices(matrices));
    }
    if id == 5 || id == 9 || id == 10 {
        return Err(Stop {
            kind: FaultKind::Unsupported,
            left: start,
        });
    }
    Ok(Header::Skipped)
}

/// The sequence end code.
#[tactic(auto, using(crate::proofs::Ends::end_stands, crate::proofs::Ends::end_broken, crate::proofs::Ends::end_waits))]
fn end_unit(st: &State, start: u64, units: &UnitReader) -> Result<Header, Stop>
    requires { start < 2 ^ 41 }
    ensures exact { (u : List ℕ) → TellsAs (told u) result units.now
        ((«final» (streams.end_unit st.now start)).read units.now) }
    ensures left { IfErr result (λ e. e.left < 2 ^ 41) }
    ensures fits { IfOk result HeaderFits }
    ensures follows { IfOk result (HeaderFollows st.now) }
{
    close(st, start)?;
    no_second_field_due(st, start)?;
    Ok(Header::Ending)
}

/// A unit behind the first sequence header that isn't a slice, by the value of its start code (table 6-1).
#[tactic(auto, unfolding(m2v_model::specs::Streams::later_unit, m2v_model::specs::Streams::onward, m2v_model::specs::Looking::refuse, m2v_bits::specs::Syntax::choose, m2v_bits::specs::Syntax::seq, m2v_bits::specs::Syntax::bind, m2v_bits::specs::Syntax::done))]
fn later_unit(
    st: &State,
    start: u64,
    value: u8,
    u: &Unit,
    units: &mut UnitReader,
) -> Result<Header, Stop>
    requires start { start < 2 ^ 41 }
    requires header { 1 ≤ value → 0xB0 ≤ value }
    requires known { is_some st.now.sequence ≡ true }
    ensures exact { TellsAs (told u.now) result units.new
        ((streams.later_unit st.now start value u.now).read units.old) }
    ensures shorter { length units.new ≤ length units.old }
    ensures left { IfErr result (λ e. e.left < 2 ^ 41) }
    ensures fits { IfOk result HeaderFits }
    ensures follows { IfOk result (HeaderFollows st.now) }
{
    match value {
        0x00 => picture_unit(st, start, u, units),
        0xB2 => Ok(Header::Skipped),
        0xB5 => extension_unit(st, start, u, units),
        0xB7 => end_unit(st, start, units),
        0xB8 => group_unit(st, start, u, units),
        0xB0 | 0xB1 | 0xB6 => Err(Stop {
            kind: FaultKind::Forbidden,
            left: start,
        }),
        _ => Err(Stop {
            kind: FaultKind::Unsupported,
            left: start,
        }),
    }
}

/// Whether a unit is a slice, which is the one kind of unit that isn't read as a header. Before the first sequence
/// header there is none.
pub fn is_slice(st: &State, u: &Unit) -> bool
    ensures { result ≡ slice_stands st.now (value_of u.now) }
{
    let value = u.value();
    st.sequence.is_some() && 1 <= value && value <= 0xAF
}

/// Reads a unit that isn't a slice, and with a sequence or picture header the extension behind it. `start` is how many
/// bits are left at the unit's start code.
///
/// # Errors
/// The first fault in reading order, with the bits that are left at its place.
#[tactic(auto, unfolding(m2v_model::specs::Streams::known_unit, m2v_bits::specs::Syntax::choose, m2v_bits::specs::Syntax::done))]
pub fn read_header(st: &State, start: u64, u: &Unit, units: &mut UnitReader) -> Result<Header, Stop>
    requires start { start < 2 ^ 41 }
    requires header { slice_stands st.now (value_of u.now) ≡ false }
    ensures exact { TellsAs (told u.now) result units.new
        ((streams.known_unit st.now start (value_of u.now) u.now).read units.old) }
    ensures shorter { length units.new ≤ length units.old }
    ensures left { IfErr result (λ e. e.left < 2 ^ 41) }
    ensures fits { IfOk result HeaderFits }
    ensures follows { IfOk result (HeaderFollows st.now) }
{
    let value = u.value();
    if value == 0xB3 {
        return sequence_unit(st, start, u, units);
    }
    if st.sequence.is_none() {
        return Ok(Header::Skipped);
    }
    later_unit(st, start, value, u, units)
}

/// The rules at the end of a piece: there was a sequence header, and the picture that is open is complete.
///
/// # Errors
/// `NoSequence` or `MissingMacroblocks`, at the piece's end.
#[tactic(auto, unfolding(m2v_model::specs::Streams::text_end, m2v_model::specs::Streams::close, m2v_bits::specs::Syntax::seq, m2v_bits::specs::Syntax::bind, m2v_bits::specs::Syntax::rule, m2v_bits::specs::Syntax::done))]
pub fn read_end(st: &State) -> Result<(), Stop>
    ensures exact { TellsAs (λ done. (false, over)) result [] ((text_end st.now 0).read []) }
    ensures left { IfErr result (λ e. e.left ≡ 0) }
{
    check(st.sequence.is_some(), FaultKind::NoSequence, 0)?;
    close(st, 0)
}

/// The rule at the end of the text that isn't one at a piece's end: no first field waits for its second.
///
/// # Errors
/// `FieldPair`, at the text's end.
#[tactic(auto, unfolding(m2v_bits::specs::Syntax::rule))]
pub fn read_text_end(st: &State) -> Result<(), Stop>
    ensures exact { (us : Units) → TellsIn result us
        ((rule (none_waits st.now.waiting) FieldPair 0).read us) }
    ensures ends { EndsText result st.now }
    ensures left { IfErr result (λ e. e.left ≡ 0) }
{
    no_second_field_due(st, 0)
}
