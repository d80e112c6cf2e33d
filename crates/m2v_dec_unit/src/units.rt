ghost use Rattle.std.specs.Prelude.{◌≡◌, ◌+◌, ◌<◌, ◌≤◌, ◌^◌, IfOk, IfErr, Ok, length};
ghost use Rattle.m2v_head.specs.Fits.{SequenceFits, GroupFits, PictureFits, MatrixFits};
ghost use Rattle.m2v_model.specs.declared.fault.FaultKind.{FaultKind as Kind};
ghost use Rattle.m2v_model.specs.Units.{unit_bits, unit_at, inside};
ghost use Rattle.m2v_model.specs.Headers.{whole_header, sequence_in, sequence_extension_in, group_in, picture_in, picture_extension_in, matrices_in};
ghost use Rattle.m2v_model.specs.Stops.{Tells};
ghost use Rattle.m2v_model.specs.Streams.{id_at};
ghost use Rattle.m2v_dec_unit.specs.Reads.{IsReadSequence, IsReadPicture};
ghost use Rattle.m2v_dec_unit.specs.Among.{TellsIn};

use crate::ahead::{end, id_ahead};
use crate::pictures::picture_extension;
use crate::reader::UnitReader;
use crate::sequences::sequence_extension;
use crate::unit::Unit;
use m2v_bits::BitReader;
use m2v_head::{
    GroupInfo, MatrixInfo, PictureExtension, PictureInfo, SequenceExtension, SequenceInfo,
};
use m2v_model::{Stop, of_head, stopped};

/// Reads a sequence header's unit behind its start code (clause 6.2.2.1).
#[tactic(auto, unfolding(m2v_model::specs::Headers::whole_header, m2v_model::specs::Headers::sequence_in, m2v_bits::specs::Syntax::renamed, m2v_bits::specs::Syntax::seq, m2v_bits::specs::Syntax::bind, m2v_bits::specs::Syntax::done))]
pub fn sequence(input: &mut BitReader) -> Result<SequenceInfo, Stop>
    ensures exact { Tells result input.new.rest ((whole_header sequence_in).read input.old.rest) }
    ensures left { IfErr result (λ e. e.left ≤ length input.old.text) }
    ensures fits { IfOk result SequenceFits }
{
    match SequenceInfo::read(input) {
        Ok(info) => {
            end(input)?;
            Ok(info)
        }
        Err(e) => Err(stopped(input, of_head(e))),
    }
}

/// Reads a group header's unit behind its start code (clause 6.2.2.6).
#[tactic(auto, unfolding(m2v_model::specs::Headers::whole_header, m2v_model::specs::Headers::group_in, m2v_bits::specs::Syntax::renamed, m2v_bits::specs::Syntax::seq, m2v_bits::specs::Syntax::bind, m2v_bits::specs::Syntax::done))]
pub fn group(input: &mut BitReader) -> Result<GroupInfo, Stop>
    ensures exact { Tells result input.new.rest ((whole_header group_in).read input.old.rest) }
    ensures left { IfErr result (λ e. e.left ≤ length input.old.text) }
    ensures fits { IfOk result GroupFits }
{
    match GroupInfo::read(input) {
        Ok(info) => {
            end(input)?;
            Ok(info)
        }
        Err(e) => Err(stopped(input, of_head(e))),
    }
}

/// Reads a picture header's unit behind its start code (clause 6.2.3).
#[tactic(auto, unfolding(m2v_model::specs::Headers::whole_header, m2v_model::specs::Headers::picture_in, m2v_bits::specs::Syntax::renamed, m2v_bits::specs::Syntax::seq, m2v_bits::specs::Syntax::bind, m2v_bits::specs::Syntax::done))]
pub fn picture(input: &mut BitReader) -> Result<PictureInfo, Stop>
    ensures exact { Tells result input.new.rest ((whole_header picture_in).read input.old.rest) }
    ensures left { IfErr result (λ e. e.left ≤ length input.old.text) }
    ensures fits { IfOk result PictureFits }
{
    match PictureInfo::read(input) {
        Ok(info) => {
            end(input)?;
            Ok(info)
        }
        Err(e) => Err(stopped(input, of_head(e))),
    }
}

/// Reads a quant matrix extension's unit behind its start code (clause 6.2.3.2).
#[tactic(auto, unfolding(m2v_model::specs::Headers::whole_header, m2v_model::specs::Headers::matrices_in, m2v_bits::specs::Syntax::renamed, m2v_bits::specs::Syntax::seq, m2v_bits::specs::Syntax::bind, m2v_bits::specs::Syntax::done))]
pub fn matrices(input: &mut BitReader) -> Result<MatrixInfo, Stop>
    ensures exact { Tells result input.new.rest ((whole_header matrices_in).read input.old.rest) }
    ensures left { IfErr result (λ e. e.left ≤ length input.old.text) }
    ensures fits { IfOk result MatrixFits }
{
    match MatrixInfo::read(input) {
        Ok(info) => {
            end(input)?;
            Ok(info)
        }
        Err(e) => Err(stopped(input, of_head(e))),
    }
}

/// A fault inside a unit, with the units that are left behind it.
fn behind(stop: Stop, units: &UnitReader) -> Stop
    requires { stop.left < 2 ^ 40 }
    ensures value { result ≡ record { kind = stop.kind; left = stop.left + unit_bits units.now } }
    ensures below { result.left < 2 ^ 41 }
{
    Stop {
        kind: stop.kind,
        left: stop.left + units.left(),
    }
}

/// Takes the next unit, where there is one.
#[tactic(auto, unfolding(m2v_model::specs::Units::unit_at))]
pub fn next_unit<'a>(units: &mut UnitReader<'a>) -> Option<Unit<'a>>
    ensures exact { (unit_at {K = Kind}).read units.old ≡ Ok (result, units.new) }
    ensures shorter { length units.new ≤ length units.old }
{
    units.next()
}

/// The id with which a unit's extension begins.
#[tactic(auto, unfolding(m2v_model::specs::Streams::id_at, m2v_model::specs::Units::inside))]
pub fn id_inside(u: &Unit, units: &UnitReader) -> Result<u32, Stop>
    ensures exact { TellsIn result units.now ((id_at u.now).read units.now) }
    ensures left { IfErr result (λ e. e.left < 2 ^ 41) }
{
    match id_ahead(&u.body()) {
        Ok(id) => Ok(id),
        Err(e) => Err(behind(e, units)),
    }
}

#[tactic(auto, unfolding(m2v_model::specs::Units::inside))]
pub fn sequence_inside(u: &Unit, units: &UnitReader) -> Result<SequenceInfo, Stop>
    ensures exact { TellsIn result units.now
        ((inside u.now (whole_header sequence_in)).read units.now) }
    ensures left { IfErr result (λ e. e.left < 2 ^ 41) }
    ensures fits { IfOk result SequenceFits }
{
    match sequence(&mut u.body()) {
        Ok(info) => Ok(info),
        Err(e) => Err(behind(e, units)),
    }
}

#[tactic(auto, unfolding(m2v_model::specs::Units::inside))]
pub fn sequence_extension_inside(
    u: &Unit,
    info: &SequenceInfo,
    units: &UnitReader,
) -> Result<SequenceExtension, Stop>
    ensures exact { TellsIn result units.now
        ((inside u.now (whole_header (sequence_extension_in info.now))).read units.now) }
    ensures left { IfErr result (λ e. e.left < 2 ^ 41) }
    ensures fits { IfOk result (IsReadSequence info.now) }
{
    match sequence_extension(&mut u.body(), info) {
        Ok(extension) => Ok(extension),
        Err(e) => Err(behind(e, units)),
    }
}

#[tactic(auto, unfolding(m2v_model::specs::Units::inside))]
pub fn group_inside(u: &Unit, units: &UnitReader) -> Result<GroupInfo, Stop>
    ensures exact { TellsIn result units.now
        ((inside u.now (whole_header group_in)).read units.now) }
    ensures left { IfErr result (λ e. e.left < 2 ^ 41) }
    ensures fits { IfOk result GroupFits }
{
    match group(&mut u.body()) {
        Ok(info) => Ok(info),
        Err(e) => Err(behind(e, units)),
    }
}

#[tactic(auto, unfolding(m2v_model::specs::Units::inside))]
pub fn picture_inside(u: &Unit, units: &UnitReader) -> Result<PictureInfo, Stop>
    ensures exact { TellsIn result units.now
        ((inside u.now (whole_header picture_in)).read units.now) }
    ensures left { IfErr result (λ e. e.left < 2 ^ 41) }
    ensures fits { IfOk result PictureFits }
{
    match picture(&mut u.body()) {
        Ok(info) => Ok(info),
        Err(e) => Err(behind(e, units)),
    }
}

#[tactic(auto, unfolding(m2v_model::specs::Units::inside))]
pub fn picture_extension_inside(
    u: &Unit,
    progressive: bool,
    info: &PictureInfo,
    units: &UnitReader,
) -> Result<PictureExtension, Stop>
    ensures exact { TellsIn result units.now
        ((inside u.now (whole_header (picture_extension_in progressive info.now))).read units.now) }
    ensures left { IfErr result (λ e. e.left < 2 ^ 41) }
    ensures fits { IfOk result (IsReadPicture info.now) }
{
    match picture_extension(&mut u.body(), progressive, info) {
        Ok(extension) => Ok(extension),
        Err(e) => Err(behind(e, units)),
    }
}

#[tactic(auto, unfolding(m2v_model::specs::Units::inside))]
pub fn matrices_inside(u: &Unit, units: &UnitReader) -> Result<MatrixInfo, Stop>
    ensures exact { TellsIn result units.now
        ((inside u.now (whole_header matrices_in)).read units.now) }
    ensures left { IfErr result (λ e. e.left < 2 ^ 41) }
    ensures fits { IfOk result MatrixFits }
{
    match matrices(&mut u.body()) {
        Ok(info) => Ok(info),
        Err(e) => Err(behind(e, units)),
    }
}
