//! The piece that holds the header of a group.
ghost use Rattle.std.specs.Prelude.{◌≡◌, ◌+◌, ◌≤◌, ◌<◌, IfOk, IfErr};
ghost use Rattle.m2v_port.specs.Ends.{change};
ghost use Rattle.m2v_decode.specs.m2v_dec_piece.Cutting.{IsReading};
ghost use Rattle.m2v_decode.specs.m2v_dec_piece.Sound.{IsSoundPiece};
ghost use Rattle.m2v_decode.specs.Decoding.{whole_of};
ghost use Rattle.m2v_decode.specs.Progress.{before_all};
ghost use Rattle.m2v_cut.specs.Answers.{groups_of};
ghost use Rattle.m2v_cut.specs.Progress.{IsFound, FindFails, reading_error};

use crate::answer::CutError;
use crate::look::{count, units};
use m2v_decode::{Cutter, DecodeError, Piece};
use m2v_port::Source;
use std::alloc::Global;

/// A piece that holds the header of the group that is looked for.
#[derive(Drop)]
pub struct Found {
    pub piece: Piece,
    /// The number of this header among those of the piece.
    pub number: u64,
    /// Pieces stand before, and so pictures.
    pub behind: bool,
}

/// Why no piece was read, of the errors that a cutter answers.
pub fn reading(e: DecodeError) -> CutError
    requires { IsReading e }
    ensures { result ≡ reading_error e }
{
    match e {
        DecodeError::Read => CutError::Read,
        DecodeError::TooLong => CutError::TooLong,
        DecodeError::PictureTooLarge => CutError::PictureTooLarge,
        DecodeError::Memory => CutError::Memory,
        _ => unreachable!(),
    }
}

/// How many group headers a piece has.
fn groups_in(piece: &Piece) -> u64
    requires { IsSoundPiece piece.now }
    ensures { result ≡ groups_of (whole_of piece.now) }
{
    count(&mut units(piece)).groups
}

/// Reads piece after piece up to the one that holds the header of a group.
pub fn find<S: Source>(
    alloc: Global,
    from: u32,
    cutter: &mut Cutter,
    input: &mut S,
) -> Result<Found, CutError>
    requires cutter { cutter.old ≡ before_all }
    ensures ok { IfOk result (IsFound from
        (change S.left S.faults input.old input.new) cutter.new) }
    ensures err { IfErr result (FindFails from
        (change S.left S.faults input.old input.new)) }
    ensures input { S.faults input.old ≤ S.faults input.new }
{
    let mut before = 0;
    let mut behind = false;
    loop {
        match cutter.next_piece(alloc, input) {
            Err(e) => return Err(reading(e)),
            Ok(None) => {
                return Err(CutError::NoGroup {
                    have: before,
                    need: u64::from(from) + 1,
                });
            }
            Ok(Some(piece)) => {
                let groups = groups_in(&piece);
                let number = u64::from(from) - before;
                if number < groups {
                    return Ok(Found {
                        piece,
                        number,
                        behind,
                    });
                }
                before += groups;
                behind = true;
            }
        }
    }
}
