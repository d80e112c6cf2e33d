ghost use Rattle.std.specs.Prelude.{◌≡◌, OnOk, IfOk, IfSome};
ghost use Rattle.m2v_dec_piece.specs.Sound.{IsSoundPiece};
ghost use Rattle.m2v_dec_rows.specs.Opened.{IsOpened};
ghost use Rattle.m2v_dec_rows.specs.Reads.{as_placed};
ghost use Rattle.m2v_dec_rows.specs.Headers.{TellsHeaders, IsBetween, end_of, fault_at};
ghost use Rattle.m2v_dec_rows.specs.Skims.{Skimmed, fault_of};

use crate::opening::opened;
use crate::skim::Skim;
use crate::{Memory, Opened};
use m2v_dec_piece::{DecodeError, Fault, Piece};
use m2v_dec_unit::UnitReader;
use m2v_model::{State, Stop};
use std::alloc::Global;

/// A fault with its place in the input, in bits from the first byte.
fn placed(piece: &Piece, stop: Option<Stop>) -> Option<Fault>
    requires { IsSoundPiece piece.now }
    ensures { as_placed result ≡ fault_at (end_of piece.now) (fault_of stop) }
{
    match stop {
        Some(stop) => Some(Fault {
            kind: stop.kind,
            place: (8 * (piece.place + piece.length)).saturating_sub(stop.left),
        }),
        None => None,
    }
}

/// Reads a piece as far as its headers can be read, from a state on.
fn skimmed(alloc: Global, st: &State, piece: &Piece) -> Result<(Skim, Option<Fault>), Memory>
    requires piece { IsSoundPiece piece.now }
    requires between { IsBetween st.now }
    ensures { IfOk result (λ x. Skimmed st.now piece.now x.0 x.1) }
{
    let mut state = *st;
    state.headers_only = true;
    let mut skim = Skim {
        state,
        slices: Vec::new(alloc),
    };
    let zeros = piece.length - piece.bytes.len() as u64;
    let stop = skim.units(piece, &mut UnitReader::new(&piece.bytes, zeros))?;
    Ok((skim, placed(piece, stop)))
}

/// Reads the headers of a piece, from a state between two pieces on, up to the first fault or to where no unit follows;
/// of a slice it reads the row alone. Answers the picture that is open there, whose slices `read_row`
/// reads, and leaves the state behind it; None where there is none.
///
/// # Errors
/// The first fault of the piece, where no picture is open there; want of memory.
pub fn read_headers(
    alloc: Global,
    st: &mut State,
    piece: &Piece,
) -> Result<Option<Opened>, DecodeError>
    requires piece { IsSoundPiece piece.now }
    requires between { IsBetween st.old }
    ensures exact { TellsHeaders st.old piece.now result st.new }
    ensures between { OnOk result (IsBetween st.new) }
    ensures opened { IfOk result (λ picture. IfSome picture (IsOpened piece.now)) }
{
    let (skim, fault) = skimmed(alloc, st, piece)?;
    *st = skim.state;
    st.picture = None;
    match opened(piece, skim, fault) {
        Some(picture) => Ok(Some(picture)),
        None => match fault {
            Some(fault) => Err(DecodeError::Stream(fault)),
            None => Ok(None),
        },
    }
}
