//! What is told of a picture that is open where reading stops.
ghost use Rattle.std.specs.Prelude.{◌≡◌, ◌+◌, ◌*◌, MatchOption, None, Some};
ghost use Rattle.m2v_model.specs.Buffering.{code_bits as code_bits_of};
ghost use Rattle.m2v_model.specs.Decoding.{low_delay_of};
ghost use Rattle.m2v_dec_piece.specs.Sound.{IsSoundPiece};
ghost use Rattle.m2v_dec_rows.specs.Opened.{whole_of};
ghost use Rattle.m2v_dec_rows.specs.Headers.{open_note};
ghost use Rattle.m2v_dec_rows.specs.Skims.{IsSoundSkim, Opens, OpensSome};

use crate::Opened;
use crate::skim::Skim;
use m2v_dec_piece::{Fault, Piece};
use m2v_dec_unit::{UnitReader, code_bits, picture_rows, slice_setup};
use m2v_model::{Open, PictureNote, Sequence};

/// What is noted of a picture that is open, and whose start code ends at a bit of the input.
fn note_of(p: &Open, code_end: u64) -> PictureNote
    ensures { result ≡ open_note code_end p.now }
{
    PictureNote {
        info: p.info,
        extension: p.extension,
        code_end,
        dropped: p.dropped,
        first: !p.second_field,
        crowded: 0,
    }
}

/// The place behind a piece's picture start code, in bits from the first byte of the input.
fn code_end(piece: &Piece) -> u64
    requires { IsSoundPiece piece.now }
    ensures { result ≡ 8 * piece.now.place + code_bits_of (whole_of piece.now) }
{
    let zeros = piece.length - piece.bytes.len() as u64;
    8 * piece.place + code_bits(&mut UnitReader::new(&piece.bytes, zeros))
}

/// low_delay of the first sequence extension.
fn low_delay(first: &Option<Sequence>) -> bool
    ensures { result ≡ low_delay_of first.now }
{
    match first {
        Some(s) => s.extension.low_delay,
        None => false,
    }
}

/// The picture that is open, in a sequence, with the fault at which reading stopped.
fn open_picture(piece: &Piece, skim: Skim, s: &Sequence, p: &Open, fault: Option<Fault>) -> Opened
    requires piece { IsSoundPiece piece.now }
    requires sound { IsSoundSkim piece.now skim }
    requires sequence { skim.state.sequence ≡ Some s.now }
    requires picture { skim.state.picture ≡ Some p.now }
    ensures { Opens piece.now skim s.now p.now fault result }
{
    let setup = slice_setup(&skim.state, s, p);
    let references = setup.references;
    Opened {
        note: note_of(p, code_end(piece)),
        context: setup.context,
        dims: setup.dims,
        low_delay: low_delay(&skim.state.first),
        rows: picture_rows(s, p) as u32,
        references,
        slices: skim.slices,
        fault,
    }
}

/// The picture that is open, if there is one.
pub fn opened(piece: &Piece, skim: Skim, fault: Option<Fault>) -> Option<Opened>
    requires piece { IsSoundPiece piece.now }
    requires sound { IsSoundSkim piece.now skim }
    ensures { MatchOption result (skim.state.picture ≡ None) (OpensSome piece.now skim fault) }
{
    match (skim.state.sequence, skim.state.picture) {
        (Some(s), Some(p)) => Some(open_picture(piece, skim, &s, &p, fault)),
        _ => None,
    }
}
