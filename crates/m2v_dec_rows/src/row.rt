//! One macroblock row of a picture.
ghost use Rattle.std.specs.Prelude.{◌≡◌, ◌+◌, ◌*◌, ◌^◌, ◌<◌, ◌≤◌, IfOk};
ghost use Rattle.m2v_dec_piece.specs.Sound.{IsSoundPiece};
ghost use Rattle.m2v_dec_picture.specs.Conditions.{HoldsForward, HoldsBackward, HoldReferences};
ghost use Rattle.m2v_dec_picture.specs.Reads.{seen_by};
ghost use Rattle.m2v_dec_rows.specs.Rows.{missing as missing_of, below};
ghost use Rattle.m2v_dec_rows.specs.Opened.{IsOpened, setup_of, slices_of, ending as ending_of};
ghost use Rattle.m2v_dec_rows.specs.Reads.{IsWide, TellsOwn, TellsRow, as_placed};

use crate::opened::Opened;
use crate::slice::paint;
use m2v_dec_picture::{PictureBasis, Scratch};
use m2v_dec_piece::{Fault, Piece};
use m2v_model::FaultKind;
use m2v_plane::{RefView, RowSamples};

/// The place where the picture ends, if that is reached.
#[inline(always)]
fn ending(piece: &Piece, opened: &Opened) -> Option<u64>
    requires { IsSoundPiece piece.now }
    ensures { result ≡ ending_of piece.now opened.now }
{
    match opened.fault {
        None => Some(8 * (piece.place + piece.length)),
        Some(_) => None,
    }
}

/// Reads the slices of a row, and paints them. Answers how many macroblocks of the picture are covered behind them.
fn read_own<V: RefView>(
    opened: &Opened,
    piece: &Piece,
    basis: &PictureBasis<V>,
    row: u32,
    scratch: &mut Scratch,
    out: &mut RowSamples,
) -> Result<u32, Fault>
    requires opened { IsOpened piece.now opened.now }
    requires setup { basis.now.setup.now ≡ setup_of opened.now }
    requires row { row < opened.now.rows }
    requires references { HoldReferences V.size V.Holds basis.now }
    requires wide { IsWide basis.now.setup.now out.old }
    ensures exact { TellsOwn basis.now.setup.now
        (seen_by (V.at basis.now.forward.now) (V.at basis.now.backward.now)) row
        (slices_of piece.now opened.now) out.old result out.new }
    ensures covered { IfOk result (λ end. end ≤ (row + 1) * basis.now.setup.now.context.columns) }
    ensures wide { IfOk result (λ end. IsWide basis.now.setup.now out.new) }
{
    let mut covered = row * basis.setup.context.columns;
    for u in opened.slices.iter() {
        if u.row == row {
            covered = paint(piece, u, basis, covered, scratch, out)?;
        }
    }
    Ok(covered)
}

/// What is said of macroblocks that are missing in a row: by the next slice, or else where the picture ends.
fn missing<V: RefView>(
    opened: &Opened,
    piece: &Piece,
    basis: &PictureBasis<V>,
    row: u32,
    covered: u32,
    scratch: &mut Scratch,
    out: &mut RowSamples,
) -> Option<Fault>
    requires opened { IsOpened piece.now opened.now }
    requires setup { basis.now.setup.now ≡ setup_of opened.now }
    requires covered { covered ≤ 2 ^ 16 }
    requires references { HoldReferences V.size V.Holds basis.now }
    requires wide { IsWide basis.now.setup.now out.old }
    ensures { as_placed result ≡ missing_of basis.now.setup.now covered
        (below row (slices_of piece.now opened.now)) (ending_of piece.now opened.now) }
{
    for u in opened.slices.iter() {
        if row < u.row {
            return paint(piece, u, basis, covered, scratch, out).err();
        }
    }
    let place = ending(piece, opened)?;
    Some(Fault {
        kind: FaultKind::MissingMacroblocks,
        place,
    })
}

/// Reads the slices of one macroblock row of a picture, as if the rows above it were read, and paints them. None where the
/// row has no fault; then `out` has its samples, whatever it had before. `opened` is what the headers of this piece say;
/// the views hold the fields that `opened.references` names, and have the whole frame's size, as `out` has. Takes no memory.
///
/// A fault of a row is that of one of its slices, or of their coverage of the row: macroblocks that are missing at its end
/// are found by the next slice, or where the picture ends.
pub fn read_row<V: RefView>(
    opened: &Opened,
    piece: &Piece,
    row: u32,
    forward: &V,
    backward: &V,
    out: &mut RowSamples,
) -> Option<Fault>
    requires opened { IsOpened piece.now opened.now }
    requires row { row < opened.now.rows }
    requires out { out.old.dims ≡ opened.now.dims }
    requires forward { HoldsForward (setup_of opened.now) (V.size forward.now)
        (V.Holds forward.now) }
    requires backward { HoldsBackward (setup_of opened.now) (V.size backward.now)
        (V.Holds backward.now) }
    ensures exact { TellsRow (setup_of opened.now) (seen_by (V.at forward.now)
        (V.at backward.now)) row (slices_of piece.now opened.now) (ending_of piece.now opened.now)
        out.old result out.new }
{
    let s = opened.setup();
    let basis = PictureBasis {
        setup: &s,
        forward,
        backward,
    };
    let mut scratch = Scratch::new();
    match read_own(opened, piece, &basis, row, &mut scratch, out) {
        Err(f) => Some(f),
        Ok(covered) => {
            if covered == (row + 1) * s.context.columns {
                return None;
            }
            missing(opened, piece, &basis, row, covered, &mut scratch, out)
        }
    }
}
