//! The pictures of a batch that was decoded, taken in one after another.
ghost use Rattle.std.specs.Prelude.{◌≡◌, ◌+◌, ◌^◌, ◌≤◌, IfErr, IsTrue, OnOk, false, map, length};
ghost use Rattle.m2v_port.specs.Ends.{SinkStays};
ghost use Rattle.m2v_port.specs.Port.{Rose};
ghost use Rattle.m2v_dec_batch.specs.m2v_dec_picture.Frames.{store_of};
ghost use Rattle.m2v_dec_piece.specs.Sound.{IsSoundPiece};
ghost use Rattle.m2v_pardec.specs.Behind.{Tracks};
ghost use Rattle.m2v_decode.specs.Decoding.{Onward, Refuses, whole_of};
ghost use Rattle.m2v_pardec.specs.Taken.{piece_of};
ghost use Rattle.m2v_pardec.specs.Rows.{AreThere};
ghost use Rattle.m2v_pardec.specs.Put.{CanTakeIn, TookIn, StopsBy, AreAllThere, TellsBehind, AreNext, WerePut, ComesNext};

use crate::rows::BatchRows;
use m2v_core::JobBook;
use m2v_dec_batch::{BatchPicture, DecodeBook};
use m2v_dec_piece::DecodeError;
use m2v_decode::{Decoder, put_due};
use m2v_model::State;
use m2v_port::Sink;
use m2v_wave::Done;
use std::alloc::Global;

/// A batch whose rows were decoded, and which isn't taken in yet, with the state behind each of its pictures.
#[derive(Drop)]
pub struct Worked {
    pub book: DecodeBook,
    pub done: Done<DecodeBook>,
    pub after: Vec<State>,
}

impl Worked {
    /// Whether all rows are rebuilt.
    pub fn is_rebuilt(&self) -> bool
        requires { self.now.done ≡ self.now.book }
        ensures { IsTrue result → AreAllThere self.now.book }
    {
        // what is known of a batch
        let _batch = self.book.pictures();
        BatchRows::from_job(&self.done, 0).are_rebuilt(self.book.jobs())
    }
}

/// Takes a picture in by its rows.
fn take_in(
    alloc: Global,
    decoder: &mut Decoder,
    x: &BatchPicture,
    rows: &BatchRows,
    after: &State,
) -> Result<(), DecodeError>
    requires piece { IsSoundPiece x.now.piece }
    requires going { decoder.old.failed ≡ false }
    requires before { decoder.old.ended ≡ false }
    requires counted { decoder.old.pictures + x.now.piece.length ≤ 2 ^ 60 }
    requires can { CanTakeIn decoder.old x.now after.now rows.now }
    requires rows { AreThere rows.now x.now.opened.rows }
    ensures ok { OnOk result (Onward decoder.old x.now.piece.place (whole_of x.now.piece)
        decoder.new) }
    ensures err { IfErr result (Refuses decoder.old x.now.piece.place (whole_of x.now.piece)) }
    ensures rows { OnOk result (TookIn decoder.old x.now after.now rows.now decoder.new) }
{
    decoder.rebuilt(alloc, &x.piece, &x.opened, after, rows)?;
    Ok(())
}

/// Takes in the pictures of a batch whose rows are all rebuilt, and writes the frames that are due behind each.
pub fn put_rows<K: Sink>(
    alloc: Global,
    decoder: &mut Decoder,
    book: &DecodeBook,
    done: &Done<DecodeBook>,
    after: &[State],
    raw: &mut Vec<u8>,
    output: &mut K,
) -> Result<(), DecodeError>
    requires done { done.now ≡ book.now }
    requires rebuilt { AreAllThere book.now }
    requires next { AreNext (map piece_of book.now.pictures) decoder.old }
    requires comes { ComesNext book.now after.now decoder.old }
    requires output { IsTrue (K.ready output.old) }
    ensures ok { OnOk result (WerePut (map piece_of book.now.pictures) decoder.old (K.held
        output.old) decoder.new (K.held output.new)) }
    ensures err { IfErr result (StopsBy (Rose (K.faults output.old) (K.faults output.new))
        (map piece_of book.now.pictures) decoder.old (K.held output.old) (K.held output.new)) }
    ensures told { OnOk result (TellsBehind decoder.old.state book.now.pictures after.now
        decoder.new.state) }
    ensures tracks { OnOk result
        (Tracks book.now (length book.now.pictures) (store_of decoder.new.frames)) }
    ensures output { SinkStays K.ready K.name K.faults output.old output.new }
{
    for p in 0..book.pictures() {
        let rows = BatchRows::from_job(done, book.first_job(p));
        take_in(alloc, decoder, book.picture(p), &rows, &after[p as usize])?;
        put_due(alloc, decoder, raw, output)?;
    }
    Ok(())
}
