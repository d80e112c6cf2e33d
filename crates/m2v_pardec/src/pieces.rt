//! Pieces decoded as a whole, one after another.
ghost use Rattle.std.specs.Prelude.{◌≡◌, ◌+◌, ◌≤◌, [], ◌∷◌, IsTrue, IfErr, OnOk, false, map, option_to_list};
ghost use Rattle.m2v_port.specs.Ends.{SinkStays};
ghost use Rattle.m2v_port.specs.Port.{Rose};
ghost use Rattle.m2v_dec_piece.specs.Sound.{IsSoundPiece};
ghost use Rattle.m2v_pardec.specs.Taken.{piece_of};
ghost use Rattle.m2v_pardec.specs.Put.{PutsAll, StopsBy, AreNext, WerePut};

use m2v_dec_batch::BatchPicture;
use m2v_dec_piece::{DecodeError, Piece};
use m2v_decode::{Decoder, put_due};
use m2v_port::Sink;
use std::alloc::Global;

/// Decodes a piece as a whole, and writes the frames that are due behind it.
pub fn put_piece<K: Sink>(
    alloc: Global,
    decoder: &mut Decoder,
    piece: &Piece,
    raw: &mut Vec<u8>,
    output: &mut K,
) -> Result<(), DecodeError>
    requires piece { IsSoundPiece piece.now }
    requires going { decoder.old.failed ≡ false }
    requires before { decoder.old.ended ≡ false }
    requires counted { decoder.old.pictures ≤ piece.now.place }
    requires output { IsTrue (K.ready output.old) }
    ensures ok { OnOk result (PutsAll (piece.now ∷ []) decoder.old (K.held output.old) decoder.new
        (K.held output.new)) }
    ensures err { IfErr result (StopsBy (Rose (K.faults output.old) (K.faults output.new))
        (piece.now ∷ []) decoder.old (K.held output.old) (K.held output.new)) }
    ensures counted { OnOk result
        (decoder.new.pictures ≤ decoder.old.pictures + piece.now.length) }
    ensures going { OnOk result (decoder.new.failed ≡ false) }
    ensures before { OnOk result (decoder.new.ended ≡ false) }
    ensures output { SinkStays K.ready K.name K.faults output.old output.new }
{
    decoder.piece(alloc, piece)?;
    put_due(alloc, decoder, raw, output)
}

/// Decodes the pieces of pictures as a whole, one after another, and writes the frames that are due behind each.
pub fn put_pieces<K: Sink>(
    alloc: Global,
    decoder: &mut Decoder,
    pictures: &[BatchPicture],
    raw: &mut Vec<u8>,
    output: &mut K,
) -> Result<(), DecodeError>
    requires next { AreNext (map piece_of pictures.now) decoder.old }
    requires output { IsTrue (K.ready output.old) }
    ensures ok { OnOk result (WerePut (map piece_of pictures.now) decoder.old (K.held output.old)
        decoder.new (K.held output.new)) }
    ensures err { IfErr result (StopsBy (Rose (K.faults output.old) (K.faults output.new))
        (map piece_of pictures.now) decoder.old (K.held output.old) (K.held output.new)) }
    ensures output { SinkStays K.ready K.name K.faults output.old output.new }
{
    for i in 0..pictures.len() {
        put_piece(alloc, decoder, &pictures[i].piece, raw, output)?;
    }
    Ok(())
}

/// Decodes the piece behind the pictures of a batch as a whole, where there is one.
pub fn put_rest<K: Sink>(
    alloc: Global,
    decoder: &mut Decoder,
    other: &Option<Piece>,
    raw: &mut Vec<u8>,
    output: &mut K,
) -> Result<(), DecodeError>
    requires next { AreNext (option_to_list other.now) decoder.old }
    requires output { IsTrue (K.ready output.old) }
    ensures ok { OnOk result (WerePut (option_to_list other.now) decoder.old (K.held output.old)
        decoder.new (K.held output.new)) }
    ensures err { IfErr result (StopsBy (Rose (K.faults output.old) (K.faults output.new))
        (option_to_list other.now) decoder.old (K.held output.old) (K.held output.new)) }
    ensures output { SinkStays K.ready K.name K.faults output.old output.new }
{
    match other {
        Some(piece) => put_piece(alloc, decoder, piece, raw, output),
        None => Ok(()),
    }
}
