//! Bytes of pieces on output.
ghost use Rattle.std.specs.Prelude.{IsTrue, IfErr, OnOk};
ghost use Rattle.m2v_port.specs.Ends.{change, SinkStays};
ghost use Rattle.m2v_port.specs.Port.{Grows};
ghost use Rattle.m2v_model.specs.Units.{joined};
ghost use Rattle.m2v_dec_piece.specs.Putting.{PutStops};
ghost use Rattle.m2v_decode.specs.Decoding.{whole_of};
ghost use Rattle.m2v_mend.specs.Strand.{wholes_of};

use m2v_dec_piece::{put, put_zeros};
use m2v_decode::Piece;
use m2v_port::{PortError, Sink};

/// Writes the bytes of a piece, the zero bytes that aren't kept among them.
fn put_piece<K: Sink>(piece: &Piece, output: &mut K) -> Result<(), PortError>
    requires output { IsTrue (K.ready output.old) }
    ensures grown { OnOk result (Grows (K.held output.old) (whole_of piece.now)
        (K.held output.new)) }
    ensures err { IfErr result (PutStops (whole_of piece.now)
        (change K.held K.faults output.old output.new)) }
    ensures output { SinkStays K.ready K.name K.faults output.old output.new }
{
    let zeros = piece.length.saturating_sub(piece.bytes.len() as u64);
    put(&piece.bytes, output)?;
    put_zeros(zeros, output)
}

/// Writes the bytes of pieces.
pub(crate) fn put_pieces<K: Sink>(pieces: &[Piece], output: &mut K) -> Result<(), PortError>
    requires output { IsTrue (K.ready output.old) }
    ensures grown { OnOk result (Grows (K.held output.old) (joined (wholes_of pieces.now))
        (K.held output.new)) }
    ensures err { IfErr result (PutStops (joined (wholes_of pieces.now))
        (change K.held K.faults output.old output.new)) }
    ensures output { SinkStays K.ready K.name K.faults output.old output.new }
{
    for piece in pieces {
        put_piece(piece, output)?;
    }
    Ok(())
}
