//! A stream under way.
ghost use Rattle.std.specs.Prelude.{◌≡◌, IfOk};
ghost use Rattle.m2v_decode.specs.Decoding.{at_start};
ghost use Rattle.m2v_decode.specs.Progress.{before_all};

use m2v_dec_piece::Cutter;
use m2v_decode::Decoder;
use std::alloc::{AllocError, Global};

/// What a stream that is under way is decoded with: what cuts its input into pieces, what decodes these, and room for the raw
/// bytes of a frame that is written.
#[derive(Drop)]
pub struct Stream {
    pub cutter: Cutter,
    pub decoder: Decoder,
    pub raw: Vec<u8>,
}

impl Stream {
    /// Nothing was read yet.
    pub fn new(alloc: Global) -> Result<Stream, AllocError>
        ensures cutter { IfOk result (λ s. s.cutter ≡ before_all) }
        ensures decoder { IfOk result (λ s. s.decoder ≡ at_start) }
    {
        Ok(Stream {
            cutter: Cutter::new(alloc)?,
            decoder: Decoder::new(alloc)?,
            raw: Vec::new(alloc),
        })
    }
}
