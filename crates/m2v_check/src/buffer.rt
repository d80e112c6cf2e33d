// The account of a stream's buffer (Annex C), with the most that it holds.
ghost use Rattle.m2v_check.specs.Holding.{IsSound};

use crate::amounts::Amounts;
use crate::course::Course;
use crate::times::Times;

/// The account of a stream.
#[derive(Drop)]
pub struct Buffer {
    pub times: Times,
    pub course: Course,
    pub amounts: Amounts,
    ghost sound: { IsSound course },
}

/// The figures of a buffer that bears its stream, in bits, rounded down.
#[derive(Clone, Copy, Debug, PartialEq, Eq)]
pub struct BufferFigures {
    /// The least that a picture leaves.
    pub low: u128,
    /// The most that is held.
    pub high: u128,
    /// How many pictures behind the first have another vbv_delay than the exact one.
    pub delays: u64,
}

/// What the buffer of a stream is: its rate, in units of 400 bit/s, and its size, in units of 16,384 bits.
#[derive(Clone, Copy)]
pub struct Setup {
    pub rate: u64,
    pub buffer: u64,
}
