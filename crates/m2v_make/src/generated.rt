//! The frames of a seed as raw bytes, made as they are asked for.
ghost use Rattle.std.specs.Prelude.{[], ◌≡◌, ◌<◌, ◌+◌, ◌*◌, ◌/◌, ◌%◌, ◌^◌, Some};
ghost use Rattle.m2v_make.specs.Source.{all_size, chroma_byte, byte_at, left_of};

use m2v_port::{PortError, Source};
use std::marker::Model;

/// The bytes of a frame.
const FRAME: u32 = 38_016;

/// The bytes of its luma.
const LUMA: u32 = 25_344;

/// The bytes of each of its chroma planes.
const CHROMA: u32 = 6336;

/// The bytes of all frames.
const ALL: u32 = 1_824_768;

/// The state behind a draw.
fn drawn(state: u64) -> u64
    ensures value { result ≡ (state * 6364136223846793005 + 1442695040888963407) % 2 ^ 64 }
{
    ((u128::from(state) * 6_364_136_223_846_793_005 + 1_442_695_040_888_963_407) % (1 << 64)) as u64
}

/// The luma of frame t at a place, where the draw left this state.
fn luma_byte(t: u32, k: u32, state: u64) -> u8
    requires frame { t < 48 }
    requires place { k < 25344 }
    ensures value { result ≡ (3 * (k % 176) + 2 * (k / 176) + 5 * t) % 128 + 32
        + state / 2 ^ 56 / 16 }
{
    let draw = (state / (1 << 56)) as u32;
    ((3 * (k % 176) + 2 * (k / 176) + 5 * t) % 128 + 32 + draw / 16) as u8
}

/// The byte of both chroma planes of frame t at a place in them.
#[tactic(auto, unfolding(crate::specs::Source::chroma_byte))]
fn chroma_byte(t: u32, k: u32) -> u8
    requires frame { t < 48 }
    requires place { k < 12672 }
    ensures value { result ≡ chroma_byte t k }
{
    if k < CHROMA {
        return ((k % 88 + t) % 64 + 96) as u8;
    }
    (((k - CHROMA) / 88 + 2 * t) % 64 + 96) as u8
}

/// A source of the frames of a seed. No read of it fails.
#[derive(Drop)]
pub(crate) struct Generated {
    seed: u64,
    state: u64,
    place: u32,
}

impl Model for Generated {
    ghost use Rattle.std.specs.Prelude.{◌≡◌, ◌≤◌};
    ghost use Rattle.m2v_make.specs.Frames.{state_behind};
    ghost use Rattle.m2v_make.specs.Source.{Generation, all_size, draws_before};

    ghost Value = { Generation };

    ghost view = { λ g. record { seed = g.seed; place = g.place } };

    ghost invariant = { λ g. (g.place ≤ all_size)
        × (g.state ≡ state_behind g.seed (draws_before g.place)) };
}

impl Generated {
    /// A source of which all bytes are left.
    pub(crate) fn new(seed: u64) -> Generated
        ensures { result ≡ record { seed = seed; place = 0 } }
    {
        Generated {
            seed,
            state: seed,
            place: 0,
        }
    }

    /// Gives the next byte.
    fn next(&mut self) -> u8
        requires more { self.old.place < all_size }
        ensures value { result ≡ byte_at self.old.seed self.old.place }
        ensures after { self.new ≡ record self.old { place = self.old.place + 1 } }
    {
        let frame = self.place / FRAME;
        let at = self.place % FRAME;
        self.place += 1;
        if at >= LUMA {
            return chroma_byte(frame, at - LUMA);
        }
        self.state = drawn(self.state);
        luma_byte(frame, at, self.state)
    }
}

impl Source for Generated {
    ghost left = { λ g. Some (left_of g) };

    ghost faults = { λ _. 0 };

    ghost behind = { λ _. 0 };

    ghost lenders = { λ _. [] };

    // As many bytes as are left and fit.
    fn read(&mut self, buf: &mut [u8]) -> Result<usize, PortError> {
        let n = buf.len().min((ALL - self.place) as usize);
        for at in 0..n {
            buf[at] = self.next();
        }
        Ok(n)
    }
}
