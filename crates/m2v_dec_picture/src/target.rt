ghost use Rattle.std.specs.Prelude.{ℕ, ◌≡◌, true, false};
ghost use Rattle.m2v_plane.specs.declared.planes.Plane.{Plane};
ghost use Rattle.m2v_plane.specs.Samples.{Samples};
ghost use Rattle.m2v_pred.specs.declared.mode.MbPlace.{MbPlace};
ghost use Rattle.m2v_pred.specs.Predicted.{block_by};
ghost use Rattle.m2v_model.specs.Samples.{Put};
ghost use Rattle.m2v_dec_picture.specs.Reads.{PutsNothing};

use m2v_plane::{Frame, Plane, RowSamples};
use m2v_pred::{Block16, MbPlace, own_lines};

/// What macroblocks are put into: a frame, one macroblock row, or nothing.
pub trait Target {
    /// Its samples.
    ghost samples: { Self → Samples };

    /// How a macroblock is put among them.
    ghost placed: { Put };

    /// The place is one of its own.
    ghost Takes: { Self → MbPlace → Type 0 };

    /// Whether it wants samples. Where it doesn't, what is put changes nothing, and needn't be put.
    fn wants(&self) -> bool
        ensures same { result ≡ false → PutsNothing placed };

    /// Puts the samples of a macroblock.
    fn put(&mut self, at: MbPlace, block: &Block16)
        requires takes { Takes self.old at }
        ensures value { (f : Plane → ℕ → ℕ → ℕ) → block.now.at ≡ block_by f → samples self.new
            ≡ placed at f (samples self.old) }
        ensures takes { (p : MbPlace) → Takes self.old p → Takes self.new p };
}

/// A macroblock of a field picture has lines of that field alone.
impl Target for Frame {
    ghost use Rattle.m2v_pred.specs.Vectors.{IsPlace};
    ghost use Rattle.m2v_model.specs.Samples.{put_in_frame};

    ghost samples = { λ f. f };

    ghost placed = { put_in_frame };

    ghost Takes = { λ f at. IsPlace at f.dims };

    #[inline(always)]
    fn wants(&self) -> bool {
        true
    }

    #[inline(always)]
    fn put(&mut self, at: MbPlace, block: &Block16) {
        let lines = own_lines(at.structure);
        self.set_square(Plane::Y, lines, at.row, at.column, &block.at[..256]);
        self.set_square(Plane::Cb, lines, at.row, at.column, &block.at[256..320]);
        self.set_square(Plane::Cr, lines, at.row, at.column, &block.at[320..384]);
    }
}

/// A row takes the macroblocks of its own row alone, each in its column.
impl Target for RowSamples {
    ghost use Rattle.std.specs.Prelude.{◌<◌};
    ghost use Rattle.m2v_model.specs.Samples.{put_in_row};

    ghost samples = { λ r. r };

    ghost placed = { put_in_row };

    ghost Takes = { λ r at. at.column < r.dims.mb_width };

    #[inline(always)]
    fn wants(&self) -> bool {
        true
    }

    #[inline(always)]
    fn put(&mut self, at: MbPlace, block: &Block16) {
        self.set_square(Plane::Y, at.column, &block.at[..256]);
        self.set_square(Plane::Cb, at.column, &block.at[256..320]);
        self.set_square(Plane::Cr, at.column, &block.at[320..384]);
    }
}

/// In the place of a frame, where slices are read for what else they tell.
#[derive(Drop)]
pub struct NoSamples;

impl Target for NoSamples {
    ghost use Rattle.m2v_plane.specs.Fields.{no_samples};

    ghost samples = { λ n. no_samples };

    ghost placed = { λ at f now. now };

    ghost Takes = { λ n at. Unit {0} };

    #[inline(always)]
    fn wants(&self) -> bool {
        false
    }

    #[inline(always)]
    fn put(&mut self, at: MbPlace, block: &Block16) {}
}
