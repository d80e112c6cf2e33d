ghost use Rattle.std.specs.Prelude.{◌≡◌};
ghost use Rattle.m2v_model.specs.PieceNotes.{noted};
ghost use Rattle.m2v_decode.specs.Course.{no_notes};

use m2v_model::Notes;
use std::alloc::Global;

/// Notes of a piece of which nothing was read.
pub fn nothing_noted(alloc: Global) -> Notes
    ensures { noted result ≡ no_notes }
{
    Notes {
        sequences: Vec::new(alloc),
        group: false,
        picture: None,
    }
}
