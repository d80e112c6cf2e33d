//! What the picture whose slices are read is predicted from.
ghost use Rattle.std.specs.Prelude.{◌≡◌, IfSome, option_copied};
ghost use Rattle.m2v_plane.specs.Sizes.{IsSize};
ghost use Rattle.m2v_dec_picture.specs.Frames.{forward_top, forward_bottom, backward_frame};

use crate::gallery::Reading;
use crate::shared::SharedFrame;
use m2v_plane::{Dims, FieldView, Frame};

/// A shared frame that is there, to be read.
pub(crate) fn lent(frame: &Option<SharedFrame>) -> Option<&Frame>
    ensures { option_copied result ≡ frame.now }
{
    match frame {
        Some(frame) => Some(frame.frame()),
        None => None,
    }
}

/// The view of the forward reference of the picture whose slices are read: of a second P field each field stands in a frame
/// of its own. All frames have this size.
pub fn forward_view<'a>(
    dims: Dims,
    reading: &Option<Reading>,
    older: Option<&'a Frame>,
    newer: Option<&'a Frame>,
    first_field: Option<&'a Frame>,
) -> FieldView<'a>
    requires size { IsSize dims }
    requires older { IfSome older (λ f. f.now.dims ≡ dims) }
    requires newer { IfSome newer (λ f. f.now.dims ≡ dims) }
    requires first { IfSome first_field (λ f. f.now.dims ≡ dims) }
    ensures dims { result.dims ≡ dims }
    ensures top { result.top ≡ forward_top reading.now (option_copied older.entry)
        (option_copied newer.entry) (option_copied first_field.entry) }
    ensures bottom { result.bottom ≡ forward_bottom reading.now (option_copied older.entry)
        (option_copied newer.entry) (option_copied first_field.entry) }
{
    match reading {
        None => FieldView::new(dims, None, None),
        Some(r) => {
            if r.kind == 3 {
                FieldView::new(dims, older, older)
            } else if !r.second_field {
                FieldView::new(dims, newer, newer)
            } else if r.structure == 1 {
                FieldView::new(dims, newer, first_field)
            } else {
                FieldView::new(dims, first_field, newer)
            }
        }
    }
}

/// The view of the backward reference, which B pictures alone have. All frames have this size.
pub fn backward_view<'a>(
    dims: Dims,
    reading: &Option<Reading>,
    newer: Option<&'a Frame>,
) -> FieldView<'a>
    requires size { IsSize dims }
    requires newer { IfSome newer (λ f. f.now.dims ≡ dims) }
    ensures dims { result.dims ≡ dims }
    ensures top { result.top ≡ backward_frame reading.now (option_copied newer.entry) }
    ensures bottom { result.bottom ≡ backward_frame reading.now (option_copied newer.entry) }
{
    match reading {
        Some(r) if r.kind == 3 => FieldView::new(dims, newer, newer),
        _ => FieldView::new(dims, None, None),
    }
}
