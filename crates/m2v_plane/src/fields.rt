ghost use Rattle.std.specs.Prelude.{ℕ, ◌≡◌, ◌+◌, ◌-◌, ◌*◌, ◌<◌, ◌≤◌, IsSome, IfSome, Option, drop, length, take};
ghost use Rattle.std.specs.Option.{option_map};
ghost use Rattle.m2v_plane.specs.Sizes.{IsSize, lines_of, columns_of};
ghost use Rattle.m2v_plane.specs.Samples.{sample_in, line_part};
ghost use Rattle.m2v_plane.specs.Fields.{or_none};

use crate::dims::Dims;
use crate::frame::Frame;
use crate::planes::{Lines, Plane};
use crate::view::{LineParts, RefView, Window};
use std::marker::Model;

/// A reference whose top field stands in one frame and whose bottom field in another, or not at all. It is read as a
/// whole where both are the same frame.
#[derive(Drop)]
pub struct FieldView<'a> {
    dims: Dims,
    top: Option<&'a Frame>,
    bottom: Option<&'a Frame>,
}

impl<'a> Model for FieldView<'a> {
    ghost use Rattle.std.specs.Prelude.{◌≡◌, IfSome};
    ghost use Rattle.std.specs.Option.{option_map};
    ghost use Rattle.m2v_plane.specs.Sizes.{IsSize};
    ghost use Rattle.m2v_plane.specs.Samples.{Samples};
    ghost use Rattle.m2v_plane.specs.Fields.{FieldFrames};

    ghost Value = { FieldFrames };

    ghost view = { λ v. record {
      dims = v.dims;
      top = option_map (λ f. f.now) v.top;
      bottom = option_map (λ f. f.now) v.bottom;
    } };

    ghost invariant = { λ v. IsSize v.dims × IfSome v.top (λ f. f.now.dims ≡ v.dims)
        × IfSome v.bottom (λ f. f.now.dims ≡ v.dims) };
}

impl<'a> FieldView<'a> {
    /// A view of frames of this size: of the top field of one, and of the bottom field of another.
    pub fn new(dims: Dims, top: Option<&'a Frame>, bottom: Option<&'a Frame>) -> FieldView<'a>
        requires size { IsSize dims }
        requires top { IfSome top (λ f. f.now.dims ≡ dims) }
        requires bottom { IfSome bottom (λ f. f.now.dims ≡ dims) }
        ensures dims { result.dims ≡ dims }
        ensures top { result.top ≡ option_map (λ f. f.now) top.entry }
        ensures bottom { result.bottom ≡ option_map (λ f. f.now) bottom.entry }
    {
        FieldView { dims, top, bottom }
    }
}

/// A part of a line of a frame that is there.
#[inline(always)]
fn lent<'b>(
    frame: &Option<&'b Frame>,
    plane: Plane,
    lines: Lines,
    line: u32,
    column: u32,
    len: u32,
) -> &'b [u8]
    requires some { IsSome frame.now }
    requires line { IfSome frame.now (λ f. line < lines_of f.now.dims plane lines) }
    requires within { IfSome frame.now (λ f. column + len ≤ columns_of f.now.dims plane) }
    ensures value { IfSome frame.now (λ f. result.now ≡ line_part (sample_in f.now plane lines line)
        column len) }
{
    match frame {
        Some(frame) => frame.line(plane, lines, line, column, len),
        None => &[],
    }
}

/// Parts of lines of a frame that is there, lent at once.
#[inline(always)]
fn lent_window<'b>(
    frame: &Option<&'b Frame>,
    plane: Plane,
    lines: Lines,
    parts: LineParts,
) -> Option<Window<'b>>
    requires some { 1 ≤ parts.count }
    requires lines { IfSome frame.now (λ f. (k : ℕ) → k < parts.count
        → parts.line + k < lines_of f.now.dims plane lines) }
    requires within { IfSome frame.now (λ f. parts.column + parts.len
        ≤ columns_of f.now.dims plane) }
    ensures fits { IfSome result (λ w. (parts.count - 1) * w.stride + parts.len
        ≤ length w.samples.now) }
    ensures value { IfSome result (λ w. (k : ℕ) → k < parts.count
        → take parts.len (drop (k * w.stride) w.samples.now)
        ≡ line_part (sample_in (or_none (option_map (λ f. f.now) frame.now)) plane lines
        (parts.line + k)) parts.column parts.len) }
{
    match frame {
        Some(frame) => frame.window(plane, lines, parts),
        None => None,
    }
}

impl<'a> RefView for FieldView<'a> {
    ghost use Rattle.m2v_plane.specs.Fields.{HoldsLine, sample_at};

    ghost size = { λ v. v.dims };

    ghost at = { sample_at };

    ghost Holds = { HoldsLine };

    #[inline(always)]
    fn dims(&self) -> Dims {
        self.dims
    }

    #[inline(always)]
    #[tactic(auto, unfolding(crate::specs::Fields::lines_there, crate::specs::Fields::sample_from))]
    fn line(&self, plane: Plane, lines: Lines, line: u32, column: u32, len: u32) -> &[u8] {
        match lines {
            Lines::Whole => lent(&self.top, plane, Lines::Whole, line, column, len),
            Lines::Top => lent(&self.top, plane, Lines::Top, line, column, len),
            Lines::Bottom => lent(&self.bottom, plane, Lines::Bottom, line, column, len),
        }
    }

    #[inline(always)]
    #[tactic(auto, unfolding(crate::specs::Fields::lines_there, crate::specs::Fields::sample_from))]
    fn window(&self, plane: Plane, lines: Lines, parts: LineParts) -> Option<Window<'_>> {
        match lines {
            Lines::Whole => lent_window(&self.top, plane, Lines::Whole, parts),
            Lines::Top => lent_window(&self.top, plane, Lines::Top, parts),
            Lines::Bottom => lent_window(&self.bottom, plane, Lines::Bottom, parts),
        }
    }
}
