//! The view of a reference that a slice is coded by: rows of a cache, and the anchor before the group.
ghost use Rattle.std.specs.Prelude.{ℕ, ◌≡◌, ◌+◌, ◌-◌, ◌*◌, ◌/◌, ◌%◌, ◌<◌, ◌≤◌, [], IsSome, IfSome, IfNone, if◌then◌else◌, drop, length, take, slice_index, slice_index_or, Option};
ghost use Rattle.m2v_plane.specs.Sizes.{side, frame_line, lines_of, columns_of};
ghost use Rattle.m2v_plane.specs.Samples.{sample_of, sample_in, line_part};
ghost use Rattle.m2v_plane.specs.Fields.{no_samples, or_none};
ghost use Rattle.m2v_set.specs.Numbers.{dims_of};
ghost use Rattle.m2v_slice.specs.Books.{rows, coded, reference, reference_picture};
ghost use Rattle.m2v_slice.specs.Jobs.{FitsCache};
ghost use Rattle.m2v_slice.specs.Conditions.{IsBook};
ghost use Rattle.m2v_slice.specs.Windows.{needed, first_near, AreNearRows, HoldsLine};
ghost use Rattle.m2v_slice.specs.Stands.{StandsFor, IsHeldLine};

use crate::book::EncodeBook;
use crate::cache::EncodeCache;
use m2v_core::NeedList;
use m2v_plane::{Dims, Frame, LineParts, Lines, Plane, RefView, Window};
use std::marker::Model;

/// Where the lines of a reference stand.
#[derive(Clone, Copy)]
pub enum Stand {
    /// In the anchor before the group.
    Before,
    /// In a cache, from a row's place on; of a whole frame, or of a field.
    Cached { place: u32, whole: bool },
    /// Not in the cache.
    Absent,
}

/// A reference of a slice, as far as the slice's cache and the anchor before the group hold it. Lines of the frame, of its top
/// field and of its bottom field may stand in different pictures. Contracts see the book, the picture, the number of the
/// reference and the row of the slice.
#[derive(Drop)]
pub struct ReferenceWindow<'a> {
    book: &'a EncodeBook,
    cache: &'a EncodeCache,
    p: u32,
    n: u32,
    r: u32,
    first: u32,
    whole: Stand,
    top: Stand,
    bottom: Stand,
}

impl<'a> Model for ReferenceWindow<'a> {
    ghost use Rattle.m2v_slice.specs.Windows.{Window};
    ghost use Rattle.m2v_slice.specs.Stands.{IsWindow};

    ghost Value = { Window };

    ghost view = { λ w. record { book = w.book.now; picture = w.p; number = w.n; row = w.r } };

    ghost invariant = { λ w. IsWindow w.book.now w.cache.now w.p w.n w.r w.first w.whole w.top
        w.bottom };
}

/// The place of a picture among others.
fn place_among(pictures: &NeedList, q: u32) -> Option<u32>
    ensures some { IfSome result
        (λ i. (i < length pictures.now) × (slice_index pictures.now i ≡ q)) }
    ensures none { IfNone result
        ((i : ℕ) → i < length pictures.now → slice_index pictures.now i ≡ q → ⊥) }
{
    for i in 0..pictures.len() {
        if pictures.get(i) == q {
            return Some(i);
        }
    }
    None
}

/// Where lines stand that were found in a picture, of a slice with so many near rows.
fn stand_for(book: &EncodeBook, p: u32, r: u32, found: Option<u32>) -> Stand
    requires picture { p < length book.now.pictures }
    requires row { r < rows book.now }
    ensures value { StandsFor book.now p r found result }
{
    match found {
        None => Stand::Before,
        Some(q) => {
            let mut pictures = NeedList::new();
            book.needed(p, &mut pictures);
            match place_among(&pictures, q) {
                Some(i) => stand_at(book, p, r, q, i),
                None => Stand::Absent,
            }
        }
    }
}

/// Where lines stand of a picture in its place.
fn stand_at(book: &EncodeBook, p: u32, r: u32, q: u32, i: u32) -> Stand
    requires picture { p < length book.now.pictures }
    requires row { r < rows book.now }
    requires place { i < length (needed book.now p) }
    requires there { slice_index (needed book.now p) i ≡ q }
    ensures value { StandsFor book.now p r (Option.Some q) result }
{
    let rows = book.rows();
    let count = (r + 2).min(rows) - r.saturating_sub(1);
    Stand::Cached {
        place: i * count,
        whole: book.job(q).structure == 3,
    }
}

impl<'a> ReferenceWindow<'a> {
    /// Reference n of slice r of picture p.
    pub(crate) fn for_slice(
        book: &'a EncodeBook,
        cache: &'a EncodeCache,
        p: u32,
        r: u32,
        n: u32,
    ) -> ReferenceWindow<'a>
        requires picture { p < length book.now.pictures }
        requires row { r < rows book.now }
        requires rows { AreNearRows book.now p r cache.now.rows }
        requires fits { FitsCache book.now cache.now }
        ensures value { result ≡ record { book = book.now; picture = p; number = n; row = r } }
    {
        // what is known of a book
        let _book = book.pictures();
        let whole = stand_for(book, p, r, book.reference_picture(p, n, Lines::Whole));
        let top = stand_for(book, p, r, book.reference_picture(p, n, Lines::Top));
        let bottom = stand_for(book, p, r, book.reference_picture(p, n, Lines::Bottom));
        ReferenceWindow {
            book,
            cache,
            p,
            n,
            r,
            first: r.saturating_sub(1),
            whole,
            top,
            bottom,
        }
    }

    /// The book.
    fn book(&self) -> &EncodeBook
        ensures value { result.now ≡ self.now.book }
        ensures book { IsBook self.now.book }
    {
        self.book
    }

    /// The cache, which holds the near rows of the pictures that are referred to.
    fn cache(&self) -> &EncodeCache
        ensures rows { AreNearRows self.now.book self.now.picture self.now.row result.now.rows }
        ensures fits { FitsCache self.now.book result.now }
    {
        self.cache
    }

    /// The first of the near rows.
    fn first(&self) -> u32
        ensures value { result ≡ first_near self.now.row }
    {
        self.first
    }

    /// Where these lines stand.
    fn stand(&self, lines: Lines) -> Stand
        ensures value { StandsFor self.now.book self.now.picture self.now.row
            (reference_picture self.now.book self.now.picture self.now.number lines) result }
    {
        match lines {
            Lines::Whole => self.whole,
            Lines::Top => self.top,
            Lines::Bottom => self.bottom,
        }
    }
}

/// The line of a picture that a line of the frame or of a field is.
#[inline(always)]
fn line_among(whole: bool, lines: Lines, line: u32) -> u32
    requires small { line ≤ 1152 }
    ensures value { result ≡ (if whole then frame_line lines line else line) }
{
    if !whole {
        return line;
    }
    match lines {
        Lines::Whole => line,
        Lines::Top => 2 * line,
        Lines::Bottom => 2 * line + 1,
    }
}

/// A part of a line of the anchor before the group.
#[inline(always)]
fn line_before(
    before: &Option<Frame>,
    plane: Plane,
    lines: Lines,
    line: u32,
    column: u32,
    len: u32,
) -> &[u8]
    requires some { IsSome before.now }
    requires line { IfSome before.now (λ f. line < lines_of f.dims plane lines) }
    requires within { IfSome before.now (λ f. column + len ≤ columns_of f.dims plane) }
    ensures value { result.now
        ≡ line_part (sample_in (or_none before.now) plane lines line) column len }
{
    match before {
        Some(frame) => frame.line(plane, lines, line, column, len),
        None => &[],
    }
}

/// Parts of lines of the anchor before the group, lent at once.
#[inline(always)]
fn window_before(
    before: &Option<Frame>,
    plane: Plane,
    lines: Lines,
    parts: LineParts,
) -> Option<Window<'_>>
    requires some { 1 ≤ parts.count }
    requires lines { IfSome before.now (λ f. (k : ℕ) → k < parts.count
        → parts.line + k < lines_of f.dims plane lines) }
    requires within { IfSome before.now (λ f. parts.column + parts.len
        ≤ columns_of f.dims plane) }
    ensures fits { IfSome result (λ w. (parts.count - 1) * w.stride + parts.len
        ≤ length w.samples.now) }
    ensures value { IfSome result (λ w. (k : ℕ) → k < parts.count
        → take parts.len (drop (k * w.stride) w.samples.now)
        ≡ line_part (sample_in (or_none before.now) plane lines (parts.line + k)) parts.column
        parts.len) }
{
    match before {
        Some(frame) => frame.window(plane, lines, parts),
        None => None,
    }
}

/// How far behind each other, among the lines of a picture, lines of the frame or of a field stand.
#[inline(always)]
fn step_among(whole: bool, lines: Lines) -> u32
    ensures most { result ≤ 2 }
    ensures value { (line k : ℕ) → (if whole then frame_line lines (line + k) else line + k)
        ≡ (if whole then frame_line lines line else line) + k * result }
{
    if !whole {
        return 1;
    }
    match lines {
        Lines::Whole => 1,
        Lines::Top | Lines::Bottom => 2,
    }
}

/// The line among those of a cache's rows that a line of a picture is, `first` being the first of the rows from `place` on.
#[inline(always)]
fn line_kept(place: u32, first: u32, plane: Plane, line: u32) -> u32
    requires least { first ≤ line / side plane }
    requires most { place + (line / side plane - first) < 12 }
    ensures value { result + side plane * first ≡ line + side plane * place }
{
    match plane {
        Plane::Y => line - 16 * first + 16 * place,
        Plane::Cb | Plane::Cr => line - 8 * first + 8 * place,
    }
}

/// A part of a line that stands in a cache, `first` being the first of the rows from `place` on.
#[inline(always)]
fn line_cached(
    cache: &EncodeCache,
    place: u32,
    first: u32,
    plane: Plane,
    line: u32,
    column: u32,
    len: u32,
) -> &[u8]
    requires held { IsHeldLine cache.now place first plane line }
    requires within { column + len ≤ columns_of (slice_index_or cache.now.rows
        (place + (line / side plane - first)) no_samples).dims plane }
    ensures value { result.now ≡ line_part (sample_of (slice_index_or cache.now.rows
        (place + (line / side plane - first)) no_samples) plane (line % side plane)) column len }
{
    let line = line_kept(place, first, plane, line);
    cache.kept().line(plane, line, column, len)
}

impl<'a> RefView for ReferenceWindow<'a> {
    ghost size = { λ w. dims_of w.book.settings };

    ghost at = { λ w. reference w.book (coded w.book w.picture) w.picture w.number };

    ghost Holds = { λ w. HoldsLine w.book w.picture w.number w.row };

    #[inline(always)]
    fn dims(&self) -> Dims {
        self.book().settings().dims()
    }

    #[inline(always)]
    fn line(&self, plane: Plane, lines: Lines, line: u32, column: u32, len: u32) -> &[u8] {
        // a frame has at most 72 macroblock rows
        let _size = self.dims();
        match self.stand(lines) {
            Stand::Before => { line_before(self.book().before(), plane, lines, line, column, len) }
            Stand::Cached { place, whole } => {
                let line = line_among(whole, lines, line);
                line_cached(self.cache(), place, self.first(), plane, line, column, len)
            }
            Stand::Absent => &[],
        }
    }

    #[inline(always)]
    fn window(&self, plane: Plane, lines: Lines, parts: LineParts) -> Option<Window<'_>> {
        // a frame has at most 72 macroblock rows
        let _size = self.dims();
        match self.stand(lines) {
            Stand::Before => {
                let before = self.book().before();
                window_before(before, plane, lines, parts)
            }
            Stand::Cached { place, whole } => {
                let rows = self.cache().kept();
                let line = line_among(whole, lines, parts.line);
                let step = step_among(whole, lines);
                let there = line_kept(place, self.first(), plane, line);
                Some(rows.window(plane, there, step, parts.count, parts.column, parts.len))
            }
            Stand::Absent => None,
        }
    }

    #[inline(always)]
    fn copy_line(&self, plane: Plane, lines: Lines, line: u32, column: u32, out: &mut [u8]) {
        // a line is short enough for its samples to be counted
        let _size = self.dims();
        out.copy_from_slice(self.line(plane, lines, line, column, out.len() as u32));
    }
}
