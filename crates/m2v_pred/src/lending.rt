//! Where the lines of a patch are read: in a window, which has them one behind another, or by asking a view for each.
ghost use Rattle.std.specs.Prelude.{ℕ, ◌≡◌, ◌+◌, ◌*◌, ◌/◌, ◌^◌, ◌≤◌, ◌<◌, length, slice_index};

use crate::patch::Patch;
use m2v_plane::{RefView, Window};

/// The lines that a patch is made of, numbered from its first.
pub trait PatchLines {
    /// The sample by line and column.
    ghost at: { Self → ℕ → ℕ → ℕ };

    /// A line can be lent, and so many samples of it.
    ghost Holds: { Self → ℕ → ℕ → Type 0 };

    /// The first samples of a line.
    fn line(&self, line: u32, count: usize) -> &[u8]
        requires held { Holds self.now line count }
        ensures len { length result.now ≡ count }
        ensures value { (k : ℕ) → k < count → slice_index result.now k ≡ at self.now line k };
}

impl<'a> PatchLines for Window<'a> {
    ghost at = { λ w line k. slice_index w.samples.now (line * w.stride + k) };

    ghost Holds = { λ w line count. line * w.stride + count ≤ length w.samples.now };

    #[inline(always)]
    fn line(&self, line: u32, count: usize) -> &[u8] {
        let from = line as usize * self.stride;
        &self.samples[from..from + count]
    }
}

/// The lines that a view lends for a patch, one by one.
#[derive(Drop)]
pub struct Lent<'a, V> {
    /// The view.
    pub view: &'a V,
    /// The patch.
    pub patch: &'a Patch,
}

impl<'a, V: RefView> PatchLines for Lent<'a, V> {
    ghost use Rattle.m2v_plane.specs.Sizes.{columns_of};

    ghost at = { λ s line k. V.at s.view.now s.patch.now.plane s.patch.now.lines
        (s.patch.now.y / 2 + line) (s.patch.now.x / 2 + k) };

    ghost Holds = { λ s line count.
        V.Holds s.view.now s.patch.now.plane s.patch.now.lines (s.patch.now.y / 2 + line)
        × (s.patch.now.x / 2 + count ≤ columns_of (V.size s.view.now) s.patch.now.plane)
        × (s.patch.now.y ≤ 2 ^ 13) × (line ≤ 16) × (count ≤ 17) };

    #[inline(always)]
    fn line(&self, line: u32, count: usize) -> &[u8] {
        let patch = self.patch;
        let (down, across) = (patch.y / 2 + line, patch.x / 2);
        self.view
            .line(patch.plane, patch.lines, down, across, count as u32)
    }
}
