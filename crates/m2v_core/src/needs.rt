// The needs of one job, in order.
ghost use Rattle.std.specs.Prelude.{◌≡◌, ℕ, ◌+◌, ◌<◌, ◌≤◌, List, [], ◌∷◌, ◌++◌, length, take, slice_index};

use std::marker::Model;

/// The needs of one job, in order: at most 160.
#[derive(Drop)]
pub struct NeedList {
    jobs: [u32; 160],
    count: u32,
}

impl Model for NeedList {
    ghost Value = { List ℕ };

    ghost view = { λ n. take n.count n.jobs };

    ghost invariant = { λ n. n.count ≤ 160 };
}

impl NeedList {
    /// An empty list.
    pub fn new() -> NeedList
        ensures { result ≡ [] }
    {
        NeedList {
            jobs: [0; 160],
            count: 0,
        }
    }

    /// Puts a job behind those of the list, which has fewer than 160.
    pub fn push(&mut self, j: u32)
        requires room { length self.old < 160 }
        ensures written { self.new ≡ self.old ++ j ∷ [] }
    {
        self.jobs[self.count as usize] = j;
        self.count += 1;
    }

    /// How many jobs there are in the list.
    pub fn len(&self) -> u32
        ensures { result ≡ length self.now }
    {
        self.count
    }

    /// The job of number i, counted from 0.
    pub fn get(&self, i: u32) -> u32
        requires { i < length self.now }
        ensures { result ≡ slice_index self.now i }
    {
        self.jobs[i as usize]
    }

    // The jobs as a slice.
    pub(crate) fn as_slice(&self) -> &[u32]
        ensures { result.now ≡ self.now }
    {
        &self.jobs[..self.count as usize]
    }
}
