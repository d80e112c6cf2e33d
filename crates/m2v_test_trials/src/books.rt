// The books of the tests.
ghost use Rattle.std.specs.Prelude.{◌≡◌};
ghost use Rattle.m2v_test_trials.specs.Chain.{chain_needs, chain_value, chain_below, chain_few};
ghost use Rattle.m2v_test_trials.specs.Pair.{pair_needs, pair_value, pair_below, pair_few};

use m2v_core::{JobBook, Memory, NeedList};
use std::alloc::Global;

// Job j needs job j - 1 where that exists, and its value is j plus the values of its needs: 0, 1, 3.
pub(crate) struct Chain;

impl JobBook for Chain {
    type Piece = u64;

    type Shared = u64;

    type Cache = u64;

    ghost jobs = { λ _. 3 };

    ghost needs = { λ _. chain_needs };

    ghost value = { λ _. chain_value };

    ghost shared = { λ _. chain_value };

    ghost told = { λ _ _. 0 };

    ghost learned = { λ _ _ _ part _. part };

    ghost fits_piece = { λ _ _ _. Unit {0} };

    ghost fits_shared = { λ _ _ _. Unit {0} };

    ghost fits_cache = { λ _ _. Unit {0} };

    ghost needs_are_below = { λ _ j _. chain_below j };

    ghost needs_are_few = { λ _ j _. chain_few j };

    fn jobs(&self) -> u32 {
        3
    }

    fn needs(&self, j: u32, out: &mut NeedList) {
        if j > 0 {
            out.push(j - 1);
        }
    }

    fn blank_piece(&self, _alloc: Global, _j: u32) -> Result<u64, Memory> {
        Ok(0)
    }

    fn blank_shared(&self, _alloc: Global, _j: u32) -> Result<u64, Memory> {
        Ok(0)
    }

    fn blank_cache(&self, _alloc: Global) -> Result<u64, Memory> {
        Ok(7)
    }

    fn work(&self, j: u32, cache: &u64, out: &mut u64) {
        *out = if j == 0 { 0 } else { j as u64 + *cache };
    }

    fn share(&self, _j: u32, piece: &u64, into: &mut u64) {
        *into = *piece;
    }

    fn learn(&self, _j: u32, _at: u32, part: &u64, cache: &mut u64) {
        *cache = *part;
    }

    fn tell(&self, _j: u32, _part: &u64) -> u64 {
        0
    }
}

// Two jobs that need none, and a third one that needs the first. The value of job j is 3 j + 5, and so is the number that
// a gate is told.
pub(crate) struct Pair;

impl JobBook for Pair {
    type Piece = u64;

    type Shared = u64;

    type Cache = u64;

    ghost jobs = { λ _. 3 };

    ghost needs = { λ _. pair_needs };

    ghost value = { λ _. pair_value };

    ghost shared = { λ _. pair_value };

    ghost told = { λ _. pair_value };

    ghost learned = { λ _ _ _ part _. part };

    ghost fits_piece = { λ _ _ _. Unit {0} };

    ghost fits_shared = { λ _ _ _. Unit {0} };

    ghost fits_cache = { λ _ _. Unit {0} };

    ghost needs_are_below = { λ _ j _. pair_below j };

    ghost needs_are_few = { λ _ j _. pair_few j };

    fn jobs(&self) -> u32 {
        3
    }

    fn needs(&self, j: u32, out: &mut NeedList) {
        if j > 1 {
            out.push(0);
        }
    }

    fn blank_piece(&self, _alloc: Global, _j: u32) -> Result<u64, Memory> {
        Ok(0)
    }

    fn blank_shared(&self, _alloc: Global, _j: u32) -> Result<u64, Memory> {
        Ok(0)
    }

    fn blank_cache(&self, _alloc: Global) -> Result<u64, Memory> {
        Ok(0)
    }

    fn work(&self, j: u32, _cache: &u64, out: &mut u64) {
        *out = 3 * u64::from(j) + 5;
    }

    fn share(&self, _j: u32, piece: &u64, into: &mut u64) {
        *into = *piece;
    }

    fn learn(&self, _j: u32, _at: u32, part: &u64, cache: &mut u64) {
        *cache = *part;
    }

    fn tell(&self, _j: u32, part: &u64) -> u64 {
        *part
    }
}
