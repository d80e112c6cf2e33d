ghost use Rattle.std.specs.Prelude.{◌≡◌, ◌<◌, ◌≤◌, true, false, if◌then◌else◌, length, slice_index_or};
ghost use Rattle.m2v_vlc.specs.Coefficients.{coefficient_zero, coefficient_one, first_zero};
ghost use Rattle.m2v_vlc.specs.Shorts.{Stands, Ends, nothing};

use crate::one_short::ONE_SHORT;
use crate::values::ShortPair;
use crate::zero_short::ZERO_SHORT;

/// Run 0 and level 1 as the first coefficient of a block that is not intra.
static FIRST_PLUS: ShortPair = (1, 0, 2);

/// Run 0 and level -1 as the first coefficient of a block that is not intra.
static FIRST_MINUS: ShortPair = (-1, 0, 2);

/// What table B.15 has where `one`, and else what table B.14 has.
#[inline(always)]
pub fn by_table<T>(one: bool, of_one: &'static T, of_zero: &'static T) -> &'static T
    ensures yes { one ≡ true → result.now ≡ of_one.now }
    ensures no { one ≡ false → result.now ≡ of_zero.now }
{
    if one { of_one } else { of_zero }
}

/// What a look-up holds at i.
#[inline(always)]
pub fn entry_at(lookup: &[ShortPair], i: u32) -> &ShortPair
    requires { i < length lookup.now }
    ensures { result.now ≡ slice_index_or lookup.now i nothing }
{
    &lookup[i as usize]
}

/// The pair whose code, of nine bits at most, nine bits begin with, by table B.15 where `one` and else by table B.14; run 128
/// where they begin with the end of the block, and run 64 for anything else. Most coefficients are read so, with one look.
#[inline(always)]
pub fn short_pair(one: bool, nine: u32) -> &'static ShortPair
    requires { nine < 512 }
    ensures stands { result.now.1 < 64
        → Stands 9 (if one then coefficient_one else coefficient_zero) nine result.now }
    ensures ends { result.now.1 ≡ 128
        → Ends 9 (if one then coefficient_one else coefficient_zero) nine result.now }
{
    entry_at(by_table(one, &ONE_SHORT, &ZERO_SHORT), nine)
}

/// Run 0 and level 1 or -1, which a 1 begins where it is the first coefficient.
#[inline(always)]
fn first_unit(nine: u32) -> &'static ShortPair
    requires from { 256 ≤ nine }
    requires below { nine < 512 }
    ensures stands { Stands 9 first_zero nine result.now }
{
    if nine < 384 {
        &FIRST_PLUS
    } else {
        &FIRST_MINUS
    }
}

/// The pair whose code, of nine bits at most, nine bits begin with by table B.14 at the first coefficient of a block that is
/// not intra; run 64 where they begin with no pair's.
#[inline(always)]
pub fn short_first(nine: u32) -> &'static ShortPair
    requires { nine < 512 }
    ensures stands { result.now.1 < 64 → Stands 9 first_zero nine result.now }
{
    if nine < 256 {
        entry_at(&ZERO_SHORT, nine)
    } else {
        first_unit(nine)
    }
}
