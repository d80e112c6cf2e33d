ghost use Rattle.std.specs.Prelude.{◌≡◌, ◌-◌, ◌/◌, ◌<◌, ◌≤◌, if◌then◌else◌, slice_index_or};
ghost use Rattle.m2v_vlc.specs.Coefficients.{coefficient_zero, coefficient_one, first_zero};
ghost use Rattle.m2v_vlc.specs.Shorts.{Stands, nothing};
ghost use Rattle.m2v_vlc.specs.declared.longest.TheConstants.{LONGEST};

use crate::longest::LONGEST;
use crate::one_long::ONE_LONG;
use crate::short::{by_table, entry_at};
use crate::values::ShortPair;
use crate::zero_long::ZERO_LONG;

/// What the look-ups hold for seventeen bits, six zero bits first: that of a table by fourteen bits, and that of both by seventeen.
#[inline(always)]
fn long_at(longs: &'static [ShortPair; 224], seventeen: u32) -> &'static ShortPair
    requires { seventeen < 2048 }
    ensures far { 256 ≤ seventeen
        → result.now ≡ slice_index_or longs.now (seventeen / 8 - 32) nothing }
    ensures near { seventeen < 256 → result.now ≡ slice_index_or LONGEST seventeen nothing }
{
    if seventeen >= 256 {
        entry_at(longs, (seventeen >> 3) - 32)
    } else {
        entry_at(&LONGEST, seventeen)
    }
}

/// The pair whose code seventeen bits begin with, six zero bits first, by table B.15 where `one` and else by table B.14; run 64
/// where no code begins so. All pairs for which nine bits are too few are read so, with one look.
#[inline(always)]
pub fn long_pair(one: bool, seventeen: u32) -> &'static ShortPair
    requires { seventeen < 2048 }
    ensures stands { result.now.1 < 64
        → Stands 17 (if one then coefficient_one else coefficient_zero) seventeen result.now }
{
    long_at(by_table(one, &ONE_LONG, &ZERO_LONG), seventeen)
}

/// The same by table B.14 at the first coefficient of a block that is not intra, which has the same long codes.
#[inline(always)]
pub fn long_first(seventeen: u32) -> &'static ShortPair
    requires { seventeen < 2048 }
    ensures stands { result.now.1 < 64 → Stands 17 first_zero seventeen result.now }
{
    long_at(&ZERO_LONG, seventeen)
}
