//! Transforms of an intra macroblock's blocks, each made when it is reached.
ghost use Rattle.std.specs.Prelude.{◌≡◌, ◌≤◌, ◌<◌, not, true, false, All, [], slice_index_or, replicate};
ghost use Rattle.m2v_idct.specs.Ranges.{IsCoefficient};
ghost use Rattle.m2v_idct.specs.Forward.{forward_of};
ghost use Rattle.m2v_choose.specs.Decisions.{differences as differences_of};
ghost use Rattle.m2v_choose.specs.Trials.{AreMade, AreReached, first_by};

use crate::blocks::transform_one;
use crate::scratch::{BothTransforms, FirstTransforms};
use crate::trial::no_prediction;
use m2v_pred::Block16;

/// The transform of a block. `other` are those by the other DCT type: that of a chroma block is the same.
fn make_one(
    source: &Block16,
    dct_field: bool,
    block: usize,
    other: &FirstTransforms,
    out: &mut [i32; 64],
)
    requires block { block < 6 }
    requires other { AreMade source.now.at (not dct_field) other.now }
    ensures value { out.new ≡ forward_of
        (differences_of source.now.at (replicate 384 0) dct_field block) }
    ensures coefficients { All IsCoefficient out.new }
{
    if block >= 4 {
        if block < other.count {
            *out = other.at[block];
            return;
        }
    }
    transform_one(source, no_prediction(), dct_field, block, out);
}

/// Makes the transform of a block, where it isn't made yet.
#[inline(always)]
fn make(
    source: &Block16,
    dct_field: bool,
    block: usize,
    other: &FirstTransforms,
    made: &mut FirstTransforms,
)
    requires block { block < 6 }
    requires next { block ≤ made.old.count }
    requires other { AreMade source.now.at (not dct_field) other.now }
    requires made { AreMade source.now.at dct_field made.old }
    ensures made { AreMade source.now.at dct_field made.new }
    ensures reached { block < made.new.count }
{
    if block < made.count {
        return;
    }
    make_one(source, dct_field, block, other, &mut made.at[block]);
    made.count = block + 1;
}

/// Makes the transform of a block by a DCT type, where it isn't made yet: those of the blocks before it are.
pub fn reach(source: &Block16, dct_field: bool, block: usize, transforms: &mut BothTransforms)
    requires block { block < 6 }
    requires next { block ≤ (first_by dct_field transforms.old).count }
    requires made { AreReached source.now.at transforms.old }
    ensures made { AreReached source.now.at transforms.new }
    ensures reached { block < (first_by dct_field transforms.new).count }
{
    let BothTransforms { frame, field } = transforms;
    if dct_field {
        make(source, true, block, frame, field);
    } else {
        make(source, false, block, field, frame);
    }
}

/// The transform of a block by a DCT type.
#[inline(always)]
pub fn transform_at(transforms: &BothTransforms, dct_field: bool, block: usize) -> &[i32; 64]
    requires block { block < 6 }
    ensures { result.now ≡ slice_index_or (first_by dct_field transforms.now).at block [] }
{
    if dct_field {
        &transforms.field.at[block]
    } else {
        &transforms.frame.at[block]
    }
}

/// Forgets all transforms.
#[inline(always)]
pub fn begin(transforms: &mut BothTransforms)
    ensures frame { transforms.new.frame.count ≡ 0 }
    ensures field { transforms.new.field.count ≡ 0 }
{
    transforms.frame.count = 0;
    transforms.field.count = 0;
}
