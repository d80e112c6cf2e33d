//! The codings of a prediction and of an intra macroblock: quantisers and DCT types, in order.
ghost use Rattle.std.specs.Prelude.{◌≡◌, ℕ, ◌≤◌, ◌<◌, ◌&&◌, not, nat_eq, cond, min, ◌+◌, ◌*◌, ◌^◌, true, false, All, IsTrue, slice_index, [], ◌∷◌, filter, map, replicate};
ghost use Rattle.m2v_idct.specs.Ranges.{IsCoefficient};
ghost use Rattle.m2v_macro.specs.States.{is_field};
ghost use Rattle.m2v_macro.specs.Macros.{no_form as no_form_of};
ghost use Rattle.m2v_choose.specs.Decisions.{Prediction, uncoded_syntax, intra_syntax as intra_syntax_of};
ghost use Rattle.m2v_choose.specs.Candidates.{second_q as second_q_of, codings_at, codings, samples_by, coded_by, has_block, intra_by};
ghost use Rattle.m2v_choose.specs.Own.{IsCode};
ghost use Rattle.m2v_choose.specs.Trials.{References, decided, IsTask, IsRated, Tried, CanCode, has_types, AreSquares, IsMeasured, block_squared, coded_least, uncoded_squared, sends_code, with_blocks as with_blocks_of, transforms_of, AreFar, HaveSame};

use crate::bits::{Headers, bits_before};
use crate::blocks::{FarTransforms, quantise_blocks, reaches, transform, transform_by_fields};
use crate::scratch::{BothTransforms, CodingScratch};
use crate::squares::{least_blocks, part_squares_by_fields, uncoded_squares};
use crate::task::Task;
use crate::trial::{Best, are_bytes, bit_cost};
use m2v_macro::{MacroSyntax, PictureContext};
use m2v_macroblock::kinds;
use m2v_pred::Block16;
use m2v_quant::Levels;

/// A macroblock that has a prediction, before its blocks: its elements, and the samples of its prediction.
#[derive(Clone, Copy)]
pub struct Uncoded<'a> {
    /// Its elements without blocks.
    pub bare: &'a MacroSyntax,
    /// The samples of its prediction.
    pub prediction: &'a Block16,
    /// The squares of its blocks by DCT type 0.
    pub frame: &'a [u32; 6],
    /// Those by DCT type 1, where the picture has it.
    pub field: &'a [u32; 6],
    /// At least so much it scores with coded blocks by DCT type 0.
    pub frame_least: u64,
    /// And by DCT type 1, where the picture has it.
    pub field_least: u64,
    /// So many bits stand before the pattern of its codings.
    pub headers: Headers,
}

/// The transforms of the six blocks: by DCT type 0, and by DCT type 1 where the picture has it.
#[derive(Clone, Copy)]
pub struct Transforms<'a> {
    /// Those by DCT type 0.
    pub frame: FarTransforms<'a>,
    /// Those by DCT type 1.
    pub field: FarTransforms<'a>,
}

/// Whether dct_type stands in the picture.
#[inline(always)]
pub fn has_dct_type(context: &PictureContext) -> bool
    ensures { result ≡ has_types context.now }
{
    context.extension.structure == 3 && !context.extension.frame_pred_frame_dct
}

/// Whether a quantiser is sent: it isn't the last one that was.
#[inline(always)]
pub fn sends(task: &Task, q: u8) -> bool
    ensures { result ≡ sends_code task.now.state.now q }
{
    q != task.state.quantiser
}

/// So far from 0 a coefficient lies at least that has a level, where the block isn't intra.
#[inline(always)]
fn least_far(q: u8) -> u32
    requires { IsCode q }
    ensures value { result ≡ 2 * q }
    ensures some { 2 ≤ result }
    ensures most { result ≤ 62 }
{
    2 * u32::from(q)
}

/// The second quantiser that is tried.
#[inline(always)]
pub fn second_q(q: u8) -> u8
    requires { q ≤ 31 }
    ensures { result ≡ second_q_of q }
{
    (q + 8).min(31)
}

/// A macroblock that has a prediction, with coded blocks.
#[inline(always)]
pub fn with_blocks(
    bare: &MacroSyntax,
    send: bool,
    q: u8,
    dct_field: bool,
    pattern: u8,
) -> MacroSyntax
    ensures { result ≡ with_blocks_of bare.now send q dct_field pattern }
{
    let mut m = *bare;
    m.kind.quant = send;
    m.kind.pattern = true;
    m.dct_field = dct_field;
    m.quantiser = if send { q } else { 0 };
    m.pattern = pattern;
    m
}

/// The motion type of a macroblock without one: frame prediction in a frame picture.
#[inline(always)]
pub fn no_form(context: &PictureContext) -> u8
    ensures { result ≡ no_form_of context.now }
{
    if context.extension.structure == 3 {
        2
    } else {
        0
    }
}

/// The elements of an intra macroblock.
#[tactic(auto, unfolding(crate::specs::Decisions::intra_syntax))]
pub fn intra_syntax(task: &Task, q: u8, dct_field: bool) -> MacroSyntax
    requires task { IsTask task.now }
    ensures value { (r : References)
        → result ≡ intra_syntax_of (decided r task.now) (record { q = q; dct_field = dct_field }) }
    ensures increment { result.increment ≡ task.now.increment }
    ensures pattern { result.pattern ≡ 63 }
{
    let send = sends(task, q);
    let mut m = MacroSyntax::blank();
    m.increment = task.increment;
    m.kind.quant = send;
    m.kind.intra = true;
    m.form = no_form(task.context);
    m.dct_field = dct_field;
    m.quantiser = if send { q } else { 0 };
    m.pattern = 63;
    m
}

/// The transforms by DCT type 1 and how far their coefficients lie from 0 at most, where the picture has it.
#[inline(always)]
fn transform_fields(
    task: &Task,
    plain: &Uncoded,
    frame: &FarTransforms,
    least: u32,
    out: &mut [[i32; 64]; 6],
) -> [u32; 6]
    requires measured { IsMeasured task.now plain.now }
    requires frame { HaveSame least frame.now.at.now
        (transforms_of task.now.source.now.at plain.now.prediction.now.at false) }
    requires known { All (All IsCoefficient) frame.now.at.now }
    requires far { AreFar frame.now.at.now frame.now.most.now }
    requires some { 2 ≤ least }
    requires most { least ≤ 62 }
    ensures alike { has_types task.now.context.now ≡ true → HaveSame least out.new
        (transforms_of task.now.source.now.at plain.now.prediction.now.at true) }
    ensures coefficients { has_types task.now.context.now ≡ true
        → All (All IsCoefficient) out.new }
    ensures far { has_types task.now.context.now ≡ true → AreFar out.new result }
{
    if has_dct_type(task.context) {
        let (source, prediction) = (task.source, plain.prediction);
        return transform_by_fields(source, prediction, frame, plain.field, least, out);
    }
    [0; 6]
}

/// The squares of the blocks of a prediction by DCT type 1, where the picture has it.
#[inline(always)]
pub fn field_squares(task: &Task, prediction: &Block16, frame: &[u32; 6], out: &mut [u32; 6])
    requires frame { AreSquares false task.now.source.now.at prediction.now.at frame.now }
    requires most { (b : ℕ) → b < 6 → slice_index frame.now b ≤ 4161600 }
    ensures { has_types task.now.context.now ≡ true
        → AreSquares true task.now.source.now.at prediction.now.at out.new }
{
    if has_dct_type(task.context) {
        part_squares_by_fields(task.source, prediction, frame, out);
    }
}

/// The squares of the blocks of a prediction that have no level.
#[inline(always)]
fn still_squares(task: &Task, plain: &Uncoded, dct_field: bool, pattern: u8) -> u32
    requires measured { IsMeasured task.now plain.now }
    requires dct { dct_field ≡ true → has_types task.now.context.now ≡ true }
    ensures value { result ≡ uncoded_squared pattern (block_squared dct_field
        task.now.source.now.at plain.now.prediction.now.at) }
    ensures most { result ≤ 49939200 }
{
    if dct_field {
        return uncoded_squares(plain.field, pattern);
    }
    uncoded_squares(plain.frame, pattern)
}

/// At least so much a prediction scores with coded blocks, by a DCT type: `squares` are those of its blocks, and at least so
/// many bits stand before them.
pub fn least_score(task: &Task, squares: &[u32; 6], header: u32) -> u64
    requires most { (b : ℕ) → b < 6 → slice_index squares.now b ≤ 8323200 }
    ensures value { result ≡ coded_least ((2 * task.now.limits.now.q) ^ 2) header
        (slice_index squares.now) }
{
    bit_cost(task.limits, header) + least_blocks(squares, bit_cost(task.limits, 4))
}

/// The least that a prediction scores with coded blocks, by a DCT type.
#[inline(always)]
fn least_of(plain: &Uncoded, dct_field: bool) -> u64
    ensures frame { dct_field ≡ false → result ≡ plain.now.frame_least }
    ensures field { dct_field ≡ true → result ≡ plain.now.field_least }
{
    if dct_field {
        plain.field_least
    } else {
        plain.frame_least
    }
}

impl Best {
    /// Whether a prediction scores no less than the best so far, however it is coded by a DCT type. That is known before it is
    /// transformed.
    #[inline(always)]
    fn rules_out(&self, task: &Task, plain: &Uncoded, dct_field: bool) -> bool
        requires bare { CanCode task.now plain.now.bare.now }
        requires measured { IsMeasured task.now plain.now }
        requires dct { dct_field ≡ true → has_types task.now.context.now ≡ true }
        ensures { IsTrue result → (r : References) (p : Prediction) (q : ℕ)
            → plain.now.bare.now ≡ uncoded_syntax (decided r task.now) p
            → plain.now.prediction.now.at ≡ samples_by (decided r task.now) p
            → IsRated (decided r task.now) self.now
            → Tried (decided r task.now) self.now self.now
            (filter has_block (coded_by (decided r task.now) p
            (record { q = q; dct_field = dct_field }) ∷ [])) }
    {
        are_bytes(&plain.prediction.at);
        least_of(plain, dct_field) >= self.below
    }

    /// Whether it scores no less by any coding.
    fn rules_out_all(&self, task: &Task, plain: &Uncoded) -> bool
        requires bare { CanCode task.now plain.now.bare.now }
        requires measured { IsMeasured task.now plain.now }
        ensures { IsTrue result → (r : References) (p : Prediction)
            → plain.now.bare.now ≡ uncoded_syntax (decided r task.now) p
            → plain.now.prediction.now.at ≡ samples_by (decided r task.now) p
            → IsRated (decided r task.now) self.now
            → Tried (decided r task.now) self.now self.now
            (filter has_block (map (coded_by (decided r task.now) p)
            (codings (decided r task.now)))) }
    {
        if !self.rules_out(task, plain, false) {
            return false;
        }
        if has_dct_type(task.context) {
            return self.rules_out(task, plain, true);
        }
        true
    }

    /// Tries a prediction with coded blocks. `room` is for levels. Never inlined, so that a coding that is left makes no room.
    #[inline(never)]
    fn try_reached(
        &mut self,
        task: &Task,
        plain: &Uncoded,
        transforms: &FarTransforms,
        q: u8,
        dct_field: bool,
        room: &mut [Levels; 6],
    )
        requires task { IsTask task.now }
        requires q { IsCode q }
        requires dct { dct_field ≡ true → has_types task.now.context.now ≡ true }
        requires bare { CanCode task.now plain.now.bare.now }
        requires measured { IsMeasured task.now plain.now }
        requires coefficients { All (All IsCoefficient) transforms.now.at.now }
        requires far { AreFar transforms.now.at.now transforms.now.most.now }
        ensures tried { (r : References) (p : Prediction)
            → plain.now.bare.now ≡ uncoded_syntax (decided r task.now) p
            → plain.now.prediction.now.at ≡ samples_by (decided r task.now) p
            → HaveSame (2 * q) transforms.now.at.now
            (transforms_of task.now.source.now.at plain.now.prediction.now.at dct_field)
            → IsRated (decided r task.now) self.old
            → Tried (decided r task.now) self.old self.new
            (filter has_block (coded_by (decided r task.now) p
            (record { q = q; dct_field = dct_field }) ∷ [])) }
    {
        // a coefficient that lies nearer to 0 has no level
        let least = 2 * u32::from(q);
        let kinds = kinds(task.context, false, q);
        let pattern = quantise_blocks(transforms.at, &kinds, transforms.most, least, room);
        if pattern == 0 {
            return;
        }
        let send = sends(task, q);
        let syntax = with_blocks(plain.bare, send, q, dct_field, pattern);
        let header = bits_before(&plain.headers, send, pattern);
        let still = still_squares(task, plain, dct_field, pattern);
        self.try_written(task, &syntax, room, plain.prediction, header, still);
    }

    /// The same, but for a prediction that scores no less than the best so far, or that has no level.
    #[inline(always)]
    fn try_coding(
        &mut self,
        task: &Task,
        plain: &Uncoded,
        transforms: &FarTransforms,
        q: u8,
        dct_field: bool,
        room: &mut [Levels; 6],
    )
        requires task { IsTask task.now }
        requires q { IsCode q }
        requires dct { dct_field ≡ true → has_types task.now.context.now ≡ true }
        requires bare { CanCode task.now plain.now.bare.now }
        requires measured { IsMeasured task.now plain.now }
        requires coefficients { All (All IsCoefficient) transforms.now.at.now }
        requires far { AreFar transforms.now.at.now transforms.now.most.now }
        ensures tried { (r : References) (p : Prediction)
            → plain.now.bare.now ≡ uncoded_syntax (decided r task.now) p
            → plain.now.prediction.now.at ≡ samples_by (decided r task.now) p
            → HaveSame (2 * q) transforms.now.at.now
            (transforms_of task.now.source.now.at plain.now.prediction.now.at dct_field)
            → IsRated (decided r task.now) self.old
            → Tried (decided r task.now) self.old self.new
            (filter has_block (coded_by (decided r task.now) p
            (record { q = q; dct_field = dct_field }) ∷ [])) }
    {
        if self.rules_out(task, plain, dct_field) {
            return;
        }
        if !reaches(transforms.most, 2 * u32::from(q)) {
            return;
        }
        self.try_reached(task, plain, transforms, q, dct_field, room);
    }

    /// Tries a prediction by a quantiser, with both DCT types where the picture has them.
    fn try_codings_at(
        &mut self,
        task: &Task,
        plain: &Uncoded,
        transforms: &Transforms,
        q: u8,
        room: &mut [Levels; 6],
    )
        requires task { IsTask task.now }
        requires q { IsCode q }
        requires bare { CanCode task.now plain.now.bare.now }
        requires measured { IsMeasured task.now plain.now }
        requires frame { All (All IsCoefficient) transforms.now.frame.at.now }
        requires field { has_types task.now.context.now ≡ true
            → All (All IsCoefficient) transforms.now.field.at.now }
        requires far { AreFar transforms.now.frame.at.now transforms.now.frame.most.now }
        requires far_field { has_types task.now.context.now ≡ true
            → AreFar transforms.now.field.at.now transforms.now.field.most.now }
        ensures tried { (r : References) (p : Prediction)
            → plain.now.bare.now ≡ uncoded_syntax (decided r task.now) p
            → plain.now.prediction.now.at ≡ samples_by (decided r task.now) p
            → HaveSame (2 * q) transforms.now.frame.at.now
            (transforms_of task.now.source.now.at plain.now.prediction.now.at false)
            → (has_types task.now.context.now ≡ true
            → HaveSame (2 * q) transforms.now.field.at.now
            (transforms_of task.now.source.now.at plain.now.prediction.now.at true))
            → IsRated (decided r task.now) self.old
            → Tried (decided r task.now) self.old self.new
            (filter has_block (map (coded_by (decided r task.now) p)
            (codings_at (decided r task.now) q))) }
    {
        self.try_coding(task, plain, &transforms.frame, q, false, room);
        if has_dct_type(task.context) {
            self.try_coding(task, plain, &transforms.field, q, true, room);
        }
    }

    /// Tries all codings of a prediction, in order.
    pub fn try_codings(&mut self, task: &Task, plain: &Uncoded, scratch: &mut CodingScratch)
        requires task { IsTask task.now }
        requires bare { CanCode task.now plain.now.bare.now }
        requires measured { IsMeasured task.now plain.now }
        ensures tried { (r : References) (p : Prediction)
            → plain.now.bare.now ≡ uncoded_syntax (decided r task.now) p
            → plain.now.prediction.now.at ≡ samples_by (decided r task.now) p
            → IsRated (decided r task.now) self.old
            → Tried (decided r task.now) self.old self.new
            (filter has_block (map (coded_by (decided r task.now) p)
            (codings (decided r task.now)))) }
    {
        if self.rules_out_all(task, plain) {
            return;
        }
        let CodingScratch {
            transforms: BothTransforms { frame, field },
            levels,
            ..
        } = scratch;
        let (frame, field) = (&mut frame.at, &mut field.at);
        let q = task.limits.q;
        let least = least_far(q);
        let far = transform(task.source, plain.prediction, plain.frame, least, frame);
        let frame = FarTransforms {
            at: frame,
            most: &far,
        };
        let far_field = transform_fields(task, plain, &frame, least, field);
        let transforms = Transforms {
            frame,
            field: FarTransforms {
                at: field,
                most: &far_field,
            },
        };
        self.try_codings_at(task, plain, &transforms, q, levels);
        let second = second_q(q);
        if second != q {
            self.try_codings_at(task, plain, &transforms, second, levels);
        }
    }
}
