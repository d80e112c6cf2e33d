//! Each header written: the elements that several have, and then header by header (clauses 6.2.2 to 6.2.4).
ghost use Rattle.std.specs.Prelude.{◌≡◌, ◌+◌, ◌≤◌, ◌++◌, length};
ghost use Rattle.m2v_head.specs.Fits.{GroupFits, MatrixFits, PictureExtensionFits, PictureFits, SequenceExtensionFits, SequenceFits, SliceFits};
ghost use Rattle.m2v_head.specs.Texts.{composite_text, directions_text, f_codes_text, flag as flag_text, flags_text, group_text, intra_slice_text, loaded_text, matrices_text, matrix_text, picture_extension_text, picture_text, rates_text, sequence_extension_text, sequence_text, slice_text};

use crate::group::GroupInfo;
use crate::matrix::MatrixInfo;
use crate::picture::{PictureExtension, PictureInfo};
use crate::sequence::{SequenceExtension, SequenceInfo};
use crate::slice::SliceInfo;
use m2v_bits::{BitWriter, flag_bit};
use m2v_quant::scan;

/// Appends a flag.
#[inline(always)]
pub fn put_flag(out: &mut BitWriter, b: bool)
    requires { 1 ≤ out.old.room }
    ensures written { out.new.written ≡ out.old.written ++ flag_text b }
    ensures room { out.new.room + 1 ≡ out.old.room }
{
    out.put(flag_bit(b), 1);
}

/// Appends the flag of a matrix, and the matrix where there is one.
#[tactic(auto, using(m2v_bits::proofs::Cursor::lengths, crate::proofs::Matrices::matrix_length), unfolding(crate::specs::Texts::loaded_text))]
pub fn put_loaded(out: &mut BitWriter, matrix: &Option<[u8; 64]>)
    requires { length (loaded_text matrix.now) ≤ out.old.room }
    ensures written { out.new.written ≡ out.old.written ++ loaded_text matrix.now }
    ensures room { out.new.room + length (loaded_text matrix.now) ≡ out.old.room }
{
    match matrix {
        None => put_flag(out, false),
        Some(numbers) => {
            put_flag(out, true);
            put_matrix(out, numbers);
        }
    }
}

/// Appends the 64 numbers of a matrix in zigzag order.
fn put_matrix(out: &mut BitWriter, numbers: &[u8; 64])
    requires { 512 ≤ out.old.room }
    ensures written { out.new.written ≡ out.old.written ++ matrix_text numbers.now }
    ensures room { out.new.room + 512 ≡ out.old.room }
{
    for i in 0..64 {
        out.put(numbers[scan(false, i) as usize] as u32, 8);
    }
}

impl SequenceInfo {
    /// Appends the header.
    #[tactic(auto, using(m2v_bits::proofs::Cursor::lengths), unfolding(crate::specs::Texts::sequence_text))]
    pub fn write(&self, out: &mut BitWriter)
        requires fits { SequenceFits self.now }
        requires room { length (sequence_text self.now) ≤ out.old.room }
        ensures written { out.new.written ≡ out.old.written ++ sequence_text self.now }
        ensures room { out.new.room + length (sequence_text self.now) ≡ out.old.room }
    {
        out.put(self.horizontal_size, 12);
        out.put(self.vertical_size, 12);
        out.put(self.aspect as u32, 4);
        out.put(self.frame_rate_code as u32, 4);
        out.put(self.bit_rate, 18);
        put_flag(out, true);
        out.put(self.vbv_buffer_size, 10);
        put_flag(out, self.constrained);
        put_loaded(out, &self.load_intra);
        put_loaded(out, &self.load_non_intra);
    }
}

impl SequenceExtension {
    /// Appends the extension, its id first.
    #[tactic(auto, using(m2v_bits::proofs::Cursor::lengths), unfolding(crate::specs::Texts::sequence_extension_text, crate::specs::Texts::rates_text))]
    pub fn write(&self, out: &mut BitWriter)
        requires fits { SequenceExtensionFits self.now }
        requires room { length (sequence_extension_text self.now) ≤ out.old.room }
        ensures written { out.new.written ≡ out.old.written ++ sequence_extension_text self.now }
        ensures room { out.new.room + length (sequence_extension_text self.now) ≡ out.old.room }
    {
        out.put(1, 4);
        out.put(self.profile_and_level as u32, 8);
        put_flag(out, self.progressive_sequence);
        out.put(self.chroma_format as u32, 2);
        out.put(self.horizontal_ext as u32, 2);
        out.put(self.vertical_ext as u32, 2);
        self.write_rates(out);
    }

    /// Appends the elements from the extension of the bit rate on.
    #[tactic(auto, using(m2v_bits::proofs::Cursor::lengths), unfolding(crate::specs::Texts::rates_text))]
    fn write_rates(&self, out: &mut BitWriter)
        requires fits { SequenceExtensionFits self.now }
        requires room { length (rates_text self.now) ≤ out.old.room }
        ensures written { out.new.written ≡ out.old.written ++ rates_text self.now }
        ensures room { out.new.room + length (rates_text self.now) ≡ out.old.room }
    {
        out.put(self.bit_rate_ext, 12);
        put_flag(out, true);
        out.put(self.vbv_ext as u32, 8);
        put_flag(out, self.low_delay);
        out.put(self.rate_n as u32, 2);
        out.put(self.rate_d as u32, 5);
    }
}

impl GroupInfo {
    /// Appends the header.
    #[tactic(auto, using(m2v_bits::proofs::Cursor::lengths), unfolding(crate::specs::Texts::group_text))]
    pub fn write(&self, out: &mut BitWriter)
        requires fits { GroupFits self.now }
        requires room { length (group_text self.now) ≤ out.old.room }
        ensures written { out.new.written ≡ out.old.written ++ group_text self.now }
        ensures room { out.new.room + length (group_text self.now) ≡ out.old.room }
    {
        put_flag(out, self.drop);
        out.put(self.hours as u32, 5);
        out.put(self.minutes as u32, 6);
        put_flag(out, true);
        out.put(self.seconds as u32, 6);
        out.put(self.pictures as u32, 6);
        put_flag(out, self.closed_gop);
        put_flag(out, self.broken_link);
    }
}

impl PictureInfo {
    /// Appends the header, without extra information.
    #[tactic(auto, using(m2v_bits::proofs::Cursor::lengths), unfolding(crate::specs::Texts::picture_text))]
    pub fn write(&self, out: &mut BitWriter)
        requires fits { PictureFits self.now }
        requires room { length (picture_text self.now) ≤ out.old.room }
        ensures written { out.new.written ≡ out.old.written ++ picture_text self.now }
        ensures room { out.new.room + length (picture_text self.now) ≡ out.old.room }
    {
        out.put(self.temporal_reference, 10);
        out.put(self.kind as u32, 3);
        out.put(self.vbv_delay, 16);
        self.write_directions(out);
        put_flag(out, false);
    }

    /// Appends what only P and B pictures have.
    #[tactic(auto, using(m2v_bits::proofs::Cursor::lengths), unfolding(crate::specs::Texts::directions_text))]
    fn write_directions(&self, out: &mut BitWriter)
        requires fits { PictureFits self.now }
        requires room { length (directions_text self.now) ≤ out.old.room }
        ensures written { out.new.written ≡ out.old.written ++ directions_text self.now }
        ensures room { out.new.room + length (directions_text self.now) ≡ out.old.room }
    {
        if self.kind == 1 {
            return;
        }
        put_flag(out, self.full_pel_forward);
        out.put(self.forward_f_code as u32, 3);
        if self.kind == 2 {
            return;
        }
        put_flag(out, self.full_pel_backward);
        out.put(self.backward_f_code as u32, 3);
    }
}

impl PictureExtension {
    /// Appends the extension, its id first.
    #[tactic(auto, using(m2v_bits::proofs::Cursor::lengths), unfolding(crate::specs::Texts::picture_extension_text, crate::specs::Texts::flags_text))]
    pub fn write(&self, out: &mut BitWriter)
        requires fits { PictureExtensionFits self.now }
        requires room { length (picture_extension_text self.now) ≤ out.old.room }
        ensures written { out.new.written ≡ out.old.written ++ picture_extension_text self.now }
        ensures room { out.new.room + length (picture_extension_text self.now) ≡ out.old.room }
    {
        out.put(8, 4);
        self.write_f_codes(out);
        out.put(self.dc_precision as u32, 2);
        out.put(self.structure as u32, 2);
        self.write_flags(out);
        self.write_composite(out);
    }

    /// Appends the nine flags.
    #[tactic(auto, using(m2v_bits::proofs::Cursor::lengths), unfolding(crate::specs::Texts::flags_text))]
    fn write_flags(&self, out: &mut BitWriter)
        requires { 9 ≤ out.old.room }
        ensures written { out.new.written ≡ out.old.written ++ flags_text self.now }
        ensures room { out.new.room + 9 ≡ out.old.room }
    {
        put_flag(out, self.top_field_first);
        put_flag(out, self.frame_pred_frame_dct);
        put_flag(out, self.concealment);
        put_flag(out, self.q_scale_type);
        put_flag(out, self.intra_vlc_format);
        put_flag(out, self.alternate_scan);
        put_flag(out, self.repeat_first_field);
        put_flag(out, self.chroma_420_type);
        put_flag(out, self.progressive_frame);
    }

    fn write_f_codes(&self, out: &mut BitWriter)
        requires fits { PictureExtensionFits self.now }
        requires room { 16 ≤ out.old.room }
        ensures written { out.new.written ≡ out.old.written ++ f_codes_text self.now.f_code }
        ensures room { out.new.room + 16 ≡ out.old.room }
    {
        let [forward, backward] = self.f_code;
        out.put(forward[0] as u32, 4);
        out.put(forward[1] as u32, 4);
        out.put(backward[0] as u32, 4);
        out.put(backward[1] as u32, 4);
    }

    #[tactic(auto, using(m2v_bits::proofs::Cursor::lengths), unfolding(crate::specs::Texts::composite_text))]
    fn write_composite(&self, out: &mut BitWriter)
        requires fits { PictureExtensionFits self.now }
        requires room { length (composite_text self.now.composite) ≤ out.old.room }
        ensures written { out.new.written ≡ out.old.written ++ composite_text self.now.composite }
        ensures room { out.new.room + length (composite_text self.now.composite) ≡ out.old.room }
    {
        match self.composite {
            None => put_flag(out, false),
            Some(display) => {
                put_flag(out, true);
                out.put(display, 20);
            }
        }
    }
}

impl MatrixInfo {
    /// Appends the extension, its id first.
    #[tactic(auto, using(m2v_bits::proofs::Cursor::lengths), unfolding(crate::specs::Texts::matrices_text))]
    pub fn write(&self, out: &mut BitWriter)
        requires fits { MatrixFits self.now }
        requires room { length (matrices_text self.now) ≤ out.old.room }
        ensures written { out.new.written ≡ out.old.written ++ matrices_text self.now }
        ensures room { out.new.room + length (matrices_text self.now) ≡ out.old.room }
    {
        out.put(3, 4);
        put_loaded(out, &self.intra);
        put_loaded(out, &self.non_intra);
        put_loaded(out, &self.chroma_intra);
        put_loaded(out, &self.chroma_non_intra);
    }
}

impl SliceInfo {
    /// Appends the header, without extra information.
    #[tactic(auto, using(m2v_bits::proofs::Cursor::lengths), unfolding(crate::specs::Texts::slice_text))]
    pub fn write(&self, out: &mut BitWriter)
        requires fits { SliceFits self.now }
        requires room { length (slice_text self.now) ≤ out.old.room }
        ensures written { out.new.written ≡ out.old.written ++ slice_text self.now }
        ensures room { out.new.room + length (slice_text self.now) ≡ out.old.room }
    {
        out.put(self.quantiser as u32, 5);
        self.write_intra_slice(out);
        put_flag(out, false);
    }

    /// Appends what stands where the slice tells intra_slice.
    #[tactic(auto, using(m2v_bits::proofs::Cursor::lengths), unfolding(crate::specs::Texts::intra_slice_text))]
    fn write_intra_slice(&self, out: &mut BitWriter)
        requires fits { SliceFits self.now }
        requires room { length (intra_slice_text self.now.intra_slice self.now.reserved)
            ≤ out.old.room }
        ensures written { out.new.written ≡ out.old.written ++ intra_slice_text self.now.intra_slice
            self.now.reserved }
        ensures room { out.new.room
            + length (intra_slice_text self.now.intra_slice self.now.reserved) ≡ out.old.room }
    {
        if let Some(intra_slice) = self.intra_slice {
            put_flag(out, true);
            put_flag(out, intra_slice);
            out.put(self.reserved as u32, 7);
        }
    }
}
