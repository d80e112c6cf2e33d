ghost use Rattle.m2v_bits.specs.Laws.{Decided, RoundTrip};
ghost use Rattle.m2v_head.specs.Texts.{sequence_text, sequence_extension_text, group_text, picture_text, picture_extension_text, matrices_text, slice_text};
ghost use Rattle.m2v_head.specs.Fits.{SequenceFits, SequenceExtensionFits, GroupFits, PictureFits, PictureExtensionFits, MatrixFits, SliceFits};
ghost use Rattle.m2v_head.specs.Headers.{sequence_at, sequence_extension_at, group_at, picture_at, picture_extension_at, matrices_at, slice_at};

/// At each text exactly one of a header and a first fault stands, and it has one value.
pub fn law_one_value()
    ensures sequence { Decided sequence_at }
    ensures sequence_extension { Decided sequence_extension_at }
    ensures group { Decided group_at }
    ensures picture { Decided picture_at }
    ensures picture_extension { Decided picture_extension_at }
    ensures matrices { Decided matrices_at }
    ensures slice { Decided slice_at }
{}

/// What is written of a header spells it, and is read back as it, whatever follows.
pub fn law_round_trip()
    ensures sequence { RoundTrip sequence_at SequenceFits sequence_text }
    ensures sequence_extension { RoundTrip sequence_extension_at SequenceExtensionFits
        sequence_extension_text }
    ensures group { RoundTrip group_at GroupFits group_text }
    ensures picture { RoundTrip picture_at PictureFits picture_text }
    ensures picture_extension { RoundTrip picture_extension_at PictureExtensionFits
        picture_extension_text }
    ensures matrices { RoundTrip matrices_at MatrixFits matrices_text }
    ensures slice { RoundTrip slice_at SliceFits slice_text }
{}
