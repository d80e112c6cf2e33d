//! The elements of headers that the stricter rules are about, and their names.
ghost use Rattle.std.specs.Prelude.{◌≡◌};
ghost use Rattle.m2v_strict.specs.Elements.{word_of};

/// What a rule is about: an element of a header by its name in the standard, or a size that headers tell together.
#[derive(Clone, Copy, Debug, PartialEq, Eq)]
pub enum Element {
    /// Luma samples a second, of whole macroblocks.
    CodedLumaRate,
    /// The width of a frame.
    Width,
    /// The height of a frame.
    Height,
    AspectRatioInformation,
    FrameRateCode,
    /// bit_rate with its extension.
    BitRate,
    /// vbv_buffer_size with its extension.
    VbvBufferSize,
    ConstrainedParametersFlag,
    IntraQuantiserMatrix,
    ChromaIntraQuantiserMatrix,
    LoadChromaIntraQuantiserMatrix,
    LoadChromaNonIntraQuantiserMatrix,
    ProfileAndLevelIndication,
    LowDelay,
    FrameRateExtensionN,
    FrameRateExtensionD,
    DropFrameFlag,
    TimeCodeHours,
    TimeCodeMinutes,
    TimeCodeSeconds,
    TimeCodePictures,
    /// The four numbers of a time code together.
    TimeCode,
    BrokenLink,
    VbvDelay,
    FullPelForwardVector,
    ForwardFCode,
    FullPelBackwardVector,
    BackwardFCode,
    /// The horizontal f_code of a direction.
    FCodeHorizontal,
    /// The vertical f_code of a direction.
    FCodeVertical,
    TopFieldFirst,
    FramePredFrameDct,
    RepeatFirstField,
    Chroma420Type,
    ProgressiveFrame,
    /// repeat_first_field, by the frame rate.
    RepeatByRate,
    /// The picture isn't decoded, as it wants a reference that isn't there.
    Dropped,
    /// 10,000 times the width of a frame, and its height added.
    Size,
    ProgressiveSequence,
    /// A sequence header before a group header.
    SequenceHeader,
    /// For how many fields a group is shown.
    GroupFields,
    /// B frames in a row.
    BFrames,
    /// A group header before the first picture.
    FirstGroup,
    /// The bits between two pictures, beside those that arrive at the bit rate.
    ArrivalRate,
    /// Whether a field is the top one (1) or the bottom one (0).
    FieldParity,
    /// The headers before a picture, one after another.
    HeaderOrder,
    PictureCodingType,
    /// A sequence end code behind the last picture.
    SequenceEndCode,
    ExtraBitPicture,
    /// A sequence display extension behind a sequence header.
    SequenceDisplayExtension,
}

impl Element {
    /// Its name in a report.
    #[tactic(auto, unfolding(crate::specs::Elements::word_of))]
    pub fn word(self) -> &'static str
        ensures { result.now ≡ word_of self }
    {
        match self {
            Element::CodedLumaRate => "coded_luma_rate",
            Element::Width => "width",
            Element::Height => "height",
            Element::AspectRatioInformation => "aspect_ratio_information",
            Element::FrameRateCode => "frame_rate_code",
            Element::BitRate => "bit_rate",
            Element::VbvBufferSize => "vbv_buffer_size",
            Element::ConstrainedParametersFlag => "constrained_parameters_flag",
            Element::IntraQuantiserMatrix => "intra_quantiser_matrix",
            Element::ChromaIntraQuantiserMatrix => "chroma_intra_quantiser_matrix",
            Element::LoadChromaIntraQuantiserMatrix => "load_chroma_intra_quantiser_matrix",
            Element::LoadChromaNonIntraQuantiserMatrix => "load_chroma_non_intra_quantiser_matrix",
            Element::ProfileAndLevelIndication => "profile_and_level_indication",
            Element::LowDelay => "low_delay",
            Element::FrameRateExtensionN => "frame_rate_extension_n",
            Element::FrameRateExtensionD => "frame_rate_extension_d",
            Element::DropFrameFlag => "drop_frame_flag",
            Element::TimeCodeHours => "time_code_hours",
            Element::TimeCodeMinutes => "time_code_minutes",
            Element::TimeCodeSeconds => "time_code_seconds",
            Element::TimeCodePictures => "time_code_pictures",
            Element::TimeCode => "time_code",
            Element::BrokenLink => "broken_link",
            Element::VbvDelay => "vbv_delay",
            Element::FullPelForwardVector => "full_pel_forward_vector",
            Element::ForwardFCode => "forward_f_code",
            Element::FullPelBackwardVector => "full_pel_backward_vector",
            Element::BackwardFCode => "backward_f_code",
            Element::FCodeHorizontal => "f_code_horizontal",
            Element::FCodeVertical => "f_code_vertical",
            Element::TopFieldFirst => "top_field_first",
            Element::FramePredFrameDct => "frame_pred_frame_dct",
            Element::RepeatFirstField => "repeat_first_field",
            Element::Chroma420Type => "chroma_420_type",
            Element::ProgressiveFrame => "progressive_frame",
            Element::RepeatByRate => "repeat_by_rate",
            Element::Dropped => "dropped",
            Element::Size => "size",
            Element::ProgressiveSequence => "progressive_sequence",
            Element::SequenceHeader => "sequence_header",
            Element::GroupFields => "group_fields",
            Element::BFrames => "b_frames",
            Element::FirstGroup => "first_group",
            Element::ArrivalRate => "arrival_rate",
            Element::FieldParity => "field_parity",
            Element::HeaderOrder => "header_order",
            Element::PictureCodingType => "picture_coding_type",
            Element::SequenceEndCode => "sequence_end_code",
            Element::ExtraBitPicture => "extra_bit_picture",
            Element::SequenceDisplayExtension => "sequence_display_extension",
        }
    }
}
