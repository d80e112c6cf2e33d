//! The words of the report.
ghost use Rattle.std.specs.Prelude.{◌≡◌};
ghost use Rattle.m2v_audit.specs.Lines.{columns_lines, name_of, name_with, rate_word, type_word, structure_word, failure_word, limit_word};

use m2v_strict::Element;

/// The rate at which the buffer is filled.
#[derive(Clone, Copy)]
pub enum RateKind {
    /// Always that of the sequence.
    Constant,
    /// At most that of the sequence: vbv_delay is 65535.
    Variable,
    /// Of this sequence there is no account.
    NoAccount,
}

/// The type of a picture (picture_coding_type).
#[derive(Clone, Copy)]
pub enum PictureType {
    /// Intra-coded.
    I,
    /// Predicted.
    P,
    /// Predicted in both directions.
    B,
}

/// The structure of a picture (picture_structure).
#[derive(Clone, Copy)]
pub enum Structure {
    /// A frame.
    Frame,
    /// A top field.
    Top,
    /// A bottom field.
    Bottom,
}

/// How the decoder's buffer fails at a picture.
#[derive(Clone, Copy)]
pub enum FailureKind {
    /// The picture isn't whole when it is due.
    Under,
    /// More is held than the buffer takes.
    Over,
    /// The picture isn't whole when it is due, in a sequence of low delay.
    Big,
}

/// A limit of the input.
#[derive(Clone, Copy, Debug, PartialEq, Eq)]
pub enum LimitKind {
    /// A byte follows the first 2^36 bytes.
    TooLong,
    /// A picture, with its headers, has more than 2,097,152 bytes.
    TooLarge,
}

/// The name of a rule.
#[tactic(auto, unfolding(crate::specs::Lines::name_of))]
pub(crate) fn name_of(rule: u8) -> &'static str
    ensures { result.now ≡ name_of rule }
{
    match rule {
        1 => "level",
        2 => "width",
        3 => "height",
        4 => "frame_rate",
        5 => "luma_rate",
        6 => "bit_rate",
        7 => "vbv_buffer_size",
        8 => "f_code_horizontal",
        9 => "f_code_vertical",
        10 => "group_begins",
        11 => "temporal_reference",
        12 => "large_macroblocks",
        13 => "repeat_first_field",
        14 => "progressive",
        15 => "intra_dc_precision",
        _ => "unknown",
    }
}

/// The name of what is broken: an element that is told, or else what its rule is named by.
#[tactic(auto, unfolding(crate::specs::Lines::name_with))]
pub(crate) fn name_with(rule: u8, element: Option<Element>) -> &'static str
    ensures { result.now ≡ name_with rule element }
{
    match element {
        Some(element) => element.word(),
        None => name_of(rule),
    }
}

/// The word of a rate.
#[tactic(auto, unfolding(crate::specs::Lines::rate_word))]
pub(crate) fn rate_word(rate: RateKind) -> &'static str
    ensures { result.now ≡ rate_word rate }
{
    match rate {
        RateKind::Constant => "constant",
        RateKind::Variable => "variable",
        RateKind::NoAccount => "none",
    }
}

/// The word of a type.
#[tactic(auto, unfolding(crate::specs::Lines::type_word))]
pub(crate) fn type_word(kind: PictureType) -> &'static str
    ensures { result.now ≡ type_word kind }
{
    match kind {
        PictureType::I => "I",
        PictureType::P => "P",
        PictureType::B => "B",
    }
}

/// The word of a structure.
#[tactic(auto, unfolding(crate::specs::Lines::structure_word))]
pub(crate) fn structure_word(structure: Structure) -> &'static str
    ensures { result.now ≡ structure_word structure }
{
    match structure {
        Structure::Frame => "frame",
        Structure::Top => "top",
        Structure::Bottom => "bottom",
    }
}

/// The word of a failure.
#[tactic(auto, unfolding(crate::specs::Lines::failure_word))]
pub(crate) fn failure_word(kind: FailureKind) -> &'static str
    ensures { result.now ≡ failure_word kind }
{
    match kind {
        FailureKind::Under => "under",
        FailureKind::Over => "over",
        FailureKind::Big => "big",
    }
}

/// The word of a limit.
#[tactic(auto, unfolding(crate::specs::Lines::limit_word))]
pub(crate) fn limit_word(kind: LimitKind) -> &'static str
    ensures { result.now ≡ limit_word kind }
{
    match kind {
        LimitKind::TooLong => "too_long",
        LimitKind::TooLarge => "too_large",
    }
}

/// The lines that name the columns of each kind of record.
#[tactic(auto, unfolding(crate::specs::Lines::columns_lines, crate::specs::Lines::column_text))]
pub(crate) fn column_names() -> &'static str
    ensures { result.now ≡ columns_lines }
{
    concat!(
        "columns\tskipped\tsequence\tbyte\tbytes\n",
        "columns\tsequence\tsequence\tbit\twidth\theight\tframe_rate_code\taspect\tprofile_and_level",
        "\tprogressive\tlow_delay\tbit_rate\tvbv_buffer_size\trate\n",
        "columns\tgroup\tsequence\tgroup\tbit\tpicture",
        "\tdrop\thours\tminutes\tseconds\tpictures\tclosed\tbroken\n",
        "columns\tpicture\tsequence\tpicture\tbit\ttype\tstructure\ttemporal_reference",
        "\tbits\tzeros\tvbv_delay\tfields\tdropped\n",
        "columns\theld\tsequence\tpicture\ttime\tbefore\ttaken\tafter\tdelay\twait\n",
        "columns\tbreach\tsequence\tpicture\tbit\trule\tname\thave\tneed\n",
        "columns\twarning\tsequence\tpicture\tbit\trule\tname\thave\tneed\n",
        "columns\tfailure\tsequence\tpicture\tbit\tkind\ttime\thave\tneed\twait\n",
        "columns\tfault\tsequence\tbit\tkind\n",
        "columns\tlimit\tsequence\tkind\n",
        "columns\tcount\tsequence\trule\thow_often\tpicture\n",
        "columns\tend\tsequence\tpictures\tframes\tgroups\tbytes\tbreaches\tfailures\twarnings",
        "\tlow\thigh\tdelays\ttime\n",
        "columns\ttotal\tsequences\tpictures\tbytes\tbreaches\tfailures\twarnings\n",
    )
}
