ghost use Rattle.std.specs.Prelude.{◌≡◌, map, string_bytes, IfOk, IfSome, IsNone};
ghost use Rattle.m2v_tool.specs.declared.command.Command.{Command};
ghost use Rattle.m2v_tool.specs.Words.{Means, MeansBy, NoCommand};

use crate::audit::AuditOutcome;
use crate::check::CheckOutcome;
use crate::cut::{CutOutcome, CutWords};
use crate::decode::DecodeOutcome;
use crate::encode::{EncodeOutcome, EncodeWords};
use crate::encode_y4m::Y4mOutcome;
use crate::flat::{FlatOutcome, FlatWords};
use crate::make::MakeOutcome;
use crate::meant::{
    audit_words, check_words, cut_words, decode_words, encode_words, flat_words, make_words,
    mend_words, pack_words, unpack_words, y4m_words,
};
use crate::mend::{MendOutcome, MendWords};
use crate::pack::PackOutcome;
use crate::unpack::UnpackOutcome;
use m2v_audit::Asked;
use m2v_y4m::Y4mHeader;
use std::alloc::{AllocError, Global};

/// What words mean.
#[derive(Debug, Drop)]
pub enum Command {
    /// Raw frames are coded by the flat profile.
    Flat(FlatWords),
    /// Raw frames are coded.
    Encode(EncodeWords),
    /// A stream is decoded, by so many workers.
    Decode(u32),
    /// A stream is judged.
    Check,
    /// All that is wrong with a stream is reported.
    Audit(Asked),
    /// What decodes of an input is copied.
    Mend(MendWords),
    /// The stream of a seed is made.
    Make(u64),
    /// Groups of a stream are copied.
    Cut(CutWords),
    /// Raw frames are packed into a YUV4MPEG2 text of this header.
    Pack(Y4mHeader),
    /// A YUV4MPEG2 text is unpacked.
    Unpack,
    /// The frames of a YUV4MPEG2 text are coded; the text has the sizes and the rate.
    EncodeY4m(EncodeWords),
}

/// What came of the words.
#[derive(Clone, Copy, Debug, PartialEq, Eq)]
pub enum Outcome {
    /// The words are no command.
    Usage,
    /// Memory ran out before the words were read.
    NoMemory,
    /// What came of `flat`.
    Flat(FlatOutcome),
    /// What came of `encode`.
    Encode(EncodeOutcome),
    /// What came of `decode`.
    Decode(DecodeOutcome),
    /// What came of `check`.
    Check(CheckOutcome),
    /// What came of `audit`.
    Audit(AuditOutcome),
    /// What came of `mend`.
    Mend(MendOutcome),
    /// What came of `make`.
    Make(MakeOutcome),
    /// What came of `cut`.
    Cut(CutOutcome),
    /// What came of `pack`.
    Pack(PackOutcome),
    /// What came of `unpack`.
    Unpack(UnpackOutcome),
    /// What came of `encode-y4m`.
    EncodeY4m(Y4mOutcome),
}

/// What the word that names a command means with those behind it.
fn meant_by(alloc: Global, name: &str, others: &[String]) -> Result<Option<Command>, AllocError>
    ensures found { IfOk result (λ m. IfSome m (MeansBy name.now (map string_bytes others.now))) }
    ensures none { IfOk result (λ m. IsNone m
        → (c : Command) → MeansBy name.now (map string_bytes others.now) c → ⊥) }
{
    match name {
        "flat" => Ok(flat_words(alloc, others)?.map(Command::Flat)),
        "encode" => Ok(encode_words(alloc, others)?.map(Command::Encode)),
        "decode" => Ok(decode_words(alloc, others)?.map(Command::Decode)),
        "check" => Ok(check_words(alloc, others)?.then_some(Command::Check)),
        "audit" => Ok(audit_words(alloc, others)?.map(Command::Audit)),
        "mend" => Ok(mend_words(alloc, others)?.map(Command::Mend)),
        "make" => Ok(make_words(alloc, others)?.map(Command::Make)),
        "cut" => Ok(cut_words(alloc, others)?.map(Command::Cut)),
        "pack" => Ok(pack_words(alloc, others)?.map(Command::Pack)),
        "unpack" => Ok(unpack_words(alloc, others)?.then_some(Command::Unpack)),
        "encode-y4m" => Ok(y4m_words(alloc, others)?.map(Command::EncodeY4m)),
        _ => Ok(None),
    }
}

/// What the words mean: the first one names a command, and those behind it are what `clap` takes for it.
pub(crate) fn meaning(alloc: Global, words: &[String]) -> Result<Option<Command>, AllocError>
    ensures found { IfOk result (λ m. IfSome m (Means (map string_bytes words.now))) }
    ensures none { IfOk result (λ m. IsNone m → NoCommand (map string_bytes words.now)) }
{
    match words.split_first() {
        Some((name, others)) => meant_by(alloc, name.as_str(), others),
        None => Ok(None),
    }
}
