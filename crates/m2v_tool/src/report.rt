ghost use Rattle.std.specs.Prelude.{◌≡◌, ◌++◌, map, IfOk};
ghost use Rattle.m2v_model.specs.Pieces.{too_large, too_long};
ghost use Rattle.m2v_tool.specs.Endings.{Ending, IsReport, ending_past, kind_name, line_text, no_frames, no_memory, numbered, plain, read_fault, short_frame, stream_fault, too_many_frames, unopened_ending, usage, write_fault, y4m_fault};

use itoa::Buffer;
use m2v_cut::decode::{Fault, fault_word};
use m2v_port::PortError;
use m2v_y4m::{Y4mFault, Y4mKind};
use std::alloc::{AllocError, Global};

/// What the program ends with: its status, and its line on report.
#[derive(Drop)]
pub struct Report {
    /// 0 where all went well, else the number of the refusal.
    pub(crate) status: u8,
    /// The line, with its newline.
    pub(crate) line: Vec<u8>,
}

impl Report {
    /// A status, and a line of texts, each with a number behind it.
    pub(crate) fn new(
        alloc: Global,
        status: u8,
        figures: &[(&str, u128)],
    ) -> Result<Report, AllocError>
        ensures { IfOk result (λ r. IsReport r (record {
          status = status;
          texts = map (λ f. f.0.now) figures.now;
          numbers = map (λ f. f.1) figures.now;
        })) }
    {
        let line = print(alloc, figures)?;
        Ok(Report { status, line })
    }

    /// A status, and a line of one text.
    pub(crate) fn plain(alloc: Global, status: u8, text: &str) -> Result<Report, AllocError>
        ensures { IfOk result (λ r. IsReport r (plain status text.now)) }
    {
        let mut line = Vec::from_slice(alloc, text.as_bytes())?;
        line.push(b'\n')?;
        Ok(Report { status, line })
    }

    /// A status, and a line of a word between two texts, with a place behind them.
    pub(crate) fn placed(
        alloc: Global,
        status: u8,
        before: &str,
        word: &str,
        behind: &str,
        place: u64,
    ) -> Result<Report, AllocError>
        ensures { IfOk result (λ r. IsReport r
            (numbered status ((before.now ++ word.now) ++ behind.now) place)) }
    {
        let mut text = String::from_str(alloc, before)?;
        text.push_str(word)?;
        text.push_str(behind)?;
        Report::new(alloc, status, &[(text.as_str(), u128::from(place))])
    }
}

/// What the program can end with: it has a status and a line on report.
pub(crate) trait Ends {
    // Its ending.
    ghost ending: { Self → Ending };

    /// Its status and its line on report.
    fn report(&self, alloc: Global) -> Result<Report, AllocError>
        ensures { IfOk result (λ r. IsReport r (ending self.now)) };
}

/// The words are no command.
pub(crate) fn usage(alloc: Global) -> Result<Report, AllocError>
    ensures { IfOk result (λ r. IsReport r usage) }
{
    Report::plain(alloc, 2, "usage")
}

/// The input failed.
pub(crate) fn read_fault(alloc: Global) -> Result<Report, AllocError>
    ensures { IfOk result (λ r. IsReport r read_fault) }
{
    Report::plain(alloc, 7, "read fault")
}

/// The output failed.
pub(crate) fn write_fault(alloc: Global) -> Result<Report, AllocError>
    ensures { IfOk result (λ r. IsReport r write_fault) }
{
    Report::plain(alloc, 8, "write fault")
}

/// Memory ran out.
pub(crate) fn no_memory(alloc: Global) -> Result<Report, AllocError>
    ensures { IfOk result (λ r. IsReport r no_memory) }
{
    Report::plain(alloc, 12, "no memory")
}

/// A place wasn't opened.
#[tactic(auto, unfolding(crate::specs::Endings::unopened_ending))]
pub(crate) fn unopened(alloc: Global, error: PortError) -> Result<Report, AllocError>
    ensures { IfOk result (λ r. IsReport r (unopened_ending error)) }
{
    match error {
        PortError::Failed => write_fault(alloc),
        PortError::Memory => no_memory(alloc),
    }
}

/// Raw frames end inside one, of which these many bytes are there.
pub(crate) fn short_frame(alloc: Global, extra: u64) -> Result<Report, AllocError>
    ensures { IfOk result (λ r. IsReport r (short_frame extra)) }
{
    Report::new(alloc, 4, &[("short frame extra ", u128::from(extra))])
}

/// There are no raw frames.
pub(crate) fn no_frames(alloc: Global) -> Result<Report, AllocError>
    ensures { IfOk result (λ r. IsReport r no_frames) }
{
    Report::plain(alloc, 5, "no frames")
}

/// A byte follows raw frame 999,999.
pub(crate) fn too_many_frames(alloc: Global) -> Result<Report, AllocError>
    ensures { IfOk result (λ r. IsReport r too_many_frames) }
{
    Report::plain(alloc, 6, "too many frames")
}

/// A byte follows the first 2^36 bytes of the stream, and no sequence end code stands before it.
#[tactic(auto, unfolding(crate::specs::Endings::ending_past))]
pub(crate) fn too_long(alloc: Global) -> Result<Report, AllocError>
    ensures { IfOk result (λ r. IsReport r (ending_past too_long)) }
{
    Report::plain(alloc, 13, "too long")
}

/// A picture of the stream, with its headers, has more than 2,097,152 bytes.
#[tactic(auto, unfolding(crate::specs::Endings::ending_past))]
pub(crate) fn too_large(alloc: Global) -> Result<Report, AllocError>
    ensures { IfOk result (λ r. IsReport r (ending_past too_large)) }
{
    Report::plain(alloc, 14, "picture too large")
}

/// The first fault of a stream: its kind and its place.
#[tactic(auto, unfolding(crate::specs::Endings::stream_fault))]
pub(crate) fn stream_fault(alloc: Global, fault: &Fault) -> Result<Report, AllocError>
    ensures { IfOk result (λ r. IsReport r (stream_fault fault.now)) }
{
    let word = fault_word(fault.kind);
    Report::placed(alloc, 9, "stream ", word, " at bit ", fault.place)
}

/// The name of a kind of fault.
#[tactic(auto, unfolding(crate::specs::Endings::kind_name))]
fn kind_name(kind: Y4mKind) -> &'static str
    ensures { result.now ≡ kind_name kind }
{
    match kind {
        Y4mKind::Magic => "Magic",
        Y4mKind::Line => "Line",
        Y4mKind::Field => "Field",
        Y4mKind::Size => "Size",
        Y4mKind::Rate => "Rate",
        Y4mKind::Interlace => "Interlace",
        Y4mKind::Chroma => "Chroma",
        Y4mKind::Frame => "Frame",
    }
}

/// The first fault of a YUV4MPEG2 text: its kind and its place.
#[tactic(auto, unfolding(crate::specs::Endings::y4m_fault))]
pub(crate) fn y4m_fault(alloc: Global, fault: &Y4mFault) -> Result<Report, AllocError>
    ensures { IfOk result (λ r. IsReport r (y4m_fault fault.now)) }
{
    let name = kind_name(fault.kind);
    Report::placed(alloc, 15, "y4m fault ", name, " at byte ", fault.place)
}

/// Texts, each with its number in decimal behind it, and a newline.
fn print(alloc: Global, figures: &[(&str, u128)]) -> Result<Vec<u8>, AllocError>
    ensures { IfOk result (λ l. l.items
        ≡ line_text (map (λ f. f.0.now) figures.now) (map (λ f. f.1) figures.now)) }
{
    let mut line = Vec::new(alloc);
    for i in 0..figures.len() {
        let (text, number) = figures[i];
        line.extend_from_slice(text.as_bytes())?;
        line.extend_from_slice(Buffer::new().format(number).as_bytes())?;
    }
    line.extend_from_slice(b"\n")?;
    Ok(line)
}
