ghost use Rattle.std.specs.Prelude.{◌≡◌, ◌+◌, ◌<◌, ◌≤◌, [], length, take, IfOk, IfErr, OnOk, OnErr, IsErrOf, Ok, Err, None, IsTrue, is_some};
ghost use Rattle.m2v_port.specs.Ends.{change};
ghost use Rattle.m2v_port.specs.Port.{Rose, Moves, IsAtEnd};
ghost use Rattle.m2v_y4m.specs.Rules.{IsHeader};
ghost use Rattle.m2v_y4m.specs.Sources.{IsOpen, spot, TextRead, told_left, most_ahead};
ghost use Rattle.m2v_y4m.specs.Answers.{OpenStops};

use crate::answer::{Y4mError, Y4mFault};
use crate::header::Y4mHeader;
use crate::reader::Reader;
use m2v_port::{PortError, Source};
use std::alloc::Global;
use std::marker::Model;

/// What was read of a YUV4MPEG2 text, behind its header line.
///
/// Contracts see what was read of the text and what comes, and how many reads a fault has failed.
#[derive(Drop)]
pub struct Y4mText {
    reader: Reader,
    failed: u64,
}

impl Model for Y4mText {
    ghost use Rattle.std.specs.Prelude.{◌≡◌, ◌<◌, None, is_some, IsTrue};
    ghost use Rattle.m2v_y4m.specs.Sources.{Reading};

    ghost Value = { Reading };

    ghost view = { λ t. record { at = t.reader; failed = t.failed } };

    // Reads are failed by a fault alone, and the read that finds it fails.
    ghost invariant = { λ t. (t.reader.fault ≡ None → t.failed ≡ 0)
        × (IsTrue (is_some t.reader.fault) → 0 < t.failed) };
}

impl Y4mText {
    /// Reads the header line of the text that `input` gives.
    pub fn open<S: Source>(alloc: Global, input: &mut S) -> Result<Y4mText, Y4mError>
        ensures opened { IfOk result (λ t. IsOpen (S.left input.old) t.at (S.left input.new)) }
        ensures header { IfOk result (λ t. IsHeader t.at.header) }
        ensures none { IfOk result (λ t. t.failed ≡ 0) }
        // When each error comes.
        ensures err { IfErr result (OpenStops (change S.left S.faults input.old input.new)) }
        ensures faults { S.faults input.old ≤ S.faults input.new }
        ensures lenders { S.lenders input.new ≡ S.lenders input.old }
    {
        let reader = Reader::open(alloc, input)?;
        Ok(Y4mText { reader, failed: 0 })
    }

    /// What the header line says.
    pub fn header(&self) -> &Y4mHeader
        ensures value { result.now ≡ self.now.at.header }
        ensures within { IsHeader self.now.at.header }
        // No more than this is read ahead.
        ensures ahead { length self.now.at.unread ≤ most_ahead }
    {
        self.reader.header()
    }

    /// The fault of the frame line that broke the text, once it was found.
    pub fn fault(&self) -> Option<Y4mFault>
        ensures value { result ≡ self.now.at.fault }
        ensures none { result ≡ None → self.now.failed ≡ 0 }
    {
        self.reader.fault()
    }

    /// Gives raw bytes of the frames, read on from the source of the text. It fails where this does, and from a fault of
    /// the text on.
    pub fn read<S: Source>(&mut self, input: &mut S, buf: &mut [u8]) -> Result<usize, PortError>
        ensures text { TextRead (spot self.old.at (S.left input.old)) buf.old result buf.new
            (spot self.new.at (S.left input.new)) }
        ensures within { IfOk result (λ n. n ≤ length buf.old) }
        ensures moved { IfOk result (λ n. Moves (told_left self.old.at (S.left input.old))
            (take n buf.new) (told_left self.new.at (S.left input.new))) }
        ensures end { result ≡ Ok 0 → 0 < length buf.old
            → IsAtEnd (told_left self.old.at (S.left input.old)) }
        ensures err { OnErr result (told_left self.new.at (S.left input.new)
            ≡ told_left self.old.at (S.left input.old)) }
        ensures failed { IsErrOf result PortError.Failed
            → Rose (S.faults input.old + self.old.failed) (S.faults input.new + self.new.failed) }
        ensures faults { S.faults input.old + self.old.failed
            ≤ S.faults input.new + self.new.failed }
        ensures behind { S.faults input.old ≤ S.faults input.new }
        ensures lenders { S.lenders input.new ≡ S.lenders input.old }
    {
        match self.reader.read(input, buf) {
            Ok(n) => Ok(n),
            Err(e) => {
                if self.reader.fault().is_some() {
                    self.failed = self.failed.saturating_add(1);
                }
                Err(e)
            }
        }
    }
}

/// A YUV4MPEG2 text as a source of the raw bytes of its frames, over a source of the text.
#[derive(Drop)]
pub struct Y4mSource<S> {
    /// What was read of the text.
    pub text: Y4mText,
    /// Where the rest of it comes from. It stands open, so that a caller who lends its own source knows it again.
    pub inner: S,
}

impl<S: Source> Y4mSource<S> {
    /// Reads the header line. After an error the source is given back.
    pub fn open(alloc: Global, inner: S) -> Result<Y4mSource<S>, (S, Y4mError)>
        ensures opened { IfOk result (λ s. IsOpen (S.left inner) s.text.at (S.left s.inner)) }
        ensures header { IfOk result (λ s. IsHeader s.text.at.header) }
        ensures none { IfOk result (λ s. s.text.failed ≡ 0) }
        ensures faults { IfOk result (λ s. S.faults inner ≤ S.faults s.inner) }
        ensures lenders { IfOk result (λ s. S.lenders s.inner ≡ S.lenders inner) }
        // When each error comes.
        ensures err { IfErr result (λ e. OpenStops (change S.left S.faults inner e.0) e.1) }
        ensures after { IfErr result (λ e. S.faults inner ≤ S.faults e.0) }
        ensures given_back { IfErr result (λ e. S.lenders e.0 ≡ S.lenders inner) }
    {
        let mut inner = inner;
        match Y4mText::open(alloc, &mut inner) {
            Ok(text) => Ok(Y4mSource { text, inner }),
            Err(e) => Err((inner, e)),
        }
    }

    /// What the header line says.
    pub fn header(&self) -> &Y4mHeader
        ensures value { result.now ≡ self.now.text.at.header }
        ensures within { IsHeader self.now.text.at.header }
        // No more than this is read ahead.
        ensures ahead { length self.now.text.at.unread ≤ most_ahead }
    {
        self.text.header()
    }

    /// The fault of the frame line that broke the text, once it was found.
    pub fn fault(&self) -> Option<Y4mFault>
        ensures value { result ≡ self.now.text.at.fault }
        ensures none { result ≡ None → self.now.text.failed ≡ 0 }
    {
        self.text.fault()
    }
}

impl<S: Source> Source for Y4mSource<S> {
    // The raw bytes that come, and behind them the mark of the fault that comes.
    ghost left = { λ s. told_left s.text.at (S.left s.inner) };

    ghost faults = { λ s. S.faults s.inner + s.text.failed };

    ghost behind = { λ s. S.faults s.inner };

    ghost lenders = { λ s. S.lenders s.inner };

    fn read(&mut self, buf: &mut [u8]) -> Result<usize, PortError>
        ensures text { TextRead (spot self.old.text.at (S.left self.old.inner)) buf.old result buf.new
            (spot self.new.text.at (S.left self.new.inner)) }
        // the meanings of every source
        ensures within { IfOk result (λ n. n ≤ length buf.old) }
        ensures moved { IfOk result (λ n. Moves (told_left self.old.text.at (S.left self.old.inner))
            (take n buf.new) (told_left self.new.text.at (S.left self.new.inner))) }
        ensures end { result ≡ Ok 0 → 0 < length buf.old
            → IsAtEnd (told_left self.old.text.at (S.left self.old.inner)) }
        ensures err { OnErr result (told_left self.new.text.at (S.left self.new.inner)
            ≡ told_left self.old.text.at (S.left self.old.inner)) }
        ensures failed { IsErrOf result PortError.Failed
            → Rose (S.faults self.old.inner + self.old.text.failed)
            (S.faults self.new.inner + self.new.text.failed) }
        ensures faults { S.faults self.old.inner + self.old.text.failed
            ≤ S.faults self.new.inner + self.new.text.failed }
        ensures behind { S.faults self.old.inner ≤ S.faults self.new.inner }
        ensures lenders { S.lenders self.new.inner ≡ S.lenders self.old.inner }
    {
        self.text.read(&mut self.inner, buf)
    }
}
