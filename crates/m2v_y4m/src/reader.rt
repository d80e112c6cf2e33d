ghost use Rattle.std.specs.Prelude.{◌≡◌, ◌⊎◌, ◌+◌, ◌-◌, ◌<◌, ◌≤◌, [], length, take, drop, true, false, IfOk, IfErr, OnOk, OnErr, IsErrOf, Ok, Err, Some, None, IsTrue, IsFalse, is_some};
ghost use Rattle.m2v_port.specs.Ends.{change};
ghost use Rattle.m2v_port.specs.Port.{Rose, Moves, IsAtEnd};
ghost use Rattle.m2v_y4m.specs.Frames.{size_of};
ghost use Rattle.m2v_y4m.specs.Rules.{IsHeader};
ghost use Rattle.m2v_y4m.specs.Sources.{Standing, IsOpen, ReadOn, spot, comes_of, told_left, fault_to_come, most_ahead};
ghost use Rattle.m2v_y4m.specs.Texts.{onward};
ghost use Rattle.m2v_y4m.specs.Header.{opening};
ghost use Rattle.m2v_y4m.specs.Reading.{Held, Gave, IsInside, IsOver, TookLine, BrokeLine};
ghost use Rattle.m2v_y4m.specs.Answers.{OpenStops};

use crate::answer::{Y4mError, Y4mFault, Y4mKind};
use crate::chunk::Chunk;
use crate::header::{Y4mHeader, frame_size};
use crate::lines::frame_line;
use crate::opening::read_opening;
use m2v_port::{PortError, Source};
use std::alloc::Global;
use std::marker::Model;

/// The most bytes of a line, with its newline.
const LINE: usize = 1024;

/// What was read of a text, as far as it matters for what comes.
#[derive(Drop)]
pub(crate) struct Reader {
    header: Y4mHeader,
    size: usize,
    chunk: Chunk,
    place: u64,
    rest: usize,
    line: u64,
    fault: Option<Y4mFault>,
}

impl Model for Reader {
    ghost use Rattle.std.specs.Prelude.{◌≡◌, ◌≤◌};
    ghost use Rattle.m2v_y4m.specs.Frames.{size_of};
    ghost use Rattle.m2v_y4m.specs.Rules.{IsHeader};
    ghost use Rattle.m2v_y4m.specs.Sources.{Standing, standing};

    ghost Value = { Standing };

    ghost view = { λ r. standing r.header r.chunk r.place r.rest r.line r.fault };

    ghost invariant = { λ r. IsHeader r.header × (r.size ≡ size_of r.header)
        × (r.rest ≤ r.size) };
}

/// Reads on until the bytes of a longest line are there, or the text ends.
fn gather<S: Source>(chunk: &mut Chunk, inner: &mut S) -> Result<(), PortError>
    ensures held { Held chunk.old (S.left inner.old) chunk.new (S.left inner.new) }
    ensures few { length chunk.new ≤ most_ahead }
    ensures all { OnOk result (length chunk.new < 1024 → IsAtEnd (S.left inner.new)) }
    ensures failed { IsErrOf result PortError.Failed
        → Rose (S.faults inner.old) (S.faults inner.new) }
    ensures faults { S.faults inner.old ≤ S.faults inner.new }
    ensures lenders { S.lenders inner.new ≡ S.lenders inner.old }
{
    while chunk.len() < LINE {
        if chunk.more(inner)? == 0 {
            break;
        }
    }
    Ok(())
}

/// Reads into the front of a buffer, so many bytes at most.
fn read_part<S: Source>(inner: &mut S, buf: &mut [u8], most: usize) -> Result<usize, PortError>
    requires room { 0 < length buf.old }
    requires some { 1 ≤ most }
    ensures within { IfOk result (λ n. n ≤ length buf.old) }
    ensures most { IfOk result (λ n. n ≤ most) }
    ensures moved { IfOk result (λ n. Moves (S.left inner.old) (take n buf.new)
        (S.left inner.new)) }
    ensures end { result ≡ Ok 0 → IsAtEnd (S.left inner.new) }
    ensures err { OnErr result (S.left inner.new ≡ S.left inner.old) }
    ensures failed { IsErrOf result PortError.Failed
        → Rose (S.faults inner.old) (S.faults inner.new) }
    ensures faults { S.faults inner.old ≤ S.faults inner.new }
    ensures lenders { S.lenders inner.new ≡ S.lenders inner.old }
{
    let n = buf.len().min(most);
    inner.read(&mut buf[..n])
}

impl Reader {
    /// Reads the header line.
    pub(crate) fn open<S: Source>(alloc: Global, inner: &mut S) -> Result<Reader, Y4mError>
        ensures opened { IfOk result (λ r. IsOpen (S.left inner.old) r (S.left inner.new)) }
        ensures header { IfOk result (λ r. IsHeader r.header) }
        ensures err { IfErr result (OpenStops (change S.left S.faults inner.old inner.new)) }
        ensures faults { S.faults inner.old ≤ S.faults inner.new }
        ensures lenders { S.lenders inner.new ≡ S.lenders inner.old }
    {
        let Ok(mut chunk) = Chunk::new(alloc) else {
            return Err(Y4mError::Memory);
        };
        match gather(&mut chunk, inner) {
            Ok(()) => match Reader::over(chunk) {
                Ok(reader) => Ok(reader),
                Err(fault) => Err(Y4mError::Y4m(fault)),
            },
            Err(PortError::Failed) => Err(Y4mError::Read),
            Err(PortError::Memory) => Err(Y4mError::Memory),
        }
    }

    /// Begins behind the header line, the bytes of which were read.
    fn over(chunk: Chunk) -> Result<Reader, Y4mFault>
        ensures value { IfOk result (λ r. opening chunk
            ≡ Ok (record { header = r.header; length = r.place })) }
        ensures unread { IfOk result (λ r. r.unread ≡ drop r.place chunk) }
        ensures within { IfOk result (λ r. r.place ≤ length chunk) }
        ensures before { IfOk result (λ r. r.rest ≡ 0) }
        ensures unbroken { IfOk result (λ r. r.fault ≡ None) }
        ensures header { IfOk result (λ r. IsHeader r.header) }
        ensures err { IfErr result (λ fault. opening chunk ≡ Err fault) }
    {
        match read_opening(chunk.bytes()) {
            Ok(opening) => {
                let mut chunk = chunk;
                chunk.pass(opening.length);
                Ok(Reader {
                    header: opening.header,
                    size: frame_size(&opening.header),
                    chunk,
                    place: opening.length as u64,
                    rest: 0,
                    line: 0,
                    fault: None,
                })
            }
            Err(fault) => Err(fault),
        }
    }

    /// What the header line says.
    pub(crate) fn header(&self) -> &Y4mHeader
        ensures value { result.now ≡ self.now.header }
        ensures within { IsHeader self.now.header }
        ensures ahead { length self.now.unread ≤ most_ahead }
    {
        let _ahead = self.ahead();
        &self.header
    }

    /// The fault of the frame line that broke the text, once it was found.
    pub(crate) fn fault(&self) -> Option<Y4mFault>
        ensures value { result ≡ self.now.fault }
    {
        self.fault
    }

    /// The bytes of a raw frame.
    pub(crate) fn size(&self) -> usize
        ensures value { result ≡ size_of self.now.header }
        ensures some { 1 ≤ result }
        ensures most { result ≤ 3317760 }
    {
        let _size = frame_size(&self.header);
        self.size
    }

    /// How many bytes were read ahead.
    pub(crate) fn ahead(&self) -> usize
        ensures value { result ≡ length self.now.unread }
        ensures most { result ≤ most_ahead }
    {
        self.chunk.len()
    }

    /// The text is broken here.
    fn break_at(&mut self, kind: Y4mKind, place: u64) -> PortError
        ensures failed { result ≡ PortError.Failed }
        ensures value { self.new ≡ record self.old {
          fault = Some
              (record { kind = kind; place = place });
        } }
    {
        self.fault = Some(Y4mFault { kind, place });
        PortError::Failed
    }

    /// Whether no byte was read ahead.
    fn is_drained(&self) -> bool
        ensures none { IsTrue result → self.now.unread ≡ [] }
        ensures some { IsFalse result → 1 ≤ length self.now.unread }
    {
        self.chunk.len() == 0
    }

    /// Reads on until the bytes of a longest line are there, or the text ends.
    fn look_ahead<S: Source>(&mut self, inner: &mut S) -> Result<(), PortError>
        ensures read { self.old.fault ≡ None → ReadOn (spot self.old (S.left inner.old)) []
            (spot self.new (S.left inner.new)) }
        ensures same { comes_of self.new (S.left inner.new)
            ≡ comes_of self.old (S.left inner.old) }
        ensures else_same { self.new ≡ record self.old { unread = self.new.unread } }
        ensures ahead { OnOk result (length self.new.unread < 1024 → IsAtEnd (S.left inner.new)) }
        ensures failed { IsErrOf result PortError.Failed
            → Rose (S.faults inner.old) (S.faults inner.new) }
        ensures faults { S.faults inner.old ≤ S.faults inner.new }
        ensures lenders { S.lenders inner.new ≡ S.lenders inner.old }
    {
        gather(&mut self.chunk, inner)
    }

    /// Takes the frame line that was read ahead.
    fn take_line(&mut self) -> Result<(), PortError>
        ensures took { OnOk result (TookLine self.old self.new) }
        ensures broke { OnErr result (BrokeLine self.old self.new) }
        ensures failed { IfErr result (λ e. e ≡ PortError.Failed) }
        ensures some { 1 ≤ size_of self.old.header }
    {
        let _size = frame_size(&self.header);
        match frame_line(self.chunk.bytes()) {
            Ok(length) => {
                self.chunk.pass(length);
                self.line = self.place;
                self.place = self.place.saturating_add(length as u64);
                self.rest = self.size;
                Ok(())
            }
            Err(kind) => Err(self.break_at(kind, self.place)),
        }
    }

    /// The text ends inside a frame: that breaks it where no byte of the frame was there.
    fn end_inside(&mut self) -> Result<usize, PortError>
        ensures ok { OnOk result ((self.new ≡ self.old)
            × (self.old.rest < size_of self.old.header)) }
        ensures zero { IfOk result (λ n. n ≡ 0) }
        ensures err { OnErr result ((self.new
            ≡ record self.old {
              fault = Some
                  (record { kind = Y4mKind.Frame; place = self.old.line });
            })
            × (self.old.rest ≡ size_of self.old.header)) }
        ensures failed { IfErr result (λ e. e ≡ PortError.Failed) }
        ensures some { 1 ≤ size_of self.old.header }
    {
        let _size = frame_size(&self.header);
        if self.rest == self.size {
            return Err(self.break_at(Y4mKind::Frame, self.line));
        }
        Ok(0)
    }

    /// So many bytes of the frame were given.
    fn advance(&mut self, n: usize)
        requires within { n ≤ self.old.rest }
        ensures most { self.old.rest ≤ size_of self.old.header }
        ensures value { self.new
            ≡ record self.old { rest = self.old.rest - n; place = onward self.old.place n } }
    {
        self.rest -= n;
        self.place = self.place.saturating_add(n as u64);
    }

    /// Gives bytes of the frame that were read ahead.
    fn give_held(&mut self, buf: &mut [u8]) -> usize
        requires inside { IsInside self.old }
        requires some { 0 < length self.old.unread }
        requires room { 0 < length buf.old }
        ensures least { 0 < result }
        ensures most { self.old.rest ≤ size_of self.old.header }
        ensures rest { result ≤ self.old.rest }
        ensures ahead { result ≤ length self.old.unread }
        ensures within { result ≤ length buf.old }
        ensures given { take result buf.new ≡ take result self.old.unread }
        ensures value { self.new
            ≡ record self.old {
              unread = drop result self.old.unread;
              rest = self.old.rest - result;
              place = onward self.old.place result;
            } }
    {
        let n = buf.len().min(self.rest).min(self.chunk.len());
        buf[..n].copy_from_slice(&self.chunk.bytes()[..n]);
        self.chunk.pass(n);
        self.advance(n);
        n
    }

    /// Gives bytes of the frame: those that were read ahead, or else some that are read now.
    fn give<S: Source>(&mut self, inner: &mut S, buf: &mut [u8]) -> Result<usize, PortError>
        requires inside { IsInside self.old }
        requires room { 0 < length buf.old }
        ensures within { IfOk result (λ n. n ≤ length buf.old) }
        ensures read { IfOk result (λ n. ReadOn (spot self.old (S.left inner.old))
            (take n buf.new) (spot self.new (S.left inner.new))) }
        ensures stood { OnErr result (self.new.fault ≡ None
            → ReadOn (spot self.old (S.left inner.old)) [] (spot self.new (S.left inner.new))) }
        ensures gave { IfOk result (λ n. Gave (comes_of self.old (S.left inner.old))
            (take n buf.new) (comes_of self.new (S.left inner.new))) }
        ensures same { OnErr result (comes_of self.new (S.left inner.new)
            ≡ comes_of self.old (S.left inner.old)) }
        ensures header { self.new.header ≡ self.old.header }
        ensures unbroken { OnOk result (self.new.fault ≡ None) }
        ensures unread { result ≡ Ok 0 → self.new.unread ≡ [] }
        ensures end { result ≡ Ok 0 → IsAtEnd (S.left inner.new) }
        ensures over { result ≡ Ok 0 → IsAtEnd (told_left self.new (S.left inner.new)) }
        ensures failed { IsErrOf result PortError.Failed
            → Rose (S.faults inner.old) (S.faults inner.new) ⊎ IsTrue (is_some self.new.fault) }
        ensures faults { S.faults inner.old ≤ S.faults inner.new }
        ensures lenders { S.lenders inner.new ≡ S.lenders inner.old }
    {
        if !self.is_drained() {
            return Ok(self.give_held(buf));
        }
        let n = read_part(inner, buf, self.rest)?;
        if n == 0 {
            return self.end_inside();
        }
        self.advance(n);
        Ok(n)
    }

    /// Reads a frame line where one is to come. Answers whether a frame is at hand: none is at the end.
    fn enter<S: Source>(&mut self, inner: &mut S) -> Result<bool, PortError>
        requires unbroken { self.old.fault ≡ None }
        ensures read { self.new.fault ≡ None → ReadOn (spot self.old (S.left inner.old)) []
            (spot self.new (S.left inner.new)) }
        ensures same { comes_of self.new (S.left inner.new)
            ≡ comes_of self.old (S.left inner.old) }
        ensures header { self.new.header ≡ self.old.header }
        ensures inside { result ≡ Ok true → IsInside self.new }
        ensures unbroken { OnOk result (self.new.fault ≡ None) }
        ensures unread { result ≡ Ok false → self.new.unread ≡ [] }
        ensures end { result ≡ Ok false → IsAtEnd (S.left inner.new) }
        ensures over { result ≡ Ok false → IsAtEnd (told_left self.new (S.left inner.new)) }
        ensures failed { IsErrOf result PortError.Failed
            → Rose (S.faults inner.old) (S.faults inner.new) ⊎ IsTrue (is_some self.new.fault) }
        ensures faults { S.faults inner.old ≤ S.faults inner.new }
        ensures lenders { S.lenders inner.new ≡ S.lenders inner.old }
    {
        if self.rest > 0 {
            return Ok(true);
        }
        self.look_ahead(inner)?;
        if self.is_drained() {
            return Ok(false);
        }
        self.take_line()?;
        Ok(true)
    }

    /// Gives raw bytes of frames, as a source does. It fails where the input does, and from a fault of the text on.
    pub(crate) fn read<S: Source>(
        &mut self,
        inner: &mut S,
        buf: &mut [u8],
    ) -> Result<usize, PortError>
        ensures read { IfOk result (λ n. ReadOn (spot self.old (S.left inner.old))
            (take n buf.new) (spot self.new (S.left inner.new))) }
        ensures stood { OnErr result (self.new.fault ≡ None
            → ReadOn (spot self.old (S.left inner.old)) [] (spot self.new (S.left inner.new))) }
        ensures same { OnErr result (comes_of self.new (S.left inner.new)
            ≡ comes_of self.old (S.left inner.old)) }
        ensures fault { fault_to_come self.new (S.left inner.new)
            ≡ fault_to_come self.old (S.left inner.old) }
        ensures broke { self.new.fault ≡ None → self.old.fault ≡ None }
        ensures header { self.new.header ≡ self.old.header }
        ensures zero { result ≡ Ok 0 → 0 < length buf.old → IsAtEnd (S.left inner.new) }
        ensures unread { result ≡ Ok 0 → 0 < length buf.old → self.new.unread ≡ [] }
        ensures over { result ≡ Ok 0 → 0 < length buf.old
            → IsOver (comes_of self.new (S.left inner.new)) }
        ensures unbroken { OnOk result (self.new.fault ≡ None) }
        ensures broken { IsTrue (is_some self.old.fault) → result ≡ Err PortError.Failed }
        ensures within { IfOk result (λ n. n ≤ length buf.old) }
        ensures moved { IfOk result (λ n. Moves (told_left self.old (S.left inner.old))
            (take n buf.new) (told_left self.new (S.left inner.new))) }
        ensures end { result ≡ Ok 0 → 0 < length buf.old
            → IsAtEnd (told_left self.old (S.left inner.old)) }
        ensures err { OnErr result (told_left self.new (S.left inner.new)
            ≡ told_left self.old (S.left inner.old)) }
        ensures failed { IsErrOf result PortError.Failed
            → Rose (S.faults inner.old) (S.faults inner.new) ⊎ IsTrue (is_some self.new.fault) }
        ensures faults { S.faults inner.old ≤ S.faults inner.new }
        ensures lenders { S.lenders inner.new ≡ S.lenders inner.old }
    {
        if self.fault.is_some() {
            return Err(PortError::Failed);
        }
        if buf.len() == 0 {
            return Ok(0);
        }
        match self.enter(inner) {
            Ok(true) => self.give(inner, buf),
            Ok(false) => Ok(0),
            Err(e) => Err(e),
        }
    }
}
