// What no contract can say: which bytes the system gives and takes. And each endpoint in memory once.
use m2v_port::{
    FileSink, MemoryFile, MemorySource, NamedSink, PortError, Sink, Source, StdSink, StdSource,
    fill,
};
use std::alloc::Global;
use std::cell::Cell;
use std::fmt::Display;
use std::io::{Print, Read};
use std::test::Fail;
use std::{fs, io, process};

// Reads until four bytes are there, as a reader does that is opened over a source that is lent.
fn four<S: Source + Drop>(mut input: S) -> Result<[u8; 4], PortError> {
    let mut buf = [0u8; 4];
    fill(&mut input, &mut buf)?;
    Ok(buf)
}

#[test]
fn bytes_go_through_endpoints_in_memory(rt: HostRuntime) -> Result<(), Fail> {
    let alloc = rt.alloc();
    let mut input = MemorySource::new(b"abcdef".to_vec(alloc)?, vec![in alloc; 2]?);
    let first = four(&mut input)?;
    let failed = four(&mut input).is_err();
    let mut recon = MemoryFile::new(alloc, Vec::new(alloc));
    recon.open("r")?;
    recon.put(&first)?;
    recon.put(&four(&mut input)?)?;
    assert!(rt; failed && input.faults() == 1);
    assert_eq!(rt; recon.held(), b"abcdef\0\0".as_slice());
    Ok(())
}

// A reader that a signal interrupts, and that then gives a byte.
#[derive(Drop)]
struct Fitful {
    calls: u8,
}

impl Read for Fitful {
    fn read(&mut self, buf: &mut [u8]) -> io::Result<usize> {
        self.calls = self.calls.saturating_add(1);
        match self.calls {
            1 => Err(io::Error::from(io::ErrorKind::Interrupted)),
            2 if !buf.is_empty() => {
                buf[0] = b'a';
                Ok(1)
            }
            _ => Err(io::Error::from(io::ErrorKind::BrokenPipe)),
        }
    }
}

#[test]
fn an_interrupted_read_is_tried_again(rt: HostRuntime) {
    let mut input = StdSource::new(Fitful { calls: 0 });
    let mut buf = [0u8; 4];
    let answers = [input.read(&mut buf), input.read(&mut buf)];
    assert_eq!(rt; answers, [Ok(1), Err(PortError::Failed)]);
    assert_eq!(rt; buf[0], b'a');
}

// Counts the bytes that it is given. Its second call breaks.
#[derive(Drop)]
struct Counter {
    calls: Cell<u8>,
    bytes: Cell<usize>,
}

impl Print for Counter {
    fn print<D: Display + Drop>(&self, _value: D) -> io::Result<()> {
        Ok(())
    }

    fn println<D: Display + Drop>(&self, _value: D) -> io::Result<()> {
        Ok(())
    }

    fn write_all(&self, bytes: &[u8]) -> io::Result<()> {
        self.calls.set(self.calls.get().saturating_add(1));
        if self.calls.get() == 2 {
            return Err(io::Error::from(io::ErrorKind::BrokenPipe));
        }
        self.bytes.set(self.bytes.get().saturating_add(bytes.len()));
        Ok(())
    }
}

#[test]
fn a_put_that_breaks_is_a_fault(rt: HostRuntime) {
    let counter = Counter {
        calls: Cell::new(0),
        bytes: Cell::new(0),
    };
    let mut output = StdSink::new(&counter);
    let answers = [output.put(b"abcd"), output.put(b"ef"), output.put(b"g")];
    assert_eq!(rt; answers, [Ok(()), Err(PortError::Failed), Ok(())]);
    assert_eq!(rt; counter.bytes.get(), 5);
}

// Opens a new sink under the name, and puts the piece.
fn store(rt: HostRuntime, name: &str, piece: &[u8]) -> Result<(), PortError> {
    let mut recon = FileSink::new(rt);
    recon.open(name)?;
    recon.put(piece)
}

#[test]
fn a_file_that_is_there_is_emptied(rt: HostRuntime) -> Result<(), Fail> {
    let alloc = rt.alloc();
    let name = format!(in alloc; "/tmp/m2v_port_{}", process::id(rt.process()))?;
    store(rt, &name, b"abcd")?;
    store(rt, &name, b"ef")?;
    let bytes = fs::read(&rt, name.as_str())?;
    fs::remove_file(&rt, name.as_str())?;
    assert_eq!(rt; bytes.as_slice(), b"ef".as_slice());
    assert!(rt;
        store(rt, "/no/such/place", b"ab").is_err() && store(rt, "/dev/full", b"ab").is_err()
    );
    Ok(())
}
