// A new file of the system: a trusted edge, as the standard streams. It tells neither its bytes nor its name.
ghost use Rattle.std.specs.Prelude.{◌≡◌, false, None};

use crate::real::fault;
use crate::{NamedSink, PortError, Sink};
use std::fs;
use std::io::Write;
use std::marker::Model;
use std::rt::Files;

/// A named sink over a new file of the system. It tells nothing of the bytes or of its name.
#[derive(Drop)]
pub struct FileSink<R: Files> {
    files: R,
    file: Option<R::File>,
    faults: u64,
}

// Whether the file is there, and how often a call failed.
impl<R: Files> Model for FileSink<R> {
    ghost use Rattle.std.specs.Prelude.{is_some};
    ghost use Rattle.m2v_port.specs.File.{Opened};

    ghost Value = { Opened };

    ghost view = { λ s. record { ready = is_some s.file; faults = s.faults } };
}

impl<R: Files> FileSink<R> {
    /// A sink with no file yet.
    pub fn new(files: R) -> Self
        ensures { result ≡ record { ready = false; faults = 0 } }
    {
        FileSink {
            files,
            file: None,
            faults: 0,
        }
    }
}

impl<R: Files> Sink for FileSink<R> {
    ghost held = { λ _. None };

    ghost faults = { λ s. s.faults };

    ghost ready = { λ s. s.ready };

    ghost name = { λ _. None };

    // The whole piece is with the system where this answers `Ok`.
    fn put(&mut self, piece: &[u8]) -> Result<(), PortError> {
        let written = match &mut self.file {
            Some(file) => file.write_all(piece),
            None => unreachable!(),
        };
        match written {
            Ok(()) => Ok(()),
            Err(_) => Err(fault(&mut self.faults)),
        }
    }
}

impl<R: Files> NamedSink for FileSink<R> {
    // Makes the file of this name, or empties it where it is there.
    fn open(&mut self, name: &str) -> Result<(), PortError> {
        match fs::create(&self.files, name) {
            Ok(file) => {
                self.file = Some(file);
                Ok(())
            }
            Err(_) => Err(fault(&mut self.faults)),
        }
    }
}
