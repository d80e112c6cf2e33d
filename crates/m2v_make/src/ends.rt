//! Where the stream is read again from.
ghost use Rattle.std.specs.Prelude.{[], ◌≡◌, Some};

use m2v_port::{PortError, Source};
use std::marker::Model;

/// A source of bytes that are lent. No read of it fails.
#[derive(Drop)]
pub(crate) struct Lent<'a> {
    bytes: &'a [u8],
}

// The bytes that are left.
impl<'a> Model for Lent<'a> {
    ghost use Rattle.std.specs.Prelude.{List, ℕ};

    ghost Value = { List ℕ };

    ghost view = { λ s. s.bytes.now };
}

impl<'a> Lent<'a> {
    /// A source of which all of these bytes are left.
    pub(crate) fn new(bytes: &'a [u8]) -> Lent<'a>
        ensures { result ≡ bytes.now }
    {
        Lent { bytes }
    }
}

impl<'a> Source for Lent<'a> {
    ghost left = { λ s. Some s };

    ghost faults = { λ _. 0 };

    ghost behind = { λ _. 0 };

    ghost lenders = { λ _. [] };

    // As many bytes as are left and fit.
    fn read(&mut self, buf: &mut [u8]) -> Result<usize, PortError> {
        let n = buf.len().min(self.bytes.len());
        let (front, behind) = self.bytes.split_at(n);
        buf[..n].copy_from_slice(front);
        self.bytes = behind;
        Ok(n)
    }
}
