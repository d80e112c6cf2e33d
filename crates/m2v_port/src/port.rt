// The endpoints of the program: what their calls do, and what they never do.
ghost use Rattle.std.specs.Prelude.{◌≡◌, ◌<◌, ◌≤◌, List, ◌∷◌, ℕ, Bool, Option, length, take, IfOk, OnOk, OnErr, IfSome, IsErrOf, IsTrue, IsFalse, Ok};
ghost use Rattle.m2v_port.specs.Port.{Rose, Moves, IsAtEnd, Grows, GrowsByPrefix};

use crate::PortError;

/// Where bytes come from.
pub trait Source {
    /// The bytes that are left, where the source tells them.
    ghost left: { Self → Option (List ℕ) };

    /// How often the source has failed: a count that never falls.
    ghost faults: { Self → ℕ };

    /// How often the endpoint behind it has failed, where it reads from another source: a count that never falls. It is
    /// `faults` where nothing is behind.
    ghost behind: { Self → ℕ };

    /// The references through which it reads, the outermost first, by their ghost names. No read changes them, so that
    /// a source that was lent to it is still the one that it reads from.
    ghost lenders: { Self → List ℕ };

    /// Moves bytes from the front of what is left to the front of the buffer, and answers how many. After an
    /// error, be it a fault or want of memory, nothing was moved. What stands in the buffer behind the moved
    /// bytes, and in all of it after an error, is left open.
    fn read(&mut self, buf: &mut [u8]) -> Result<usize, PortError>
        ensures within { IfOk result (λ n. n ≤ length buf.old) }
        ensures moved { IfOk result (λ n. Moves (left self.old) (take n buf.new) (left self.new)) }

        // It answers 0 for a buffer that isn't empty only at the end of input.
        ensures end { result ≡ Ok 0 → 0 < length buf.old → IsAtEnd (left self.old) }

        ensures err { OnErr result (left self.new ≡ left self.old) }
        ensures failed { IsErrOf result PortError.Failed
            → Rose (faults self.old) (faults self.new) }
        ensures faults { faults self.old ≤ faults self.new }
        ensures behind { behind self.old ≤ behind self.new }
        ensures lenders { lenders self.new ≡ lenders self.old };
}

// A source that is lent is a source: what is read of it is gone from the one that it points to.
impl<S: Source> Source for &mut S {
    ghost left = { λ s. S.left s.now };

    ghost faults = { λ s. S.faults s.now };

    ghost behind = { λ s. S.behind s.now };

    ghost lenders = { λ s. s.ghost_name ∷ S.lenders s.now };

    fn read(&mut self, buf: &mut [u8]) -> Result<usize, PortError> {
        (**self).read(buf)
    }
}

/// Where bytes go to.
pub trait Sink {
    /// The bytes that it holds, where the sink tells them.
    ghost held: { Self → Option (List ℕ) };

    /// How often the sink has failed: a count that never falls.
    ghost faults: { Self → ℕ };

    /// Whether bytes may be put. A plain sink is always ready, a named one from its opening on.
    ghost ready: { Self → Bool };

    /// Its name, where the sink tells one.
    ghost name: { Self → Option (List ℕ) };

    /// Appends the piece. After an error, be it a fault or want of memory, a prefix of the piece was appended.
    fn put(&mut self, piece: &[u8]) -> Result<(), PortError>
        requires { IsTrue (ready self.old) }
        ensures ok { OnOk result (Grows (held self.old) piece.now (held self.new)) }
        ensures err { OnErr result (GrowsByPrefix (held self.old) piece.now (held self.new)) }
        ensures ready { IsTrue (ready self.new) }
        ensures name { name self.new ≡ name self.old }
        ensures failed { IsErrOf result PortError.Failed
            → Rose (faults self.old) (faults self.new) }
        ensures faults { faults self.old ≤ faults self.new };
}

/// A sink that is given a name before it is ready.
pub trait NamedSink: Sink {
    /// Gives the sink its name and makes it ready. It never changes what the sink holds, and after an error the
    /// sink is as it was but for its count.
    fn open(&mut self, name: &str) -> Result<(), PortError>
        requires { IsFalse (Self.ready self.old) }
        ensures ok { OnOk result (IsTrue (Self.ready self.new)) }
        ensures name { OnOk result (IfSome (Self.name self.new) (λ told. told ≡ name.now)) }
        ensures err { OnErr result (IsFalse (Self.ready self.new)) }
        ensures unnamed { OnErr result (Self.name self.new ≡ Self.name self.old) }
        ensures same { Self.held self.new ≡ Self.held self.old }
        ensures failed { IsErrOf result PortError.Failed
            → Rose (Self.faults self.old) (Self.faults self.new) }
        ensures faults { Self.faults self.old ≤ Self.faults self.new };
}
