//! The pieces of an input, text after text, of which one may come once more.
ghost use Rattle.std.specs.Prelude.{◌≡◌, ◌≤◌, ◌^◌, nat_eq, IfOk, IfSome, IfNone, IfErr, OnOk, IsErrOf, None, Option, List, ℕ, false, true};
ghost use Rattle.std.specs.List.{starts_with};
ghost use Rattle.m2v_port.specs.Port.{Rose};
ghost use Rattle.m2v_dec_piece.specs.Cutting.{IsReading, code_of};
ghost use Rattle.m2v_dec_piece.specs.Sound.{IsSoundPiece, GoesOnward};
ghost use Rattle.m2v_dec_piece.specs.Stepping.{Handed, Stopped};
ghost use Rattle.m2v_dec_piece.specs.Texts.{anew};
ghost use Rattle.m2v_strict.specs.m2v_check.m2v_decode.Decoding.{whole_of};
ghost use Rattle.m2v_strict.specs.m2v_check.m2v_decode.Progress.{before_all};
ghost use Rattle.m2v_audit.specs.Feeding.{cutting_of, IsFed, comes_again, again_of};

use m2v_port::Source;
use m2v_strict::check::decode::{Cutter, DecodeError, Piece};
use std::alloc::{AllocError, Global};

/// A piece begins with a sequence header.
fn begins_sequence(piece: &Piece) -> bool
    ensures { result ≡ starts_with nat_eq (whole_of piece.now) (code_of 0xB3) }
{
    piece.bytes.starts_with(&[0, 0, 1, 0xB3])
}

/// A piece that was refused comes once more: another sequence begins with it. `begun`: its own sequence has begun before.
#[tactic(auto, unfolding(crate::specs::Feeding::comes_again))]
fn comes_again(begun: bool, e: DecodeError, piece: &Piece) -> bool
    requires { IsSoundPiece piece.now }
    ensures { result ≡ comes_again begun e piece.now }
{
    let header = begins_sequence(piece);
    match e {
        DecodeError::Stream(f) => begun && f.place == 8 * piece.place && header,
        DecodeError::Read => false,
        DecodeError::Write => false,
        DecodeError::TooLong => false,
        DecodeError::PictureTooLarge => false,
        DecodeError::Memory => false,
    }
}

/// A cutter, and a piece of it that comes once more.
#[derive(Drop)]
pub(crate) struct Feed {
    pub(crate) cutter: Cutter,
    pub(crate) again: Option<Piece>,
}

impl Feed {
    /// Nothing was read.
    pub(crate) fn new(alloc: Global) -> Result<Feed, AllocError>
        ensures { IfOk result (λ f. (f.cutter ≡ before_all) × (f.again ≡ None)) }
    {
        Ok(Feed {
            cutter: Cutter::new(alloc)?,
            again: None,
        })
    }

    /// The next piece of the text; None where none is left. After an error no call may follow.
    pub(crate) fn next_piece<S: Source>(
        &mut self,
        alloc: Global,
        input: &mut S,
    ) -> Result<Option<Piece>, DecodeError>
        requires going { (cutting_of self.old).failed ≡ false }
        requires waits { IsFed self.old (S.left input.old) }
        ensures ok { IfOk result (Handed (cutting_of self.old) (S.left input.old)
            (cutting_of self.new) (S.left input.new)) }
        ensures going { OnOk result ((cutting_of self.new).failed ≡ false) }
        ensures err { IfErr result
            (Stopped (cutting_of self.old) (S.left input.old) (S.left input.new)) }
        ensures kind { IfErr result IsReading }
        ensures failed { IsErrOf result DecodeError.Read
            → Rose (S.faults input.old) (S.faults input.new) }
        ensures faults { S.faults input.old ≤ S.faults input.new }
        ensures sound { IfOk result (λ piece. IfSome piece IsSoundPiece) }
        ensures onward { IfOk result
            (λ piece. GoesOnward piece (cutting_of self.old).place (cutting_of self.new).place) }
        ensures begun { IfOk result
            (λ piece. IfSome piece (λ p. (cutting_of self.new).begun ≡ true)) }
        ensures over { IfOk result
            (λ piece. IfNone piece ((cutting_of self.new).ended ≡ true)) }
        ensures again { self.new.again ≡ None }
    {
        match self.again.take() {
            Some(piece) => Ok(Some(piece)),
            None => self.cutter.next_piece(alloc, input),
        }
    }

    /// A piece was refused: it comes once more, or never. `begun`: its sequence has begun before.
    pub(crate) fn refused(&mut self, begun: bool, e: DecodeError, piece: Piece)
        requires { IsSoundPiece piece }
        ensures { self.new
            ≡ record self.old { again = again_of (comes_again begun e piece) piece } }
    {
        let comes = comes_again(begun, e, &piece);
        self.again = if comes { Some(piece) } else { None };
    }

    /// Goes on with what is unread as a text of its own.
    #[tactic(auto, unfolding(crate::specs::Feeding::with_again))]
    pub(crate) fn go_on(&mut self)
        requires going { (cutting_of self.old).failed ≡ false }
        ensures value { cutting_of self.new ≡ anew (cutting_of self.old) }
        ensures waits { (left : Option (List ℕ)) → IsFed self.old left → IsFed self.new left }
    {
        match &self.again {
            Some(_) => {}
            None => self.cutter.begin_anew(),
        }
    }

    /// The place of the next piece, or of what comes before the first one of a text; behind the last piece the place where
    /// that ends.
    #[tactic(auto, unfolding(crate::specs::Feeding::with_again))]
    pub(crate) fn place(&self) -> u64
        requires piece { IfSome self.now.again IsSoundPiece }
        ensures value { result ≡ (cutting_of self.now).place }
        ensures most { result ≤ 2 ^ 36 }
    {
        match &self.again {
            Some(piece) => piece.place,
            None => self.cutter.place(),
        }
    }
}
