// What each step tells. These types are for the proofs alone.
ghost use Rattle.std.specs.Prelude.{◌≡◌, ℕ, ◌-◌};
ghost use Rattle.m2v_board.specs.Rule.{first_view};
ghost use Rattle.m2v_board.specs.Steps.{drew, lent, raised, returned, fewer, one_pass, both};

use crate::view::View;
use atomic_table::{Join, Play, Split};
use std::marker::{Brand, PhantomData};

/// What a slot holds, which a call picks.
pub trait Told<S> {
    ghost is_so: { ℕ → S → Type 0 };
}

impl<S> Told<S> for Brand {
    ghost is_so = { λ _ _. Unit {0} };
}

pub(crate) struct Draw<W> {
    told: PhantomData<W>,
}

impl<S, W: Told<S>> Play<S, View> for Draw<W> {
    ghost then = { λ st m r n. drew W.is_so m r n };
}

pub(crate) struct Lend<W> {
    told: PhantomData<W>,
}

impl<S, W: Told<S>> Play<S, View> for Lend<W> {
    ghost then = { λ st m r n. lent W.is_so (st.word - 1) m r n };
}

pub(crate) struct Raise;

impl<S> Play<S, View> for Raise {
    ghost then = { λ st m r n. raised (st.word - 1) m n };
}

pub(crate) struct Return;

impl<S> Play<S, View> for Return {
    ghost then = { λ st m r n. returned m n };
}

pub(crate) struct Cut;

impl Split<View> for Cut {
    ghost left = { fewer };

    ghost right = { one_pass };
}

pub(crate) struct Both;

impl Join<View> for Both {
    ghost both = { both };

    ghost spent = { first_view 0 0 };
}
