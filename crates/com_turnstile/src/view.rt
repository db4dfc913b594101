//! What a pass knows, the rule of the lock, and what each kind of step tells. No value of these types is
//! made.
use crate::grows::Grows;
use atomic_table::{Play, Split, TableRule};
use std::collections::LinkedList;
use std::marker::PhantomData;
use std::snapshot::Snapshot;

// What a pass knows.
pub(crate) struct View<E> {
    // The number of the pass, which is its lane.
    pub(crate) number: u64,
    // The pass has the greatest number, and may be split.
    pub(crate) splits: bool,
    // The ticket that it has drawn.
    pub(crate) ticket: Option<u64>,
    // The pass has its turn, and its seat holds the slot.
    pub(crate) turn: bool,
    // The list that the lock was made with.
    pub(crate) opening: LinkedList<E>,
    // The list that the pass has seen.
    pub(crate) seen: LinkedList<E>,
    // The entries of its lane that the pass made.
    pub(crate) mine: LinkedList<E>,
}

// The rule of the lock round a `T`.
pub(crate) struct Turns<T> {
    of: PhantomData<T>,
}

impl<T: Grows> TableRule<Option<T>, View<T::Entry>, Snapshot<T>> for Turns<T> {
    ghost use Rattle.com_turnstile.specs.Turns.{InTurn, first_view};

    ghost holds = { λ key. InTurn T.list T.lane (T.list key.value) };

    ghost first = { λ key. first_view (T.list key.value) };
}

// A ticket is drawn.
pub(crate) struct Draw;

impl<T: Grows> Play<Option<T>, View<T::Entry>> for Draw {
    ghost use Rattle.com_turnstile.specs.Steps.{drew};

    ghost then = { drew };
}

// The ticket that is served is loaded, and the slot goes out if it is the seat's.
pub(crate) struct Serve;

impl<T: Grows> Play<Option<T>, View<T::Entry>> for Serve {
    ghost use Rattle.com_turnstile.specs.Steps.{served};

    ghost then = { served T.list T.lane };
}

// The new entries of the value are published.
pub(crate) struct Publish;

impl<T: Grows> Play<Option<T>, View<T::Entry>> for Publish {
    ghost use Rattle.com_turnstile.specs.Steps.{published};

    ghost then = { published T.list T.lane };
}

// The next ticket is served, and the slot comes home.
pub(crate) struct Advance;

impl<T: Grows> Play<Option<T>, View<T::Entry>> for Advance {
    ghost use Rattle.com_turnstile.specs.Steps.{advanced};

    ghost then = { advanced };
}

// The seat of the next pass is split off.
pub(crate) struct Deal;

impl<E> Split<View<E>> for Deal {
    ghost use Rattle.com_turnstile.specs.Steps.{no_splitter, next_view};

    ghost left = { no_splitter };

    ghost right = { next_view };
}
