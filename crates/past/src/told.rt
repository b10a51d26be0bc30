//! An event on top of a history.

use std::marker::Model;
use std::snapshot::Snapshot;

/// An event, and the history before it, which takes no bytes. Contracts see the list of all events, newest first.
pub(crate) struct Told<E> {
    pub event: E,
    pub before: Option<Snapshot<Told<E>>>,
}

impl<E> Model for Told<E> {
    ghost use Rattle.std.specs.Prelude.{List, length};

    ghost Value = { List E };

    // What follows names the type itself, so it stands behind `Value`.
    ghost use Rattle.past.specs.Chain.{chain};

    ghost view = { chain };

    ghost size = { length };

    ghost use Rattle.past.specs.ChainFalls.{falls};

    ghost size_decreases = { λ a h. falls a };
}
