//! A history of which nothing is stored.

ghost use Rattle.std.specs.Prelude.{◌≡◌, [], ◌∷◌};

use crate::told::Told;
use std::marker::Model;
use std::snapshot::Snapshot;

/// What happened so far: contracts see the list of its events, newest first. Whether anything happened is all that is
/// stored, in one byte.
#[derive(Drop)]
pub struct Past<E> {
    told: Option<Snapshot<Told<E>>>,
}

impl<E> Model for Past<E> {
    ghost use Rattle.std.specs.Prelude.{List};
    ghost use Rattle.past.specs.Chain.{list_of};

    ghost Value = { List E };

    ghost view = { λ p. list_of p.told };
}

impl<E: Copy> Past<E> {
    /// Nothing happened so far.
    pub fn new() -> Past<E>
        ensures { result ≡ [] }
    {
        Past { told: None }
    }

    /// One more event happened. It asks for no memory, and copies nothing that is kept.
    #[inline(always)]
    pub fn add(&mut self, event: E)
        ensures { self.new ≡ event ∷ self.old }
    {
        let told = Told {
            event,
            before: self.told.take(),
        };
        self.told = Some(Snapshot::of(&told));
        let Told {
            event: _,
            before: _,
        } = told;
    }
}
