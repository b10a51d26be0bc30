//! The chosen services of a plan.

use crate::chosen_service::ChosenService;
use request::MAX_SERVICES;
use std::marker::Model;

/// The services that were chosen, 1 to 16, in the order of the plan. They take no memory. Contracts
/// see them as a list.
#[derive(Drop)]
pub struct ChosenServices<'a> {
    services: [ChosenService<'a>; MAX_SERVICES],
    count: usize,
}

impl<'a> Model for ChosenServices<'a> {
    ghost use Rattle.std.specs.Prelude.{◌≤◌, List, map, take};
    ghost use Rattle.std.specs.List.{All};
    ghost use Rattle.tables.specs.Sdt.{IsSdtRow};
    ghost use Rattle.selection.specs.Chosen.{ChosenValue};
    ghost use Rattle.selection.specs.ChosenView.{chosen_value};

    ghost Value = { List ChosenValue };

    ghost view = { λ s. map chosen_value (take s.count s.services) };

    ghost invariant = { λ s. (s.count ≤ 16) ×
        All (λ (c : ChosenValue). IsSdtRow c.row) (map chosen_value (take s.count s.services)) };
}

impl<'a> ChosenServices<'a> {
    ghost use Rattle.std.specs.Prelude.{◌≡◌, ◌<◌, ◌≤◌, [], ◌∷◌, ◌++◌, length, map};
    ghost use Rattle.tables.specs.Sdt.{IsSdtRow};
    ghost use Rattle.selection.specs.Chosen.{AreInputRows};
    ghost use Rattle.selection.specs.ChosenView.{chosen_value};

    /// One service.
    pub fn new(first: ChosenService<'a>) -> ChosenServices<'a>
        requires { IsSdtRow first.row.now }
        ensures { result ≡ chosen_value first.entry ∷ [] }
    {
        ChosenServices {
            services: [first; MAX_SERVICES],
            count: 1,
        }
    }

    /// One more service, behind the others. There are fewer than 16.
    pub fn push(&mut self, next: ChosenService<'a>)
        requires room { length self.old < MAX_SERVICES }
        requires row { IsSdtRow next.row.now }
        ensures { self.new ≡ self.old ++ chosen_value next.entry ∷ [] }
    {
        let place = self.count;
        let services = &mut self.services[..];
        services[place] = next;
        self.count = place + 1;
    }

    /// The services.
    pub fn as_slice(&self) -> &[ChosenService<'a>]
        ensures value { map chosen_value result.now ≡ self.now }
        ensures count { length result.now ≤ MAX_SERVICES }
        ensures rows { AreInputRows self.now }
    {
        &self.services[..self.count]
    }
}
