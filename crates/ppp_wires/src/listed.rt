//! Numbers of a list, in turn.

ghost use Rattle.std.specs.Prelude.{◌≡◌, [], ◌∷◌};
ghost use Rattle.ppp_io.specs.Account.{PutsOn};
ghost use Rattle.ppp_io.specs.Fault.{one_more};
ghost use Rattle.ppp_wires.specs.Listed.{given, given_if_told};

use std::marker::Model;

/// Gives the numbers of a list in turn, and then its last one again and again, or 0 where the list is empty.
#[derive(Drop)]
pub(crate) struct Listed {
    list: Vec<u64>,
    calls: u64,
}

impl Model for Listed {
    ghost use Rattle.std.specs.Prelude.{◌≤◌};
    ghost use Rattle.ppp_io.specs.Fault.{greatest_count};
    ghost use Rattle.ppp_wires.specs.Listed.{ListedState};

    ghost Value = { ListedState };

    ghost view = { λ s. record { list = s.list.items; calls = s.calls } };

    ghost invariant = { λ s. s.calls ≤ greatest_count };
}

impl Listed {
    /// Begins at the list's front.
    pub(crate) fn new(list: Vec<u64>) -> Listed
        ensures { result ≡ record { list = list.items; calls = 0 } }
    {
        Listed { list, calls: 0 }
    }

    /// The next number.
    pub(crate) fn give(&mut self) -> u64
        ensures value { result ≡ given self.old.list self.old.calls }
        ensures after { self.new ≡ record self.old { calls = one_more self.old.calls } }
        ensures told { PutsOn (given_if_told self.old) (given_if_told self.new) (result ∷ []) }
    {
        let number = number_at(&self.list, self.calls);
        self.calls = self.calls.saturating_add(1);
        number
    }
}

/// The number that the call behind so many calls gives.
fn number_at(list: &[u64], calls: u64) -> u64
    ensures { result ≡ given list.now calls }
{
    if calls < list.len() as u64 {
        list[calls as usize]
    } else {
        list.last().copied().unwrap_or(0)
    }
}
