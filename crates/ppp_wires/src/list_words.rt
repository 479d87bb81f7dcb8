ghost use Rattle.std.specs.Prelude.{◌≡◌, [], ◌∷◌};
ghost use Rattle.ppp_io.specs.Account.{PutsOn};
ghost use Rattle.ppp_io.specs.Fault.{one_more};
ghost use Rattle.ppp_wires.specs.Listed.{given, given_if_told};

use crate::listed::Listed;
use crate::words::Words;
use std::marker::Model;

/// Words of a list: it gives the listed numbers in turn, and then the last one again and again, or 0 where none
/// is listed. It tells what it gave while its count of calls is below the greatest `u64`.
#[derive(Drop)]
pub struct ListWords {
    inner: Listed,
}

impl Model for ListWords {
    ghost use Rattle.ppp_wires.specs.Listed.{ListedState};

    ghost Value = { ListedState };

    ghost view = { λ s. s.inner };
}

impl ListWords {
    /// Gives these numbers.
    pub fn new(list: Vec<u64>) -> ListWords
        ensures { result ≡ record { list = list.items; calls = 0 } }
    {
        ListWords {
            inner: Listed::new(list),
        }
    }
}

impl Words for ListWords {
    ghost words = { given_if_told };

    fn next(&mut self) -> u64
        ensures told { PutsOn (given_if_told self.old) (given_if_told self.new) (result ∷ []) }
        ensures value { result ≡ given self.old.list self.old.calls }
        ensures after { self.new ≡ record self.old { calls = one_more self.old.calls } }
    {
        self.inner.give()
    }
}
