//! Who decides whether another link is had.

ghost use Rattle.std.specs.Prelude.{Bool};
ghost use Rattle.std.specs.Fn.{FnReturnsAt};
ghost use Rattle.ppp_bap.specs.declared.call_ask.CallAsk.{CallAsk};

use crate::call_ask::CallAsk;

/// Decides whether a peer may have another link. Every closure from a [`CallAsk`] to a truth value is one.
pub trait Policy {
    // It may be asked.
    ghost may: { Self → Type 0 };

    // What it may answer.
    ghost says: { Self → CallAsk → Bool → Type 0 };

    /// Whether a peer may have another link.
    fn allows(&self, ask: &CallAsk) -> bool
        requires { may self.now }
        ensures { says self.now ask.now result };
}

impl<F: Fn(&CallAsk) -> bool> Policy for F {
    ghost may = { F.IsAlwaysCallable };

    ghost says = { FnReturnsAt F.Fn };

    fn allows(&self, ask: &CallAsk) -> bool {
        self(ask)
    }
}
