//! A request that waits for its response.

ghost use Rattle.std.specs.Prelude.{◌≡◌};

use crate::bap_ask::BapAsk;
use crate::bap_packet::{Request, Response};

/// A request that was sent and waits for its response.
#[derive(Clone, Copy, Debug, PartialEq, Eq)]
pub(crate) struct Wait {
    /// Its Identifier, that of each of its copies.
    pub(crate) id: u8,
    /// What it asks.
    pub(crate) ask: BapAsk,
    /// The same in the words of the line.
    pub(crate) request: Request,
    /// How often it was sent, 1 to 3.
    pub(crate) sent: u8,
}

impl Wait {
    ghost use Rattle.ppp_bap.specs.Requests.{is_response_to};

    /// Whether a response is to this request: its Type and its Identifier are.
    pub(crate) fn is_answered_by(&self, id: u8, response: Response) -> bool
        ensures { result ≡ is_response_to self.now id response }
    {
        self.id == id
            && matches!(
                (self.ask, response),
                (BapAsk::Call, Response::Call(_, _))
                    | (BapAsk::Callback, Response::Callback(_))
                    | (BapAsk::Drop(_), Response::Drop(_))
            )
    }
}
