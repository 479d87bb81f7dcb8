//! The option negotiation automaton of PPP (RFC 1661 sections 4 to 6), generic over a table of options.
//!
//! An `Automaton` is one end of one protocol. What it negotiates is an `OptionTable`, which answers for a peer's option
//! with a `Verdict`. It is driven by two calls: `event` for what happens without a packet, and `packet` for the octets
//! of one. Each empties an `Outbox` and puts into it, in order, the packets to send and what the layers beside are
//! told, at most four entries; the caller sends and tells them before the next call. `timer_on` says after each call
//! whether the restart timer has to run, whose firing is `AutoEvent::Timeout`. `state`, `mine` and `peer` read what is
//! granted, and `set_cap` bounds Code-Rejects and Echo-Replies.
//!
//! Left out: the timer itself, queues, authentication and every option. No call but `Outbox::new` takes memory.
#![tactic(auto)]

mod action;
mod answer;
mod auto;
mod auto_event;
mod auto_state;
mod automaton;
mod event_table;
mod front;
mod input;
mod judged;
mod layer_signal;
mod option_table;
mod outbox;
mod reply;
mod taken;
mod verdict;

pub use action::Action;
pub use auto::{LEAST_CAP, MOST_CAP};
pub use auto_event::AutoEvent;
pub use auto_state::AutoState;
pub use automaton::Automaton;
pub use input::Input;
pub use layer_signal::LayerSignal;
pub use option_table::OptionTable;
pub use outbox::{EntryRef, MOST_OCTETS, Outbox};
pub use ppp_memory::Memory;
pub use verdict::Verdict;
