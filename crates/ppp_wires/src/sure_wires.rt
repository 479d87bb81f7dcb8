ghost use Rattle.std.specs.Prelude.{◌≡◌, ◌≢◌, ◌+◌, ◌<◌, ◌≤◌, [], ◌∷◌, Some, true, false, IfOk, length, replicate, slice_set};
ghost use Rattle.ppp_io.specs.Account.{PutsOn};
ghost use Rattle.ppp_io.specs.Fault.{HasCause};
ghost use Rattle.ppp_wires.specs.Journal.{made_of, reading_with};
ghost use Rattle.ppp_wires.specs.Made.{Connect, Join, Poll, Push, Hang, reading_of};
ghost use Rattle.ppp_wires.specs.Port.{Free, waiting_at};
ghost use Rattle.ppp_wires.specs.Ports.{port_at, connected_ports, connect_answer, connected_to, joined_link, poll_answer, PollGives, polled_from, push_answer, pushed_on, hung_up};
ghost use Rattle.ppp_wires.specs.Wires.{IsPort, IsLink, is_on, after_connect, after_join, PollWithin, PushWithin, CountsStay};

use crate::journal::{Entry, Journal};
use crate::ports::Ports;
use crate::wires::{MOST_LINK, MOST_NAME, MOST_PORT, Polled, Pushed, Wired, Wires};
use ppp_memory::Memory;
use std::alloc::Global;
use std::marker::Model;

/// A net in memory that never fails. A port that is connected as a caller of a name is that until a listener takes it or
/// it hangs up; a listener takes the least such port. It tells its record while that has at most 65,536 calls, and at most
/// 32 times as many octets as one port has room for.
#[derive(Drop)]
pub struct SureWires {
    ports: Ports,
    journal: Journal,
}

impl Model for SureWires {
    ghost use Rattle.ppp_wires.specs.SureWires.{SureWiresState};

    ghost Value = { SureWiresState };

    ghost view = { λ s. record {
      ports = s.ports.ports;
      room = s.ports.room;
      made = s.journal.made;
    } };
}

impl SureWires {
    /// No port is connected, and at each `room` octets may wait. The call is refused for want of memory alone.
    pub fn new(alloc: Global, room: usize) -> Result<SureWires, Memory>
        ensures { IfOk result (λ s. s ≡ record {
          ports = replicate (MOST_PORT + 1) Free;
          room = room;
          made = Some [];
        }) }
    {
        Ok(SureWires {
            ports: Ports::new(alloc, room)?,
            journal: Journal::new(alloc, room)?,
        })
    }

    /// Puts a call on the record.
    pub(crate) fn note(&mut self, entry: Entry, octets: &[u8])
        ensures told { PutsOn self.old.made self.new.made (made_of entry octets.now ∷ []) }
        ensures ports { self.new.ports ≡ self.old.ports }
        ensures room { self.new.room ≡ self.old.room }
    {
        self.journal.note(entry, octets);
    }
}

/// The octets that a poll gave.
fn given(answer: Polled, buf: &[u8]) -> &[u8]
    requires { PollWithin answer buf.now }
    ensures { reading_with answer result.now ≡ reading_of answer buf.now }
{
    match answer {
        Polled::Got(count) => &buf[..count],
        Polled::Quiet | Polled::Ended | Polled::Failed => &[],
    }
}

impl Wires for SureWires {
    ghost connected = { λ s. connected_ports s.ports };

    ghost calls = { λ s. s.made };

    ghost faults = { λ _ _. 0 };

    fn connect(&mut self, port: u8, name: &str, listen: bool) -> Wired
        requires port { IsPort port }
        requires free { is_on (connected_ports self.old.ports) port ≡ false }
        requires short { length name.now ≤ MOST_NAME }
        ensures ports { connected_ports self.new.ports
            ≡ after_connect (connected_ports self.old.ports) port result }
        ensures waits { result ≡ Wired.Waiting → listen ≡ true }
        ensures told { PutsOn self.old.made self.new.made
            (Connect port name.now listen result ∷ []) }
        ensures cause { HasCause 0 0 (result ≡ Wired.Failed) }
        ensures others { CountsStay port (λ _. 0) (λ _. 0) }
        ensures answer { result ≡ connect_answer name.now listen self.old.ports }
        ensures after { self.new.ports
            ≡ connected_to port name.now listen result self.old.ports }
        ensures room { self.new.room ≡ self.old.room }
    {
        let answer = self.ports.connect(port, name.as_bytes(), listen);
        self.note(Entry::Connect(port, listen, answer), name.as_bytes());
        answer
    }

    fn join(&mut self, link: u8) -> Wired
        requires link { IsLink link }
        requires free_a { is_on (connected_ports self.old.ports) link ≡ false }
        requires free_b { is_on (connected_ports self.old.ports) (link + MOST_LINK) ≡ false }
        ensures ports { connected_ports self.new.ports
            ≡ after_join (connected_ports self.old.ports) link result }
        ensures never { result ≢ Wired.Waiting }
        ensures told { PutsOn self.old.made self.new.made (Join link result ∷ []) }
        ensures cause { HasCause 0 0 (result ≡ Wired.Failed) }
        ensures others { CountsStay link (λ _. 0) (λ _. 0) }
        ensures answer { result ≡ Wired.Ready }
        ensures after { self.new.ports ≡ joined_link link result self.old.ports }
        ensures room { self.new.room ≡ self.old.room }
    {
        self.ports.join(link);
        self.note(Entry::Join(link, Wired::Ready), &[]);
        Wired::Ready
    }

    fn poll(&mut self, port: u8, buf: &mut [u8]) -> Polled
        requires port { IsPort port }
        requires connected { is_on (connected_ports self.old.ports) port ≡ true }
        requires some { 0 < length buf.old }
        ensures within { PollWithin result buf.new }
        ensures ports { connected_ports self.new.ports ≡ connected_ports self.old.ports }
        ensures told { PutsOn self.old.made self.new.made
            (Poll port (length buf.new) (reading_of result buf.new) ∷ []) }
        ensures cause { HasCause 0 0 (result ≡ Polled.Failed) }
        ensures others { CountsStay port (λ _. 0) (λ _. 0) }
        ensures answer { result ≡ poll_answer port (length buf.old) self.old.ports }
        ensures gives { PollGives result buf.new (waiting_at (port_at self.old.ports port)) }
        ensures after { self.new.ports ≡ polled_from port result self.old.ports }
        ensures room { self.new.room ≡ self.old.room }
    {
        let answer = self.ports.poll(port, buf);
        self.note(Entry::Poll(port, buf.len(), answer), given(answer, buf));
        answer
    }

    fn push(&mut self, port: u8, piece: &[u8]) -> Pushed
        requires port { IsPort port }
        requires connected { is_on (connected_ports self.old.ports) port ≡ true }
        requires some { 0 < length piece.now }
        ensures within { PushWithin result piece.now }
        ensures ports { connected_ports self.new.ports ≡ connected_ports self.old.ports }
        ensures told { PutsOn self.old.made self.new.made (Push port piece.now result ∷ []) }
        ensures cause { HasCause 0 0 (result ≡ Pushed.Failed) }
        ensures others { CountsStay port (λ _. 0) (λ _. 0) }
        ensures answer { result ≡ push_answer self.old.room port (length piece.now) self.old.ports }
        ensures after { self.new.ports ≡ pushed_on port piece.now result self.old.ports }
        ensures room { self.new.room ≡ self.old.room }
    {
        let answer = self.ports.push(port, piece);
        self.note(Entry::Push(port, answer), piece);
        answer
    }

    fn hang(&mut self, port: u8)
        requires port { IsPort port }
        ensures ports { connected_ports self.new.ports
            ≡ slice_set (connected_ports self.old.ports) port false }
        ensures told { PutsOn self.old.made self.new.made (Hang port ∷ []) }
        ensures after { self.new.ports ≡ hung_up port self.old.ports }
        ensures room { self.new.room ≡ self.old.room }
    {
        self.ports.hang(port);
        self.note(Entry::Hang(port), &[]);
    }
}
