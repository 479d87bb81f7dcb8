ghost use Rattle.std.specs.Prelude.{◌≡◌, ◌≢◌, ◌+◌, ◌<◌, ◌≤◌, ◌↔◌, [], ◌∷◌, Some, Contains, IsTrue, true, false, IfOk, length, replicate, slice_set};
ghost use Rattle.ppp_io.specs.Account.{PutsOn};
ghost use Rattle.ppp_io.specs.Fault.{HasCause, one_more};
ghost use Rattle.ppp_wires.specs.Made.{Connect, Join, Poll, Push, Hang, reading_of};
ghost use Rattle.ppp_wires.specs.MemWires.{fault_at, faults_after};
ghost use Rattle.ppp_wires.specs.Port.{Free, waiting_at};
ghost use Rattle.ppp_wires.specs.Ports.{port_at, connected_ports, connect_answer, connected_to, joined_link, poll_answer, PollGives, polled_from, push_answer, pushed_on, hung_up};
ghost use Rattle.ppp_wires.specs.Wires.{IsPort, IsLink, is_on, after_connect, after_join, PollWithin, PushWithin, CountsStay};

use crate::journal::Entry;
use crate::sure_wires::SureWires;
use crate::wires::{MOST_LINK, MOST_NAME, MOST_PORT, Polled, Pushed, Wired, Wires};
use ppp_memory::Memory;
use std::alloc::Global;
use std::marker::Model;

/// A net in memory as [`SureWires`], whose listed calls fail.
#[derive(Drop)]
pub struct MemWires {
    inner: SureWires,
    failing: Vec<u32>,
    made: u64,
    faults: [u64; 33],
}

impl Model for MemWires {
    ghost use Rattle.ppp_wires.specs.MemWires.{MemWiresState};

    ghost Value = { MemWiresState };

    ghost view = { λ s. record {
      wires = s.inner;
      failing = s.failing.items;
      made = s.made;
      faults = s.faults;
    } };
}

impl MemWires {
    /// No port is connected, and at each `room` octets may wait. It fails at the calls whose numbers are listed, from 1;
    /// hanging up has no number. The call is refused for want of memory alone.
    pub fn new(alloc: Global, room: usize, failing: Vec<u32>) -> Result<MemWires, Memory>
        ensures { IfOk result (λ s. s ≡ record {
          wires = record { ports = replicate (MOST_PORT + 1) Free; room = room; made = Some [] };
          failing = failing.items;
          made = 0;
          faults = replicate (MOST_PORT + 1) 0;
        }) }
    {
        Ok(MemWires {
            inner: SureWires::new(alloc, room)?,
            failing,
            made: 0,
            faults: [0; 33],
        })
    }

    /// How many calls failed at a port, up to the greatest `u64`.
    pub fn faults(&self, port: u8) -> u64
        requires { IsPort port }
        ensures { result ≡ fault_at self.now.faults port }
    {
        self.faults[port as usize]
    }

    /// Counts a call, and a fault of the port where its number is listed.
    fn fails(&mut self, port: u8) -> bool
        requires { IsPort port }
        ensures fails { IsTrue result ↔ Contains self.old.failing (one_more self.old.made) }
        ensures cause { HasCause (fault_at self.old.faults port) (fault_at self.new.faults port)
            (IsTrue result) }
        ensures others { CountsStay port (fault_at self.old.faults) (fault_at self.new.faults) }
        ensures after { self.new ≡ record self.old {
          made = one_more self.old.made;
          faults = faults_after result port self.old.faults;
        } }
    {
        self.made = self.made.saturating_add(1);
        let fails = is_listed(&self.failing, self.made);
        let count = self.faults[port as usize];
        if fails {
            self.faults[port as usize] = count.saturating_add(1);
        }
        fails
    }
}

/// Whether a call's number is listed.
fn is_listed(numbers: &[u32], number: u64) -> bool
    ensures { IsTrue result ↔ Contains numbers.now number }
{
    numbers.iter().any(|listed| u64::from(*listed) == number)
}

impl Wires for MemWires {
    ghost connected = { λ s. connected_ports s.wires.ports };

    ghost calls = { λ s. s.wires.made };

    ghost faults = { λ s. fault_at s.faults };

    fn connect(&mut self, port: u8, name: &str, listen: bool) -> Wired
        requires port { IsPort port }
        requires free { is_on (connected_ports self.old.wires.ports) port ≡ false }
        requires short { length name.now ≤ MOST_NAME }
        ensures ports { connected_ports self.new.wires.ports
            ≡ after_connect (connected_ports self.old.wires.ports) port result }
        ensures waits { result ≡ Wired.Waiting → listen ≡ true }
        ensures told { PutsOn self.old.wires.made self.new.wires.made
            (Connect port name.now listen result ∷ []) }
        ensures cause { HasCause (fault_at self.old.faults port) (fault_at self.new.faults port)
            (result ≡ Wired.Failed) }
        ensures others { CountsStay port (fault_at self.old.faults) (fault_at self.new.faults) }

        // This call's number is the new count of calls.
        ensures calls { self.new.made ≡ one_more self.old.made }
        ensures fails { (result ≡ Wired.Failed) ↔ Contains self.old.failing self.new.made }
        ensures answer { result ≢ Wired.Failed →
            result ≡ connect_answer name.now listen self.old.wires.ports }
        ensures after { self.new.wires.ports
            ≡ connected_to port name.now listen result self.old.wires.ports }
        ensures room { self.new.wires.room ≡ self.old.wires.room }
        ensures failing { self.new.failing ≡ self.old.failing }
    {
        if self.fails(port) {
            let failed = Wired::Failed;
            self.inner
                .note(Entry::Connect(port, listen, failed), name.as_bytes());
            return failed;
        }
        self.inner.connect(port, name, listen)
    }

    fn join(&mut self, link: u8) -> Wired
        requires link { IsLink link }
        requires free_a { is_on (connected_ports self.old.wires.ports) link ≡ false }
        requires free_b { is_on (connected_ports self.old.wires.ports) (link + MOST_LINK) ≡ false }
        ensures ports { connected_ports self.new.wires.ports
            ≡ after_join (connected_ports self.old.wires.ports) link result }
        ensures never { result ≢ Wired.Waiting }
        ensures told { PutsOn self.old.wires.made self.new.wires.made (Join link result ∷ []) }
        ensures cause { HasCause (fault_at self.old.faults link) (fault_at self.new.faults link)
            (result ≡ Wired.Failed) }
        ensures others { CountsStay link (fault_at self.old.faults) (fault_at self.new.faults) }

        // This call's number is the new count of calls.
        ensures calls { self.new.made ≡ one_more self.old.made }
        ensures fails { (result ≡ Wired.Failed) ↔ Contains self.old.failing self.new.made }
        ensures after { self.new.wires.ports ≡ joined_link link result self.old.wires.ports }
        ensures room { self.new.wires.room ≡ self.old.wires.room }
        ensures failing { self.new.failing ≡ self.old.failing }
    {
        if self.fails(link) {
            self.inner.note(Entry::Join(link, Wired::Failed), &[]);
            return Wired::Failed;
        }
        self.inner.join(link)
    }

    fn poll(&mut self, port: u8, buf: &mut [u8]) -> Polled
        requires port { IsPort port }
        requires connected { is_on (connected_ports self.old.wires.ports) port ≡ true }
        requires some { 0 < length buf.old }
        ensures within { PollWithin result buf.new }
        ensures ports { connected_ports self.new.wires.ports
            ≡ connected_ports self.old.wires.ports }
        ensures told { PutsOn self.old.wires.made self.new.wires.made
            (Poll port (length buf.new) (reading_of result buf.new) ∷ []) }
        ensures cause { HasCause (fault_at self.old.faults port) (fault_at self.new.faults port)
            (result ≡ Polled.Failed) }
        ensures others { CountsStay port (fault_at self.old.faults) (fault_at self.new.faults) }

        // This call's number is the new count of calls.
        ensures calls { self.new.made ≡ one_more self.old.made }
        ensures fails { (result ≡ Polled.Failed) ↔ Contains self.old.failing self.new.made }
        ensures answer { result ≢ Polled.Failed →
            result ≡ poll_answer port (length buf.old) self.old.wires.ports }
        ensures gives { PollGives result buf.new
            (waiting_at (port_at self.old.wires.ports port)) }
        ensures after { self.new.wires.ports ≡ polled_from port result self.old.wires.ports }
        ensures room { self.new.wires.room ≡ self.old.wires.room }
        ensures failing { self.new.failing ≡ self.old.failing }
    {
        if self.fails(port) {
            self.inner
                .note(Entry::Poll(port, buf.len(), Polled::Failed), &[]);
            return Polled::Failed;
        }
        self.inner.poll(port, buf)
    }

    fn push(&mut self, port: u8, piece: &[u8]) -> Pushed
        requires port { IsPort port }
        requires connected { is_on (connected_ports self.old.wires.ports) port ≡ true }
        requires some { 0 < length piece.now }
        ensures within { PushWithin result piece.now }
        ensures ports { connected_ports self.new.wires.ports
            ≡ connected_ports self.old.wires.ports }
        ensures told { PutsOn self.old.wires.made self.new.wires.made
            (Push port piece.now result ∷ []) }
        ensures cause { HasCause (fault_at self.old.faults port) (fault_at self.new.faults port)
            (result ≡ Pushed.Failed) }
        ensures others { CountsStay port (fault_at self.old.faults) (fault_at self.new.faults) }

        // This call's number is the new count of calls.
        ensures calls { self.new.made ≡ one_more self.old.made }
        ensures fails { (result ≡ Pushed.Failed) ↔ Contains self.old.failing self.new.made }
        ensures answer { result ≢ Pushed.Failed → result
            ≡ push_answer self.old.wires.room port (length piece.now) self.old.wires.ports }
        ensures after { self.new.wires.ports
            ≡ pushed_on port piece.now result self.old.wires.ports }
        ensures room { self.new.wires.room ≡ self.old.wires.room }
        ensures failing { self.new.failing ≡ self.old.failing }
    {
        if self.fails(port) {
            self.inner.note(Entry::Push(port, Pushed::Failed), piece);
            return Pushed::Failed;
        }
        self.inner.push(port, piece)
    }

    fn hang(&mut self, port: u8)
        requires port { IsPort port }
        ensures ports { connected_ports self.new.wires.ports
            ≡ slice_set (connected_ports self.old.wires.ports) port false }
        ensures told { PutsOn self.old.wires.made self.new.wires.made (Hang port ∷ []) }
        ensures counts { fault_at self.new.faults ≡ fault_at self.old.faults }
        ensures calls { self.new.made ≡ self.old.made }
        ensures after { self.new.wires.ports ≡ hung_up port self.old.wires.ports }
        ensures room { self.new.wires.room ≡ self.old.wires.room }
        ensures failing { self.new.failing ≡ self.old.failing }
    {
        self.inner.hang(port);
    }
}
