//! All ports of a net in memory.

ghost use Rattle.std.specs.Prelude.{◌≡◌, ◌≢◌, ◌+◌, ◌-◌, ◌<◌, ◌≤◌, Bool, true, false, IfOk, IfSome, length, position, replicate, min, take};
ghost use Rattle.ppp_wires.specs.Port.{Free, calls_as, joined_to, waiting_at};
ghost use Rattle.ppp_wires.specs.Ports.{alone_there, held_there, put_there, port_at, connected_ports, caller_of, taken_by, connect_answer, connected_to, joined_link, poll_answer, PollGives, polled_from, outlet_of, under_way, push_answer, pushed_on, hung_up};
ghost use Rattle.ppp_wires.specs.Wires.{IsPort, IsLink, is_on};

use crate::place::Place;
use crate::wires::{MOST_LINK, MOST_NAME, MOST_PORT, Polled, Pushed, Wired};
use ppp_memory::Memory;
use std::alloc::Global;
use std::marker::Model;

/// How many places there are: one for each port, and one that is no port's.
const PLACES: usize = MOST_PORT as usize + 1;

/// The ports by their numbers.
#[derive(Drop)]
pub(crate) struct Ports {
    places: Vec<Place>,
    room: usize,
}

impl Model for Ports {
    ghost use Rattle.ppp_wires.specs.PortsState.{PortsState, ports_in, ArePlaces};

    ghost Value = { PortsState };

    ghost view = { λ s. record { ports = ports_in s.places.items; room = s.room } };

    ghost invariant = { λ s. ArePlaces s.places.items s.room };
}

impl Ports {
    /// Free ports, at each of which so many octets may wait. The call is refused for want of memory alone.
    pub(crate) fn new(alloc: Global, room: usize) -> Result<Ports, Memory>
        ensures { IfOk result (λ s. s
            ≡ record { ports = replicate (MOST_PORT + 1) Free; room = room }) }
    {
        let mut places = Vec::with_capacity(alloc, PLACES)?;
        'places: for _ in 0..PLACES {
            places.push_reserved(Place::new(alloc, room)?);
        }
        Ok(Ports { places, room })
    }

    /// Connects a port to a name.
    pub(crate) fn connect(&mut self, port: u8, name: &[u8], listen: bool) -> Wired
        requires port { IsPort port }
        requires free { is_on (connected_ports self.old.ports) port ≡ false }
        requires short { length name.now ≤ MOST_NAME }
        ensures answer { result ≡ connect_answer name.now listen self.old.ports }
        ensures after { self.new ≡ record self.old {
          ports = connected_to port name.now listen result self.old.ports;
        } }
    {
        if listen {
            return self.listen(port, name);
        }
        let place = &mut self.places[port as usize];
        place.call(name);
        Wired::Ready
    }

    /// Connects a port to the least caller of this name, where there is one.
    fn listen(&mut self, port: u8, name: &[u8]) -> Wired
        requires port { IsPort port }
        requires free { is_on (connected_ports self.old.ports) port ≡ false }
        ensures answer { result ≡ connect_answer name.now true self.old.ports }
        ensures after { self.new ≡ record self.old {
          ports = taken_by port self.old.ports (caller_of name.now self.old.ports);
        } }
    {
        match self.caller(name) {
            None => Wired::Waiting,
            Some(caller) => {
                self.take(port, caller);
                Wired::Ready
            }
        }
    }

    /// The least port that is a caller of this name.
    fn caller(&self, name: &[u8]) -> Option<u8>
        ensures value { result ≡ caller_of name.now self.now.ports }
        ensures within { IfSome result (λ caller. caller ≤ MOST_PORT) }
        ensures connected { IfSome result (λ caller.
            is_on (connected_ports self.now.ports) caller ≡ true) }
    {
        let place = caller_among(&self.places, name)?;
        Some(place as u8)
    }

    /// Joins a free port to a caller.
    fn take(&mut self, port: u8, caller: u8)
        requires port { port ≤ MOST_PORT }
        requires caller { caller ≤ MOST_PORT }
        requires other { port ≢ caller }
        ensures { self.new ≡ record self.old {
          ports = taken_by port self.old.ports (Some caller);
        } }
    {
        self.places.swap(port as usize, caller as usize);
        let taker = &mut self.places[port as usize];
        taker.take_over(caller);
        let taken = &mut self.places[caller as usize];
        taken.join(port);
    }

    /// Joins the two ports of a link.
    pub(crate) fn join(&mut self, link: u8)
        requires { IsLink link }
        ensures { self.new ≡ record self.old { ports = joined_link link Wired.Ready self.old.ports } }
    {
        let other = link + MOST_LINK;
        let here = &mut self.places[link as usize];
        here.join(other);
        let there = &mut self.places[other as usize];
        there.join(link);
    }

    /// Gives the first of what waits at a port.
    pub(crate) fn poll(&mut self, port: u8, buf: &mut [u8]) -> Polled
        requires { IsPort port }
        ensures answer { result ≡ poll_answer port (length buf.old) self.old.ports }
        ensures octets { PollGives result buf.new (waiting_at (port_at self.old.ports port)) }
        ensures after { self.new ≡ record self.old {
          ports = polled_from port result self.old.ports;
        } }
    {
        let place = &mut self.places[port as usize];
        if place.waiting() > 0 {
            return Polled::Got(place.give(buf));
        }
        if place.has_ended() {
            return Polled::Ended;
        }
        Polled::Quiet
    }

    /// Where what a port pushes goes.
    fn outlet(&self, port: u8) -> Option<u8>
        requires { IsPort port }
        ensures value { result ≡ outlet_of port (port_at self.now.ports port) }
        ensures within { IfSome result (λ outlet. outlet ≤ MOST_PORT) }
    {
        let place = &self.places[port as usize];
        if place.is_caller() {
            return Some(port);
        }
        place.joined_to()
    }

    /// Puts the first octets of a piece where a port's outlet is, as many as find room.
    pub(crate) fn push(&mut self, port: u8, piece: &[u8]) -> Pushed
        requires { IsPort port }
        ensures answer { result ≡ push_answer self.old.room port (length piece.now) self.old.ports }
        ensures after { self.new ≡ record self.old {
          ports = pushed_on port piece.now result self.old.ports;
        } }
    {
        let outlet = self.outlet(port);
        let count = self.count(outlet);
        if count >= self.room {
            return Pushed::Busy;
        }
        self.put(outlet, piece);
        Pushed::Took(piece.len().min(self.room - count))
    }

    /// How many octets stand at an outlet.
    fn count(&self, outlet: Option<u8>) -> usize
        requires { IfSome outlet (λ port. port ≤ MOST_PORT) }
        ensures { result ≡ length (held_there self.now.ports outlet) }
    {
        match outlet {
            None => 0,
            Some(port) => {
                let place = &self.places[port as usize];
                place.count()
            }
        }
    }

    /// Puts the first of these octets behind those that stand at an outlet, as many as find room.
    fn put(&mut self, outlet: Option<u8>, piece: &[u8])
        requires { IfSome outlet (λ port. port ≤ MOST_PORT) }
        ensures { let fit = min (length piece.now)
            (self.old.room - length (held_there self.old.ports outlet)) in
            self.new ≡ record self.old {
              ports = put_there (take fit piece.now) self.old.ports outlet;
            } }
    {
        if let Some(port) = outlet {
            let place = &mut self.places[port as usize];
            place.put(piece);
        }
    }

    /// Ends a port.
    pub(crate) fn hang(&mut self, port: u8)
        requires { IsPort port }
        ensures { self.new ≡ record self.old { ports = hung_up port self.old.ports } }
    {
        let other = self.joined_to(port);
        self.leave_alone(other);
        let place = &mut self.places[port as usize];
        place.hang();
    }

    /// The port that one is joined to.
    fn joined_to(&self, port: u8) -> Option<u8>
        requires { IsPort port }
        ensures value { result ≡ joined_to (port_at self.now.ports port) }
        ensures within { IfSome result (λ other. other ≤ MOST_PORT) }
    {
        let place = &self.places[port as usize];
        place.joined_to()
    }

    /// A port, where there is one, is told that its other end hung up.
    fn leave_alone(&mut self, port: Option<u8>)
        requires { IfSome port (λ number. number ≤ MOST_PORT) }
        ensures { self.new ≡ record self.old { ports = alone_there self.old.ports port } }
    {
        if let Some(number) = port {
            let place = &mut self.places[number as usize];
            place.leave_alone();
        }
    }
}

/// The first of these places that is a caller of this name.
fn caller_among(places: &[Place], name: &[u8]) -> Option<usize>
    ensures { result ≡ position (λ place. calls_as name.now place.port) places.now }
{
    places.iter().position(|place| place.calls_as(name))
}
