//! A net of numbered ports.

ghost use Rattle.std.specs.Prelude.{◌≡◌, ◌≢◌, ℕ, ◌+◌, ◌<◌, ◌≤◌, List, [], ◌∷◌, Bool, true, false, Option, length, slice_set};
ghost use Rattle.ppp_io.specs.Account.{PutsOn};
ghost use Rattle.ppp_io.specs.Fault.{HasCause};
ghost use Rattle.ppp_wires.specs.Made.{Made, Connect, Join, Poll, Push, Hang, reading_of};
ghost use Rattle.ppp_wires.specs.Wires.{IsPort, IsLink, is_on, after_connect, after_join, PollWithin, PushWithin, CountsStay};

/// The greatest number of a port. The least is 1.
pub const MOST_PORT: u8 = 32;

/// The greatest number of a link. End a's link has the port of its own number, and end b's one that is 16 higher.
pub const MOST_LINK: u8 = 16;

/// The most octets of a name.
pub const MOST_NAME: usize = 67;

/// What a call that connects answers.
#[derive(Clone, Copy, Debug, PartialEq, Eq)]
pub enum Wired {
    /// The port, or each of the two ports, is connected now.
    Ready,
    /// Nobody calls yet, and nothing is connected.
    Waiting,
    /// The net failed at the port, and nothing is connected.
    Failed,
}

/// What a poll answers.
#[derive(Clone, Copy, Debug, PartialEq, Eq)]
pub enum Polled {
    /// So many octets stand at the front of the buffer.
    Got(usize),
    /// Nothing is there yet.
    Quiet,
    /// Nothing is there, and nothing will come: the other end hung up.
    Ended,
    /// The net failed at the port.
    Failed,
}

/// What a push answers.
#[derive(Clone, Copy, Debug, PartialEq, Eq)]
pub enum Pushed {
    /// So many octets of the piece were taken, the first of it.
    Took(usize),
    /// Nothing was taken, since too much waits at the other end.
    Busy,
    /// The net failed at the port, and took nothing.
    Failed,
}

/// A net of ports, numbered from 1 to 32.
pub trait Wires {
    // which ports are connected, by their numbers
    ghost connected: { Self → List Bool };

    // the calls that were made, in order, or None where the net doesn't tell
    ghost calls: { Self → Option (List Made) };

    // how often it failed at each port
    ghost faults: { Self → ℕ → ℕ };

    /// Connects a port that isn't connected to this name: as a caller of it, or, where `listen` is true, to a caller of it.
    fn connect(&mut self, port: u8, name: &str, listen: bool) -> Wired
        requires port { IsPort port }
        requires free { is_on (connected self.old) port ≡ false }
        requires short { length name.now ≤ MOST_NAME }
        ensures ports { connected self.new ≡ after_connect (connected self.old) port result }
        ensures waits { result ≡ Wired.Waiting → listen ≡ true }
        ensures told { PutsOn (calls self.old) (calls self.new)
            (Connect port name.now listen result ∷ []) }
        ensures cause { HasCause (faults self.old port) (faults self.new port)
            (result ≡ Wired.Failed) }
        ensures others { CountsStay port (faults self.old) (faults self.new) };

    /// Joins the ports of a link, one at each end, to each other. Neither is connected. A failure is one of end a's port.
    fn join(&mut self, link: u8) -> Wired
        requires link { IsLink link }
        requires free_a { is_on (connected self.old) link ≡ false }
        requires free_b { is_on (connected self.old) (link + MOST_LINK) ≡ false }
        ensures ports { connected self.new ≡ after_join (connected self.old) link result }
        ensures never { result ≢ Wired.Waiting }
        ensures told { PutsOn (calls self.old) (calls self.new) (Join link result ∷ []) }
        ensures cause { HasCause (faults self.old link) (faults self.new link)
            (result ≡ Wired.Failed) }
        ensures others { CountsStay link (faults self.old) (faults self.new) };

    /// Takes octets that came on a connected port, at most as many as `buf` has room for. It doesn't wait.
    fn poll(&mut self, port: u8, buf: &mut [u8]) -> Polled
        requires port { IsPort port }
        requires connected { is_on (connected self.old) port ≡ true }
        requires some { 0 < length buf.old }
        ensures within { PollWithin result buf.new }
        ensures ports { connected self.new ≡ connected self.old }
        ensures told { PutsOn (calls self.old) (calls self.new)
            (Poll port (length buf.new) (reading_of result buf.new) ∷ []) }
        ensures cause { HasCause (faults self.old port) (faults self.new port)
            (result ≡ Polled.Failed) }
        ensures others { CountsStay port (faults self.old) (faults self.new) };

    /// Sends the first octets of a piece on a connected port. It doesn't wait.
    fn push(&mut self, port: u8, piece: &[u8]) -> Pushed
        requires port { IsPort port }
        requires connected { is_on (connected self.old) port ≡ true }
        requires some { 0 < length piece.now }
        ensures within { PushWithin result piece.now }
        ensures ports { connected self.new ≡ connected self.old }
        ensures told { PutsOn (calls self.old) (calls self.new) (Push port piece.now result ∷ []) }
        ensures cause { HasCause (faults self.old port) (faults self.new port)
            (result ≡ Pushed.Failed) }
        ensures others { CountsStay port (faults self.old) (faults self.new) };

    /// Ends a port, which is not connected from then on. It can't fail.
    fn hang(&mut self, port: u8)
        requires port { IsPort port }
        ensures ports { connected self.new ≡ slice_set (connected self.old) port false }
        ensures told { PutsOn (calls self.old) (calls self.new) (Hang port ∷ []) }
        ensures counts { faults self.new ≡ faults self.old };
}
