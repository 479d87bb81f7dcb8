//! The texts that name a socket.

ghost use Rattle.std.specs.Prelude.{◌≡◌, true, Some, IfOk, IsTrue};
ghost use Rattle.ppp_conf.specs.SocketText.{is_socket, is_socket_octet};
ghost use Rattle.std.specs.List.{list_all};

use std::alloc::{AllocError, Global};
use std::fmt;
use std::marker::Model;

/// The most octets of a socket's text.
pub const MOST_SOCKET: usize = 64;

/// The text that the sockets of an end's links are named after: 1 to 64 of `a` to `z`, `0` to `9`, `_` and `.`. It is
/// seen as its text, and prints as it.
#[derive(Debug, Drop)]
pub struct SocketText {
    text: String,
}

impl Model for SocketText {
    ghost use Rattle.std.specs.Prelude.{◌≡◌, ℕ, List, true, string_bytes};
    ghost use Rattle.ppp_conf.specs.SocketText.{is_socket};

    ghost Value = { List ℕ };

    ghost view = { λ socket. string_bytes socket.text };

    ghost invariant = { λ socket. is_socket (string_bytes socket.text) ≡ true };
}

impl SocketText {
    /// A copy of this text.
    pub(crate) fn new(alloc: Global, text: &str) -> Result<SocketText, AllocError>
        requires { is_socket text.now ≡ true }
        ensures { IfOk result (λ socket. socket ≡ text.now) }
    {
        Ok(SocketText {
            text: String::from_str(alloc, text)?,
        })
    }

    /// The text.
    pub fn text(&self) -> &str
        ensures text { result.now ≡ self.now }
        ensures form { is_socket self.now ≡ true }
    {
        self.text.as_str()
    }
}

impl fmt::Display for SocketText {
    ghost output = { λ socket. Some socket };

    fn fmt<W: fmt::Write>(&self, f: &mut fmt::Formatter<W>) -> fmt::Result {
        f.write_str(self.text())
    }
}

/// Whether a text names a socket.
pub(crate) fn is_socket(text: &[u8]) -> bool
    ensures { result ≡ is_socket text.now }
{
    let fits = 1 <= text.len() && text.len() <= MOST_SOCKET;
    fits && has_socket_octets(text)
}

/// Whether a text has octets of a socket's text alone.
fn has_socket_octets(text: &[u8]) -> bool
    ensures { result ≡ list_all is_socket_octet text.now }
{
    text.iter().all(|x| is_socket_octet(*x))
}

/// Whether an octet is one of a socket's text.
fn is_socket_octet(x: u8) -> bool
    ensures { result ≡ is_socket_octet x }
{
    matches!(x, b'a'..=b'z' | b'0'..=b'9' | b'_' | b'.')
}
