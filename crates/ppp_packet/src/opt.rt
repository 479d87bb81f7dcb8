//! One option by value.

ghost use Rattle.std.specs.Prelude.{◌≡◌, ◌≤◌, ◌↔◌, length, IsTrue};
ghost use Rattle.ppp_packet.specs.Options.{option_with};
ghost use Rattle.ppp_packet.specs.OptRef.{option_seen};
ghost use Rattle.ppp_packet.specs.declared.opt.TheConstants.{MOST_KEPT_BODY};

use crate::opt_ref::OptRef;
use arrayvec::ArrayVec;
use std::marker::Model;

/// The most octets of the body of an option that is kept by value.
pub const MOST_KEPT_BODY: usize = 32;

/// A Configuration Option with a body of at most 32 octets, kept by value and seen as its Type and its body.
#[derive(Clone, Debug, Drop)]
pub struct Opt {
    kind: u8,
    body: ArrayVec<u8, MOST_KEPT_BODY>,
}

impl Model for Opt {
    ghost use Rattle.ppp_packet.specs.ConfigOption.{ConfigOption};
    ghost use Rattle.ppp_packet.specs.Options.{option_with};

    ghost Value = { ConfigOption };

    ghost view = { λ o. option_with o.kind o.body.items };
}

impl Opt {
    /// An option of this Type with this body.
    pub fn new(kind: u8, body: &[u8]) -> Opt
        requires { length body.now ≤ MOST_KEPT_BODY }
        ensures { result ≡ option_with kind body.now }
    {
        let mut kept = ArrayVec::new();
        kept.try_extend_from_slice(body).unwrap();
        Opt { kind, body: kept }
    }

    /// The Type.
    pub fn kind(&self) -> u8
        ensures { result ≡ self.now.kind }
    {
        self.kind
    }

    /// The body, of at most 32 octets.
    pub fn body(&self) -> &[u8]
        ensures value { result.now ≡ self.now.body }
        ensures size { length result.now ≤ MOST_KEPT_BODY }
    {
        self.body.as_slice()
    }

    /// The option as a reader lends it.
    pub fn as_ref(&self) -> OptRef<'_>
        ensures value { option_seen result ≡ self.now }
        ensures size { length result.body.now ≤ MOST_KEPT_BODY }
    {
        OptRef {
            kind: self.kind,
            body: self.body.as_slice(),
        }
    }

    /// Whether this is that option: the same Type and the same body.
    pub fn is_same(&self, option: &OptRef<'_>) -> bool
        ensures { IsTrue result ↔ (self.now ≡ option_seen option.now) }
    {
        self.kind == option.kind && self.body.as_slice() == option.body
    }

    /// The same option.
    pub fn copied(&self) -> Opt
        ensures { result ≡ self.now }
    {
        Opt::new(self.kind, self.body.as_slice())
    }
}
