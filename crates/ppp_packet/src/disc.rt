//! Endpoint discriminators (RFC 1990 section 5.1.3).

ghost use Rattle.std.specs.Prelude.{◌≡◌, ◌≤◌, length, take};
ghost use Rattle.ppp_packet.specs.declared.disc.TheConstants.{MOST_ADDRESS};
ghost use Rattle.ppp_packet.specs.Disc.{IsAddress};

/// The most octets of an address.
pub const MOST_ADDRESS: usize = 20;

/// An endpoint discriminator: its Class, and an address of at most 20 octets. The order is by the Class first and then
/// by the address as a list of octets, which is a clause of [`crate::read_again`].
#[derive(Clone, Copy, Debug, PartialEq, Eq, PartialOrd, Ord)]
pub struct Disc {
    /// The Class.
    pub class: u8,
    /// The address, and 0 in each octet past it.
    pub address: [u8; MOST_ADDRESS],
    /// How many octets the address has.
    pub size: u8,
    pub ghost is_address: { IsAddress address size },
}

impl Disc {
    /// A discriminator of this Class with this address.
    pub fn new(class: u8, address: &[u8]) -> Disc
        requires { length address.now ≤ MOST_ADDRESS }
        ensures class { result.class ≡ class }
        ensures address { take result.size result.address ≡ address.now }
        ensures size { result.size ≡ length address.now }
    {
        let mut octets = [0; 20];
        octets[..address.len()].copy_from_slice(address);
        Disc {
            class,
            address: octets,
            size: address.len() as u8,
        }
    }

    /// The address, of at most 20 octets.
    pub fn address(&self) -> &[u8]
        ensures value { result.now ≡ take self.now.size self.now.address }
        ensures size { length result.now ≡ self.now.size }
        ensures within { length result.now ≤ MOST_ADDRESS }
    {
        &self.address[..usize::from(self.size)]
    }
}
