//! What the forms of this crate promise of one another.

ghost use Rattle.std.specs.Prelude.{◌≡◌, ℕ, ◌<◌, ◌≤◌, ◌↔◌, List, ◌++◌, length, take, Some, All};
ghost use Rattle.ppp_packet.specs.ConfigOption.{ConfigOption};
ghost use Rattle.ppp_packet.specs.Packet.{packet_octets, IsPacket, raw_packet, raw_packet_of};
ghost use Rattle.ppp_packet.specs.Options.{written, IsOptions, options_of};
ghost use Rattle.ppp_packet.specs.declared.disc.Disc.{Disc};
ghost use Rattle.ppp_packet.specs.Disc.{disc_order};

use crate::disc::Disc;

/// Does nothing. Its clauses are laws: what is written is read again, whatever padding follows a packet, and
/// what the readers answer is exactly what the forms of RFC 1661 sections 5 and 6 say.
pub fn read_again()
    ensures packet { (code id : ℕ) (rest padding : List ℕ) →
        raw_packet_of (packet_octets code id rest ++ padding) ≡ Some (raw_packet code id rest) }
    ensures packet_reading { (code id : ℕ) (rest bytes : List ℕ) →
        All (λ octet. octet < 256) bytes →
        (raw_packet_of bytes ≡ Some (raw_packet code id rest)) ↔ IsPacket code id rest bytes }
    ensures list { (list : List ConfigOption) → options_of (written list) ≡ Some list }
    ensures list_reading { (list : List ConfigOption) (bytes : List ℕ) →
        (options_of bytes ≡ Some list) ↔ IsOptions list bytes }
    ensures discriminator_order { (one other : Disc) → ⟦<Disc as Ord>⟧.cmp one other ≡
        disc_order one.class (take one.size one.address)
        other.class (take other.size other.address) }
{}
