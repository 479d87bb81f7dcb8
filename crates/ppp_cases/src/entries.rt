//! What an outbox is to hold, and whether it holds exactly that.

ghost use Rattle.std.specs.Prelude.{◌≡◌, ◌↔◌, [], ◌∷◌, map, IsTrue};
ghost use Rattle.ppp_auto.specs.Outbox.{Send, entry_seen};
ghost use Rattle.ppp_cases.specs.Entry.{wanted_seen};

use ppp_auto::{EntryRef, LayerSignal, Outbox};

/// An entry that an outbox is to hold.
#[derive(Clone, Copy, Debug, PartialEq, Eq)]
pub enum Entry<'a> {
    /// A whole packet to send, in octets.
    Packet(&'a [u8]),
    /// What the layers beside are told.
    Signal(LayerSignal),
}

/// Whether an outbox holds exactly these entries, in this order.
pub fn has_exactly(out: &Outbox, entries: &[Entry<'_>]) -> bool
    ensures { IsTrue result ↔ (out.now ≡ map wanted_seen entries.now) }
{
    if out.count() != entries.len() {
        return false;
    }
    for i in 0..entries.len() {
        if !is_entry(out.at(i), entries[i]) {
            return false;
        }
    }
    true
}

/// Whether an outbox holds exactly this packet, and no signal.
pub fn sends_exactly(out: &Outbox, packet: &[u8]) -> bool
    ensures { IsTrue result ↔ (out.now ≡ Send packet.now ∷ []) }
{
    has_exactly(out, &[Entry::Packet(packet)])
}

/// Whether an entry is the one that is wanted.
fn is_entry(entry: EntryRef<'_>, wanted: Entry<'_>) -> bool
    ensures { IsTrue result ↔ (entry_seen entry.entry ≡ wanted_seen wanted.entry) }
{
    match (entry, wanted) {
        (EntryRef::Send(octets), Entry::Packet(packet)) => octets == packet,
        (EntryRef::Signal(told), Entry::Signal(signal)) => told == signal,
        _ => false,
    }
}
