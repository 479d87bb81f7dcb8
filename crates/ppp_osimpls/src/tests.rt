//! The two tables behind an automaton in Req-Sent: what each answers to a packet.

use super::{MplsTable, OsiTable};
use ppp_auto::{AutoEvent, Automaton, EntryRef, OptionTable, Outbox};
use std::test::Fail;

/// The first packet that an outbox has, or no octets.
fn first_sent(out: &Outbox) -> &[u8] {
    for i in 0..out.count() {
        if let EntryRef::Send(octets) = out.at(i) {
            return octets;
        }
    }
    &[]
}

/// What an end in Req-Sent, which has asked with Identifier 1, sends after a packet.
fn answer<'a, T: OptionTable + Drop>(table: T, packet: &[u8], out: &'a mut Outbox) -> &'a [u8] {
    let mut automaton = Automaton::new(table, 1);
    automaton.event(AutoEvent::AdminOpen, 0, out);
    automaton.event(AutoEvent::Up, 0, out);
    automaton.packet(packet, 0, out);
    first_sent(out)
}

#[test]
fn alignments(rt: HostRuntime) -> Result<(), Fail> {
    let mut out = Outbox::new(rt.alloc())?;
    let rows: [(&[u8], &[u8]); 9] = [
        (&[1, 7, 0, 7, 1, 3, 4], &[2, 7, 0, 7, 1, 3, 4]),
        (&[1, 7, 0, 7, 1, 3, 254], &[2, 7, 0, 7, 1, 3, 254]),
        (&[1, 7, 0, 7, 1, 3, 5], &[3, 7, 0, 7, 1, 3, 1]),
        (&[1, 7, 0, 8, 1, 4, 0, 1], &[3, 7, 0, 7, 1, 3, 1]),
        (&[1, 7, 0, 7, 2, 3, 1], &[4, 7, 0, 7, 2, 3, 1]),
        (&[3, 1, 0, 7, 1, 3, 255], &[1, 2, 0, 7, 1, 3, 255]),
        (&[3, 1, 0, 7, 1, 3, 0], &[1, 2, 0, 7, 1, 3, 2]),
        (&[3, 1, 0, 8, 1, 4, 0, 4], &[1, 2, 0, 7, 1, 3, 2]),
        (&[4, 1, 0, 7, 1, 3, 2], &[1, 2, 0, 4]),
    ];
    for (packet, wanted) in rows {
        let table = OsiTable { align: 2 };
        assert_eq!(rt; answer(table, packet, &mut out), wanted);
    }
    Ok(())
}

#[test]
fn options_of_mpls(rt: HostRuntime) -> Result<(), Fail> {
    let mut out = Outbox::new(rt.alloc())?;
    let rows: [(&[u8], &[u8]); 3] = [
        (&[1, 7, 0, 4], &[2, 7, 0, 4]),
        (&[1, 7, 0, 7, 1, 3, 1], &[4, 7, 0, 7, 1, 3, 1]),
        (&[3, 1, 0, 7, 1, 3, 1], &[1, 2, 0, 4]),
    ];
    for (packet, wanted) in rows {
        assert_eq!(rt; answer(MplsTable, packet, &mut out), wanted);
    }
    Ok(())
}
