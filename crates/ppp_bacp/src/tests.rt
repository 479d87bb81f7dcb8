//! BACP's table behind an automaton in Req-Sent.

use super::{BacpTable, favoured};
use ppp_auto::{AutoEvent, Automaton, EntryRef, Outbox};
use std::test::Fail;

/// The first packet that an outbox has, or no octets.
fn first_sent(out: &Outbox) -> &[u8] {
    for i in 0..out.count() {
        if let EntryRef::Send(octets) = out.at(i) {
            return octets;
        }
    }
    &[]
}

#[test]
fn favored_peers(rt: HostRuntime) -> Result<(), Fail> {
    let mut out = Outbox::new(rt.alloc())?;
    let asked: &[u8] = &[1, 2, 0, 10, 1, 6, 0, 0, 0, 7];
    let drawn: &[u8] = &[3, 1, 0, 10, 1, 6, 0, 0, 0, 8];
    let rows: [(&[u8], &[u8]); 10] = [
        (
            &[1, 1, 0, 10, 1, 6, 0, 0, 0, 9],
            &[2, 1, 0, 10, 1, 6, 0, 0, 0, 9],
        ),
        (&[1, 1, 0, 10, 1, 6, 0, 0, 0, 7], drawn),
        (&[1, 1, 0, 10, 1, 6, 0, 0, 0, 0], drawn),
        (&[1, 1, 0, 7, 1, 3, 1], drawn),
        (&[1, 1, 0, 4], drawn),
        (&[1, 1, 0, 6, 2, 2], &[4, 1, 0, 6, 2, 2]),
        (
            &[3, 1, 0, 10, 1, 6, 0, 0, 0, 9],
            &[1, 2, 0, 10, 1, 6, 0, 0, 0, 9],
        ),
        (
            &[3, 1, 0, 10, 1, 6, 0, 0, 0, 7],
            &[1, 2, 0, 10, 1, 6, 0, 0, 0, 8],
        ),
        (&[3, 1, 0, 7, 1, 3, 1], asked),
        (&[4, 1, 0, 10, 1, 6, 0, 0, 0, 7], asked),
    ];
    for (packet, wanted) in rows {
        let mut automaton = Automaton::new(BacpTable { favored: 7 }, 1);
        automaton.event(AutoEvent::AdminOpen, 0, &mut out);
        automaton.event(AutoEvent::Up, 0, &mut out);
        automaton.packet(packet, 7, &mut out);
        assert_eq!(rt; first_sent(&out), wanted);
    }
    assert_eq!(rt; (favoured(1, 2), favoured(2, 1)), (true, false));
    Ok(())
}
