//! The two tables behind an automaton in Req-Sent: what each answers to a packet.

use super::{IpcpTable, Ipv6Table};
use ppp_auto::{AutoEvent, AutoState, Automaton, EntryRef, OptionTable, Outbox};
use std::test::Fail;

/// The first packet that an outbox has, or no octets.
fn first_sent(out: &Outbox) -> &[u8] {
    for i in 0..out.count() {
        if let EntryRef::Send(octets) = out.at(i) {
            return octets;
        }
    }
    &[]
}

/// What an end in Req-Sent, which has asked with Identifier 1, sends after a packet.
fn answer<'a, T: OptionTable + Drop>(table: T, packet: &[u8], out: &'a mut Outbox) -> &'a [u8] {
    let mut automaton = Automaton::new(table, 1);
    automaton.event(AutoEvent::AdminOpen, 0, out);
    automaton.event(AutoEvent::Up, 0, out);
    automaton.packet(packet, 0x1122_3344_5566_7788, out);
    first_sent(out)
}

#[test]
fn addresses(rt: HostRuntime) -> Result<(), Fail> {
    let mut out = Outbox::new(rt.alloc())?;
    let give = Some(0x0a00_0002);
    let own = 0x0a00_0001;
    // the own address, the one to give, a packet and its answer
    let rows: [(u32, Option<u32>, &[u8], &[u8]); 13] = [
        (
            own,
            give,
            &[1, 5, 0, 10, 3, 6, 10, 0, 0, 9],
            &[2, 5, 0, 10, 3, 6, 10, 0, 0, 9],
        ),
        (
            own,
            give,
            &[1, 5, 0, 10, 3, 6, 0, 0, 0, 0],
            &[3, 5, 0, 10, 3, 6, 10, 0, 0, 2],
        ),
        (
            own,
            None,
            &[1, 5, 0, 10, 3, 6, 0, 0, 0, 0],
            &[4, 5, 0, 10, 3, 6, 0, 0, 0, 0],
        ),
        (
            own,
            give,
            &[1, 5, 0, 9, 3, 5, 0, 0, 0],
            &[3, 5, 0, 10, 3, 6, 10, 0, 0, 2],
        ),
        (
            own,
            None,
            &[1, 5, 0, 9, 3, 5, 0, 0, 0],
            &[3, 5, 0, 10, 3, 6, 0, 0, 0, 0],
        ),
        (
            0,
            None,
            &[3, 1, 0, 10, 3, 6, 10, 0, 0, 9],
            &[1, 2, 0, 10, 3, 6, 10, 0, 0, 9],
        ),
        (
            0,
            None,
            &[3, 1, 0, 10, 3, 6, 0, 0, 0, 0],
            &[1, 2, 0, 10, 3, 6, 0, 0, 0, 0],
        ),
        (
            0,
            None,
            &[3, 1, 0, 9, 3, 5, 10, 0, 9],
            &[1, 2, 0, 10, 3, 6, 0, 0, 0, 0],
        ),
        (
            own,
            None,
            &[3, 1, 0, 10, 3, 6, 10, 0, 0, 9],
            &[1, 2, 0, 10, 3, 6, 10, 0, 0, 1],
        ),
        (own, None, &[4, 1, 0, 10, 3, 6, 10, 0, 0, 1], &[1, 2, 0, 4]),
        (own, None, &[9, 7, 0, 4], &[7, 1, 0, 8, 9, 7, 0, 4]),
        (own, None, &[1, 5, 0, 4], &[2, 5, 0, 4]),
        (
            own,
            give,
            &[
                1, 1, 0, 28, 2, 6, 0, 0x2d, 15, 1, 3, 6, 0, 0, 0, 0, 129, 6, 0, 0, 0, 0, 131, 6, 0,
                0, 0, 0,
            ],
            &[
                4, 1, 0, 22, 2, 6, 0, 0x2d, 15, 1, 129, 6, 0, 0, 0, 0, 131, 6, 0, 0, 0, 0,
            ],
        ),
    ];
    for (own, give, packet, wanted) in rows {
        assert!(rt; give != Some(0), "an address to give");
        let table = IpcpTable { own, give };
        assert_eq!(rt; answer(table, packet, &mut out), wanted);
    }
    Ok(())
}

#[test]
fn identifiers(rt: HostRuntime) -> Result<(), Fail> {
    let mut out = Outbox::new(rt.alloc())?;
    let drawn: &[u8] = &[
        3, 1, 0, 14, 1, 10, 0x11, 0x22, 0x33, 0x44, 0x55, 0x66, 0x77, 0x88,
    ];
    let rows: [(u64, &[u8], &[u8]); 9] = [
        (
            1,
            &[1, 1, 0, 14, 1, 10, 0, 0, 0, 0, 0, 0, 0, 2],
            &[2, 1, 0, 14, 1, 10, 0, 0, 0, 0, 0, 0, 0, 2],
        ),
        (1, &[1, 1, 0, 14, 1, 10, 0, 0, 0, 0, 0, 0, 0, 1], drawn),
        (1, &[1, 1, 0, 14, 1, 10, 0, 0, 0, 0, 0, 0, 0, 0], drawn),
        (
            0,
            &[1, 1, 0, 14, 1, 10, 0, 0, 0, 0, 0, 0, 0, 0],
            &[4, 1, 0, 14, 1, 10, 0, 0, 0, 0, 0, 0, 0, 0],
        ),
        (0, &[1, 1, 0, 7, 1, 3, 0], drawn),
        (
            0,
            &[3, 1, 0, 14, 1, 10, 0, 0, 0, 0, 0, 0, 0, 9],
            &[1, 2, 0, 14, 1, 10, 0, 0, 0, 0, 0, 0, 0, 9],
        ),
        (
            1,
            &[3, 1, 0, 14, 1, 10, 0, 0, 0, 0, 0, 0, 0, 0],
            &[1, 2, 0, 14, 1, 10, 0, 0, 0, 0, 0, 0, 0, 1],
        ),
        (
            1,
            &[3, 1, 0, 7, 1, 3, 9],
            &[1, 2, 0, 14, 1, 10, 0, 0, 0, 0, 0, 0, 0, 1],
        ),
        (
            1,
            &[4, 1, 0, 14, 1, 10, 0, 0, 0, 0, 0, 0, 0, 1],
            &[1, 2, 0, 4],
        ),
    ];
    for (own, packet, wanted) in rows {
        let table = Ipv6Table { own, ask: true };
        assert_eq!(rt; answer(table, packet, &mut out), wanted);
    }
    Ok(())
}

#[test]
fn unknown_code_in_opened(rt: HostRuntime) -> Result<(), Fail> {
    let mut out = Outbox::new(rt.alloc())?;
    let mut automaton = Automaton::new(
        IpcpTable {
            own: 0x0a00_0001,
            give: None,
        },
        1,
    );
    automaton.event(AutoEvent::AdminOpen, 0, &mut out);
    automaton.event(AutoEvent::Up, 0, &mut out);
    automaton.packet(&[2, 1, 0, 10, 3, 6, 10, 0, 0, 1], 0, &mut out);
    automaton.packet(&[1, 1, 0, 10, 3, 6, 10, 0, 0, 2], 0, &mut out);
    assert_eq!(rt; automaton.state(), AutoState::Opened);
    automaton.packet(&[9, 7, 0, 4], 0, &mut out);
    assert_eq!(rt; first_sent(&out), [7, 1, 0, 8, 9, 7, 0, 4].as_slice());
    assert_eq!(rt; automaton.state(), AutoState::Opened);
    Ok(())
}
