//! LCP's table behind an automaton in Req-Sent, and what lists grant.

ghost use Rattle.std.specs.Prelude.{◌≤◌, length};

use super::{LcpGrant, LcpTable, grant_of, settings_kept};
use ppp_auto::{AutoEvent, AutoState, Automaton, EntryRef, Outbox};
use ppp_packet::{Disc, OptList, read_options, write_packet};
use std::test::Fail;

/// The table of default settings.
fn usual() -> LcpTable {
    LcpTable {
        mru: 1500,
        accm: 0xffff_ffff,
        magic: true,
        mrru: 0,
        short: false,
        classes: 0,
        disc: Disc::new(0, &[]),
        link_disc: None,
        pfc: false,
        acfc: false,
    }
}

/// A table that asks for every option.
fn full() -> LcpTable {
    LcpTable {
        mru: 1400,
        accm: 0x000a_0000,
        magic: true,
        mrru: 1600,
        short: true,
        classes: 4,
        disc: Disc::new(1, &[0x61]),
        link_disc: Some(10),
        pfc: true,
        acfc: true,
    }
}

/// The first packet that an outbox has, or no octets.
fn first_sent(out: &Outbox) -> &[u8] {
    for i in 0..out.count() {
        if let EntryRef::Send(octets) = out.at(i) {
            return octets;
        }
    }
    &[]
}

/// An end in Req-Sent, which has asked with Identifier 1 and the word 4.
fn asking(table: LcpTable, out: &mut Outbox) -> Automaton<LcpTable> {
    settings_kept(&table);
    let mut automaton = Automaton::new(table, 1);
    automaton.event(AutoEvent::AdminOpen, 0, out);
    automaton.event(AutoEvent::Up, 4, out);
    automaton
}

/// What such an end sends after a packet of this code, with Identifier 1 and these options.
fn answer<'a>(table: LcpTable, code: u8, options: &[u8], out: &'a mut Outbox) -> &'a [u8]
    requires { length options.now ≤ 60 }
{
    let mut automaton = asking(table, out);
    let mut packet = [0; 64];
    let size = write_packet(&mut packet, code, 1, options);
    automaton.packet(&packet[..size], 0x2a, out);
    first_sent(out)
}

#[test]
fn asks_for_what_is_set(rt: HostRuntime) -> Result<(), Fail> {
    let mut out = Outbox::new(rt.alloc())?;
    let _usual = asking(usual(), &mut out);
    assert_eq!(rt;
        first_sent(&out),
        [1, 1, 0, 10, 5, 6, 0, 0, 0, 4].as_slice()
    );
    let _full = asking(full(), &mut out);
    let wanted = [
        1, 1, 0, 42, 1, 4, 5, 0x78, 2, 6, 0, 10, 0, 0, 5, 6, 0, 0, 0, 4, 7, 2, 8, 2, 17, 4, 6,
        0x40, 18, 2, 19, 4, 1, 0x61, 23, 4, 0, 10, 27, 4, 6, 4,
    ];
    assert_eq!(rt; first_sent(&out), wanted.as_slice());
    Ok(())
}

#[test]
fn answers_requests(rt: HostRuntime) -> Result<(), Fail> {
    let mut out = Outbox::new(rt.alloc())?;
    let rows: [(&[u8], &[u8]); 34] = [
        (&[1, 4, 0, 128], &[2, 1, 0, 8, 1, 4, 0, 128]),
        (&[1, 4, 0, 127], &[3, 1, 0, 8, 1, 4, 0, 128]),
        (&[1, 3, 5], &[3, 1, 0, 8, 1, 4, 5, 0xdc]),
        (&[2, 6, 0, 0, 0, 0], &[2, 1, 0, 10, 2, 6, 0, 0, 0, 0]),
        (&[2, 3, 0], &[3, 1, 0, 10, 2, 6, 255, 255, 255, 255]),
        (&[5, 6, 0, 0, 0, 5], &[2, 1, 0, 10, 5, 6, 0, 0, 0, 5]),
        (&[5, 6, 0, 0, 0, 4], &[3, 1, 0, 10, 5, 6, 0, 0, 0, 0x2a]),
        (&[5, 6, 0, 0, 0, 0], &[3, 1, 0, 10, 5, 6, 0, 0, 0, 0x2a]),
        (&[5, 5, 1, 2, 3], &[3, 1, 0, 10, 5, 6, 0, 0, 0, 0x2a]),
        (&[7, 2], &[2, 1, 0, 6, 7, 2]),
        (&[7, 3, 0], &[3, 1, 0, 6, 7, 2]),
        (&[8, 2], &[2, 1, 0, 6, 8, 2]),
        (&[8, 3, 0], &[3, 1, 0, 6, 8, 2]),
        (&[17, 4, 5, 0xdc], &[2, 1, 0, 8, 17, 4, 5, 0xdc]),
        (&[17, 4, 5, 0xdb], &[3, 1, 0, 8, 17, 4, 5, 0xdc]),
        (&[17, 3, 9], &[3, 1, 0, 8, 17, 4, 5, 0xdc]),
        (&[18, 2], &[2, 1, 0, 6, 18, 2]),
        (&[18, 3, 0], &[3, 1, 0, 6, 18, 2]),
        (
            &[19, 7, 2, 10, 0, 0, 1],
            &[2, 1, 0, 11, 19, 7, 2, 10, 0, 0, 1],
        ),
        (&[19, 3, 0], &[2, 1, 0, 7, 19, 3, 0]),
        (&[19, 5, 2, 10, 0], &[3, 1, 0, 7, 19, 3, 0]),
        (&[19, 4, 6, 1], &[3, 1, 0, 7, 19, 3, 0]),
        (&[19, 2], &[3, 1, 0, 7, 19, 3, 0]),
        (&[23, 4, 255, 255], &[2, 1, 0, 8, 23, 4, 255, 255]),
        (&[23, 2], &[3, 1, 0, 8, 23, 4, 0, 0]),
        (&[27, 4, 2, 16], &[2, 1, 0, 8, 27, 4, 2, 16]),
        (&[27, 4, 6, 5], &[3, 1, 0, 8, 27, 4, 6, 4]),
        (&[27, 4, 2, 0], &[3, 1, 0, 8, 27, 4, 2, 1]),
        (&[27, 4, 2, 17], &[3, 1, 0, 8, 27, 4, 2, 16]),
        (&[27, 4, 7, 3], &[3, 1, 0, 8, 27, 4, 2, 3]),
        (&[27, 3, 2], &[3, 1, 0, 8, 27, 4, 2, 1]),
        (&[3, 4, 0xc0, 0x23], &[4, 1, 0, 8, 3, 4, 0xc0, 0x23]),
        (
            &[1, 4, 5, 0xdc, 1, 4, 5, 0xdc],
            &[4, 1, 0, 8, 1, 4, 5, 0xdc],
        ),
        (&[], &[2, 1, 0, 4]),
    ];
    for (options, wanted) in rows {
        assert!(rt; options.len() <= 60, "a row fits");
        assert_eq!(rt; answer(full(), 1, options, &mut out), wanted);
    }
    let rejected: [&[u8]; 4] = [&[17, 4, 5, 0xdc], &[17, 3, 9], &[18, 2], &[27, 4, 2, 16]];
    for option in rejected {
        assert!(rt; option.len() <= 60, "a row fits");
        let sent = answer(usual(), 1, option, &mut out);
        assert!(rt; sent.len() > 4 && sent[0] == 4, "multilink is unknown");
        assert_eq!(rt; &sent[4..], option);
    }
    Ok(())
}

#[test]
fn adapts_to_naks(rt: HostRuntime) -> Result<(), Fail> {
    let mut out = Outbox::new(rt.alloc())?;
    // what is suggested, where its option begins in the next request, and what stands there
    let rows: [(&[u8], usize, &[u8]); 20] = [
        (&[1, 4, 32, 0], 4, &[1, 4, 32, 0]),
        (&[1, 4, 32, 1], 4, &[1, 4, 5, 0x78]),
        (&[1, 3, 9], 4, &[1, 4, 5, 0x78]),
        (&[2, 6, 1, 3, 0, 0], 8, &[2, 6, 1, 11, 0, 0]),
        (&[2, 3, 1], 8, &[2, 6, 0, 10, 0, 0]),
        (&[5, 6, 0, 0, 0, 7], 14, &[5, 6, 0, 0, 0, 7]),
        (&[5, 6, 0, 0, 0, 4], 14, &[5, 6, 0, 0, 0, 0x2a]),
        (
            &[5, 6, 0, 0, 0, 4, 5, 6, 0, 0, 0, 7],
            14,
            &[5, 6, 0, 0, 0, 0x2a],
        ),
        (&[7, 3, 1], 20, &[7, 2, 8, 2]),
        (&[8, 3, 1], 22, &[8, 2, 17, 4]),
        (&[17, 4, 6, 0], 24, &[17, 4, 6, 0]),
        (&[17, 4, 6, 0x41], 24, &[17, 4, 6, 0x40]),
        (&[17, 4, 5, 0], 24, &[17, 4, 6, 0x40]),
        (&[18, 3, 1], 28, &[18, 2, 19, 4]),
        (&[19, 3, 0], 30, &[19, 4, 1, 0x61]),
        (&[23, 4, 0, 9], 34, &[23, 4, 0, 10]),
        (&[27, 4, 6, 3], 38, &[27, 4, 6, 3]),
        (&[27, 4, 6, 5], 38, &[27, 4, 6, 4]),
        (&[27, 4, 2, 3], 38, &[27, 4, 6, 4]),
        (&[27, 3, 6], 38, &[27, 4, 6, 4]),
    ];
    for (nak, place, wanted) in rows {
        assert!(rt; nak.len() <= 60, "a row fits");
        let sent = answer(full(), 3, nak, &mut out);
        assert_eq!(rt; sent.len(), 42);
        assert!(rt; place + wanted.len() <= sent.len(), "within the request");
        assert_eq!(rt; &sent[place..place + wanted.len()], wanted);
    }
    let own: [u8; 12] = [1, 4, 5, 0x78, 2, 6, 0, 10, 0, 0, 8, 2];
    let left = [
        1, 2, 0, 30, 5, 6, 0, 0, 0, 4, 7, 2, 17, 4, 6, 0x40, 18, 2, 19, 4, 1, 0x61, 23, 4, 0, 10,
        27, 4, 6, 4,
    ];
    assert_eq!(rt; answer(full(), 4, &own, &mut out), left.as_slice());
    Ok(())
}

/// A packet, what answers it, and the state then.
type Step<'a> = (&'a [u8], &'a [u8], AutoState);

#[test]
fn worked_rows(rt: HostRuntime) -> Result<(), Fail> {
    let mut out = Outbox::new(rt.alloc())?;
    let request: &[u8] = &[
        1, 1, 0, 20, 2, 6, 0, 0, 0, 0, 5, 6, 0xaa, 0xbb, 0xcc, 0xdd, 7, 2, 8, 2,
    ];
    let ack: &[u8] = &[
        2, 1, 0, 20, 2, 6, 0, 0, 0, 0, 5, 6, 0xaa, 0xbb, 0xcc, 0xdd, 7, 2, 8, 2,
    ];
    let small: &[u8] = &[1, 3, 0, 8, 1, 4, 0, 0x40];
    let nak: &[u8] = &[3, 3, 0, 8, 1, 4, 0, 0x80];
    let steps: [Step<'_>; 11] = [
        (
            &[1, 4, 0, 9, 5, 5, 0xaa, 0xbb, 0xcc],
            &[3, 4, 0, 10, 5, 6, 0, 0, 0, 0x2a],
            AutoState::ReqSent,
        ),
        (
            &[1, 5, 0, 12, 1, 4, 5, 0xdc, 1, 4, 5, 0xdc],
            &[4, 5, 0, 8, 1, 4, 5, 0xdc],
            AutoState::ReqSent,
        ),
        (request, ack, AutoState::AckSent),
        (small, nak, AutoState::ReqSent),
        (small, nak, AutoState::ReqSent),
        (small, nak, AutoState::ReqSent),
        (small, nak, AutoState::ReqSent),
        (small, nak, AutoState::ReqSent),
        (small, &[4, 3, 0, 8, 1, 4, 0, 0x40], AutoState::ReqSent),
        (&[2, 1, 0, 10, 5, 6, 0, 0, 0, 4], &[], AutoState::AckRcvd),
        (request, ack, AutoState::Opened),
    ];
    let mut automaton = asking(usual(), &mut out);
    for (packet, wanted, state) in steps {
        automaton.packet(packet, 0x2a, &mut out);
        assert_eq!(rt; first_sent(&out), wanted);
        assert_eq!(rt; automaton.state(), state);
    }
    automaton.packet(&[12, 7, 0, 4], 0x2a, &mut out);
    assert_eq!(rt; first_sent(&out), [7, 1, 0, 8, 12, 7, 0, 4].as_slice());
    assert_eq!(rt; automaton.state(), AutoState::Opened);
    Ok(())
}

/// What a list in octets grants, if it is one.
fn granted(octets: &[u8]) -> Option<LcpGrant> {
    let list = OptList::from_options(&read_options(octets)?).ok()?;
    Some(grant_of(&list))
}

#[test]
fn grants(rt: HostRuntime) {
    let none = granted(&[]).expect(&rt, "an empty list");
    assert_eq!(rt;
        (none.mru, none.accm, none.magic, none.mrru),
        (1500, 0xffff_ffff, 0, 0)
    );
    assert_eq!(rt;
        (none.short, none.classes, none.disc.class, none.disc.size),
        (false, 0, 0, 0)
    );
    assert_eq!(rt; (none.link_disc, none.pfc, none.acfc), (None, false, false));
    let octets = [
        1, 3, 9, 1, 4, 5, 0x78, 2, 6, 0, 10, 0, 0, 5, 6, 0, 0, 0, 4, 7, 2, 17, 4, 6, 0x40, 19, 4,
        9, 1, 19, 5, 1, 0x61, 0x62, 23, 4, 0, 10, 27, 4, 6, 4,
    ];
    let all = granted(&octets).expect(&rt, "a list of options");
    assert_eq!(rt;
        (all.mru, all.accm, all.magic, all.mrru),
        (0x578, 0xa_0000, 4, 0x640)
    );
    assert_eq!(rt; (all.short, all.classes, all.disc.class), (true, 4, 1));
    assert_eq!(rt; all.disc.address(), b"ab".as_slice());
    assert_eq!(rt; (all.link_disc, all.pfc, all.acfc), (Some(10), true, false));
    let flag = granted(&[18, 2, 27, 3, 1]).expect(&rt, "a list with a form of wrong length");
    assert_eq!(rt; (flag.short, flag.classes), (true, 0));
}
