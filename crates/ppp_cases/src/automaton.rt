//! The automaton over LCP's table, by packets that were worked out by hand from RFC 1661.

use crate::entries::{Entry, has_exactly, sends_exactly};
use ppp_auto::{AutoEvent, AutoState, Automaton, LayerSignal, Outbox};
use ppp_lcp::{DEFAULT_ACCM, DEFAULT_MRU, LcpTable};
use ppp_packet::Disc;
use std::test::Fail;

/// What happens at an end: an event without a packet, or a packet that comes.
#[derive(Clone, Copy, Debug)]
enum Step {
    Event(AutoEvent),
    Packet(&'static [u8]),
}

/// A step of an end after other steps: the entries that it leads to, and the state then.
#[derive(Clone, Copy)]
struct Case {
    before: &'static [Step],
    step: Step,
    entries: &'static [Entry<'static>],
    state: AutoState,
}

/// The word from which the own Magic-Number 4 is drawn.
const OWN: u64 = 4;

/// The word of a step that is looked at.
const WORD: u64 = 0x2a;

const OPEN: Step = Step::Event(AutoEvent::AdminOpen);

const CLOSE: Step = Step::Event(AutoEvent::AdminClose);

const UP: Step = Step::Event(AutoEvent::Up);

/// What the layer above is told where the protocol leaves Opened.
const DOWN: Entry<'static> = Entry::Signal(LayerSignal::Down);

/// A Configure-Request without options, and the Configure-Ack that answers it.
const PLAIN: &[u8] = &[1, 1, 0, 4];

const PLAIN_ACK: &[u8] = &[2, 1, 0, 4];

/// The Configure-Ack of the first own request.
const ACK: &[u8] = &[2, 1, 0, 10, 5, 6, 0, 0, 0, 4];

/// The second own request, with the list of the first.
const SECOND: &[u8] = &[1, 2, 0, 10, 5, 6, 0, 0, 0, 4];

/// A Configure-Request of a Maximum-Receive-Unit of 64, and the Configure-Nak that answers it.
const SMALL: &[u8] = &[1, 3, 0, 8, 1, 4, 0, 0x40];

const SMALL_NAK: &[u8] = &[3, 3, 0, 8, 1, 4, 0, 0x80];

/// A Terminate-Request, and the Terminate-Ack that answers it.
const TERMINATE: &[u8] = &[5, 7, 0, 4];

const TERMINATE_ACK: &[u8] = &[6, 7, 0, 4];

/// The steps to Opened.
const OPENED: &[Step] = &[OPEN, UP, Step::Packet(PLAIN), Step::Packet(ACK)];

/// Takes a step.
fn take(automaton: &mut Automaton<LcpTable>, step: Step, word: u64, out: &mut Outbox) {
    match step {
        Step::Event(event) => automaton.event(event, word, out),
        Step::Packet(octets) => automaton.packet(octets, word, out),
    }
}

/// A new end that asks for a Magic-Number alone, after steps.
fn end_after(steps: &[Step], out: &mut Outbox) -> Automaton<LcpTable> {
    let table = LcpTable {
        mru: DEFAULT_MRU,
        accm: DEFAULT_ACCM,
        magic: true,
        mrru: 0,
        short: false,
        classes: 0,
        disc: Disc::new(0, &[]),
        link_disc: None,
        pfc: false,
        acfc: false,
    };
    let mut automaton = Automaton::new(table, 1);
    for step in steps {
        take(&mut automaton, *step, OWN, out);
    }
    automaton
}

// A Configure-Request in Req-Sent, what answers it, and the state then.
static LISTS: [(&[u8], &[u8], AutoState); 9] = [
    // Maximum-Receive-Unit and Magic-Number are good
    (
        &[1, 9, 0, 14, 1, 4, 5, 0xdc, 5, 6, 0xaa, 0xbb, 0xcc, 0xdd],
        &[2, 9, 0, 14, 1, 4, 5, 0xdc, 5, 6, 0xaa, 0xbb, 0xcc, 0xdd],
        AutoState::AckSent,
    ),
    (PLAIN, PLAIN_ACK, AutoState::AckSent),
    (SMALL, SMALL_NAK, AutoState::ReqSent),
    // an option for the second time
    (
        &[1, 5, 0, 12, 1, 4, 5, 0xdc, 1, 4, 5, 0xdc],
        &[4, 5, 0, 8, 1, 4, 5, 0xdc],
        AutoState::ReqSent,
    ),
    // a Magic-Number of three octets, and the own one
    (
        &[1, 4, 0, 9, 5, 5, 0xaa, 0xbb, 0xcc],
        &[3, 4, 0, 10, 5, 6, 0, 0, 0, 0x2a],
        AutoState::ReqSent,
    ),
    (
        &[1, 4, 0, 10, 5, 6, 0, 0, 0, 4],
        &[3, 4, 0, 10, 5, 6, 0, 0, 0, 0x2a],
        AutoState::ReqSent,
    ),
    // options that aren't known: they alone are rejected, before any other is refused
    (&[1, 1, 0, 6, 9, 2], &[4, 1, 0, 6, 9, 2], AutoState::ReqSent),
    (
        &[
            1, 1, 0, 20, 13, 6, 0, 0, 0, 0, 5, 6, 0xaa, 0xbb, 0xcc, 0xdd, 9, 2, 10, 2,
        ],
        &[4, 1, 0, 14, 13, 6, 0, 0, 0, 0, 9, 2, 10, 2],
        AutoState::ReqSent,
    ),
    (
        &[1, 6, 0, 10, 1, 4, 0, 0x40, 9, 2],
        &[4, 6, 0, 6, 9, 2],
        AutoState::ReqSent,
    ),
];

#[test]
fn answers_each_list_in_req_sent(rt: HostRuntime) -> Result<(), Fail> {
    let mut out = Outbox::new(rt.alloc())?;
    for (came, sent, state) in &LISTS {
        let mut automaton = end_after(&[OPEN, UP], &mut out);
        automaton.packet(came, WORD, &mut out);
        assert!(rt; sends_exactly(&out, sent), "the answer to {came:?}");
        assert!(rt; automaton.state() == *state, "after {came:?}");
    }
    Ok(())
}

#[test]
fn rejects_after_five_naks_without_an_ack(rt: HostRuntime) -> Result<(), Fail> {
    let mut out = Outbox::new(rt.alloc())?;
    let small = Step::Packet(SMALL);
    let mut automaton = end_after(&[OPEN, UP, small, small, small, small], &mut out);
    // what comes, and what answers it
    let rows: [(&[u8], &[u8]); 6] = [
        (SMALL, SMALL_NAK),
        (SMALL, &[4, 3, 0, 8, 1, 4, 0, 0x40]),
        (SMALL, &[4, 3, 0, 8, 1, 4, 0, 0x40]),
        (PLAIN, PLAIN_ACK),
        (SMALL, SMALL_NAK),
        (SMALL, SMALL_NAK),
    ];
    for (came, sent) in rows {
        automaton.packet(came, WORD, &mut out);
        assert!(rt; sends_exactly(&out, sent), "the answer to {came:?}");
    }
    assert_eq!(rt; automaton.state(), AutoState::ReqSent);
    assert!(rt; automaton.timer_on());
    Ok(())
}

// Steps after others, with what they lead to.
static CASES: [Case; 16] = [
    Case {
        before: &[],
        step: OPEN,
        entries: &[Entry::Signal(LayerSignal::Started)],
        state: AutoState::Starting,
    },
    // the own request is acknowledged, naked and rejected; an Ack of another isn't looked at
    Case {
        before: &[OPEN, UP, Step::Packet(PLAIN)],
        step: Step::Packet(ACK),
        entries: &[Entry::Signal(LayerSignal::Up)],
        state: AutoState::Opened,
    },
    Case {
        before: &[OPEN, UP, Step::Packet(PLAIN)],
        step: Step::Packet(&[2, 2, 0, 10, 5, 6, 0, 0, 0, 4]),
        entries: &[],
        state: AutoState::AckSent,
    },
    Case {
        before: &[OPEN, UP],
        step: Step::Packet(&[3, 1, 0, 10, 5, 6, 0, 0, 0, 7]),
        entries: &[Entry::Packet(&[1, 2, 0, 10, 5, 6, 0, 0, 0, 7])],
        state: AutoState::ReqSent,
    },
    Case {
        before: &[OPEN, UP],
        step: Step::Packet(&[4, 1, 0, 10, 5, 6, 0, 0, 0, 4]),
        entries: &[Entry::Packet(&[1, 2, 0, 4])],
        state: AutoState::ReqSent,
    },
    // requests in Opened, good and not
    Case {
        before: OPENED,
        step: Step::Packet(PLAIN),
        entries: &[DOWN, Entry::Packet(SECOND), Entry::Packet(PLAIN_ACK)],
        state: AutoState::AckSent,
    },
    Case {
        before: OPENED,
        step: Step::Packet(SMALL),
        entries: &[DOWN, Entry::Packet(SECOND), Entry::Packet(SMALL_NAK)],
        state: AutoState::ReqSent,
    },
    // a code that isn't known
    Case {
        before: OPENED,
        step: Step::Packet(&[12, 7, 0, 4]),
        entries: &[Entry::Packet(&[7, 1, 0, 8, 12, 7, 0, 4])],
        state: AutoState::Opened,
    },
    // an Echo-Request, which is answered in Opened alone, and a Discard-Request
    Case {
        before: OPENED,
        step: Step::Packet(&[9, 5, 0, 8, 0xaa, 0xbb, 0xcc, 0xdd]),
        entries: &[Entry::Packet(&[10, 5, 0, 8, 0, 0, 0, 4])],
        state: AutoState::Opened,
    },
    Case {
        before: &[OPEN, UP],
        step: Step::Packet(&[9, 5, 0, 8, 0xaa, 0xbb, 0xcc, 0xdd]),
        entries: &[],
        state: AutoState::ReqSent,
    },
    Case {
        before: OPENED,
        step: Step::Packet(&[11, 5, 0, 8, 0xaa, 0xbb, 0xcc, 0xdd]),
        entries: &[],
        state: AutoState::Opened,
    },
    // rejects of a protocol, of a code that can be missed, and of one that can't
    Case {
        before: OPENED,
        step: Step::Packet(&[8, 1, 0, 6, 0xc0, 0x23]),
        entries: &[Entry::Signal(LayerSignal::ProtocolRejected(0xc023))],
        state: AutoState::Opened,
    },
    Case {
        before: OPENED,
        step: Step::Packet(&[7, 1, 0, 8, 12, 7, 0, 4]),
        entries: &[],
        state: AutoState::Opened,
    },
    Case {
        before: OPENED,
        step: Step::Packet(&[7, 1, 0, 8, 1, 1, 0, 4]),
        entries: &[DOWN, Entry::Packet(&[5, 1, 0, 4])],
        state: AutoState::Stopping,
    },
    // the peer and the administrator end it
    Case {
        before: OPENED,
        step: Step::Packet(TERMINATE),
        entries: &[DOWN, Entry::Packet(TERMINATE_ACK)],
        state: AutoState::Stopping,
    },
    Case {
        before: OPENED,
        step: CLOSE,
        entries: &[DOWN, Entry::Packet(&[5, 1, 0, 4])],
        state: AutoState::Closing,
    },
];

#[test]
fn follows_the_event_table(rt: HostRuntime) -> Result<(), Fail> {
    let mut out = Outbox::new(rt.alloc())?;
    for case in &CASES {
        let mut automaton = end_after(case.before, &mut out);
        take(&mut automaton, case.step, WORD, &mut out);
        assert!(rt;
            has_exactly(&out, case.entries),
            "at {:?} after {:?}",
            case.step,
            case.before
        );
        assert!(rt;
            automaton.state() == case.state,
            "at {:?} after {:?}",
            case.step,
            case.before
        );
    }
    Ok(())
}

#[test]
fn discards_what_is_cut_short_in_each_state(rt: HostRuntime) -> Result<(), Fail> {
    let mut out = Outbox::new(rt.alloc())?;
    let (plain, ack, terminate) = (
        Step::Packet(PLAIN),
        Step::Packet(ACK),
        Step::Packet(TERMINATE),
    );
    // steps, and the state after them
    let ways: [(&[Step], AutoState); 10] = [
        (&[], AutoState::Initial),
        (&[OPEN], AutoState::Starting),
        (&[UP], AutoState::Closed),
        (
            &[OPEN, UP, plain, ack, terminate, Step::Packet(TERMINATE_ACK)],
            AutoState::Stopped,
        ),
        (&[OPEN, UP, CLOSE], AutoState::Closing),
        (&[OPEN, UP, plain, ack, terminate], AutoState::Stopping),
        (&[OPEN, UP], AutoState::ReqSent),
        (&[OPEN, UP, ack], AutoState::AckRcvd),
        (&[OPEN, UP, plain], AutoState::AckSent),
        (&[OPEN, UP, plain, ack], AutoState::Opened),
    ];
    let packets: [&[u8]; 3] = [&[1, 1, 0, 3], &[1, 1, 0, 8, 1, 4], &[1, 1, 0, 6, 5, 1]];
    for (steps, state) in ways {
        let mut automaton = end_after(steps, &mut out);
        for octets in packets {
            automaton.packet(octets, WORD, &mut out);
            assert_eq!(rt; out.count(), 0, "in {state:?}");
            assert_eq!(rt; automaton.state(), state);
        }
    }
    Ok(())
}

#[test]
fn cuts_a_code_reject_to_the_cap(rt: HostRuntime) -> Result<(), Fail> {
    let mut out = Outbox::new(rt.alloc())?;
    let mut automaton = end_after(OPENED, &mut out);
    automaton.set_cap(128);
    let mut came = [0x55; 200];
    came[..4].copy_from_slice(&[12, 7, 0, 200]);
    let mut sent = [0x55; 128];
    sent[..8].copy_from_slice(&[7, 1, 0, 128, 12, 7, 0, 200]);
    automaton.packet(&came, WORD, &mut out);
    assert!(rt; sends_exactly(&out, &sent), "128 octets");
    assert_eq!(rt; automaton.state(), AutoState::Opened);
    Ok(())
}
