//! What an end's BAP answers, step by step.

use super::{BUNDLES, Bap, BapAsk, BapEntry, BapOut, BundleView, CallAsk, LINKS, Policy};
use std::alloc::Global;
use std::fmt::Write;
use std::test::Fail;

/// What happens at an end.
#[derive(Clone, Copy)]
enum Step<'a> {
    Ask(BapAsk),
    Take(&'a [u8]),
    Status(u8),
    TimesOut,
    Leaves(u8),
    Ends,
    Restarts,
}

/// Numbers of links 1 and 2.
fn numbers(first: u16, second: u16) -> [Option<u16>; LINKS] {
    let mut numbers = [None; LINKS];
    numbers[0] = Some(first);
    numbers[1] = Some(second);
    numbers
}

/// Links 1 and 2 are joined, with the own numbers 10 and 20 and the peer's 30 and 40, and link 3 is idle.
fn two() -> BundleView {
    BundleView {
        bundle: 0,
        live: true,
        favoured: false,
        most: 16,
        least: 1,
        calls: true,
        callbacks: true,
        speed: 64,
        joined: 0b011,
        marked: 0,
        idle: 0b100,
        own_numbers: numbers(10, 20),
        peer_numbers: numbers(30, 40),
    }
}

/// Link 1 alone is joined, with the own number 20, and link 2 is idle.
fn one() -> BundleView {
    let mut view = two();
    view.joined = 0b01;
    view.idle = 0b10;
    view.own_numbers = numbers(20, 21);
    view
}

/// Writes what an end sent and told.
fn write_out(out: &BapOut, text: &mut String) -> Result<(), Fail> {
    for i in 0..out.count() {
        match out.at(i) {
            BapEntry::Send(octets) => {
                write!(text, "send ")?;
                for octet in octets {
                    write!(text, "{octet:02x}")?;
                }
                write!(text, "; ")?;
            }
            BapEntry::Mark(link) => write!(text, "mark {link}; ")?,
            BapEntry::CloseLink(link) => write!(text, "close {link}; ")?,
            BapEntry::Dial(link) => write!(text, "dial {link}; ")?,
        }
    }
    Ok(())
}

/// Asks, and writes why not.
fn ask<F: Policy>(
    bap: &mut Bap<F>,
    request: BapAsk,
    view: &BundleView,
    out: &mut BapOut,
    text: &mut String,
) -> Result<(), Fail> {
    if BUNDLES <= usize::from(view.bundle) {
        return Ok(());
    }
    if let BapAsk::Drop(link) = request
        && (link < 1 || LINKS < usize::from(link))
    {
        return Ok(());
    }
    if let Err(why) = bap.ask(request, view, out) {
        write!(text, "{why:?}; ")?;
    }
    Ok(())
}

/// Does a step, and writes what is sent and told, and what waits then.
fn do_step<F: Policy>(
    bap: &mut Bap<F>,
    step: Step<'_>,
    view: &BundleView,
    text: &mut String,
) -> Result<(), Fail> {
    let mut out = BapOut::new();
    if BUNDLES <= usize::from(view.bundle) || !view.live {
        return Ok(());
    }
    match step {
        Step::Ask(request) => ask(bap, request, view, &mut out, text)?,
        Step::Take(octets) => bap.receive(octets, view, &mut out),
        Step::Status(status) => bap.status(status, view, &mut out),
        Step::TimesOut => bap.timeout(view.bundle, &mut out),
        Step::Leaves(link) => bap.link_left(view.bundle, link),
        Step::Ends => bap.reset(view.bundle),
        Step::Restarts => bap.restart(),
    }
    write_out(&out, text)?;
    match bap.waiting(view.bundle) {
        Some(request) => write!(text, "waits {request:?}; ")?,
        None => {}
    }
    Ok(())
}

/// What steps make at an end with that policy.
fn run_with<F: Policy + Drop>(
    alloc: Global,
    policy: F,
    view: &BundleView,
    steps: &[Step<'_>],
) -> Result<String, Fail>
    requires { F.may policy }
{
    let mut text = String::new(alloc);
    let mut bap = Bap::new(policy);
    for step in steps {
        do_step(&mut bap, *step, view, &mut text)?;
    }
    Ok(text)
}

/// What steps make at an end whose policy says always the same.
fn run(
    alloc: Global,
    allowed: bool,
    view: &BundleView,
    steps: &[Step<'_>],
) -> Result<String, Fail> {
    run_with(alloc, |_: &CallAsk| allowed, view, steps)
}

/// A Call-Request of 64 kbit/s for ISDN.
const CALL: &[u8] = &[1, 1, 0, 9, 1, 5, 0, 64, 1];

/// A Callback-Request, on link 3.
const CALLBACK: &[u8] = &[3, 7, 0, 17, 1, 5, 0, 64, 1, 2, 8, 1, 3, 1, 2, 3, 0x33];

/// A Link-Drop-Query-Request for the number 20.
const DROP: &[u8] = &[5, 1, 0, 8, 5, 4, 0, 20];

/// What an end answers where link 1 is joined, link 2 idle, and a call comes.
fn called(alloc: Global, allowed: bool, most: u8, calls: bool) -> Result<String, Fail> {
    let mut view = one();
    view.most = most;
    view.calls = calls;
    run(alloc, allowed, &view, &[Step::Take(CALL)])
}

#[test]
fn a_call_is_answered(rt: HostRuntime) -> Result<(), Fail> {
    let cases = [
        (true, 16, true, "send 0201000d000208010301020332; "),
        (false, 16, true, "send 0201000501; "),
        (true, 1, true, "send 0201000503; "),
        (true, 16, false, "send 0201000502; "),
    ];
    for (allowed, most, calls, wanted) in cases {
        let text = called(rt.alloc(), allowed, most, calls)?;
        assert_eq!(rt; text.as_str(), wanted);
    }
    Ok(())
}

#[test]
fn drops_are_refused(rt: HostRuntime) -> Result<(), Fail> {
    let text = run(rt.alloc(), true, &one(), &[Step::Take(DROP)])?;
    assert_eq!(rt; text.as_str(), "send 0601000503; ");
    let mut view = two();
    view.marked = 0b10;
    let steps = [Step::Ask(BapAsk::Drop(2)), Step::Ask(BapAsk::Drop(3))];
    let text = run(rt.alloc(), true, &view, &steps)?;
    assert_eq!(rt; text.as_str(), "Promised(2); NotJoined(3); ");
    Ok(())
}

/// Each call on its way, at the end that isn't favoured.
#[test]
fn requests_are_asked_and_answered(rt: HostRuntime) -> Result<(), Fail> {
    let cases: [(&[Step<'_>], &str); 9] = [
        (
            &[
                Step::Ask(BapAsk::Call),
                Step::Take(&[2, 1, 0, 13, 0, 2, 8, 1, 3, 1, 2, 3, 0x33]),
            ],
            "send 010100090105004001; waits Call; dial 3; ",
        ),
        (
            &[Step::Ask(BapAsk::Callback), Step::Take(&[4, 1, 0, 5, 0])],
            "send 0301001101050040010208010301020333; waits Callback; ",
        ),
        (
            &[Step::Ask(BapAsk::Drop(2)), Step::Take(&[6, 1, 0, 5, 0])],
            "send 0501000805040028; waits Drop(2); close 2; ",
        ),
        (
            &[Step::Take(CALLBACK), Step::Take(DROP)],
            "send 0407000500; dial 3; send 0601000500; mark 2; ",
        ),
        (
            &[Step::Ask(BapAsk::Call), Step::Take(DROP)],
            "send 010100090105004001; waits Call; send 0601000500; mark 2; ",
        ),
        (
            &[
                Step::Ask(BapAsk::Drop(1)),
                Step::TimesOut,
                Step::TimesOut,
                Step::TimesOut,
                Step::TimesOut,
            ],
            "send 050100080504001e; waits Drop(1); send 050100080504001e; waits Drop(1); \
            send 050100080504001e; waits Drop(1); ",
        ),
        (
            &[
                Step::Status(9),
                Step::Take(&[7, 5, 0, 8, 6, 4, 9, 1]),
                Step::Take(&[8, 1, 0, 5, 0]),
            ],
            "send 0701000806040900; send 0805000500; ",
        ),
        (
            &[
                Step::Ask(BapAsk::Drop(2)),
                Step::Leaves(1),
                Step::Leaves(2),
                Step::Ask(BapAsk::Call),
                Step::Ends,
            ],
            "send 0501000805040028; waits Drop(2); waits Drop(2); send 010200090105004001; waits Call; ",
        ),
        (
            &[
                Step::Ask(BapAsk::Call),
                Step::Restarts,
                Step::Ask(BapAsk::Call),
                Step::Ask(BapAsk::Call),
            ],
            "send 010100090105004001; waits Call; send 010100090105004001; waits Call; Waiting; waits Call; ",
        ),
    ];
    for (steps, wanted) in cases {
        let text = run(rt.alloc(), true, &two(), steps)?;
        assert_eq!(rt; text.as_str(), wanted);
    }
    Ok(())
}

/// A favoured end keeps its own request; identifiers go from 255 to 0.
#[test]
fn a_favoured_end_keeps_its_own(rt: HostRuntime) -> Result<(), Fail> {
    let text = behind(rt.alloc(), Some(BapAsk::Call), DROP)?;
    assert_eq!(rt;
        text.as_str(),
        "send 010100090105004001; waits Call; send 0601000501; waits Call; "
    );
    let mut steps = Vec::new(rt.alloc());
    for _ in 0..254 {
        steps.push(Step::Ask(BapAsk::Call))?;
        steps.push(Step::Ends)?;
    }
    steps.push(Step::Status(0))?;
    steps.push(Step::Status(0))?;
    let text = run(rt.alloc(), true, &two(), steps.as_slice())?;
    assert!(rt;
        text.as_str()
            .ends_with("send 07ff000806040000; send 0700000806040000; ")
    );
    Ok(())
}

/// What a packet makes at a favoured end that asked, if it did.
fn behind(alloc: Global, asked: Option<BapAsk>, packet: &[u8]) -> Result<String, Fail> {
    let mut view = two();
    view.favoured = true;
    match asked {
        Some(request) => run(
            alloc,
            true,
            &view,
            &[Step::Ask(request), Step::Take(packet)],
        ),
        None => run(alloc, true, &view, &[Step::Take(packet)]),
    }
}

/// Octets with another one at a place.
fn with_octet(alloc: Global, octets: &[u8], at: usize, octet: u8) -> Result<Vec<u8>, Fail> {
    let mut changed = Vec::from_slice(alloc, octets)?;
    if let Some(place) = changed.get_mut(at) {
        *place = octet;
    }
    Ok(changed)
}

/// Each Length octet of each packet of a drop and of a call set to another number: the packet is discarded.
#[test]
fn wrong_lengths_are_discarded(rt: HostRuntime) -> Result<(), Fail> {
    let cases: [(Option<BapAsk>, &[u8], &[usize]); 12] = [
        (None, &[5, 1, 0, 8, 5, 4, 0, 21], &[2, 3, 5]),
        (None, &[5, 1, 0, 8, 5, 4, 0, 10], &[2, 3, 5]),
        (Some(BapAsk::Call), &[2, 1, 0, 5, 1], &[2, 3]),
        (Some(BapAsk::Call), &[2, 1, 0, 5, 2], &[2, 3]),
        (Some(BapAsk::Call), &[2, 1, 0, 5, 3], &[2, 3]),
        (
            Some(BapAsk::Call),
            &[2, 1, 0, 13, 0, 2, 8, 1, 3, 1, 2, 3, 0x32],
            &[2, 3, 6, 8, 11],
        ),
        (None, DROP, &[2, 3, 5]),
        (Some(BapAsk::Drop(2)), &[6, 1, 0, 5, 0], &[2, 3]),
        (Some(BapAsk::Drop(2)), &[6, 1, 0, 5, 1], &[2, 3]),
        (None, CALL, &[2, 3, 5]),
        (
            Some(BapAsk::Call),
            &[2, 1, 0, 13, 0, 2, 8, 1, 3, 1, 2, 3, 0x33],
            &[2, 3, 6, 8, 11],
        ),
        (None, CALLBACK, &[2, 3, 5, 10, 12, 15]),
    ];
    for (asked, packet, places) in cases {
        let nothing = behind(rt.alloc(), asked, &[])?;
        for at in places {
            for octet in [0, 1, 0xff] {
                let changed = with_octet(rt.alloc(), packet, *at, octet)?;
                let text = behind(rt.alloc(), asked, changed.as_slice())?;
                let discarded = text.as_str() == nothing.as_str();
                assert_eq!(rt; discarded, changed.as_slice() != packet, "{at} {octet}");
            }
        }
    }
    Ok(())
}
