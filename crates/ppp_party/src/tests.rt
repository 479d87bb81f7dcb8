//! Frames that go out, as they stand in a queue.

use crate::desk::post_frame;
use crate::ledgers::Ledgers;
use crate::queue::Queue;
use crate::reader::make_reader;
use ppp_packet::Proto;
use std::test::Fail;

/// A Configure-Request of LCP with Identifier 1 and no option, in a frame (RFC 1661 section 5.1, RFC 1662 section 3.1).
const REQUEST: &[u8] = &[
    0x7e, 0xff, 0x7d, 0x23, 0xc0, 0x21, 0x7d, 0x21, 0x7d, 0x21, 0x7d, 0x20, 0x7d, 0x24, 0xd1, 0xb5,
    0x7e,
];

/// The Configure-Ack of it (RFC 1661 section 5.2).
const ACK: &[u8] = &[
    0x7e, 0xff, 0x7d, 0x23, 0xc0, 0x21, 0x7d, 0x22, 0x7d, 0x21, 0x7d, 0x20, 0x7d, 0x24, 0x7d, 0x3c,
    0x90, 0x7e,
];

/// The first request has the ordinal 1, and an answer to a frame of the mark 7 has that mark. Of IPCP there is none.
#[test]
fn marks_what_goes_out(rt: HostRuntime) -> Result<(), Fail> {
    let mut reader = make_reader(rt.alloc())?;
    let mut ledgers = Ledgers::new(rt.alloc());
    let mut queue = Queue::new(rt.alloc());
    post_frame(REQUEST, &mut reader, 7, &mut ledgers, &mut queue)?;
    post_frame(ACK, &mut reader, 7, &mut ledgers, &mut queue)?;
    assert_eq!(rt; ledgers.sent(Proto::Lcp), 1);
    assert_eq!(rt; ledgers.sent(Proto::Ip), 0);
    assert_eq!(rt; queue.oldest_request(Proto::Lcp, 9), 1);
    assert_eq!(rt; queue.oldest_answer(Proto::Lcp, 9), 7);
    assert_eq!(rt; queue.oldest_request(Proto::Ip, 9), 9);
    Ok(())
}

/// A queue holds 1,024 frames, and what is sent then is lost.
#[test]
fn loses_what_finds_no_room(rt: HostRuntime) -> Result<(), Fail> {
    let mut reader = make_reader(rt.alloc())?;
    let mut ledgers = Ledgers::new(rt.alloc());
    let mut queue = Queue::new(rt.alloc());
    'posts: for _ in 0..1030_usize {
        post_frame(REQUEST, &mut reader, 0, &mut ledgers, &mut queue)?;
    }
    let mut waiting = 0_usize;
    'pops: for _ in 0..1030_usize {
        if queue.pop().is_some() {
            waiting += 1;
        }
    }
    assert_eq!(rt; waiting, 1024);
    assert!(rt; queue.is_empty());
    Ok(())
}
