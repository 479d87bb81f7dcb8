//! Lines of a feed, each with what it is to give.

use ppp_script::{FeedEvent, LineWhy, MOST_OCTETS, ScriptFault, read_feed};
use std::alloc::{AllocError, Global};
use std::process::Abort;
use std::test::Fail;

// A feed, how many links are configured, and its last line as it prints, or where and why it is refused.
static FEEDS: [(&str, u8, Result<&str, (u32, LineWhy)>); 32] = [
    ("up 1", 1, Ok("up 1")),
    ("down 255\r\n", 255, Ok("down 255")),
    ("open 1 ip", 1, Ok("open 1 ip")),
    ("close 16 mpls", 16, Ok("close 16 mpls")),
    ("timeout 1 bacp", 1, Ok("timeout 1 bacp")),
    ("timeout 1 bap", 1, Ok("timeout 1 bap")),
    ("# note\n\nbytes 1 7EfF7d", 1, Ok("bytes 1 7eff7d")),
    ("bytes 1 00", 1, Ok("bytes 1 00")),
    ("up a 1", 1, Err((1, LineWhy::Event))),
    ("up 2", 1, Err((1, LineWhy::Link))),
    ("up 2 x", 1, Err((1, LineWhy::Link))),
    ("up 1 x", 1, Err((1, LineWhy::Event))),
    ("up 256", 255, Err((1, LineWhy::Event))),
    ("up 01", 1, Err((1, LineWhy::Event))),
    ("open 2 foo", 1, Err((1, LineWhy::Link))),
    ("open 1 foo", 1, Err((1, LineWhy::Event))),
    ("open 1 bap", 1, Err((1, LineWhy::Event))),
    ("open 1 Lcp", 1, Err((1, LineWhy::Event))),
    ("timeout 1", 1, Err((1, LineWhy::Event))),
    ("timeout 2 bap", 1, Err((1, LineWhy::Link))),
    ("timeout 1 bap x", 1, Err((1, LineWhy::Event))),
    ("timeout 1 lcp x", 1, Err((1, LineWhy::Event))),
    ("up 1\nbytes 2 7", 1, Err((2, LineWhy::Link))),
    ("bytes 1", 1, Err((1, LineWhy::Event))),
    ("bytes 1 ", 1, Err((1, LineWhy::Event))),
    ("bytes 1 7e7", 1, Err((1, LineWhy::Event))),
    ("bytes 1 7g", 1, Err((1, LineWhy::Event))),
    ("bytes 1 7e 7e", 1, Err((1, LineWhy::Event))),
    ("bytes 0 7e", 1, Err((1, LineWhy::Event))),
    ("deliver 1", 1, Err((1, LineWhy::Event))),
    ("drop 1", 1, Err((1, LineWhy::Event))),
    ("show", 1, Err((1, LineWhy::Event))),
];

/// The last line of a feed as it prints, or where and why the feed is refused.
fn last_line(
    alloc: Global,
    rt: &impl Abort,
    feed: &str,
    links: u8,
) -> Result<String, (u32, LineWhy)> {
    assert!(rt; feed.len() < 200_000);
    match read_feed(alloc, feed.as_bytes(), links) {
        Ok(script) => {
            assert!(rt; script.count() > 0, "a line");
            let text = script.at(script.count() - 1).to_string(alloc);
            Ok(text.expect(rt, "a text"))
        }
        Err(ScriptFault::Refused { line, why }) => Err((line, why)),
        Err(ScriptFault::Memory) => Err((0, LineWhy::Steps)),
    }
}

#[test]
fn reads_the_lines_of_a_feed_or_refuses_the_first(rt: HostRuntime) {
    for (feed, links, wanted) in &FEEDS {
        match (last_line(rt.alloc(), &rt, feed, *links), wanted) {
            (Ok(line), Ok(text)) => assert!(rt; line.as_str() == *text, "at {feed:?}"),
            (Err(refused), Err(wanted)) => assert!(rt; refused == *wanted, "at {feed:?}"),
            _ => panic!(rt; "at {feed:?}"),
        }
    }
}

/// A line of that many octets.
fn line_of(alloc: Global, count: usize) -> Result<String, AllocError> {
    let mut line = String::from_str(alloc, "bytes 1 ")?;
    for _ in 0..count {
        line.push_str("5a")?;
    }
    Ok(line)
}

#[test]
fn takes_as_many_octets_as_a_line_may_have(rt: HostRuntime) -> Result<(), Fail> {
    let most = line_of(rt.alloc(), MOST_OCTETS)?;
    assert!(rt; last_line(rt.alloc(), &rt, most.as_str(), 1).is_ok());
    let script = read_feed(rt.alloc(), b"bytes 1 7e7d", 1).expect(&rt, "a script");
    assert!(rt; script.count() == 1, "one line");
    match script.at(0) {
        FeedEvent::Bytes(1, octets) => assert!(rt; octets.octets() == [0x7e, 0x7d].as_slice()),
        _ => panic!(rt; "octets"),
    }
    let more = line_of(rt.alloc(), MOST_OCTETS + 1)?;
    let refused = last_line(rt.alloc(), &rt, more.as_str(), 1);
    assert!(rt; matches!(refused, Err((1, LineWhy::Event))));
    Ok(())
}
