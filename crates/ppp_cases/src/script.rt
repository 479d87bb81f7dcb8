//! Scripts and lines, each with what they are to give. Runs of scripts stand in `ppp_rows`.

use ppp_packet::Proto;
use ppp_script::{End, Event, LineWhy, ScriptFault, read_again, read_script};
use std::alloc::Global;
use std::process::Abort;
use std::test::Fail;

// A script, how many links are configured, and where and why it is refused.
static SCRIPTS: [(&str, u8, Option<(u32, LineWhy)>); 37] = [
    ("fly a 1", 1, Some((1, LineWhy::Event))),
    ("up a 2", 1, Some((1, LineWhy::Link))),
    ("up a 2 x", 1, Some((1, LineWhy::Link))),
    ("up a 1 x", 1, Some((1, LineWhy::Event))),
    ("open a 2 foo", 1, Some((1, LineWhy::Link))),
    ("open a 1 bap", 1, Some((1, LineWhy::Event))),
    ("timeout a 2 bap", 1, Some((1, LineWhy::Link))),
    ("timeout a 1 bap x", 1, Some((1, LineWhy::Event))),
    ("call a 2 x", 1, Some((1, LineWhy::Link))),
    ("callback c 2", 1, Some((1, LineWhy::Event))),
    ("drop a", 1, Some((1, LineWhy::Event))),
    ("drop a 1 2", 2, Some((1, LineWhy::Event))),
    ("status a 2 256", 1, Some((1, LineWhy::Link))),
    (
        "status a 1 255\nstatus b 1 256",
        1,
        Some((2, LineWhy::Event)),
    ),
    ("status a 1 00", 1, Some((1, LineWhy::Event))),
    ("status a 1", 1, Some((1, LineWhy::Event))),
    ("lose a 2 0", 1, Some((1, LineWhy::Link))),
    ("lose a 1 1024\nlose b 1 1025", 1, Some((2, LineWhy::Event))),
    ("settle 1000\nsettle 1001", 1, Some((2, LineWhy::Event))),
    ("settle 0", 1, Some((1, LineWhy::Event))),
    ("settle 01", 1, Some((1, LineWhy::Event))),
    ("settle +1", 1, Some((1, LineWhy::Event))),
    ("open c 2 lcp", 1, Some((1, LineWhy::Event))),
    ("up a 255", 16, Some((1, LineWhy::Link))),
    ("up a 255", 255, None),
    ("up a 256", 255, Some((1, LineWhy::Event))),
    ("settle 5\nup a 1", 0, Some((2, LineWhy::Link))),
    ("show\nreboot", 1, Some((2, LineWhy::Event))),
    ("reboot c", 1, Some((1, LineWhy::Event))),
    ("reboot a 1", 1, Some((1, LineWhy::Event))),
    ("reboot a\nreboot b\n", 0, None),
    ("up  a 1", 1, Some((1, LineWhy::Event))),
    ("show ", 1, Some((1, LineWhy::Event))),
    ("# note\n\nshow\r\nclose b 1 lcp\n", 1, None),
    ("# note\n\r\nfly", 1, Some((3, LineWhy::Event))),
    ("show\nshow\r", 1, Some((2, LineWhy::Event))),
    ("", 1, None),
];

/// Where and why a script is refused, if it is.
fn refusal(alloc: Global, rt: &impl Abort, script: &[u8], links: u8) -> Option<(u32, LineWhy)> {
    assert!(rt; script.len() < 100);
    match read_script::<Event>(alloc, script, links) {
        Ok(_) => None,
        Err(ScriptFault::Refused { line, why }) => Some((line, why)),
        Err(ScriptFault::Memory) => Some((0, LineWhy::Steps)),
    }
}

#[test]
fn refuses_the_first_line_out_of_form(rt: HostRuntime) {
    for (script, links, refused) in &SCRIPTS {
        let found = refusal(rt.alloc(), &rt, script.as_bytes(), *links);
        assert!(rt; found == *refused, "at {script:?}");
    }
}

#[test]
fn reads_and_writes_each_form(rt: HostRuntime) -> Result<(), Fail> {
    let rows = [
        ("up a 1", Event::Up(End::A, 1)),
        ("open a 1 ipv6", Event::AdminOpen(End::A, 1, Proto::Ipv6)),
        ("deliver b 1", Event::Deliver(End::B, 1)),
        ("timeout a 1 lcp", Event::Timeout(End::A, 1, Proto::Lcp)),
        ("timeout b 2 bap", Event::BapTimeout(End::B, 2)),
        ("lose b 1 1024", Event::Lose(End::B, 1, 1024)),
        ("close a 10 osi", Event::AdminClose(End::A, 10, Proto::Osi)),
        ("settle 20", Event::Settle(20)),
        ("reboot a", Event::Reboot(End::A)),
        ("reboot b", Event::Reboot(End::B)),
        ("down b 255", Event::Down(End::B, 255)),
        ("call a 1", Event::Call(End::A, 1)),
        ("callback b 16", Event::Callback(End::B, 16)),
        ("drop a 2", Event::Drop(End::A, 2)),
        ("status a 1 0", Event::Status(End::A, 1, 0)),
        ("status b 2 255", Event::Status(End::B, 2, 255)),
        ("show", Event::Show),
    ];
    for (line, event) in rows.iter() {
        assert!(rt; event.to_string(rt.alloc())?.as_str() == *line);
        assert!(rt; line.len() < 100);
        let script = read_script::<Event>(rt.alloc(), line.as_bytes(), 255);
        let script = script.expect(&rt, "a script");
        assert!(rt; script.count() == 1, "one line");
        assert!(rt; script.at(0) == event, "at {line}");
    }
    assert!(rt; LineWhy::Link.to_string(rt.alloc())?.as_str() == "Link");
    read_again();
    Ok(())
}
