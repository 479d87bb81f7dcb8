//! Texts of hex lines, and what they show.

use crate::{ShowFault, show_stream};

#[test]
fn shows_what_was_worked_out(rt: HostRuntime) {
    // a text of hex lines, and what it shows or the refusal
    let rows: [(&str, Result<&str, ShowFault>); 17] = [
        ("", Ok("")),
        // a frame whose last octet of information is an escaped flag
        (
            "7eff7d23c0217d2b7d217d207d297d207d207d207d207d5ed97f7e",
            Ok("frame c021 0b010009000000007e Discard-Request id 1 data 000000007e\n"),
        ),
        // the same, cut in an escape, with digits of both cases, an empty line, and a flag behind it
        (
            "7eff7d23c0217d2b7d217d207d297d207d207D207d207d\r\n\n5eD97F7E7e\n",
            Ok("frame c021 0b010009000000007e Discard-Request id 1 data 000000007e\n"),
        ),
        // discards, what is a frame by its short header, and a frame with an unknown code
        (
            "7eff7d7e\nff7d23c0217d2c7d277d207d2487e97e\n0102037e\n3132333435363738396e907e\n\
             ff7d23c0217d2c7d277d207d2487e87e\n",
            Ok(
                "discard Aborted\ndiscard BadFcs\ndiscard Short\nframe 0031 3233343536373839\n\
                frame c021 0c070004 Code-12 id 7\n",
            ),
        ),
        ("7eff03c05bec7e", Ok("discard BadHeader\n")),
        // a short header
        ("7e214500f5a77e", Ok("frame 0021 4500\n")),
        // no information
        ("7eff030021e3e67e", Ok("frame 0021 empty\n")),
        // options, one without a body, and octets that are none
        (
            "7eff03c0210201000c170449257d310405ddbba97e",
            Ok("frame c021 0201000c17044925110405dd Configure-Ack id 1 23=4925 17=05dd\n"),
        ),
        (
            "7eff03c02101010006070220707e",
            Ok("frame c021 010100060702 Configure-Request id 1 7=\n"),
        ),
        (
            "7eff03c021010a000507bb9a7e",
            Ok("frame c021 010a000507 Configure-Request id 10\n"),
        ),
        // a code that is LCP's alone
        (
            "7eff0382810801000c80212eebce6f88d3eef17e",
            Ok("frame 8281 0801000c80212eebce6f88d3 Code-8 id 1 data 80212eebce6f88d3\n"),
        ),
        // a packet without data, and one that is cut
        (
            "7eff03c02105090004ff017e",
            Ok("frame c021 05090004 Terminate-Request id 9\n"),
        ),
        ("7eff03c0210102000805 09ec7e", Err(ShowFault::Line(1))),
        ("7eff03c021010200080509ec7e", Ok("frame c021 0102000805\n")),
        // lines that aren't pairs of hex digits, the first of which counts
        ("7e\n\n7e7\nxy\n", Err(ShowFault::Line(3))),
        ("7e214500f5a77e\nxy", Err(ShowFault::Line(2))),
        // a last line without LF keeps its CR
        ("7e\r\n7e\r", Err(ShowFault::Line(2))),
    ];
    for (text, shown) in rows {
        match (show_stream(rt.alloc(), text.as_bytes()), shown) {
            (Ok(octets), Ok(wanted)) => {
                assert_eq!(rt; octets.as_slice(), wanted.as_bytes(), "at {text:?}");
            }
            (Err(fault), Err(wanted)) => assert_eq!(rt; fault, wanted, "at {text:?}"),
            _ => panic!(rt; "at {text:?}"),
        }
    }
}
