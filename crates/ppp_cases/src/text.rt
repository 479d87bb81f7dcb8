//! Texts, each with what is to be read from it. Lines, fields and numbers out of their form stand in the cases of scripts.

use ppp_text::{Fields, number, part_input, read_again, split_line, split_once};

// An input, its settings and its script.
static INPUTS: [(&str, &str, &str); 7] = [
    ("version = 1\n---\nshow\n", "version = 1\n", "show\n"),
    ("a\r\n---\r\nb\n---\nc", "a\r\n", "b\n---\nc"),
    ("---", "", ""),
    ("a\n---", "a\n", ""),
    ("a\n---\r", "a\n---\r", ""),
    ("a---\n ---\n----\n", "a---\n ---\n----\n", ""),
    ("", "", ""),
];

#[test]
fn parts_at_the_first_line_of_three_dashes(rt: HostRuntime) {
    for (text, settings, script) in &INPUTS {
        let parts = part_input(text.as_bytes());
        assert!(rt; parts.settings == settings.as_bytes(), "at {text:?}");
        assert!(rt; parts.script == script.as_bytes(), "at {text:?}");
    }
}

#[test]
fn reads_the_fields_of_a_line(rt: HostRuntime) {
    let (line, behind) = split_line(b"up  12\r\ndown");
    assert!(rt; behind == b"down".as_slice());
    assert!(rt; split_once(line, b'=').is_none());
    let fields = Fields::of(line);
    let (_, fields) = fields.next().expect(&rt, "up");
    let (empty, fields) = fields.next().expect(&rt, "no octets");
    assert!(rt; empty.is_empty());
    let (field, fields) = fields.next().expect(&rt, "12");
    assert_eq!(rt; number(field, 1, 1000), Some(12));
    assert!(rt; fields.is_done());
    read_again();
}
