//! Settings as texts: what they are refused for, and how they are printed.

use crate::{ConfFault, ConfWhy, print_config, read_config};
use std::alloc::Global;
use std::process::Abort;
use std::test::Fail;

/// What a text is refused with, or `read`.
fn answer(alloc: Global, text: &str) -> Result<String, Fail> {
    match read_config(alloc, text.as_bytes()) {
        Ok(_) => Ok(String::from_str(alloc, "read")?),
        Err(fault) => Ok(fault.to_string(alloc)?),
    }
}

/// Looks at texts, each with what it is refused with.
fn check(alloc: Global, rt: &impl Abort, front: &str, rows: &[(&str, &str)]) -> Result<(), Fail> {
    for (row, wanted) in rows {
        let text = format!(in alloc; "{front}{row}")?;
        let said = answer(alloc, text.as_str())?;
        assert!(rt; said.as_str() == *wanted, "{row:?}: {said}");
    }
    Ok(())
}

#[test]
fn refuses_in_order(rt: HostRuntime) -> Result<(), Fail> {
    let rows = [
        ("version =", "config - Toml"),
        ("version = 3\nversion = 1", "config - Toml"),
        ("foo = 1", "config version Missing"),
        ("version = 1.0\nfoo = 1", "config version Wrong"),
        ("version = 3\nfoo = 1", "config version Range"),
        (
            "version = 1\nlinks = 0\na.zz = 1\nb.aa = 1",
            "config a.zz Unknown",
        ),
        (
            "version = 1\n\"a.b\" = 1\na.foo = 1\nb.aa = 1",
            "config a.b Unknown",
        ),
        (
            "version = 1\na.pfc = true\na.acfc = true",
            "config a.acfc Unknown",
        ),
        (
            "version = 1\nb = 1\na.mru = 1\nlinks = 17",
            "config links Range",
        ),
        ("version = 1\na = 1\nb.mru = 1", "config a Wrong"),
        (
            "version = 1\na.most = 0\na.accm = -1\nb = 1",
            "config a.accm Range",
        ),
        (
            "version = 1\nb.listen = 1\na.least = 17",
            "config a.least Range",
        ),
    ];
    check(rt.alloc(), &rt, "", &rows)
}

#[test]
fn refuses_by_rules(rt: HostRuntime) -> Result<(), Fail> {
    let rows = [
        ("a.least = 2\na.most = 1\nb.mru = 1", "config b.mru Range"),
        ("a.bap = true\nb.least = 2\nb.most = 1", "config a.bap Rule"),
        (
            "a.short = true\na.classes = 5\na.least = 17",
            "config a.least Range",
        ),
        (
            "a.short = true\na.classes = 5\na.least = 16\na.most = 15",
            "config a.classes Rule",
        ),
        (
            "a.bap = true\na.least = 16\na.most = 15",
            "config a.least Rule",
        ),
        (
            "b.bap = true\nb.favored = 1\nb.link_disc = 0",
            "config b.bap Rule",
        ),
        (
            "b.bap = true\nb.mrru = 1500\nb.link_disc = 0",
            "config b.bap Rule",
        ),
        (
            "b.bap = true\nb.mrru = 1500\nb.favored = 1",
            "config b.bap Rule",
        ),
        (
            "b.bap = true\nb.mrru = 1500\nb.favored = 1\nb.link_disc = 0",
            "read",
        ),
        ("a.short = true\na.classes = 4", "read"),
    ];
    check(rt.alloc(), &rt, "version = 1\n", &rows)
}

#[test]
fn refuses_numbers_out_of_range(rt: HostRuntime) -> Result<(), Fail> {
    let rows = [
        ("mru = 127", "config a.mru Range"),
        ("accm = 4294967296", "config a.accm Range"),
        ("mrru = 1499", "config a.mrru Range"),
        ("link_disc = 65521", "config a.link_disc Range"),
        ("favored = 0", "config a.favored Range"),
        ("align = 5", "config a.align Range"),
        ("fragment = 8193", "config a.fragment Range"),
        ("most = 17", "config a.most Range"),
        ("speed = 65536", "config a.speed Range"),
        ("max_speed = -1", "config a.max_speed Range"),
        ("classes = 17", "config a.classes Range"),
        ("mru = 9223372036854775808", "config - Toml"),
    ];
    check(rt.alloc(), &rt, "version = 2\n[a]\n", &rows)
}

#[test]
fn refuses_values_of_another_kind(rt: HostRuntime) -> Result<(), Fail> {
    let rows = [
        ("mru = true", "config b.mru Wrong"),
        ("magic = 1", "config b.magic Wrong"),
        ("pfc = 'x'", "config b.pfc Wrong"),
        ("acfc = 1", "config b.acfc Wrong"),
        ("disc = 0", "config b.disc Wrong"),
        ("favored = '1'", "config b.favored Wrong"),
        ("protocols = 'ip'", "config b.protocols Wrong"),
        ("ip.x = 1", "config b.ip Wrong"),
        ("give = 1", "config b.give Wrong"),
        ("ifid = 0", "config b.ifid Wrong"),
        ("align = 1.0", "config b.align Wrong"),
        ("socket = []", "config b.socket Wrong"),
    ];
    check(rt.alloc(), &rt, "version = 2\n[b]\n", &rows)
}

#[test]
fn refuses_texts_out_of_form(rt: HostRuntime) -> Result<(), Fail> {
    let rows = [
        ("disc = '6:01'", "config a.disc Form"),
        ("disc = '1:'", "config a.disc Form"),
        ("disc = '2:0a0b0c'", "config a.disc Form"),
        ("disc = '1:0A'", "config a.disc Form"),
        ("protocols = [1]", "config a.protocols Form"),
        ("protocols = ['ip', 'ip']", "config a.protocols Form"),
        ("ip = '01.2.3.4'", "config a.ip Form"),
        ("ip = '1.2.3.256'", "config a.ip Form"),
        ("give = '0.0.0.0'", "config a.give Form"),
        ("ifid = '000000000000000A'", "config a.ifid Form"),
        ("socket = ''", "config a.socket Form"),
        ("socket = 'A'", "config a.socket Form"),
    ];
    check(rt.alloc(), &rt, "version = 2\n[a]\n", &rows)
}

/// Settings that are read, printed, and read again as the same.
fn printed(alloc: Global, rt: &impl Abort, text: &str) -> Result<String, Fail> {
    let config = read_config(alloc, text.as_bytes())?;
    let printed = print_config(alloc, &config)?;
    let again = read_config(alloc, printed.as_bytes())?;
    let same = format!(in alloc; "{config:?}")? == format!(in alloc; "{again:?}")?;
    assert!(rt; same, "{printed}");
    Ok(printed)
}

/// What is printed of an end with all defaults, but for the two keys of short headers.
fn defaults(alloc: Global, short_headers: bool) -> Result<String, Fail> {
    Ok(format!(in alloc;
        "accm = 4294967295
acfc = {short_headers}
align = 0
bap = false
callbacks = true
calls = true
classes = 0
disc = \"0:\"
fragment = 1400
ifid = \"0000000000000000\"
ip = \"0.0.0.0\"
least = 1
listen = false
magic = true
max_speed = 65535
most = 16
mrru = 0
mru = 1500
pfc = {short_headers}
protocols = []
short = false
socket = \"ppp\"
speed = 64
"
    )?)
}

/// An end with no default, in the order in which it is printed.
const WHOLE: &str = "links = 16
version = 2

[a]
accm = 0
acfc = true
align = 255
bap = true
callbacks = false
calls = false
classes = 4
disc = \"3:00005e0053ff\"
favored = 4294967295
fragment = 64
give = \"10.0.0.255\"
ifid = \"none\"
ip = \"192.0.2.1\"
least = 2
link_disc = 65520
listen = true
magic = false
max_speed = 0
most = 3
mrru = 8192
mru = 128
pfc = true
protocols = [\"ip\", \"osi\", \"mpls\"]
short = true
socket = \"a.b_9\"
speed = 65535

[b]
";

#[test]
fn prints_what_reads_as_the_same(rt: HostRuntime) -> Result<(), Fail> {
    let alloc = rt.alloc();
    let plain = defaults(alloc, false)?;
    let short = defaults(alloc, true)?;
    let one = printed(alloc, &rt, "version = 1")?;
    let wanted = format!(in alloc; "links = 1\nversion = 2\n\n[a]\n{plain}\n[b]\n{plain}")?;
    assert_eq!(rt; one.as_str(), wanted.as_str());
    let two = printed(alloc, &rt, "version = 2\n[a]\npfc = true\nacfc = true\n")?;
    let wanted = format!(in alloc; "links = 1\nversion = 2\n\n[a]\n{short}\n[b]\n{plain}")?;
    assert_eq!(rt; two.as_str(), wanted.as_str());
    let whole = printed(alloc, &rt, WHOLE)?;
    let wanted = format!(in alloc; "{WHOLE}{plain}")?;
    assert_eq!(rt; whole.as_str(), wanted.as_str());
    Ok(())
}

#[test]
fn lends_texts(rt: HostRuntime) -> Result<(), Fail> {
    let config = read_config(rt.alloc(), b"version = 1\n[b]\nsocket = 'x.1'")?;
    assert_eq!(rt; config.b.socket.text(), "x.1");
    assert_eq!(rt; config.a.socket.to_string(rt.alloc())?.as_str(), "ppp");
    if let Err(fault) = read_config(rt.alloc(), b"version = 1\n[b]\nmost = 0") {
        shows(&rt, &fault, "b.most", ConfWhy::Range);
    }
    Ok(())
}

/// Looks at a refusal's key and cause.
fn shows(rt: &impl Abort, fault: &ConfFault, path: &str, cause: ConfWhy) {
    match fault {
        ConfFault::Refused { key, why } => {
            assert!(rt; key.text() == path && *why == cause, "{fault}");
        }
        ConfFault::Memory => assert!(rt; false, "{fault}"),
    }
}
