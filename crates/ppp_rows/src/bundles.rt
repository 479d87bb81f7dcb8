//! Runs of ends whose links are bundled.

use crate::rows::{REPLAY, repeating, run_over};
use ppp_cli::Status;

/// Two ends that speak multilink and BACP on two links.
const SETTINGS: &str = "version = 1\nlinks = 2\n\
    [a]\nmrru = 1500\ndisc = \"1:61\"\nlink_disc = 10\nfavored = 1\nbap = true\n\
    [b]\nmrru = 1500\ndisc = \"1:62\"\nlink_disc = 20\nfavored = 2\nbap = true\n\
    ---\n";

/// Both links join the bundle, and then its control link leaves.
const LINES: &str =
    "up a 1\nup b 1\nup a 2\nup b 2\nopen a 1 lcp\nopen b 1 lcp\nopen a 2 lcp\nopen b 2 lcp\nsettle 20\n\
    show\nclose a 1 lcp\nsettle 20\nshow\n";

#[test]
fn control_protocols_go_to_the_next_control_link(rt: HostRuntime) {
    let output = "show 29\n\
        1 lcp Opened Opened 05060000000a110405dc130401611704000a 05060000000d110405dc1304016217040014 \
        05060000000d110405dc1304016217040014 05060000000a110405dc130401611704000a agree yes\n\
        1 bacp Opened Opened 010600000001 010600000002 010600000002 010600000001 agree yes\n\
        2 lcp Opened Opened 05060000000e110405dc130401611704000b 050600000011110405dc1304016217040015 \
        050600000011110405dc1304016217040015 05060000000e110405dc130401611704000b agree yes\n\
        2 bacp Starting Starting - - - - agree -\n\
        a bundle 0162 links 1,2 control 1 marked - waiting -\n\
        b bundle 0161 links 1,2 control 1 marked - waiting -\n\
        show 51\n\
        1 lcp Closed Stopping - - - - agree -\n\
        1 bacp Starting Starting - - - - agree -\n\
        2 lcp Opened Opened 05060000000e110405dc130401611704000b 050600000011110405dc1304016217040015 \
        050600000011110405dc1304016217040015 05060000000e110405dc130401611704000b agree yes\n\
        2 bacp Opened Opened 010600000001 010600000002 010600000002 010600000001 agree yes\n\
        a bundle 0162 links 2 control 2 marked - waiting -\n\
        b bundle 0161 links 2 control 2 marked - waiting -\n";
    let input = repeating(rt.alloc(), &rt, SETTINGS, "", 0, LINES);
    let (answered, written) = run_over(rt.alloc(), &rt, REPLAY, input.as_bytes());
    assert_eq!(rt; answered, Status::Ok);
    assert_eq!(rt; written.as_slice(), output.as_bytes());
}
