//! Sets of network protocols, in the order `ip`, `ipv6`, `osi`, `mpls`.

ghost use Rattle.std.specs.Prelude.{◌≡◌, ◌<◌, IfSome, option_copied};
ghost use Rattle.toml.specs.View.{items_view};
ghost use Rattle.ppp_conf.specs.Protocols.{with_name, with_names, place_of, no_protocols};

use toml::Value;

/// The set of the protocols that these values name, each once.
pub(crate) fn read_names(values: &Vec<Value>) -> Option<[bool; 4]>
    ensures { result ≡ with_names no_protocols (items_view values.now.items) }
{
    let mut protocols = [false; 4];
    for value in values {
        protocols = with_name(protocols, value.as_str())?;
    }
    Some(protocols)
}

/// The set with the protocol of this name too.
fn with_name(mut protocols: [bool; 4], name: Option<&str>) -> Option<[bool; 4]>
    ensures { result ≡ with_name protocols (option_copied name.entry) }
{
    let place = place(name?)?;
    if protocols[place] {
        return None;
    }
    protocols[place] = true;
    Some(protocols)
}

/// The place of a protocol's name.
fn place(name: &str) -> Option<usize>
    ensures value { result ≡ place_of name.now }
    ensures within { IfSome result (λ place. place < 4) }
{
    if name == "ip" {
        Some(0)
    } else if name == "ipv6" {
        Some(1)
    } else if name == "osi" {
        Some(2)
    } else if name == "mpls" {
        Some(3)
    } else {
        None
    }
}
