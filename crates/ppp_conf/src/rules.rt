//! The rules that an end's settings keep beside the ranges of single keys.

ghost use Rattle.std.specs.Prelude.{◌≡◌, option_map};
ghost use Rattle.ppp_conf.specs.Rules.{broken, lacks};

/// The key of the first rule that these values of an end break.
pub(crate) fn broken_rule(
    short: bool,
    classes: u8,
    most: u8,
    least: u8,
    bap: bool,
    mrru: u16,
    favored: Option<u32>,
    link_disc: Option<u16>,
) -> Option<&'static str>
    ensures { option_map (λ name. name.now) result
        ≡ broken short classes most least bap mrru favored link_disc }
{
    if short && classes > 4 {
        return Some("classes");
    }
    if least > most {
        return Some("least");
    }
    if bap && lacks(mrru, favored, link_disc) {
        return Some("bap");
    }
    None
}

/// Whether one of the values that BAP wants isn't there.
fn lacks(mrru: u16, favored: Option<u32>, link_disc: Option<u16>) -> bool
    ensures { result ≡ lacks mrru favored link_disc }
{
    mrru == 0 || favored.is_none() || link_disc.is_none()
}
