//! The keys of one end: the table that it is read by.

ghost use Rattle.std.specs.Prelude.{◌≡◌, ◌≤◌, IfOk, IfErr};
ghost use Rattle.ppp_conf.specs.EndConfig.{end_of, IsEnd};
ghost use Rattle.ppp_conf.specs.Keys.{keys_seen};
ghost use Rattle.ppp_conf.specs.Refusal.{HasRead, Reads, IsRefusal};

use crate::conf_fault::ConfFault;
use crate::conf_why::ConfWhy;
use crate::end_config::EndConfig;
use crate::keys::Keys;
use crate::rules::broken_rule;

/// Reads the keys of an end with this number of links, in table order: each with its form, its range and its default.
/// A refusal of a rule is held back, since the keys of both ends come before it.
pub(crate) fn read_end(
    keys: &Keys<'_>,
    links: u8,
) -> Result<Result<EndConfig, ConfFault>, ConfFault>
    requires least { 1 ≤ links }
    requires most { links ≤ 16 }
    ensures ok { IfOk result (HasRead (Reads IsEnd) (end_of links (keys_seen keys.now))) }
    ensures err { IfErr result (IsRefusal (end_of links (keys_seen keys.now))) }
    ensures links { IfOk result (λ read. IfOk read (λ config. config.links ≡ links)) }
{
    let mru = keys.small("mru", 128, 8192, 1500)?;
    let accm = keys.large("accm", 0, 4294967295, 4294967295)?;
    let magic = keys.truth("magic", true)?;
    let pfc = keys.truth("pfc", false)?;
    let acfc = keys.truth("acfc", false)?;
    let mrru = keys.zero_or("mrru", 1500, 8192)?;
    let short = keys.truth("short", false)?;
    let classes = keys.octet("classes", 0, 16, 0)?;
    let disc = keys.discriminator("disc")?;
    let link_disc = keys.small_there("link_disc", 0, 65520)?;
    let favored = keys.large_there("favored", 1, 4294967295)?;
    let bap = keys.truth("bap", false)?;
    let protocols = keys.protocols("protocols")?;
    let ip = keys.address("ip")?;
    let give = keys.given_address("give")?;
    let ifid = keys.identifier("ifid")?;
    let align = keys.alignment("align")?;
    let fragment = keys.small("fragment", 64, 8192, 1400)?;
    let most = keys.octet("most", 1, 16, 16)?;
    let least = keys.octet("least", 1, 16, 1)?;
    let calls = keys.truth("calls", true)?;
    let callbacks = keys.truth("callbacks", true)?;
    let speed = keys.small("speed", 0, 65535, 64)?;
    let max_speed = keys.small("max_speed", 0, 65535, 65535)?;
    let socket = keys.socket("socket", "ppp")?;
    let listen = keys.truth("listen", false)?;
    match broken_rule(short, classes, most, least, bap, mrru, favored, link_disc) {
        Some(name) => Ok(Err(keys.refused(name, ConfWhy::Rule))),
        None => Ok(Ok(EndConfig {
            links,
            mru,
            accm,
            magic,
            pfc,
            acfc,
            mrru,
            short,
            classes,
            disc,
            link_disc,
            favored,
            bap,
            protocols,
            ip,
            give,
            ifid,
            align,
            fragment,
            most,
            least,
            calls,
            callbacks,
            speed,
            max_speed,
            socket,
            listen,
        })),
    }
}
