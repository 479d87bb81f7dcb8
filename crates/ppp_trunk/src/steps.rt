//! What a trunk does for the entries of a link's step, one after the other (RFC 1661 section 3).

ghost use Rattle.std.specs.Prelude.{◌≡◌, ◌+◌, ◌*◌, ◌-◌, ◌<◌, ◌≤◌, ◌∷◌, [], false, ◌||◌, ◌++◌, length, ℕ, option_map, Some, None, slice_get, replicate};
ghost use Rattle.std.specs.Option.{unwrap_or, IfSome};
ghost use Rattle.ppp_auto.specs.declared.outbox.TheConstants.{MOST_OCTETS as MOST_PACKET};
ghost use Rattle.ppp_bundle.specs.BundleTable.{IsLinkOf};
ghost use Rattle.ppp_bundle.specs.Bundles.{Bundles, bundle_at, control_of};
ghost use Rattle.ppp_bundle.specs.JoinKey.{key_seen, terms_seen};
ghost use Rattle.ppp_bundle.specs.declared.limits.TheConstants.{MOST_BUNDLES};
ghost use Rattle.ppp_link.specs.Automata.{auto_at};
ghost use Rattle.ppp_link.specs.LinkOut.{entry_seen as told_seen, IsShort, LcpUp};
ghost use Rattle.ppp_link.specs.declared.link.TheConstants.{MOST_AFTER_FRAME, MOST_AFTER_RUN};
ghost use Rattle.ppp_trunk.specs.Control.{goes, key_in, moves, terms_in};
ghost use Rattle.ppp_trunk.specs.Trunk.{limits_of, IsOfLink};
ghost use Rattle.ppp_trunk.specs.StationOut.{all_octets};
ghost use Rattle.ppp_trunk.specs.Steps.{all_plain, comes_up, control_for, follows, frame_on, is_opened_at, is_opened_for, is_taken, opener_of, plain, runs, runs_all, so_far, works, works_one, InTurn};
ghost use Rattle.ppp_link.specs.declared.link_out.TheConstants.{MOST_PUSH};
ghost use Rattle.ppp_trunk.specs.declared.station_out.TheConstants.{MOST_ENTRIES, MOST_OCTETS};
ghost use Rattle.ppp_trunk.specs.declared.steps.TheConstants.{BAP, MOST_CAUSED, MOST_MADE, MOST_MADE_OCTETS};

use crate::station_out::StationOut;
use ppp_auto::AutoState;
use ppp_bundle::{BundleTable, Join, JoinKey, MOST_BUNDLES};
use ppp_lcp::{LcpGrant, grant_of};
use ppp_link::{Link, LinkEntry, LinkOut, MOST_AFTER_FRAME, MOST_AFTER_RUN};
use ppp_packet::{OptList, Proto};

/// The most octets that one entry of a link causes: those of the frames that the control protocols of a link send together.
pub(crate) const MOST_CAUSED: usize = 60_280;

/// The most entries that a step makes.
pub const MOST_MADE: usize = MOST_AFTER_FRAME * MOST_AFTER_RUN;

/// The most octets of the entries of a step.
pub const MOST_MADE_OCTETS: usize = MOST_AFTER_FRAME * MOST_CAUSED;

/// The protocol of BAP's packets (RFC 2125).
pub const BAP: u16 = 0xc02d;

/// Works off the entries of a link's step, in order.
#[tactic(auto, unfolding(crate::specs::Steps::works))]
pub(crate) fn work(
    links: &mut Vec<Link>,
    bundles: &mut BundleTable,
    number: u8,
    word: u64,
    told: &LinkOut,
    nets: &mut LinkOut,
    out: &mut StationOut,
)
    requires number { IsOfLink (length links.old.items) number }
    requires limits { bundles.old.limits ≡ limits_of (length links.old.items) }
    requires turn { InTurn number bundles.old told.now }
    requires told { length told.now ≤ MOST_AFTER_FRAME }
    requires few { length out.old.entries + MOST_MADE ≤ MOST_ENTRIES }
    requires room { all_octets out.old.entries + MOST_MADE_OCTETS ≤ MOST_OCTETS }
    ensures done { so_far links.new.items bundles.new out.new.entries
        ≡ works number word told.now (so_far links.old.items bundles.old out.old.entries) }
    ensures used { out.new.used ≡ out.old.used }
    ensures few { length out.new.entries ≤ length out.old.entries + MOST_MADE }
    ensures octets { all_octets out.new.entries ≤ all_octets out.old.entries + MOST_MADE_OCTETS }
{
    for i in 0..told.count() {
        work_one(links, bundles, number, word, told.at(i), nets, out);
    }
}

/// Works off an entry of a link's step.
#[tactic(auto, unfolding(crate::specs::Steps::works_one))]
fn work_one(
    links: &mut Vec<Link>,
    bundles: &mut BundleTable,
    number: u8,
    word: u64,
    entry: LinkEntry<'_>,
    nets: &mut LinkOut,
    out: &mut StationOut,
)
    requires number { IsOfLink (length links.old.items) number }
    requires limits { bundles.old.limits ≡ limits_of (length links.old.items) }
    requires turn { told_seen entry ≡ LcpUp → bundle_at number bundles.old ≡ None }
    requires short { IsShort (told_seen entry) }
    requires few { length out.old.entries + MOST_AFTER_RUN ≤ MOST_ENTRIES }
    requires room { all_octets out.old.entries + MOST_CAUSED ≤ MOST_OCTETS }
    ensures done { so_far links.new.items bundles.new out.new.entries
        ≡ works_one number word (told_seen entry.entry) (so_far links.old.items bundles.old out.old.entries) }
    ensures links { length links.new.items ≡ length links.old.items }
    ensures limits { bundles.new.limits ≡ bundles.old.limits }
    ensures used { out.new.used ≡ out.old.used }
    ensures few { length out.new.entries ≤ length out.old.entries + MOST_AFTER_RUN }
    ensures octets { all_octets out.new.entries ≤ all_octets out.old.entries + MOST_CAUSED }
{
    match entry {
        LinkEntry::Push(octets) => out.push(number, octets),
        LinkEntry::LcpUp => come_up(links, bundles, number, word, nets, out),
        LinkEntry::LcpDown => go_down(links, bundles, number, word, nets, out),
        LinkEntry::Finished => out.hang(number),
        LinkEntry::NetUp(_) | LinkEntry::NetDown(_) => {}
        LinkEntry::Payload { protocol, octets } => {
            if is_taken(links.as_slice(), bundles, number, protocol) {
                out.hand_up(protocol, octets);
            }
        }
    }
}

/// LCP came to be Opened on a link: it joins a bundle, or it is single.
fn come_up(
    links: &mut Vec<Link>,
    bundles: &mut BundleTable,
    number: u8,
    word: u64,
    nets: &mut LinkOut,
    out: &mut StationOut,
)
    requires number { IsOfLink (length links.old.items) number }
    requires limits { bundles.old.limits ≡ limits_of (length links.old.items) }
    requires single { bundle_at number bundles.old ≡ None }
    requires few { length out.old.entries + MOST_AFTER_RUN ≤ MOST_ENTRIES }
    requires room { all_octets out.old.entries + MOST_CAUSED ≤ MOST_OCTETS }
    ensures done { so_far links.new.items bundles.new out.new.entries
        ≡ works_one number word LcpUp (so_far links.old.items bundles.old out.old.entries) }
    ensures links { length links.new.items ≡ length links.old.items }
    ensures limits { bundles.new.limits ≡ bundles.old.limits }
    ensures used { out.new.used ≡ out.old.used }
    ensures few { length out.new.entries ≤ length out.old.entries + MOST_AFTER_RUN }
    ensures octets { all_octets out.new.entries ≤ all_octets out.old.entries + MOST_CAUSED }
{
    let key = key_of(&links[usize::from(number) - 1]);
    let before = controls_of(bundles);
    match bundles.join(number, &key) {
        Join::First(bundle) | Join::Added(bundle) => {
            let old = before[usize::from(bundle)];
            move_control(links, old, bundles.control(bundle), word, nets, out);
        }
        Join::Single(_) => run(links, number, true, false, word, nets, out),
    }
}

/// LCP left Opened: control protocols go Down on the link, then it leaves its bundle, and the control link is chosen anew.
fn go_down(
    links: &mut Vec<Link>,
    bundles: &mut BundleTable,
    number: u8,
    word: u64,
    nets: &mut LinkOut,
    out: &mut StationOut,
)
    requires number { IsOfLink (length links.old.items) number }
    requires limits { bundles.old.limits ≡ limits_of (length links.old.items) }
    requires few { length out.old.entries + MOST_AFTER_RUN ≤ MOST_ENTRIES }
    requires room { all_octets out.old.entries + MOST_CAUSED ≤ MOST_OCTETS }
    ensures done { so_far links.new.items bundles.new out.new.entries
        ≡ follows word (goes number bundles.old) (so_far links.old.items bundles.old out.old.entries) }
    ensures links { length links.new.items ≡ length links.old.items }
    ensures limits { bundles.new.limits ≡ bundles.old.limits }
    ensures used { out.new.used ≡ out.old.used }
    ensures few { length out.new.entries ≤ length out.old.entries + MOST_AFTER_RUN }
    ensures octets { all_octets out.new.entries ≤ all_octets out.old.entries + MOST_CAUSED }
{
    let Some(bundle) = bundles.bundle_of(number) else {
        run(links, number, false, false, word, nets, out);
        return;
    };
    run(links, number, false, true, word, nets, out);
    let old = bundles.control(bundle);
    bundles.leave(number);
    move_control(links, old, bundles.control(bundle), word, nets, out);
}

/// The control link changes, or not: control protocols go Down on the old one before they go Up on the new one.
fn move_control(
    links: &mut Vec<Link>,
    old: Option<u8>,
    new: Option<u8>,
    word: u64,
    nets: &mut LinkOut,
    out: &mut StationOut,
)
    requires old { IfSome old (λ l. IsOfLink (length links.old.items) l) }
    requires new { IfSome new (λ l. IsOfLink (length links.old.items) l) }
    requires few { length out.old.entries + MOST_AFTER_RUN ≤ MOST_ENTRIES }
    requires room { all_octets out.old.entries + MOST_CAUSED ≤ MOST_OCTETS }
    ensures done { (b : Bundles) → so_far links.new.items b out.new.entries
        ≡ runs_all word (moves old new) (so_far links.old.items b out.old.entries) }
    ensures links { length links.new.items ≡ length links.old.items }
    ensures used { out.new.used ≡ out.old.used }
    ensures few { length out.new.entries ≤ length out.old.entries + MOST_AFTER_RUN }
    ensures octets { all_octets out.new.entries ≤ all_octets out.old.entries + MOST_CAUSED }
{
    if old == new {
        return;
    }
    if let Some(link) = old {
        run(links, link, false, true, word, nets, out);
    }
    if let Some(link) = new {
        run(links, link, true, true, word, nets, out);
    }
}

/// The control protocols above LCP go Up or Down on a link, and BACP with them where that is said. Down sends nothing.
fn run(
    links: &mut Vec<Link>,
    number: u8,
    on: bool,
    bacp: bool,
    word: u64,
    nets: &mut LinkOut,
    out: &mut StationOut,
)
    requires number { IsOfLink (length links.old.items) number }
    requires few { length out.old.entries + MOST_AFTER_RUN ≤ MOST_ENTRIES }
    requires room { all_octets out.old.entries + MOST_CAUSED ≤ MOST_OCTETS }
    ensures done { (b : Bundles) → so_far links.new.items b out.new.entries
        ≡ runs word (record { link = number; on = on; bacp = bacp }) (so_far links.old.items b out.old.entries) }
    ensures links { length links.new.items ≡ length links.old.items }
    ensures used { out.new.used ≡ out.old.used }
    ensures quiet { on ≡ false → out.new.entries ≡ out.old.entries }
    ensures few { length out.new.entries ≤ length out.old.entries + MOST_AFTER_RUN }
    ensures octets { all_octets out.new.entries ≤ all_octets out.old.entries + MOST_CAUSED }
{
    links[usize::from(number) - 1].run_ncps(on, bacp, word, nets);
    push_all(number, nets, out);
}

/// The frames among the entries go out on a link.
fn push_all(number: u8, told: &LinkOut, out: &mut StationOut)
    requires told { length told.now ≤ MOST_AFTER_RUN }
    requires few { length out.old.entries + MOST_AFTER_RUN ≤ MOST_ENTRIES }
    requires room { all_octets out.old.entries + MOST_CAUSED ≤ MOST_OCTETS }
    ensures entries { out.new.entries ≡ out.old.entries ++ all_plain number told.now }
    ensures used { out.new.used ≡ out.old.used }
    ensures few { length out.new.entries ≤ length out.old.entries + MOST_AFTER_RUN }
    ensures octets { all_octets out.new.entries ≤ all_octets out.old.entries + MOST_CAUSED }
{
    for i in 0..told.count() {
        push_one(number, told.at(i), out);
    }
}

/// A packet of a protocol that has no automaton goes out on a link.
pub(crate) fn send_on(
    link: &Link,
    number: u8,
    protocol: u16,
    packet: &[u8],
    told: &mut LinkOut,
    out: &mut StationOut,
)
    requires size { length packet.now ≤ MOST_PACKET }
    requires few { length out.old.entries < MOST_ENTRIES }
    requires room { all_octets out.old.entries + MOST_PUSH ≤ MOST_OCTETS }
    ensures out { out.new ≡ record out.old {
      entries = out.old.entries ++ frame_on (Some link.now) number protocol packet.now;
    } }
    ensures octets { all_octets out.new.entries ≤ all_octets out.old.entries + MOST_PUSH }
{
    link.send_packet(protocol, packet, told);
    push_one(number, told.at(0), out);
}

/// A frame goes out on a link, if the entry is one.
fn push_one(number: u8, entry: LinkEntry<'_>, out: &mut StationOut)
    requires short { IsShort (told_seen entry) }
    requires few { length out.old.entries < MOST_ENTRIES }
    requires room { all_octets out.old.entries + MOST_PUSH ≤ MOST_OCTETS }
    ensures entries { out.new.entries ≡ out.old.entries ++ plain number (told_seen entry.entry) }
    ensures used { out.new.used ≡ out.old.used }
    ensures few { length out.new.entries ≤ length out.old.entries + 1 }
    ensures octets { all_octets out.new.entries ≤ all_octets out.old.entries + MOST_PUSH }
{
    if let LinkEntry::Push(octets) = entry {
        out.push(number, octets);
    }
}

/// What LCP's two lists grant on a link; nothing where it has none.
fn key_of(link: &Link) -> JoinKey
    ensures { key_seen result ≡ key_in link.now.automata.lcp }
{
    JoinKey {
        mine: grant_in(link.mine(Proto::Lcp)),
        peer: grant_in(link.peer(Proto::Lcp)),
    }
}

/// What a list grants, if there is one.
fn grant_in(list: Option<&OptList>) -> LcpGrant
    ensures { terms_seen result ≡ terms_in (unwrap_or (option_map (λ list. list.now) list.entry) []) }
{
    match list {
        Some(list) => grant_of(list),
        None => grant_of(&OptList::new()),
    }
}

/// The control links of all bundles.
fn controls_of(bundles: &BundleTable) -> [Option<u8>; MOST_BUNDLES as usize]
    requires { bundles.now.limits.bundles ≡ MOST_BUNDLES }
    ensures value { (i : ℕ) → i < MOST_BUNDLES → slice_get result i ≡ Some (control_of i bundles.now) }
    ensures within { (i : ℕ) → i < MOST_BUNDLES → IfSome (control_of i bundles.now) (IsLinkOf bundles.now) }
{
    let mut controls = [None; MOST_BUNDLES as usize];
    for i in 0..MOST_BUNDLES {
        controls[usize::from(i)] = bundles.control(i);
    }
    controls
}

/// Whether what a frame of that protocol carried is handed up: a packet of BAP where BACP is Opened on the link that it came on,
/// a datagram where its network control protocol is Opened there, or on the control link of its bundle.
fn is_taken(links: &[Link], bundles: &BundleTable, number: u8, protocol: u16) -> bool
    requires number { IsOfLink (length links.now) number }
    requires limits { bundles.now.limits ≡ limits_of (length links.now) }
    ensures { result ≡ is_taken links.now number protocol bundles.now }
{
    if protocol == BAP {
        return is_opened_at(&links[usize::from(number) - 1], Proto::Bacp);
    }
    is_opened_for(links, bundles, number, protocol)
}

/// Whether the network control protocol is Opened that datagrams of that protocol want: on the link that they came on, or on
/// its bundle's control link.
fn is_opened_for(links: &[Link], bundles: &BundleTable, number: u8, protocol: u16) -> bool
    requires number { IsOfLink (length links.now) number }
    requires limits { bundles.now.limits ≡ limits_of (length links.now) }
    ensures { result ≡ is_opened_for links.now number protocol bundles.now }
{
    let Some(proto) = opener_of(protocol) else {
        return false;
    };
    if is_opened_at(&links[usize::from(number) - 1], proto) {
        return true;
    }
    match control_for(bundles, number) {
        Some(control) => is_opened_at(&links[usize::from(control) - 1], proto),
        None => false,
    }
}

/// Whether a protocol is Opened on a link.
fn is_opened_at(link: &Link, proto: Proto) -> bool
    ensures { result ≡ is_opened_at (Some link.now) (Some proto) }
{
    link.state(proto) == Some(AutoState::Opened)
}

/// The control link of a link's bundle, if it is in one.
fn control_for(bundles: &BundleTable, number: u8) -> Option<u8>
    requires { IsLinkOf bundles.now number }
    ensures value { result ≡ control_for number bundles.now }
    ensures within { IfSome result (λ l. IsLinkOf bundles.now l) }
{
    match bundles.bundle_of(number) {
        Some(bundle) => bundles.control(bundle),
        None => None,
    }
}

/// That network control protocol, if datagrams of the protocol are handed up at all.
fn opener_of(protocol: u16) -> Option<Proto>
    ensures { result ≡ opener_of protocol }
{
    match protocol {
        0x0021 => Some(Proto::Ip),
        0x0057 => Some(Proto::Ipv6),
        0x0281 => Some(Proto::Mpls),
        _ => None,
    }
}
