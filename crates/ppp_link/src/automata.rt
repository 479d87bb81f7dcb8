//! The automata of a link.

ghost use Rattle.std.specs.Prelude.{◌≡◌, ◌+◌, ◌-◌, ◌≤◌, ◌<◌, ◌%◌, min, Bool, true, not, ◌==◌, Option, Some, None, option_map};
ghost use Rattle.std.specs.Option.{option_and_then};
ghost use Rattle.ppp_packet.specs.Code.{code_number};
ghost use Rattle.ppp_packet.specs.Packet.{packet_octets};
ghost use Rattle.ppp_packet.specs.Proto.{proto_number, proto_of};
ghost use Rattle.ppp_packet.specs.declared.proto.Proto.TheVariants.{Lcp};
ghost use Rattle.ppp_auto.specs.Auto.{Auto, begun, is_opened, mine_of, peer_of};
ghost use Rattle.ppp_auto.specs.declared.auto.TheConstants.{LEAST_CAP, MOST_CAP};
ghost use Rattle.ppp_link.specs.Automata.{all_changed, auto_at, automata_begun, begun_if, cap_of, changed, form_for, granted_form, is_there, is_timed_at, mru_of, reads_ac, reads_pf, timed_if, whole_form, with_cap};
ghost use Rattle.ppp_conf.specs.EndConfig.{end_seen};
ghost use Rattle.ppp_link.specs.LinkSettings.{settings_of};
ghost use Rattle.ppp_link.specs.LinkTables.{table_if, table_of, tables_seen};
ghost use Rattle.ppp_link.specs.View.{autos_in, tables_in};
ghost use Rattle.ppp_link.specs.Steps.{auto_given, given_seen, told_by, told_if};
ghost use Rattle.ppp_link.specs.declared.automata.TheConstants.{FIRST_ID};

use crate::given::Given;
use crate::tables::{bacp_table, ip_table, ipv6_table, lcp_table, mpls_table, osi_table};
use ppp_auto::{AutoState, Automaton, MOST_CAP, OptionTable, Outbox};
use ppp_bacp::BacpTable;
use ppp_conf::EndConfig;
use ppp_frame::Form;
use ppp_lcp::{DEFAULT_ACCM, LcpTable, grant_of};
use ppp_ncp::{IpcpTable, Ipv6Table};
use ppp_osimpls::{MplsTable, OsiTable};
use ppp_packet::{OptList, Proto};
use std::marker::Model;

/// The Identifier with which each counter begins.
pub(crate) const FIRST_ID: u8 = 1;

/// The automata of a link: LCP's, and one for each control protocol that is configured. It is seen as their tables, which
/// stay, and as the automata.
#[derive(Drop)]
pub(crate) struct Automata {
    lcp: Automaton<LcpTable>,
    ip: Option<Automaton<IpcpTable>>,
    ipv6: Option<Automaton<Ipv6Table>>,
    osi: Option<Automaton<OsiTable>>,
    mpls: Option<Automaton<MplsTable>>,
    bacp: Option<Automaton<BacpTable>>,
    reject_id: u8,
}

impl Model for Automata {
    ghost use Rattle.std.specs.Prelude.{◌≤◌};
    ghost use Rattle.ppp_auto.specs.declared.auto.TheConstants.{LEAST_CAP};
    ghost use Rattle.ppp_link.specs.Automata.{mru_of};
    ghost use Rattle.ppp_link.specs.Automata as spec;
    ghost use Rattle.ppp_link.specs.LinkTables.{LinkTables};
    ghost use Rattle.ppp_link.specs.View.{autos_in, tables_in};

    ghost Value = { LinkTables × spec.Automata };

    ghost view = { λ k. (
      record { lcp = k.lcp.0; ip = tables_in k.ip; ipv6 = tables_in k.ipv6; osi = tables_in k.osi; mpls = tables_in k.mpls; bacp = tables_in k.bacp },
      record { lcp = k.lcp.1; ip = autos_in k.ip; ipv6 = autos_in k.ipv6; osi = autos_in k.osi; mpls = autos_in k.mpls; bacp = autos_in k.bacp; reject_id = k.reject_id },
    ) };

    ghost invariant = { λ k. LEAST_CAP ≤ mru_of k.lcp.1.peer };
}

impl Automata {
    /// The automata of link `number`, 1 to 16, of an end of these settings, as they begin.
    pub(crate) fn new(config: &EndConfig, number: u8) -> Automata
        requires least { 1 ≤ number }
        requires most { number ≤ 16 }
        ensures settings { tables_seen result.0 ≡ settings_of number (end_seen config.now) }
        ensures automata { result.1 ≡ automata_begun result.0 }
    {
        Automata {
            lcp: Automaton::new(lcp_table(config, number), FIRST_ID),
            ip: begin_if(ip_table(config)),
            ipv6: begin_if(ipv6_table(config)),
            osi: begin_if(osi_table(config)),
            mpls: begin_if(mpls_table(config)),
            bacp: begin_if(bacp_table(config)),
            reject_id: FIRST_ID,
        }
    }

    /// Something happens to the automaton of a protocol, if that is configured. What it sends and tells is in the outbox then.
    pub(crate) fn act(&mut self, proto: Proto, given: Given<'_>, word: u64, outbox: &mut Outbox)
        ensures tables { self.new.0 ≡ self.old.0 }
        ensures automata { self.new.1
            ≡ changed self.old.1 proto (auto_given (table_of self.old.0 proto) (given_seen given.entry) word) }
        ensures told { outbox.new ≡ told_by self.old.0 proto (given_seen given.entry) word self.old.1 }
    {
        match proto {
            Proto::Lcp => act(&mut self.lcp, given, word, outbox),
            Proto::Ip => act_if(&mut self.ip, given, word, outbox),
            Proto::Ipv6 => act_if(&mut self.ipv6, given, word, outbox),
            Proto::Osi => act_if(&mut self.osi, given, word, outbox),
            Proto::Mpls => act_if(&mut self.mpls, given, word, outbox),
            Proto::Bacp => act_if(&mut self.bacp, given, word, outbox),
        }
    }

    /// The state of a protocol's automaton, if the protocol is configured.
    pub(crate) fn state(&self, proto: Proto) -> Option<AutoState>
        ensures { result ≡ option_map (λ a. a.state) (auto_at self.now.1 proto) }
    {
        match proto {
            Proto::Lcp => Some(self.lcp.state()),
            Proto::Ip => state_if(&self.ip),
            Proto::Ipv6 => state_if(&self.ipv6),
            Proto::Osi => state_if(&self.osi),
            Proto::Mpls => state_if(&self.mpls),
            Proto::Bacp => state_if(&self.bacp),
        }
    }

    /// The granted own list of a protocol.
    pub(crate) fn mine(&self, proto: Proto) -> Option<&OptList>
        ensures { option_map (λ list. list.now) result ≡ option_and_then mine_of (auto_at self.now.1 proto) }
    {
        match proto {
            Proto::Lcp => self.lcp.mine(),
            Proto::Ip => mine_if(&self.ip),
            Proto::Ipv6 => mine_if(&self.ipv6),
            Proto::Osi => mine_if(&self.osi),
            Proto::Mpls => mine_if(&self.mpls),
            Proto::Bacp => mine_if(&self.bacp),
        }
    }

    /// The list granted to the peer.
    pub(crate) fn peer(&self, proto: Proto) -> Option<&OptList>
        ensures { option_map (λ list. list.now) result ≡ option_and_then peer_of (auto_at self.now.1 proto) }
    {
        match proto {
            Proto::Lcp => self.lcp.peer(),
            Proto::Ip => peer_if(&self.ip),
            Proto::Ipv6 => peer_if(&self.ipv6),
            Proto::Osi => peer_if(&self.osi),
            Proto::Mpls => peer_if(&self.mpls),
            Proto::Bacp => peer_if(&self.bacp),
        }
    }

    /// Whether the restart timer of a protocol is on.
    pub(crate) fn timer_on(&self, proto: Proto) -> bool
        ensures { result ≡ is_timed_at self.now.1 proto }
    {
        match proto {
            Proto::Lcp => self.lcp.timer_on(),
            Proto::Ip => timer_if(&self.ip),
            Proto::Ipv6 => timer_if(&self.ipv6),
            Proto::Osi => timer_if(&self.osi),
            Proto::Mpls => timer_if(&self.mpls),
            Proto::Bacp => timer_if(&self.bacp),
        }
    }

    /// Sets the caps of all automata.
    pub(crate) fn set_caps(&mut self, cap: u16)
        requires low { LEAST_CAP ≤ cap }
        requires high { cap ≤ MOST_CAP }
        ensures tables { self.new.0 ≡ self.old.0 }
        ensures automata { self.new.1 ≡ all_changed self.old.1 (with_cap cap) }
    {
        self.lcp.set_cap(cap);
        set_cap_if(&mut self.ip, cap);
        set_cap_if(&mut self.ipv6, cap);
        set_cap_if(&mut self.osi, cap);
        set_cap_if(&mut self.mpls, cap);
        set_cap_if(&mut self.bacp, cap);
    }

    /// Is as new ones over the same tables.
    pub(crate) fn reset(&mut self)
        ensures tables { self.new.0 ≡ self.old.0 }
        ensures automata { self.new.1 ≡ automata_begun self.old.0 }
    {
        self.lcp.reset(FIRST_ID);
        reset_if(&mut self.ip);
        reset_if(&mut self.ipv6);
        reset_if(&mut self.osi);
        reset_if(&mut self.mpls);
        reset_if(&mut self.bacp);
        self.reject_id = FIRST_ID;
    }

    /// The most octets of a packet that is cut, as the peer's granted list has it.
    pub(crate) fn cap(&self) -> u16
        ensures cap { result ≡ cap_of self.now.1.lcp }
        ensures low { LEAST_CAP ≤ result }
        ensures high { result ≤ MOST_CAP }
    {
        if !self.is_opened() {
            return MOST_CAP;
        }
        match self.lcp.peer() {
            Some(list) => grant_of(list).mru.min(MOST_CAP),
            None => MOST_CAP,
        }
    }

    /// How a protocol's frames are written: LCP's whole, others as the peer asked for while LCP is Opened.
    pub(crate) fn form(&self, proto: Proto) -> Form
        ensures { result ≡ form_for self.now.1.lcp proto }
    {
        if proto == Proto::Lcp || !self.is_opened() {
            return WHOLE_FORM;
        }
        match self.lcp.peer() {
            Some(list) => form_by(list),
            None => WHOLE_FORM,
        }
    }

    /// Whether this end does multilink.
    pub(crate) fn is_multilink(&self) -> bool
        ensures { result ≡ not (self.now.0.lcp.mrru == 0) }
    {
        self.lcp.table().mrru != 0
    }

    /// Whether LCP is Opened.
    pub(crate) fn is_opened(&self) -> bool
        ensures { result ≡ is_opened self.now.1.lcp.state }
    {
        self.lcp.state() == AutoState::Opened
    }

    /// Draws the Identifier of a Protocol-Reject.
    pub(crate) fn draw_reject_id(&mut self) -> u8
        ensures id { result ≡ self.old.1.reject_id }
        ensures tables { self.new.0 ≡ self.old.0 }
        ensures automata { self.new.1 ≡ record self.old.1 { reject_id = (self.old.1.reject_id + 1) % 256 } }
    {
        let id = self.reject_id;
        self.reject_id = id.wrapping_add(1);
        id
    }

    /// Whether address and control may be left out in what is read, and whether the protocol may be short.
    pub(crate) fn short_headers(&self) -> (bool, bool)
        ensures ac { result.0 ≡ reads_ac self.now.1.lcp }
        ensures pf { result.1 ≡ reads_pf self.now.1.lcp }
    {
        if !self.is_opened() {
            return (false, false);
        }
        match self.lcp.mine() {
            Some(list) => {
                let grant = grant_of(list);
                (grant.acfc, grant.pfc)
            }
            None => (false, false),
        }
    }
}

/// How frames are written while nothing is granted, and LCP's always.
const WHOLE_FORM: Form = Form {
    map: DEFAULT_ACCM,
    ac: false,
    pf: false,
};

/// How frames are written to a peer with this granted list.
fn form_by(list: &OptList) -> Form
    ensures { result ≡ granted_form list.now }
{
    let grant = grant_of(list);
    Form {
        map: grant.accm,
        ac: grant.acfc,
        pf: grant.pfc,
    }
}

/// What happens to an automaton.
fn act<T: OptionTable>(
    automaton: &mut Automaton<T>,
    given: Given<'_>,
    word: u64,
    outbox: &mut Outbox,
)
    ensures table { automaton.new.0 ≡ automaton.old.0 }
    ensures auto { automaton.new.1
        ≡ auto_given (T.table automaton.old.0) (given_seen given.entry) word automaton.old.1 }
    ensures told { outbox.new
        ≡ told_if (T.table automaton.old.0) (Some automaton.old.1) (given_seen given.entry) word }
{
    match given {
        Given::Event(event) => automaton.event(event, word, outbox),
        Given::Packet(octets) => automaton.packet(octets, word, outbox),
    }
}

/// The automaton of a table, if there is one.
fn begin_if<T: OptionTable>(table: Option<T>) -> Option<Automaton<T>>
    ensures table { tables_in result ≡ table }
    ensures auto { autos_in result ≡ begun_if T.table table }
{
    match table {
        Some(table) => Some(Automaton::new(table, FIRST_ID)),
        None => None,
    }
}

/// Something happens to an automaton, if there is one.
fn act_if<T: OptionTable>(
    automaton: &mut Option<Automaton<T>>,
    given: Given<'_>,
    word: u64,
    outbox: &mut Outbox,
)
    ensures table { tables_in automaton.new ≡ tables_in automaton.old }
    ensures auto { autos_in automaton.new
        ≡ option_map (auto_given (table_if T.table (tables_in automaton.old)) (given_seen given.entry) word) (autos_in automaton.old) }
    ensures told { outbox.new ≡ told_if (table_if T.table (tables_in automaton.old)) (autos_in automaton.old) (given_seen given.entry) word }
{
    match automaton {
        Some(automaton) => act(automaton, given, word, outbox),
        None => outbox.clear(),
    }
}

fn state_if<T: OptionTable>(automaton: &Option<Automaton<T>>) -> Option<AutoState>
    ensures { result ≡ option_map (λ a. a.state) (autos_in automaton.now) }
{
    match automaton {
        Some(automaton) => Some(automaton.state()),
        None => None,
    }
}

fn timer_if<T: OptionTable>(automaton: &Option<Automaton<T>>) -> bool
    ensures { result ≡ timed_if (autos_in automaton.now) }
{
    match automaton {
        Some(automaton) => automaton.timer_on(),
        None => false,
    }
}

fn mine_if<T: OptionTable>(automaton: &Option<Automaton<T>>) -> Option<&OptList>
    ensures { option_map (λ list. list.now) result ≡ option_and_then mine_of (autos_in automaton.now) }
{
    match automaton {
        Some(automaton) => automaton.mine(),
        None => None,
    }
}

fn peer_if<T: OptionTable>(automaton: &Option<Automaton<T>>) -> Option<&OptList>
    ensures { option_map (λ list. list.now) result ≡ option_and_then peer_of (autos_in automaton.now) }
{
    match automaton {
        Some(automaton) => automaton.peer(),
        None => None,
    }
}

fn set_cap_if<T: OptionTable>(automaton: &mut Option<Automaton<T>>, cap: u16)
    requires low { LEAST_CAP ≤ cap }
    requires high { cap ≤ MOST_CAP }
    ensures table { tables_in automaton.new ≡ tables_in automaton.old }
    ensures auto { autos_in automaton.new ≡ option_map (with_cap cap) (autos_in automaton.old) }
{
    if let Some(automaton) = automaton {
        automaton.set_cap(cap);
    }
}

fn reset_if<T: OptionTable>(automaton: &mut Option<Automaton<T>>)
    ensures table { tables_in automaton.new ≡ tables_in automaton.old }
    ensures auto { autos_in automaton.new ≡ begun_if T.table (tables_in automaton.old) }
{
    if let Some(automaton) = automaton {
        automaton.reset(FIRST_ID);
    }
}
