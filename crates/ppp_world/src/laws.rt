//! What holds of two ends in every run.

ghost use Rattle.std.specs.Prelude.{◌≡◌, ◌≢◌, ◌↔◌, ℕ, true, List, Option};
ghost use Rattle.ppp_bacp.specs.declared.bacp_table.TheConstants.{FAVORED_PEER};
ghost use Rattle.ppp_conf.specs.Config.{Settings};
ghost use Rattle.ppp_duet.specs.Agreement.{Agreement};
ghost use Rattle.ppp_duet.specs.Duet.{Duet};
ghost use Rattle.ppp_duet.specs.Reopening.{Reopening};
ghost use Rattle.ppp_lcp.specs.LcpKind.{kind_number};
ghost use Rattle.ppp_lcp.specs.declared.lcp_kind.LcpKind.{LcpKind};
ghost use Rattle.ppp_lcp.specs.declared.lcp_kind.LcpKind.TheVariants.{Magic, Mrru, Short, Classes};
ghost use Rattle.ppp_ncp.specs.declared.ipv6_table.TheConstants.{IDENTIFIER};
ghost use Rattle.ppp_options.specs.Rule.{Rule};
ghost use Rattle.ppp_options.specs.Rules.{Allows, Sendable};
ghost use Rattle.ppp_script.specs.declared.event.Event.{Event};
ghost use Rattle.ppp_link.specs.LinkTables.{LinkTables, table_of};
ghost use Rattle.ppp_packet.specs.declared.proto.Proto.{Proto};
ghost use Rattle.ppp_packet.specs.declared.proto.Proto.TheVariants.{Lcp};
ghost use Rattle.ppp_party.specs.Party.{Ends};
ghost use Rattle.ppp_world.specs.Agreement.{passes, rules_of, AgreeBy, AgreesOn, Fits};
ghost use Rattle.ppp_world.specs.Decided.{SettingsDecide};
ghost use Rattle.ppp_world.specs.Difference.{Difference, BothHaveNumbers, OneFavoured};
ghost use Rattle.ppp_world.specs.Replay.{IsReplay};
ghost use Rattle.ppp_world.specs.SameControl.{AreTrunks, SameControl};
ghost use Rattle.ppp_world.specs.declared.refusal.Refusal.{Refusal};

use ppp_auto::OptionTable;
use ppp_bacp::BacpTable;
pub use ppp_duet::laws::{agreement, reopening};
use ppp_lcp::LcpTable;
use ppp_ncp::Ipv6Table;

/// Whenever both ends are Opened, for any two values of the tables, any first Identifiers and every list of events whose
/// states are all narrow: the Magic-Numbers of their own lists differ (RFC 1661 section 6.4), and so do the
/// Interface-Identifiers (RFC 5072 section 4.1) and the Favored-Peer numbers (RFC 2125), where both lists have one. Both
/// lists of BACP have a number, and exactly one end holds itself favoured.
pub fn difference()
    ensures magic { (a b : LcpTable) →
        Difference ⟦<LcpTable as OptionTable>⟧.table (kind_number Magic) a b }
    ensures identifier { (a b : Ipv6Table) →
        Difference ⟦<Ipv6Table as OptionTable>⟧.table IDENTIFIER a b }
    ensures favored { (a b : BacpTable) →
        Difference ⟦<BacpTable as OptionTable>⟧.table FAVORED_PEER a b }
    ensures both_favored { (a b : BacpTable) →
        BothHaveNumbers ⟦<BacpTable as OptionTable>⟧.table FAVORED_PEER a b }
    ensures one_favoured { (a b : BacpTable) →
        OneFavoured ⟦<BacpTable as OptionTable>⟧.table a b }
{}

/// Whatever happens, and however wide the spans are: the settings of the two ends decide each option of LCP but the
/// Magic-Number. Where the peer knows the option, each list that an end asks for has it as the first one has it; and each
/// list that the peer acknowledges has it where the end's settings ask for it and the peer knows it, and else not. So it
/// is of the multilink's MRRU and short headers (RFC 1990 section 5.1) and of its classes (after RFC 2686).
pub fn settings_decide(a: &LcpTable, b: &LcpTable)
    ensures mrru { SettingsDecide Mrru a.now b.now }
    ensures short { SettingsDecide Short a.now b.now }
    ensures classes { SettingsDecide Classes a.now b.now }
    ensures each { (kind : LcpKind) → kind ≢ Magic → SettingsDecide kind a.now b.now }
{}

/// Two Opened ends agree, and an end that opens again was left alone meanwhile: of each control protocol with the tables of
/// any two links, from the tables' own laws, with nothing assumed.
pub fn hold_of_tables()
    ensures agreement { (p : Proto) (s t : LinkTables) → Agreement (λ k. table_of k p)
        (λ k. Sendable (rules_of k p)) (λ k. Allows (rules_of k p)) (Fits p) s t }
    ensures reopening { (p : Proto) (s t : LinkTables) → Reopening (table_of s p) (table_of t p) }
{}

/// What a report tells of two Opened ends is what agreement is: the tests of `agree` pass exactly where each end's list is
/// what the other acknowledged last, may be asked for and was allowed, and the two lists fit.
pub fn told()
    ensures passes { (p : Proto) (rs ts : List Rule) (d : Duet)
        → passes p rs ts d.a d.b ≡ true ↔ AgreeBy p rs ts d }
{}

/// Settings and lines decide what a replay comes to, since two stations that begin by the same settings are the same.
pub fn decided()
    ensures report { (c : Settings) (events : List Event) (one other : List ℕ)
        (r s : Option Refusal) → IsReplay c events one r → IsReplay c events other s → one ≡ other }
    ensures refused { (c : Settings) (events : List Event) (one other : List ℕ)
        (r s : Option Refusal) → IsReplay c events one r → IsReplay c events other s → r ≡ s }
{}

/// Both ends of a bundle have the same control link: wherever a bundle of one end and one of the other hold the same links, and
/// LCP's two ends agree on each link where both are Opened. [`World::step`](crate::World::step) keeps that in each state of a
/// run.
pub fn same_control()
    ensures { (e : Ends) → AreTrunks e → ((l : ℕ) → AgreesOn l Lcp e) → SameControl e }
{}
