//! What every list that an end asks for has in common.

ghost use Rattle.std.specs.Prelude.{ℕ, List};
ghost use Rattle.ppp_packet.specs.ConfigOption.{ConfigOption};
ghost use Rattle.ppp_options.specs.Rules.{IsAsked};
ghost use Rattle.ppp_lcp.specs.LcpSettings.{settings_seen};
ghost use Rattle.ppp_lcp.specs.LcpTable.{lcp_rules};
ghost use Rattle.ppp_lcp.specs.Settings.{KeepsSettings};

use crate::lcp_table::LcpTable;
use ppp_auto::OptionTable;

/// Whatever Configure-Naks and Configure-Rejects come, an end asks for nothing but what its settings have: the first
/// list is one that is asked for, what a Nak or a Reject makes of such a list is one, and each such list keeps to the
/// settings in the options 7, 8, 17, 18, 19, 23 and 27.
pub fn settings_kept(table: &LcpTable)
    ensures first { (word : ℕ) → IsAsked (lcp_rules (settings_seen table.now))
        ((⟦<LcpTable as OptionTable>⟧.table table.now).initial word) }
    ensures nak { (last nak : List ConfigOption) (word : ℕ) → IsAsked (lcp_rules (settings_seen table.now)) last →
        IsAsked (lcp_rules (settings_seen table.now))
        ((⟦<LcpTable as OptionTable>⟧.table table.now).adapt_nak last nak word) }
    ensures reject { (last reject : List ConfigOption) (word : ℕ) →
        IsAsked (lcp_rules (settings_seen table.now)) last → IsAsked (lcp_rules (settings_seen table.now))
        ((⟦<LcpTable as OptionTable>⟧.table table.now).adapt_reject last reject word) }
    ensures settings { (list : List ConfigOption) → IsAsked (lcp_rules (settings_seen table.now)) list →
        KeepsSettings (settings_seen table.now) list }
{}
