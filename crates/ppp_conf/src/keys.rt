//! The keys of one table of the settings.

ghost use Rattle.std.specs.Prelude.{◌≡◌, ◌≤◌, ◌<◌, ◌++◌, ℕ, [], true, false, length, None, Some, option_map, IfOk, IfErr, slice_index};
ghost use Rattle.toml.specs.Data.{get_member, no_members};
ghost use Rattle.toml.specs.View.{view, table_view};
ghost use Rattle.ppp_packet.specs.DiscClass.{is_good_disc};
ghost use Rattle.ppp_conf.specs.DiscText.{disc_of, disc_seen};
ghost use Rattle.ppp_conf.specs.Dotted.{dotted_of, given_of};
ghost use Rattle.ppp_conf.specs.Form.{whole, is_zero_or, zero_or, is_alignment, alignment, truth, text_of, names, there, table};
ghost use Rattle.ppp_conf.specs.HexText.{ifid_of};
ghost use Rattle.ppp_conf.specs.Keys.{at, key, keys_seen, members_in, required};
ghost use Rattle.ppp_conf.specs.Protocols.{no_protocols};
ghost use Rattle.ppp_conf.specs.Refusal.{IsRefusal, refuse};
ghost use Rattle.ppp_conf.specs.Rules.{all_within};
ghost use Rattle.ppp_conf.specs.SocketText.{is_socket, socket_of};

use crate::conf_fault::ConfFault;
use crate::conf_why::ConfWhy;
use crate::form;
use crate::key_path::KeyPath;
use crate::socket_text::SocketText;
use ppp_packet::Disc;
use std::alloc::Global;
use toml::{Table, Value};

/// The keys of one table: one that isn't there has its default, and one that is refused has its path, which begins with
/// the prefix. A table that isn't there has no key.
#[derive(Clone, Copy)]
pub(crate) struct Keys<'t> {
    /// What a path's memory comes from.
    pub(crate) alloc: Global,
    /// What the keys' paths begin with: nothing, or a name and a dot.
    pub(crate) prefix: &'static str,
    /// The table.
    pub(crate) table: Option<&'t Table>,
}

impl<'t> Keys<'t> {
    /// The value of a key.
    pub(crate) fn get(&self, name: &'static str) -> Option<&'t Value>
        ensures { option_map (λ value. view value.now) result
            ≡ get_member name.now (keys_seen self.now).members }
    {
        match self.table {
            Some(table) => table.get(name),
            None => None,
        }
    }

    /// The refusal of a key.
    pub(crate) fn refused(&self, name: &'static str, why: ConfWhy) -> ConfFault
        ensures { IsRefusal (refuse {A = Unit {0}} (self.now.prefix.now ++ name.now) why) result }
    {
        match KeyPath::new(self.alloc, self.prefix, name) {
            Ok(key) => ConfFault::Refused { key, why },
            Err(_) => ConfFault::Memory,
        }
    }

    /// What a form answered, with the key's path where it is refused.
    fn said<T: Drop>(&self, name: &'static str, read: Result<T, ConfWhy>) -> Result<T, ConfFault>
        ensures ok { IfOk result (λ value. read ≡ Ok value) }
        ensures err { IfErr result (IsRefusal (at (self.now.prefix.now ++ name.now) read)) }
    {
        match read {
            Ok(value) => Ok(value),
            Err(why) => Err(self.refused(name, why)),
        }
    }

    /// A whole number of 8 bits within these bounds.
    pub(crate) fn octet(
        &self,
        name: &'static str,
        least: u8,
        most: u8,
        default: u8,
    ) -> Result<u8, ConfFault>
        requires low { least ≤ default }
        requires high { default ≤ most }
        ensures ok { IfOk result (λ n.
            key (keys_seen self.now) name.now (whole least most) default ≡ Ok n) }
        ensures err { IfErr result (IsRefusal
            (key (keys_seen self.now) name.now (whole least most) default)) }
        ensures low { IfOk result (λ n. least ≤ n) }
        ensures high { IfOk result (λ n. n ≤ most) }
    {
        match self.get(name) {
            Some(value) => self.said(name, form::octet(value, least, most)),
            None => Ok(default),
        }
    }

    /// A whole number of 16 bits within these bounds.
    pub(crate) fn small(
        &self,
        name: &'static str,
        least: u16,
        most: u16,
        default: u16,
    ) -> Result<u16, ConfFault>
        requires low { least ≤ default }
        requires high { default ≤ most }
        ensures ok { IfOk result (λ n.
            key (keys_seen self.now) name.now (whole least most) default ≡ Ok n) }
        ensures err { IfErr result (IsRefusal
            (key (keys_seen self.now) name.now (whole least most) default)) }
        ensures low { IfOk result (λ n. least ≤ n) }
        ensures high { IfOk result (λ n. n ≤ most) }
    {
        match self.get(name) {
            Some(value) => self.said(name, form::small(value, least, most)),
            None => Ok(default),
        }
    }

    /// A whole number of 32 bits within these bounds.
    pub(crate) fn large(
        &self,
        name: &'static str,
        least: u32,
        most: u32,
        default: u32,
    ) -> Result<u32, ConfFault>
        requires low { least ≤ default }
        requires high { default ≤ most }
        ensures ok { IfOk result (λ n.
            key (keys_seen self.now) name.now (whole least most) default ≡ Ok n) }
        ensures err { IfErr result (IsRefusal
            (key (keys_seen self.now) name.now (whole least most) default)) }
        ensures low { IfOk result (λ n. least ≤ n) }
        ensures high { IfOk result (λ n. n ≤ most) }
    {
        match self.get(name) {
            Some(value) => self.said(name, form::large(value, least, most)),
            None => Ok(default),
        }
    }

    /// A whole number of 16 bits within these bounds, that may be missing.
    pub(crate) fn small_there(
        &self,
        name: &'static str,
        least: u16,
        most: u16,
    ) -> Result<Option<u16>, ConfFault>
        ensures ok { IfOk result (λ n. key (keys_seen self.now) name.now
            (λ value. there (whole least most value)) None ≡ Ok n) }
        ensures err { IfErr result (IsRefusal (key (keys_seen self.now) name.now
            (λ value. there (whole least most value)) None)) }
        ensures within { IfOk result (λ n. all_within least most n ≡ true) }
    {
        match self.get(name) {
            Some(value) => Ok(Some(self.said(name, form::small(value, least, most))?)),
            None => Ok(None),
        }
    }

    /// A whole number of 32 bits within these bounds, that may be missing.
    pub(crate) fn large_there(
        &self,
        name: &'static str,
        least: u32,
        most: u32,
    ) -> Result<Option<u32>, ConfFault>
        ensures ok { IfOk result (λ n. key (keys_seen self.now) name.now
            (λ value. there (whole least most value)) None ≡ Ok n) }
        ensures err { IfErr result (IsRefusal (key (keys_seen self.now) name.now
            (λ value. there (whole least most value)) None)) }
        ensures within { IfOk result (λ n. all_within least most n ≡ true) }
    {
        match self.get(name) {
            Some(value) => Ok(Some(self.said(name, form::large(value, least, most))?)),
            None => Ok(None),
        }
    }

    /// 0, or a whole number within these bounds; 0 where it isn't there.
    pub(crate) fn zero_or(
        &self,
        name: &'static str,
        least: u16,
        most: u16,
    ) -> Result<u16, ConfFault>
        ensures ok { IfOk result (λ n.
            key (keys_seen self.now) name.now (zero_or least most) 0 ≡ Ok n) }
        ensures err { IfErr result (IsRefusal
            (key (keys_seen self.now) name.now (zero_or least most) 0)) }
        ensures within { IfOk result (λ n. is_zero_or least most n ≡ true) }
    {
        match self.get(name) {
            Some(value) => self.said(name, form::zero_or(value, least, most)),
            None => Ok(0),
        }
    }

    /// An alignment; 0 where it isn't there.
    pub(crate) fn alignment(&self, name: &'static str) -> Result<u8, ConfFault>
        ensures ok { IfOk result (λ n.
            key (keys_seen self.now) name.now alignment 0 ≡ Ok n) }
        ensures err { IfErr result (IsRefusal
            (key (keys_seen self.now) name.now alignment 0)) }
        ensures form { IfOk result (λ n. is_alignment n ≡ true) }
    {
        match self.get(name) {
            Some(value) => self.said(name, form::alignment(value)),
            None => Ok(0),
        }
    }

    /// A truth value.
    pub(crate) fn truth(&self, name: &'static str, default: bool) -> Result<bool, ConfFault>
        ensures ok { IfOk result (λ value.
            key (keys_seen self.now) name.now truth default ≡ Ok value) }
        ensures err { IfErr result (IsRefusal
            (key (keys_seen self.now) name.now truth default)) }
    {
        match self.get(name) {
            Some(value) => self.said(name, form::truth(value)),
            None => Ok(default),
        }
    }

    /// A dotted address; `0.0.0.0` where it isn't there.
    pub(crate) fn address(&self, name: &'static str) -> Result<u32, ConfFault>
        ensures ok { IfOk result (λ n.
            key (keys_seen self.now) name.now (text_of dotted_of) 0 ≡ Ok n) }
        ensures err { IfErr result (IsRefusal
            (key (keys_seen self.now) name.now (text_of dotted_of) 0)) }
    {
        match self.get(name) {
            Some(value) => self.said(name, form::dotted(value)),
            None => Ok(0),
        }
    }

    /// A dotted address that isn't `0.0.0.0`, that may be missing.
    pub(crate) fn given_address(&self, name: &'static str) -> Result<Option<u32>, ConfFault>
        ensures ok { IfOk result (λ n. key (keys_seen self.now) name.now
            (λ value. there (text_of given_of value)) None ≡ Ok n) }
        ensures err { IfErr result (IsRefusal (key (keys_seen self.now) name.now
            (λ value. there (text_of given_of value)) None)) }
        ensures within { IfOk result (λ n. all_within 1 4294967295 n ≡ true) }
    {
        match self.get(name) {
            Some(value) => Ok(Some(self.said(name, form::given(value))?)),
            None => Ok(None),
        }
    }

    /// An interface identifier; 0 where it isn't there.
    pub(crate) fn identifier(&self, name: &'static str) -> Result<Option<u64>, ConfFault>
        ensures ok { IfOk result (λ n.
            key (keys_seen self.now) name.now (text_of ifid_of) (Some 0) ≡ Ok n) }
        ensures err { IfErr result (IsRefusal
            (key (keys_seen self.now) name.now (text_of ifid_of) (Some 0))) }
        ensures within { IfOk result (λ n. all_within 0 18446744073709551615 n ≡ true) }
    {
        match self.get(name) {
            Some(value) => self.said(name, form::ifid(value)),
            None => Ok(Some(0)),
        }
    }

    /// An endpoint discriminator; that of Class 0 where it isn't there.
    pub(crate) fn discriminator(&self, name: &'static str) -> Result<Disc, ConfFault>
        ensures ok { IfOk result (λ disc. key (keys_seen self.now) name.now
            (text_of disc_of) (0, []) ≡ Ok (disc_seen disc)) }
        ensures err { IfErr result (IsRefusal
            (key (keys_seen self.now) name.now (text_of disc_of) (0, []))) }
        ensures good { IfOk result (λ disc. is_good_disc disc.class disc.size ≡ true) }
        ensures octets { IfOk result (λ disc. (i : ℕ) → slice_index disc.address i < 256) }
    {
        match self.get(name) {
            Some(value) => self.said(name, form::disc(value)),
            None => Ok(Disc::new(0, &[])),
        }
    }

    /// A set of protocols; the empty one where it isn't there.
    pub(crate) fn protocols(&self, name: &'static str) -> Result<[bool; 4], ConfFault>
        ensures ok { IfOk result (λ set.
            key (keys_seen self.now) name.now names no_protocols ≡ Ok set) }
        ensures err { IfErr result (IsRefusal
            (key (keys_seen self.now) name.now names no_protocols)) }
    {
        match self.get(name) {
            Some(value) => self.said(name, form::names(value)),
            None => Ok([false; 4]),
        }
    }

    /// The text that names a socket.
    pub(crate) fn socket(
        &self,
        name: &'static str,
        default: &'static str,
    ) -> Result<SocketText, ConfFault>
        requires { is_socket default.now ≡ true }
        ensures ok { IfOk result (λ text. key (keys_seen self.now) name.now
            (text_of socket_of) default.now ≡ Ok text) }
        ensures err { IfErr result (IsRefusal (key (keys_seen self.now) name.now
            (text_of socket_of) default.now)) }
        ensures form { IfOk result (λ text. is_socket text ≡ true) }
    {
        let text = self.socket_name(name, default)?;
        match SocketText::new(self.alloc, text) {
            Ok(socket) => Ok(socket),
            Err(_) => Err(ConfFault::Memory),
        }
    }

    /// The same text, as it stands in the table.
    fn socket_name(&self, name: &'static str, default: &'static str) -> Result<&'t str, ConfFault>
        requires { is_socket default.now ≡ true }
        ensures ok { IfOk result (λ text. key (keys_seen self.now) name.now
            (text_of socket_of) default.now ≡ Ok text.now) }
        ensures err { IfErr result (IsRefusal (key (keys_seen self.now) name.now
            (text_of socket_of) default.now)) }
        ensures form { IfOk result (λ text. is_socket text.now ≡ true) }
    {
        match self.get(name) {
            Some(value) => self.said(name, form::socket(value)),
            None => Ok(default),
        }
    }
    /// A whole number of 8 bits within these bounds, that has to be there.
    pub(crate) fn required(&self, name: &'static str, least: u8, most: u8) -> Result<u8, ConfFault>
        ensures ok { IfOk result (λ n.
            required (keys_seen self.now) name.now (whole least most) ≡ Ok n) }
        ensures err { IfErr result (IsRefusal
            (required (keys_seen self.now) name.now (whole least most))) }
    {
        match self.get(name) {
            Some(value) => self.said(name, form::octet(value, least, most)),
            None => Err(self.refused(name, ConfWhy::Missing)),
        }
    }

    /// A table.
    pub(crate) fn table(&self, name: &'static str) -> Result<Option<&'t Table>, ConfFault>
        ensures ok { IfOk result (λ found. key (keys_seen self.now) name.now
            table no_members ≡ Ok (members_in found)) }
        ensures err { IfErr result (IsRefusal
            (key (keys_seen self.now) name.now table no_members)) }
    {
        match self.get(name) {
            Some(value) => Ok(Some(self.said(name, form::table(value))?)),
            None => Ok(None),
        }
    }
}
