//! What is replied to a text.

ghost use Rattle.std.specs.Prelude.{◌≡◌, ◌≤◌, ℕ, List, length, IfErr, IfOk, Ok, Result};
ghost use Rattle.ppp_conf.specs.Config.{Settings, config_of, config_seen};
ghost use Rattle.ppp_conf.specs.Refusal.{IsRefusal, Refusal as ConfRefusal};
ghost use Rattle.ppp_script.specs.Event.{event_form};
ghost use Rattle.ppp_script.specs.FeedEvent.{feed_form};
ghost use Rattle.ppp_show.specs.Stream.{show_of};
ghost use Rattle.ppp_cli.specs.Reply.{reply_seen, reply_to_capture, reply_to_line, says_with, Declines, IsReplyToCommand, IsReplyToFeed, IsReplyToInput, IsReplyToLines, IsReplyToRun};
ghost use Rattle.ppp_cli.specs.Status.{IsOfText};
ghost use Rattle.ppp_cli.specs.declared.input.TheConstants.{MOST_OCTETS};

use crate::command::Command;
use crate::status::Status;
use ppp_conf::{ConfFault, Config, read_config};
use ppp_feed::feed;
use ppp_io::Memory;
use ppp_script::{Event, LineWhy, Script, ScriptFault, read_feed, read_script};
use ppp_show::{ShowFault, show_stream};
use ppp_text::part_input;
use ppp_world::{Refusal, replay};
use std::alloc::Global;

/// A status, and what is written with it.
#[derive(Drop)]
pub(crate) struct Reply {
    pub(crate) status: Status,
    pub(crate) octets: Vec<u8>,
}

/// Replies to the text of a command's input that isn't too long.
pub(crate) fn reply_to_text(alloc: Global, command: Command, text: &[u8]) -> Result<Reply, Memory>
    requires { length text.now ≤ MOST_OCTETS }
    ensures reply { IfOk result (λ reply. IsReplyToCommand command text.now (reply_seen reply)) }
    ensures of_text { IfOk result (λ reply. IsOfText reply.status) }
{
    match command {
        Command::Replay => reply_to_replay(alloc, text),
        Command::Feed => reply_to_feed(alloc, text),
        Command::Show => reply_to_capture(alloc, text),
    }
}

/// Shows a capture, or refuses its first line that isn't pairs of hex digits.
fn reply_to_capture(alloc: Global, text: &[u8]) -> Result<Reply, Memory>
    requires { length text.now ≤ MOST_OCTETS }
    ensures reply { IfOk result (λ reply. reply_seen reply ≡ reply_to_capture (show_of text.now)) }
    ensures of_text { IfOk result (λ reply. IsOfText reply.status) }
{
    match show_stream(alloc, text) {
        Ok(octets) => Ok(Reply {
            status: Status::Ok,
            octets,
        }),
        Err(ShowFault::Line(line)) => refuse_line(alloc, line, LineWhy::Event),
        Err(ShowFault::Memory) => Err(Memory),
    }
}

/// Parts the input at the line `---`, and replays the script behind it by the settings before it.
fn reply_to_replay(alloc: Global, text: &[u8]) -> Result<Reply, Memory>
    requires { length text.now ≤ MOST_OCTETS }
    ensures reply { IfOk result
        (λ reply. IsReplyToInput event_form IsReplyToRun text.now (reply_seen reply)) }
    ensures of_text { IfOk result (λ reply. IsOfText reply.status) }
{
    let parts = part_input(text);
    match read_settings(alloc, parts.settings)? {
        Ok(config) => reply_to_script(alloc, &config, parts.script),
        Err(reply) => Ok(reply),
    }
}

/// Replays a script by these settings.
fn reply_to_script(alloc: Global, config: &Config, script: &[u8]) -> Result<Reply, Memory>
    requires { length script.now ≤ MOST_OCTETS }
    ensures reply { IfOk result (λ reply. IsReplyToLines event_form IsReplyToRun
        (config_seen config.now) script.now (reply_seen reply)) }
    ensures of_text { IfOk result (λ reply. IsOfText reply.status) }
{
    match read_script(alloc, script, config.links) {
        Ok(script) => reply_to_events(alloc, config, &script),
        Err(ScriptFault::Refused { line, why }) => refuse_line(alloc, line, why),
        Err(ScriptFault::Memory) => Err(Memory),
    }
}

/// Parts the input at the line `---`, and feeds end a of the settings before it with the lines behind it.
fn reply_to_feed(alloc: Global, text: &[u8]) -> Result<Reply, Memory>
    requires { length text.now ≤ MOST_OCTETS }
    ensures reply { IfOk result
        (λ reply. IsReplyToInput feed_form IsReplyToFeed text.now (reply_seen reply)) }
    ensures of_text { IfOk result (λ reply. IsOfText reply.status) }
{
    let parts = part_input(text);
    match read_settings(alloc, parts.settings)? {
        Ok(config) => reply_to_lines(alloc, &config, parts.script),
        Err(reply) => Ok(reply),
    }
}

/// Feeds end a of these settings with lines.
fn reply_to_lines(alloc: Global, config: &Config, lines: &[u8]) -> Result<Reply, Memory>
    requires { length lines.now ≤ MOST_OCTETS }
    ensures reply { IfOk result (λ reply. IsReplyToLines feed_form IsReplyToFeed
        (config_seen config.now) lines.now (reply_seen reply)) }
    ensures of_text { IfOk result (λ reply. IsOfText reply.status) }
{
    match read_feed(alloc, lines, config.links) {
        Ok(script) => Ok(Reply {
            status: Status::Ok,
            octets: feed(alloc, &config.a, &script)?,
        }),
        Err(ScriptFault::Refused { line, why }) => refuse_line(alloc, line, why),
        Err(ScriptFault::Memory) => Err(Memory),
    }
}

/// Reads settings, or gives the reply that refuses them.
fn read_settings(alloc: Global, settings: &[u8]) -> Result<Result<Config, Reply>, Memory>
    ensures read { IfOk result (λ read. IfOk read
        (λ config. config_of settings.now ≡ Ok (config_seen config))) }
    ensures declined { IfOk result (λ read. IfErr read
        (λ reply. Declines (config_of settings.now) (reply_seen reply))) }
    ensures of_text { IfOk result (λ read. IfErr read (λ reply. IsOfText reply.status)) }
{
    match read_config(alloc, settings) {
        Ok(config) => Ok(Ok(config)),
        Err(fault) => Ok(Err(refuse_settings(alloc, &fault)?)),
    }
}

/// Refuses settings, with the line that says which key and why.
fn refuse_settings(alloc: Global, fault: &ConfFault) -> Result<Reply, Memory>
    ensures reply { (read : Result Settings ConfRefusal) → IsRefusal read fault.now →
        IfOk result (λ reply. Declines read (reply_seen reply)) }
    ensures of_text { IfOk result (λ reply. IsOfText reply.status) }
{
    if let ConfFault::Memory = fault {
        return Err(Memory);
    }
    let text = format!(in alloc; "{fault}\n")?;
    Ok(Reply {
        status: Status::BadConfig,
        octets: text.into_bytes(),
    })
}

/// Refuses a line of the input.
fn refuse_line(alloc: Global, line: u32, why: LineWhy) -> Result<Reply, Memory>
    ensures reply { IfOk result (λ reply. reply_seen reply ≡ reply_to_line line why) }
    ensures of_text { IfOk result (λ reply. IsOfText reply.status) }
{
    let text = format!(in alloc; "line {line} {why}\n")?;
    Ok(Reply {
        status: Status::BadLine(line),
        octets: text.into_bytes(),
    })
}

/// Replays events by these settings, and replies with the report.
fn reply_to_events(alloc: Global, config: &Config, script: &Script<Event>) -> Result<Reply, Memory>
    ensures reply { IfOk result
        (λ reply. IsReplyToRun (config_seen config.now) script.now (reply_seen reply)) }
    ensures of_text { IfOk result (λ reply. IsOfText reply.status) }
{
    let replayed = replay(alloc, config, script)?;
    reply_with(alloc, replayed.report, replayed.refused)
}

/// Replies with a report, and the line of the step that is refused behind it, if one is.
fn reply_with(alloc: Global, report: Vec<u8>, refused: Option<Refusal>) -> Result<Reply, Memory>
    ensures reply { IfOk result (λ reply. reply_seen reply ≡ says_with report.items refused) }
    ensures of_text { IfOk result (λ reply. IsOfText reply.status) }
{
    let Some(refusal) = refused else {
        return Ok(Reply {
            status: Status::Ok,
            octets: report,
        });
    };
    let line = format!(in alloc; "{refusal}\n")?;
    let mut octets = report;
    octets.extend_from_slice(line.as_bytes())?;
    Ok(Reply {
        status: Status::Outstanding(refusal.step),
        octets,
    })
}
