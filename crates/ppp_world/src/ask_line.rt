//! The line of a report on what an end asks its peer (after RFC 2125).

ghost use Rattle.std.specs.Prelude.{◌≡◌, ◌++◌, OnOk, Some};
ghost use Rattle.std.specs.String.{string_bytes};
ghost use Rattle.ppp_world.specs.AskLine.{answer_text, ask_line, ask_text, refused_text};

use ppp_memory::Memory;
use ppp_party::Answer;
use ppp_script::End;
use ppp_station::{AskRefused, BapAsk};
use std::fmt;

/// Writes the line of what an end asks in a step, and of what is answered.
#[tactic(auto, unfolding(crate::specs::AskLine::ask_line))]
pub(crate) fn write_ask(
    report: &mut String,
    step: u32,
    end: End,
    ask: BapAsk,
    answer: Answer,
) -> Result<(), Memory>
    ensures { OnOk result (string_bytes report.new
        ≡ string_bytes report.old ++ ask_line step end ask answer) }
{
    let ask = AskText(ask);
    let answer = AnswerText(answer);
    write!(report, "ask {step} {end} {ask} {answer}\n").map_err(|_| Memory)
}

/// What is asked.
#[derive(Clone, Copy)]
pub(crate) struct AskText(pub(crate) BapAsk);

impl fmt::Display for AskText {
    ghost output = { λ a. Some (ask_text a.0) };

    fn fmt<W: fmt::Write>(&self, f: &mut fmt::Formatter<W>) -> fmt::Result {
        match self.0 {
            BapAsk::Call => write!(f, "call"),
            BapAsk::Callback => write!(f, "callback"),
            BapAsk::Drop(link) => write!(f, "drop {link}"),
        }
    }
}

/// That it was sent, or why it wasn't.
#[derive(Clone, Copy)]
struct AnswerText(Answer);

impl fmt::Display for AnswerText {
    ghost output = { λ a. Some (answer_text a.0) };

    fn fmt<W: fmt::Write>(&self, f: &mut fmt::Formatter<W>) -> fmt::Result {
        match self.0 {
            Ok(()) => write!(f, "sent"),
            Err(why) => {
                let why = RefusedText(why);
                write!(f, "{why}")
            }
        }
    }
}

/// Why it wasn't.
#[derive(Clone, Copy)]
struct RefusedText(AskRefused);

impl fmt::Display for RefusedText {
    ghost output = { λ r. Some (refused_text r.0) };

    fn fmt<W: fmt::Write>(&self, f: &mut fmt::Formatter<W>) -> fmt::Result {
        match self.0 {
            AskRefused::NotOpen => write!(f, "NotOpen"),
            AskRefused::Waiting => write!(f, "Waiting"),
            AskRefused::Full(count) => write!(f, "Full {count}"),
            AskRefused::NotJoined(link) => write!(f, "NotJoined {link}"),
            AskRefused::NoNumber(link) => write!(f, "NoNumber {link}"),
            AskRefused::Promised(link) => write!(f, "Promised {link}"),
            AskRefused::LastLink(count) => write!(f, "LastLink {count}"),
        }
    }
}
