//! Scripts.

ghost use Rattle.std.specs.Prelude.{◌≡◌, ◌+◌, ◌-◌, ◌^◌, ◌<◌, ◌≤◌, ℕ, List, [], ◌∷◌, ◌++◌, length, sum_by, slice_get, All, Some, Ok, OnOk, OnErr, IfOk, IfErr};
ghost use Rattle.ppp_script.specs.declared.field.TheConstants.{MOST_LINKS};
ghost use Rattle.ppp_script.specs.declared.script.TheConstants.{MOST_STEPS};
ghost use Rattle.ppp_script.specs.Script.{is_no_step, step_of, script_from, events_of};
ghost use Rattle.ppp_script.specs.ScriptFault.{IsRefusal};

use crate::line::Line;
use crate::line_why::LineWhy;
use crate::script_fault::ScriptFault;
use ppp_text::split_line;
use std::alloc::{AllocError, Global};
use std::marker::Model;

/// The most steps of a script.
pub const MOST_STEPS: u32 = 100_000;

/// A script, seen as the list of its lines that are steps. They have at most 100,000 steps.
#[derive(Drop)]
pub struct Script<L: Line> {
    lines: Vec<L>,
    steps: u32,
}

impl<L: Line> Model for Script<L> {
    ghost use Rattle.std.specs.Prelude.{List};
    ghost use Rattle.ppp_script.specs.declared.field.TheConstants.{MOST_LINKS};
    ghost use Rattle.ppp_script.specs.Script.{IsScript};

    ghost Value = { List L };

    ghost view = { λ s. s.lines.items };

    ghost invariant = { λ s. IsScript L.form.steps (L.IsWithin MOST_LINKS) s.lines.items s.steps };
}

impl<L: Line> Script<L> {
    /// The number of lines. Their steps are at most 100,000.
    pub fn count(&self) -> usize
        ensures count { result ≡ length self.now }
        ensures steps { sum_by L.form.steps self.now ≤ MOST_STEPS }
    {
        self.lines.len()
    }

    /// The line at that place, counted from 0. Its numbers are within their bounds.
    pub fn at(&self, i: usize) -> &L
        requires { i < length self.now }
        ensures line { slice_get self.now i ≡ Some result.now }
        ensures within { L.IsWithin MOST_LINKS result.now }
    {
        &self.lines[i]
    }

    /// The script without lines.
    fn new(alloc: Global) -> Self
        ensures { result ≡ [] }
    {
        Script {
            lines: Vec::new(alloc),
            steps: 0,
        }
    }

    /// The steps of all lines.
    fn steps(&self) -> u32
        ensures steps { result ≡ sum_by L.form.steps self.now }
        ensures few { result ≤ MOST_STEPS }
    {
        self.steps
    }

    /// Adds a line at the end.
    fn push(&mut self, line: L) -> Result<(), AllocError>
        requires steps { sum_by L.form.steps self.old + L.form.steps line ≤ MOST_STEPS }
        requires within { L.IsWithin MOST_LINKS line }
        ensures ok { OnOk result (self.new ≡ self.old ++ line ∷ []) }
        ensures err { OnErr result (self.new ≡ self.old) }
    {
        let steps = line.steps();
        self.lines.push(line)?;
        self.steps += steps;
        Ok(())
    }
}

/// Reads a script, line by line. Empty lines and lines that begin with `#` are no step, but count as lines. A line ends
/// with LF or CR LF, which the last one may lack. `links` is the number of links that are configured: with 0 each line
/// that names one is refused.
///
/// The first line is refused that isn't of the form, with what [`Line::read`] says of it, or that brings the steps above
/// 100,000, with `Steps`. For a replay that is [`LineWhy::Link`] where a link from 1 to 255 isn't configured, and
/// [`LineWhy::Event`] for any other deviation; the earlier one in the line decides where it has two.
pub fn read_script<L: Line>(alloc: Global, text: &[u8], links: u8) -> Result<Script<L>, ScriptFault>
    requires { length text.now < 2 ^ 32 - 1 }
    ensures ok { IfOk result (λ script. events_of L.form links text.now ≡ Ok script) }
    ensures refused { IfErr result (IsRefusal (events_of L.form links text.now)) }
    ensures within { IfOk result (All (L.IsWithin links)) }
{
    let mut script = Script::new(alloc);
    let mut number: u32 = 1;
    let mut rest = text;
    'lines: while !rest.is_empty() {
        let (line, behind) = split_line(rest);
        take_line(alloc, &mut script, line, number, links)?;
        number += 1;
        rest = behind;
    }
    Ok(script)
}

/// Adds a line, if it is a step.
fn take_line<L: Line>(
    alloc: Global,
    script: &mut Script<L>,
    line: &[u8],
    number: u32,
    links: u8,
) -> Result<(), ScriptFault>
    ensures ok { OnOk result ((lines : List (List ℕ)) →
        script_from L.form links script.old number (line.now ∷ lines) ≡
        script_from L.form links script.new (number + 1) lines) }
    ensures refused { IfErr result (λ fault. (lines : List (List ℕ)) →
        IsRefusal (script_from L.form links script.old number (line.now ∷ lines)) fault) }
    ensures within { All (L.IsWithin links) script.old → All (L.IsWithin links) script.new }
{
    if is_no_step(line) {
        return Ok(());
    }
    match read_step::<L>(alloc, line, links, script.steps()) {
        Ok(Ok(step)) => match script.push(step) {
            Ok(()) => Ok(()),
            Err(_) => Err(ScriptFault::Memory),
        },
        Ok(Err(why)) => Err(ScriptFault::Refused { line: number, why }),
        Err(_) => Err(ScriptFault::Memory),
    }
}

/// What a line reads as behind this many steps.
#[tactic(auto, unfolding(crate::specs::Script::step_of))]
fn read_step<L: Line>(
    alloc: Global,
    line: &[u8],
    links: u8,
    steps: u32,
) -> Result<Result<L, LineWhy>, AllocError>
    requires { steps ≤ MOST_STEPS }
    ensures value { IfOk result (λ read. read ≡ step_of L.form links steps line.now) }
    ensures few { IfOk result (λ read. IfOk read (λ step. steps + L.form.steps step ≤ MOST_STEPS)) }
    ensures within { IfOk result (λ read. IfOk read (L.IsWithin links)) }
    ensures bounded { IfOk result (λ read. IfOk read (L.IsWithin MOST_LINKS)) }
{
    match L::read(alloc, line, links)? {
        Ok(step) => {
            if steps + step.steps() <= MOST_STEPS {
                Ok(Ok(step))
            } else {
                Ok(Err(LineWhy::Steps))
            }
        }
        Err(why) => Ok(Err(why)),
    }
}

/// Whether a line is no step: an empty one, or one that begins with `#`.
fn is_no_step(line: &[u8]) -> bool
    ensures { result ≡ is_no_step line.now }
{
    matches!(line, [] | [b'#', ..])
}
