//! The two parts of an input.

ghost use Rattle.std.specs.Prelude.{◌≡◌, ◌≤◌, length};
ghost use Rattle.ppp_text.specs.Parts.{settings_in, script_in};

use crate::lines::split_line;

/// The two parts of an input.
#[derive(Clone, Copy, Debug, PartialEq, Eq)]
pub struct Parts<'a> {
    /// What stands before the line `---`, or all where no line is that.
    pub settings: &'a [u8],
    /// What stands behind the line `---`, or nothing.
    pub script: &'a [u8],
}

/// Parts an input at its first line that is exactly `---`: a last line `---` without LF parts too, and one with a CR
/// behind it doesn't.
pub fn part_input(text: &[u8]) -> Parts<'_>
    ensures settings { result.settings.now ≡ settings_in text.now }
    ensures script { result.script.now ≡ script_in text.now }
    ensures within { length result.script.now ≤ length text.now }
{
    let mut rest = text;
    'lines: while !rest.is_empty() {
        let (line, behind) = split_line(rest);
        if line == b"---".as_slice() {
            let (settings, _) = text.split_at(text.len() - rest.len());
            return Parts {
                settings,
                script: behind,
            };
        }
        rest = behind;
    }
    Parts {
        settings: text,
        script: rest,
    }
}
