//! The program's words.

ghost use Rattle.std.specs.Prelude.{◌≡◌};
ghost use Rattle.ppp_cli.specs.Command.{command_in};

/// What the program is to do.
#[derive(Clone, Copy, Debug, PartialEq, Eq)]
pub(crate) enum Command {
    /// `replay`: replays a script.
    Replay,
    /// `feed`: feeds an end with lines.
    Feed,
    /// `show`: shows a capture of hex lines.
    Show,
}

impl Command {
    /// The command of the words behind the program's name. None exactly where they are those of no command.
    pub(crate) fn of(words: &[String]) -> Option<Command>
        ensures { result ≡ command_in words.now }
    {
        match words {
            [word] if word.as_str() == "replay" => Some(Command::Replay),
            [word] if word.as_str() == "feed" => Some(Command::Feed),
            [word] if word.as_str() == "show" => Some(Command::Show),
            _ => None,
        }
    }
}
