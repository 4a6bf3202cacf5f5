// How many commands the sessions will post.
ghost use Rattle.std.specs.Prelude.{◌≡◌, ◌≤◌};
ghost use Rattle.session_hall.specs.Streams.{command_count};

use market_units::MAX_COMMANDS;
use utility_language::Command;

/// How many commands all streams have together.
pub(crate) fn count_commands(streams: &[Vec<Command>]) -> u32
    requires { command_count streams.now ≤ MAX_COMMANDS }
    ensures { result ≡ command_count streams.now }
{
    let mut count = 0;
    for stream in streams {
        count += stream.len() as u32;
    }
    count
}
