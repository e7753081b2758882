// The command: the first argument.
use std::rt::Env;
use system::arguments::argument;

#[derive(Clone, Copy)]
pub enum Command {
    Help,
    List,
    Records,
    Read,
    Write,
    Words,
    Bitmap,
    Frames,
    Extract,
}

fn command_of(word: &[u8]) -> Option<Command> {
    match word {
        b"help" | b"--help" | b"-h" => Some(Command::Help),
        b"list" => Some(Command::List),
        b"records" => Some(Command::Records),
        b"read" => Some(Command::Read),
        b"write" => Some(Command::Write),
        b"words" => Some(Command::Words),
        b"bitmap" => Some(Command::Bitmap),
        b"frames" => Some(Command::Frames),
        b"extract" => Some(Command::Extract),
        _ => None,
    }
}

// The command, or none where there is none by that name.
pub fn chosen(env: &impl Env) -> Option<Command> {
    let mut space = [0u8; 4096];
    let n = argument(env, 1, &mut space);
    command_of(&space[..n])
}
