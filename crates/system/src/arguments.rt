// The arguments of the program. Argument 0 is its own name.
ghost use Rattle.std.specs.Prelude.{◌≤◌, length};

use std::env::FillError;
use std::rt::Env;

// Puts argument i at the front of a buffer, and answers its length, or 0 where there is none or it is longer than the buffer.
pub fn argument(env: &impl Env, i: usize, buf: &mut [u8]) -> usize
    ensures { result ≤ length buf.new }
{
    env.arg(i, buf).unwrap_or(0)
}

fn is_argument(env: &impl Env, i: usize) -> bool {
    let mut space = [0u8; 1];
    !matches!(env.arg(i, &mut space), Err(FillError::NotPresent))
}

// How many arguments there are, the program's own name among them.
pub fn argument_count(env: &impl Env) -> usize {
    for i in 0..usize::MAX {
        if !is_argument(env, i) {
            return i;
        }
    }
    usize::MAX
}
