// What a program's arguments ask for: nothing more than its work, its help, or its one option, which takes a word. The first argument decides.
ghost use Rattle.std.specs.Prelude.{◌≡◌, ◌≤◌, length, IfSome};
ghost use Rattle.program.specs.Arguments.{option_of, request_of};

use std::env::FillError;
use std::rt::Env;

#[derive(Clone, Copy)]
pub enum Request {
    // Its work.
    Run,
    // Its help.
    Help,
    // Its option, with a word behind it.
    Option,
    // Its option, and nothing behind it.
    OptionAlone,
    // Its option, and more than one word behind it.
    OptionAndMore,
    // What it doesn't know.
    Unknown,
}

// How many words a program was started with, its own name among them.
pub fn count(env: &impl Env) -> usize {
    (0..usize::MAX)
        .take_while(|i| !matches!(env.arg(*i, &mut [0u8; 1]), Err(FillError::NotPresent)))
        .count()
}

// Argument i, where there is one, which is put at the start of `word`: of one that is too long as many bytes as have room.
pub fn get<'a>(env: &impl Env, i: usize, word: &'a mut [u8]) -> Option<&'a [u8]>
    ensures { IfSome result (λ w. length w.now ≤ length word.old) }
{
    match env.arg(i, word) {
        Ok(n) => Some(&word[..n]),
        Err(FillError::TooLong) => Some(word),
        Err(FillError::NotPresent) => None,
    }
}

// What the option asks for that is the first of `count` words, the program's name among them.
#[tactic(auto, unfolding(crate::specs::Arguments::option_of))]
fn option(count: usize) -> Request
    ensures { result ≡ option_of count }
{
    match count {
        0..3 => Request::OptionAlone,
        3 => Request::Option,
        _ => Request::OptionAndMore,
    }
}

// What a program is asked for that was started with `count` words, its own name among them; `first` is the one behind its name, and `name` that of
// its option.
#[tactic(auto, unfolding(crate::specs::Arguments::request_of))]
pub fn asked(count: usize, first: &[u8], name: &[u8]) -> Request
    ensures { result ≡ request_of count first.now name.now }
{
    if count < 2 {
        return Request::Run;
    }
    match first {
        b"--help" | b"-h" => Request::Help,
        _ if first == name => option(count),
        _ => Request::Unknown,
    }
}
