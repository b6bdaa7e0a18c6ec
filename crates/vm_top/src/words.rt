//! The words of a command line.

ghost use Rattle.std.specs.Prelude.{◌≡◌, ◌<◌, ◌^◌, ◌++◌, ◌∷◌, [], IfSome, map, string_bytes, codes};
ghost use Rattle.std.specs.Option.{option_map};
ghost use Rattle.std.specs.Str.{bytes_eq};
ghost use Rattle.vm_top.specs.inner.Asked.{task_of, IsSmall};
ghost use Rattle.vm_top.specs.Words.{asked, last_of, replay_of, positional, time_of};

use vm_base::limits::MAX_TIME;
use vm_labels::is_name;
use vm_script::read_number;

/// What a command line asks for.
#[derive(Clone, Copy)]
pub enum Task<'a> {
    /// `last NAME TIME`: a metric's name, and a time in ms since the Unix epoch.
    Last { name: &'a str, time: u64 },
    /// `replay`.
    Replay,
}

/// Reads the words of a command line. None where they are no command.
pub fn asked(words: &[String]) -> Option<Task<'_>>
    ensures value { option_map task_of result ≡ asked (map string_bytes words.now) }
    ensures small { IfSome result IsSmall }
{
    let [command, rest @ ..] = words else {
        return None;
    };
    let (before, after) = positional(rest);
    match command.as_str() {
        "last" => last_of(before, after),
        "replay" => replay_of(before, after),
        _ => None,
    }
}

fn replay_of<'a>(before: &'a [String], after: &'a [String]) -> Option<Task<'a>>
    ensures value { option_map task_of result
        ≡ replay_of (map string_bytes before.now ++ map string_bytes after.now) }
    ensures small { IfSome result IsSmall }
{
    if before.is_empty() && after.is_empty() {
        Some(Task::Replay)
    } else {
        None
    }
}

/// The words before the first `--` and those after it.
fn positional(words: &[String]) -> (&[String], &[String])
    ensures { map string_bytes result.0.now ++ map string_bytes result.1.now
        ≡ positional (map string_bytes words.now) }
{
    for (i, word) in words.iter().enumerate() {
        if ends_options(word) {
            return (&words[..i], &words[i + 1..]);
        }
    }
    (words, &[])
}

fn ends_options(word: &String) -> bool
    ensures { result ≡ bytes_eq (string_bytes word.now) (codes "--") }
{
    word.as_str() == "--"
}

fn last_of<'a>(before: &'a [String], after: &'a [String]) -> Option<Task<'a>>
    ensures value { option_map task_of result
        ≡ last_of (map string_bytes before.now ++ map string_bytes after.now) }
    ensures small { IfSome result IsSmall }
{
    match before {
        [] => match after {
            [name, time] => name_and_time(name, time),
            _ => None,
        },
        [name] => match after {
            [time] => name_and_time(name, time),
            _ => None,
        },
        [name, time] => {
            if after.is_empty() {
                name_and_time(name, time)
            } else {
                None
            }
        }
        _ => None,
    }
}

fn name_and_time<'a>(name: &'a String, time: &String) -> Option<Task<'a>>
    ensures value { option_map task_of result
        ≡ last_of (string_bytes name.now ∷ string_bytes time.now ∷ []) }
    ensures small { IfSome result IsSmall }
{
    if !is_name(name.as_bytes()) {
        return None;
    }
    let time = time_of(time)?;
    Some(Task::Last {
        name: name.as_str(),
        time,
    })
}

fn time_of(word: &String) -> Option<u64>
    ensures value { result ≡ time_of (string_bytes word.now) }
    ensures small { IfSome result (λ time. time < 2 ^ 48) }
{
    read_number(word.as_bytes()).filter(|time| *time <= MAX_TIME)
}
