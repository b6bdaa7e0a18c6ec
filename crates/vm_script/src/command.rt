//! The commands of the replay script.

ghost use Rattle.std.specs.Prelude.{◌≡◌, ◌<◌, ◌^◌, None, Some, IfOk, IfSome, if◌then◌else◌};
ghost use Rattle.std.specs.Option.{option_map};
ghost use Rattle.std.specs.Str.{is_utf8};
ghost use Rattle.vm_script.specs.Command.{IsBounded, command_of, is_body_end, said_by, commands};
ghost use Rattle.vm_script.specs.declared.command.Command.TheVariants.{Import};
ghost use Rattle.vm_script.specs.Command.{first_word, behind_word, now_of, run_of, query_of};

use crate::number::read_number;
use std::alloc::{AllocError, Global};
use vm_base::Text;
use vm_base::limits::{MAX_IMPORT_LINE, MAX_TIME};

/// The greatest number of a run.
const MAX_RUN: u64 = 999;

/// How the lines of a body are written.
#[derive(Clone, Copy, Debug, PartialEq, Eq)]
pub enum Format {
    /// The Prometheus text format 0.0.4.
    Prom,
    /// JSON, an object a line, as VictoriaMetrics exports it.
    Json,
}

/// A command of the replay script. Times are in ms since the Unix epoch.
#[derive(Debug, Drop)]
pub enum Command {
    /// `prom NOW` or `json NOW`: imports the lines up to the line `.`, at the time `now`.
    Import {
        format: Format,
        now: u64,
    },
    /// `query ID TIME EXPR`: begins the run of an instant query.
    Query {
        run: u64,
        time: u64,
        expression: Text,
    },
    /// `run ID`: reads one series for a run.
    Run {
        run: u64,
    },
    /// `end ID`: reads what is left of a run, and gives its answer.
    End {
        run: u64,
    },
    /// `close ID`: lets a run go.
    Close {
        run: u64,
    },
}

/// The command that a line says, without its line end. None where it says none, so that the script
/// ends there.
pub fn read_command(alloc: Global, line: &[u8]) -> Result<Option<Command>, AllocError>
    ensures value { IfOk result (λ command. command ≡ command_of line.now) }
    ensures bounded { IfOk result (λ command. IfSome command IsBounded) }
{
    if line.len() as u64 > MAX_IMPORT_LINE {
        return Ok(None);
    }
    match text_of(line) {
        Some(text) => said(alloc, text),
        None => Ok(None),
    }
}

/// The line as a text, where it is one.
fn text_of(line: &[u8]) -> Option<&str>
    ensures { option_map (λ text. text.now) result
        ≡ (if is_utf8 line.now then Some line.now else None) }
{
    match std::str::from_utf8(line) {
        Ok(text) => Some(text),
        Err(_) => None,
    }
}

fn said(alloc: Global, line: &str) -> Result<Option<Command>, AllocError>
    ensures value { IfOk result (λ command.
        command ≡ said_by (first_word line.now) (commands (behind_word line.now))) }
    ensures bounded { IfOk result (λ command. IfSome command IsBounded) }
{
    let (word, words) = parted(line);
    match word {
        "prom" => Ok(import_of(Format::Prom, words)),
        "json" => Ok(import_of(Format::Json, words)),
        "query" => read_query(alloc, words),
        "run" => Ok(run_of(words).map(|run| Command::Run { run })),
        "end" => Ok(run_of(words).map(|run| Command::End { run })),
        "close" => Ok(run_of(words).map(|run| Command::Close { run })),
        _ => Ok(None),
    }
}

fn import_of(format: Format, words: &str) -> Option<Command>
    ensures value { result ≡ option_map (Import format) (now_of words.now) }
    ensures bounded { IfSome result IsBounded }
{
    now_of(words).map(|now| Command::Import { format, now })
}

fn read_query(alloc: Global, words: &str) -> Result<Option<Command>, AllocError>
    ensures value { IfOk result (λ command. command ≡ query_of words.now) }
    ensures bounded { IfOk result (λ command. IfSome command IsBounded) }
{
    let (run, rest) = parted(words);
    let (time, expression) = parted(rest);
    let (Some(run), Some(time)) = (run_of(run), read_number(time.as_bytes())) else {
        return Ok(None);
    };
    if expression.is_empty() {
        return Ok(None);
    }
    let expression = Text::from_str(alloc, expression)?;
    Ok(Some(Command::Query {
        run,
        time,
        expression,
    }))
}

/// The first word and what stands after the space after it.
fn parted(text: &str) -> (&str, &str)
    ensures word { result.0.now ≡ first_word text.now }
    ensures rest { result.1.now ≡ behind_word text.now }
{
    match text.split_once(' ') {
        Some(parts) => parts,
        None => (text, ""),
    }
}

fn now_of(word: &str) -> Option<u64>
    ensures value { result ≡ now_of word.now }
    ensures bounded { IfSome result (λ now. now < 2 ^ 48) }
{
    read_number(word.as_bytes()).filter(|now| *now <= MAX_TIME)
}

fn run_of(word: &str) -> Option<u64>
    ensures value { result ≡ run_of word.now }
    ensures bounded { IfSome result (λ run. run < 1000) }
{
    read_number(word.as_bytes()).filter(|run| *run <= MAX_RUN)
}

/// Whether a line ends a body.
pub fn is_body_end(line: &[u8]) -> bool
    ensures { result ≡ is_body_end line.now }
{
    line == b".".as_slice()
}
