use std::alloc::{AllocError, Global};
use std::cell::Cell;
use std::env::FillError;
use std::io::{ErrorKind, Read, Write};
use std::test::Fail;
use std::time::Duration;
use std::{io, rt};
use vm_outside::{Clock, Failed, Source, write_all};
use vm_system::{ReaderSource, SystemClock, WriterSink, words};

/// How a call of a stream in memory goes: it moves so many bytes at most, or fails.
type Step = Result<usize, ErrorKind>;

/// A stream in memory, to be read or to be written. Its calls take the steps in order, and move
/// nothing after the last.
#[derive(Drop)]
struct Stepwise {
    bytes: Vec<u8>,
    /// How many of the bytes were read.
    at: usize,
    steps: Vec<Step>,
    /// How many calls there were.
    calls: usize,
}

impl Stepwise {
    /// A stream that a signal interrupts so often before the steps.
    fn new(
        alloc: Global,
        bytes: &[u8],
        signals: usize,
        steps: [Step; 3],
    ) -> Result<Stepwise, AllocError> {
        let mut all = vec![in alloc; Err(ErrorKind::Interrupted); signals]?;
        all.extend_from_slice(&steps)?;
        Ok(Stepwise {
            bytes: Vec::from_slice(alloc, bytes)?,
            at: 0,
            steps: all,
            calls: 0,
        })
    }

    fn step(&mut self) -> io::Result<usize> {
        let step = match self.steps.get(self.calls) {
            Some(step) => *step,
            None => Ok(0),
        };
        self.calls = self.calls.saturating_add(1);
        match step {
            Ok(most) => Ok(most),
            Err(kind) => Err(io::Error::from(kind)),
        }
    }
}

impl Read for Stepwise {
    fn read(&mut self, buf: &mut [u8]) -> io::Result<usize> {
        let most = self.step()?.min(buf.len());
        let rest = self.bytes.get(self.at..).unwrap_or(&[]);
        let n = most.min(rest.len());
        buf[..n].copy_from_slice(&rest[..n]);
        self.at = self.at.saturating_add(n);
        Ok(n)
    }
}

impl Write for Stepwise {
    fn write(&mut self, buf: &[u8]) -> io::Result<usize> {
        let n = self.step()?.min(buf.len());
        self.bytes.extend_from_slice(&buf[..n])?;
        Ok(n)
    }

    fn flush(&mut self) -> io::Result<()> {
        Ok(())
    }
}

/// What four calls of `read` give, `|` for each that failed, and `.` for each that gave nothing.
fn told_by<S: Source>(alloc: Global, source: &mut S) -> Result<Vec<u8>, AllocError> {
    let mut told = Vec::new(alloc);
    let mut piece = [0u8; 4];
    for _ in 0..4 {
        match source.read(&mut piece) {
            Ok(0) => told.push(b'.')?,
            Ok(n) => told.extend_from_slice(&piece[..n])?,
            Err(Failed) => told.push(b'|')?,
        }
    }
    Ok(told)
}

/// The bytes come in order, a read that fails in mid-stream loses none, and a signal is no fault
/// before the 64th try.
#[test]
fn reads(rt: HostRuntime) -> Result<(), Fail> {
    let alloc = rt.alloc();
    for (signals, steps, want) in [
        (0, [Ok(9), Ok(9), Ok(9)], b"abcdef..".as_slice()),
        (
            0,
            [Ok(1), Err(ErrorKind::BrokenPipe), Ok(9)],
            b"a|bcde.".as_slice(),
        ),
        (63, [Ok(9), Ok(1), Ok(9)], b"abcdef.".as_slice()),
        (64, [Ok(9), Ok(1), Ok(9)], b"|abcdef".as_slice()),
    ] {
        let reader = Stepwise::new(alloc, b"abcdef", signals, steps)?;
        let told = told_by(alloc, &mut ReaderSource::new(reader))?;
        assert_eq!(rt; told.as_slice(), want, "{signals} signals");
    }
    Ok(())
}

/// What is written goes on to the writer, up to the first call that fails or takes nothing.
#[test]
fn writes(rt: HostRuntime) -> Result<(), Fail> {
    let alloc = rt.alloc();
    for (signals, steps, done, want) in [
        (0, [Ok(9), Ok(9), Ok(9)], Ok(()), b"abcdef".as_slice()),
        (0, [Ok(4), Ok(9), Ok(9)], Ok(()), b"abcdef".as_slice()),
        (
            0,
            [Ok(4), Err(ErrorKind::BrokenPipe), Ok(9)],
            Err(Failed),
            b"abcd".as_slice(),
        ),
        (0, [Ok(4), Ok(0), Ok(9)], Err(Failed), b"abcd".as_slice()),
        (63, [Ok(4), Ok(9), Ok(9)], Ok(()), b"abcdef".as_slice()),
        (64, [Ok(9), Ok(9), Ok(9)], Err(Failed), b"".as_slice()),
    ] {
        let mut writer = Stepwise::new(alloc, b"", signals, steps)?;
        let answer = write_all(&mut WriterSink::new(&mut writer), b"abcdef");
        assert_eq!(rt;
            (answer, writer.bytes.as_slice()),
            (done, want),
            "{signals} signals"
        );
    }
    Ok(())
}

/// A clock that shows what it is set to.
#[derive(Drop)]
struct Dial(Cell<Option<Duration>>);

impl rt::Clock for Dial {
    fn monotonic(&self) -> io::Result<Duration> {
        self.since_1970()
    }

    fn since_1970(&self) -> io::Result<Duration> {
        match self.0.get() {
            Some(time) => Ok(time),
            None => Err(io::Error::from(ErrorKind::Unsupported)),
        }
    }
}

/// The last answer is given again where the system gives no time, or one after 2^48 - 1 ms.
#[test]
fn tells_the_time(rt: HostRuntime) {
    let dial = Dial(Cell::new(None));
    let mut clock = SystemClock::new(&dial);
    for (shown, want) in [
        (None, 0),
        (Some(Duration::new(1, 999_999_999)), 1999),
        (None, 1999),
        (Some(Duration::from_millis(281_474_976_710_656)), 1999),
        (
            Some(Duration::from_millis(281_474_976_710_655)),
            281_474_976_710_655,
        ),
        (Some(Duration::from_millis(7)), 7),
    ] {
        dial.0.set(shown);
        assert_eq!(rt; clock.now_ms(), want, "at {shown:?}");
    }
}

/// A command line of one word and the program's name.
#[derive(Drop)]
struct OneWord<'a>(&'a [u8]);

impl rt::Env for OneWord<'_> {
    fn arg(&self, i: usize, buf: &mut [u8]) -> Result<usize, FillError> {
        let word = match i {
            0 => b"vmsingle".as_slice(),
            1 => self.0,
            _ => return Err(FillError::NotPresent),
        };
        if buf.len() < word.len() {
            return Err(FillError::TooLong);
        }
        buf[..word.len()].copy_from_slice(word);
        Ok(word.len())
    }

    fn var(&self, _name: &str, _buf: &mut [u8]) -> Result<usize, FillError> {
        Err(FillError::NotPresent)
    }

    fn var_at(&self, _i: usize, _buf: &mut [u8]) -> Result<usize, FillError> {
        Err(FillError::NotPresent)
    }
}

/// The program's name is left out, and with a word that isn't UTF-8 there are none.
#[test]
fn words_of_the_command_line(rt: HostRuntime) -> Result<(), Fail> {
    for (word, want) in [
        (b"last".as_slice(), Some("last")),
        (b"\xff".as_slice(), None),
    ] {
        let words = words(&(OneWord(word), rt.alloc()))?;
        assert_eq!(rt; words.first().map(|word| word.as_str()), want);
    }
    Ok(())
}
