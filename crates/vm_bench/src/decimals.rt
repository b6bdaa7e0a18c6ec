//! The calls of `vm_decimal`, over pairs of numbers that stand on a line each.

use std::alloc::{AllocError, Global};
use std::cmp::Ordering;
use vm_decimal::{Dec, read};

#[derive(Clone, Copy)]
enum Operation {
    Add,
    Multiply,
    Divide,
}

/// Calls the operation on each pair, in all rounds, and gives how many calls had an answer that
/// counts: a number, a pair that rises, or a byte that is written. Nothing where no operation has
/// this name.
pub(crate) fn calculate(
    alloc: Global,
    input: &[u8],
    operation: &str,
    rounds: u32,
) -> Result<String, AllocError> {
    let pairs = pairs(alloc, input)?;
    let counted = match operation {
        "read" => read_all(alloc, input, rounds)?,
        "print" => print_all(alloc, &pairs, rounds)?,
        "compare" => compare_all(&pairs, rounds),
        "add" => results(alloc, &pairs, rounds, Operation::Add)?,
        "mul" => results(alloc, &pairs, rounds, Operation::Multiply)?,
        "quot9" => results(alloc, &pairs, rounds, Operation::Divide)?,
        _ => return Ok(String::new(alloc)),
    };
    format!(in alloc; "counted {counted}")
}

/// The numbers of each line that has two.
fn pairs(alloc: Global, input: &[u8]) -> Result<Vec<(Dec, Dec)>, AllocError> {
    let mut pairs = Vec::new(alloc);
    for line in input.split(|byte| *byte == b'\n') {
        let mut words = line.split(|byte| *byte == b' ');
        if let (Some(one), Some(two)) = (words.next(), words.next()) {
            if let (Ok(one), Ok(two)) = (read(one), read(two)) {
                pairs.push((one, two))?;
            }
        }
    }
    Ok(pairs)
}

fn result(operation: Operation, one: Dec, two: Dec) -> Option<Dec> {
    match operation {
        Operation::Add => one.add(two).ok(),
        Operation::Multiply => one.mul(two).ok(),
        Operation::Divide => one.quot9(two).unwrap_or(None),
    }
}

/// Keeps each result in a place of its own, so that none is left out.
fn results(
    alloc: Global,
    pairs: &[(Dec, Dec)],
    rounds: u32,
    operation: Operation,
) -> Result<u64, AllocError> {
    let mut places = vec![in alloc; None; pairs.len()]?;
    for _round in 0..rounds {
        for (place, (one, two)) in places.iter_mut().zip(pairs) {
            *place = result(operation, *one, *two);
        }
    }
    Ok(places.iter().filter(|place| place.is_some()).count() as u64)
}

/// How many pairs rise.
fn compare_all(pairs: &[(Dec, Dec)], rounds: u32) -> u64 {
    let mut rising = 0u64;
    for _round in 0..rounds {
        for (one, two) in pairs {
            if one.cmp(two) == Ordering::Less {
                rising = rising.saturating_add(1);
            }
        }
    }
    rising
}

fn read_all(alloc: Global, input: &[u8], rounds: u32) -> Result<u64, AllocError> {
    let mut texts = Vec::new(alloc);
    for line in input.split(|byte| *byte == b'\n') {
        for word in line.split(|byte| *byte == b' ') {
            texts.push(word)?;
        }
    }
    let mut numbers = 0u64;
    for _round in 0..rounds {
        for text in &texts {
            if read(text).is_ok() {
                numbers = numbers.saturating_add(1);
            }
        }
    }
    Ok(numbers)
}

/// How many bytes were written.
fn print_all(alloc: Global, pairs: &[(Dec, Dec)], rounds: u32) -> Result<u64, AllocError> {
    let mut out = Vec::new(alloc);
    let mut written = 0u64;
    for _round in 0..rounds {
        for (one, _) in pairs {
            out.clear();
            one.print(&mut out)?;
            written = written.saturating_add(out.len() as u64);
        }
    }
    Ok(written)
}
