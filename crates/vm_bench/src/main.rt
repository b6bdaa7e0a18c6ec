//! What a benchmark calls and the program doesn't: one call, many times.
//!
//! `promtext ROUNDS` reads each line of standard input by `vm_promtext::read_line`, and prints how
//! many rows there were and how many lines were skipped. `copy ROUNDS` copies all bytes of the
//! input to another place in memory, which is the yardstick, and prints how many it copied.
//! `decimals OPERATION ROUNDS` calls an operation of `vm_decimal` on the two numbers of each line,
//! and prints how many answers counted. With 0 rounds they take the time of reading the input.
//! `queries ROUNDS` cuts each line into tokens, reads them as a query, prints it and checks it, and
//! prints how many were queries, how many of these had no fault, and how many bytes their canonical
//! texts have.
//!
//! `encode KIND ROUNDS`, `decode KIND ROUNDS` and `move KIND ROUNDS` make a series of 16 blocks,
//! constant, counter, gauge or random, and write its blocks, read them, or copy their samples in
//! memory; each prints how many samples and how many bytes of blocks that were. With 0 rounds they
//! take the time of making the series.
//!
//! `parts ROUNDS` makes a part of each of five batches of the lines of standard input, one part of
//! these, opens its file, looks labels up a thousand times in each round and copies the file, and
//! tells how many bytes the file has, how many series were found and how many microseconds each
//! took. The scripts of `bench/` take the times of the others.
#![tactic(auto)]

mod blocks;
mod decimals;
mod lines;
mod parts;
mod queries;

use anyhow::{Result, bail};
use std::alloc::{AllocError, Global};
use std::env;
use std::io::Read;
use std::time::Clock;

fn main(rt: HostRuntime) -> Result<()> {
    let alloc = rt.alloc();
    let mut input = Vec::new(alloc);
    rt.stdin().read_to_end(&mut input)?;
    let mut words = Vec::new(alloc);
    for word in env::args(&rt)?.skip(1) {
        words.push(word)?;
    }
    let (call, kind, rounds) = match words.as_slice() {
        [call, rounds] => (call.as_str(), "", rounds.as_str()),
        [call, kind, rounds] => (call.as_str(), kind.as_str(), rounds.as_str()),
        _ => bail!("usage"),
    };
    let rounds = rounds.parse::<u32>()?;
    let told = told(&rt, alloc, call, kind, &input, rounds)?;
    if told.is_empty() {
        bail!("usage");
    }
    println!(rt; "{told}")?;
    Ok(())
}

/// What so many calls come to. Nothing where no call has these words.
fn told<C: Clock>(
    clock: &C,
    alloc: Global,
    call: &str,
    kind: &str,
    input: &[u8],
    rounds: u32,
) -> Result<String, AllocError> {
    match call {
        "promtext" => lines::read_all(alloc, input, rounds),
        "copy" => lines::copy(alloc, input, rounds),
        "queries" => queries::read_and_print(alloc, input, rounds),
        "parts" => parts::run(clock, alloc, input, rounds),
        "decimals" => decimals::calculate(alloc, input, kind, rounds),
        "encode" | "decode" | "move" => blocks::run(alloc, call, kind, rounds),
        _ => Ok(String::new(alloc)),
    }
}
