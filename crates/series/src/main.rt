// Replays a series of traces on standard input and prints the listing of each. A trace is preceded by its length, 4 bytes
// with the high byte first, and goes on from the pool and the tally of the one before. The first trace starts from a fresh
// pool and a tally of zeros, and so does the one after a length of 0, for which `anew` is printed.
#![tactic(auto)]

use lines::read_full;
use pool::Pool;
use std::io::{Read, Result};
use tally::Tally;

// The most bytes of a trace.
const INPUT_ROOM: usize = 65536;

// The most traces of a series.
const TURNS: u32 = 100000;

// What a trace goes on from.
#[derive(Clone, Copy)]
struct Start {
    pool: Pool,
    tally: Tally,
}

// A fresh start for a trace.
fn started(bytes: &[u8]) -> Start {
    Start {
        pool: listing::fresh_for(bytes),
        tally: tally::zero(),
    }
}

// Where the next trace goes on, if it does not start afresh. A refused trace leaves that as it was.
fn replayed(out: &impl Print, before: Option<Start>, bytes: &[u8]) -> Result<Option<Start>> {
    let from = match before {
        Some(start) => start,
        None => started(bytes),
    };
    let ended = listing::list(out, from.pool, from.tally, bytes)?;
    if ended.refusal != 0 {
        return Ok(before);
    }
    Ok(Some(Start {
        pool: ended.pool,
        tally: ended.tally,
    }))
}

fn worked(out: &impl Print, before: Option<Start>, item: &[u8]) -> Result<Option<Start>> {
    if item.is_empty() {
        println!(out; "anew")?;
        return Ok(None);
    }
    replayed(out, before, item)
}

// The next item, once all of it is read; none where it is not whole or does not fit the space.
fn next_item<'a>(from: &mut impl Read, space: &'a mut [u8]) -> Result<Option<&'a [u8]>> {
    let mut head = [0u8; 4];
    if read_full(from, &mut head)? < 4 {
        return Ok(None);
    }
    let size = u32::from_be_bytes(head) as usize;
    if space.len() < size {
        return Ok(None);
    }
    let item = &mut space[..size];
    if read_full(from, item)? < size {
        return Ok(None);
    }
    Ok(Some(item))
}

// The turns are counted, since nothing says that the input ends.
fn main(rt: HostRuntime) -> Result<()> {
    let mut space = [0u8; INPUT_ROOM];
    let mut input = rt.stdin();
    let mut start = None;
    for _ in 0..TURNS {
        match next_item(&mut input, &mut space)? {
            Some(item) => start = worked(&rt, start, item)?,
            None => break,
        }
    }
    Ok(())
}
