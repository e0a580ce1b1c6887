// Hands each case on standard input to one of the calls that read, write, check and replay pools, and prints what it answers
// and all lent memory afterwards. A case is 16 numbers of 4 bytes, high byte first, then an image, then a trace. The numbers:
// the call (0 read, 1 write, 2 check, 3 step, 4 replay, 5 counts); the lengths of image and trace; how many row places are
// lent, and how many places for written pages, or bytes for `write`; the six counts of the tally; page and kind; the order
// for `write`, 0 for high; two that mean nothing. A case that is not whole or does not fit ends the run.
#![tactic(auto)]

ghost use Rattle.std.specs.Prelude.{◌<◌};

mod dump;

use lines::{Spaced, Text, read_full};
use pool::Pool;
use refusal::answer_of;
use std::io::{Read, Result, Write};
use tally::Tally;
use word::{Order, Word};

// The most bytes of an image or a trace.
const INPUT_ROOM: usize = 60000;

// The most places and bytes that are lent.
const ROW_ROOM: usize = 4096;

const LIST_ROOM: usize = 1024;

const BYTE_ROOM: usize = 16384;

// The most cases.
const TURNS: u32 = 1000000000;

// A call on the pool that an image holds.
#[derive(Clone, Copy)]
enum PoolCall {
    Write,
    Check,
    Step,
    Replay,
    Counts,
}

#[derive(Clone, Copy)]
enum Call {
    Read,
    OnPool(PoolCall),
}

// A case but for its bytes. A number that no call has asks for nothing.
#[derive(Clone, Copy)]
struct Case {
    call: Option<Call>,
    image: usize,
    trace: usize,
    rows: usize,
    places: usize,
    tally: Tally,
    page: u32,
    kind: u16,
    order: Order,
}

fn number(head: &[u8; 64], i: usize) -> u32
    requires { i < 16 }
{
    u32::get(head, 4 * i, Order::High)
}

fn tally_in(head: &[u8; 64]) -> Tally {
    Tally {
        hits: number(head, 5),
        misses: number(head, 6),
        evictions: number(head, 7),
        batches: number(head, 8),
        written: number(head, 9),
        refused: number(head, 10),
    }
}

fn call_of(number: u32) -> Option<Call> {
    match number {
        0 => Some(Call::Read),
        1 => Some(Call::OnPool(PoolCall::Write)),
        2 => Some(Call::OnPool(PoolCall::Check)),
        3 => Some(Call::OnPool(PoolCall::Step)),
        4 => Some(Call::OnPool(PoolCall::Replay)),
        5 => Some(Call::OnPool(PoolCall::Counts)),
        _ => None,
    }
}

// The number is a case's own, and no order elsewhere.
fn order_of(number: u32) -> Order {
    if number == 0 { Order::High } else { Order::Low }
}

fn case_in(head: &[u8; 64]) -> Case {
    Case {
        call: call_of(number(head, 0)),
        image: number(head, 1) as usize,
        trace: number(head, 2) as usize,
        rows: number(head, 3) as usize,
        places: number(head, 4) as usize,
        tally: tally_in(head),
        page: number(head, 11),
        kind: (number(head, 12) % 65536) as u16,
        order: order_of(number(head, 13)),
    }
}

fn try_read(text: &mut Text<'_, impl Print>, image: &[u8]) -> Result<()> {
    match image::read(image) {
        Ok(pool) => {
            writeln!(text, "read 0")?;
            dump::put_pool(text, &pool)
        }
        Err(none) => {
            writeln!(text, "read {}", u32::from(none.refusal))?;
            dump::put_pool(text, &none.pool)
        }
    }
}

fn try_write(text: &mut Text<'_, impl Print>, pool: Pool, case: &Case) -> Result<()> {
    let mut lent = [7u8; BYTE_ROOM];
    let room = case.places.min(BYTE_ROOM);
    let written = image::write(pool, case.order, &mut lent[..room]);
    writeln!(text, "write {}", answer_of(written))?;
    writeln!(text, "bytes{}", Spaced(&lent[..room]))
}

fn try_step(text: &mut Text<'_, impl Print>, pool: Pool, case: &Case) -> Result<()> {
    let mut lent = [7u32; LIST_ROOM];
    let list = &mut lent[..case.places.min(LIST_ROOM)];
    let (mut pool, mut tally) = (pool, case.tally);
    let stepped = replay::step(&mut pool, &mut tally, case.page, case.kind, list);
    let (answer, row) = match stepped {
        Ok(row) => (0, row),
        Err(none) => (u32::from(none.refusal), none.row),
    };
    writeln!(text, "step {answer}")?;
    dump::put_row(text, row)?;
    writeln!(text, "list{}", Spaced(list))?;
    dump::put_pool(text, &pool)?;
    dump::put_tally(text, tally)
}

fn try_replay(
    text: &mut Text<'_, impl Print>,
    pool: Pool,
    case: &Case,
    trace: &[u8],
) -> Result<()> {
    let mut lent_rows = [7u32; ROW_ROOM];
    let mut lent_list = [7u32; LIST_ROOM];
    let rows = &mut lent_rows[..case.rows.min(ROW_ROOM)];
    let list = &mut lent_list[..case.places.min(LIST_ROOM)];
    let (mut pool, mut tally) = (pool, case.tally);
    let answer = replay::replay(&mut pool, &mut tally, trace, rows, list);
    writeln!(text, "replay {}", refusal::answer_of(answer))?;
    writeln!(text, "rows{}", Spaced(rows))?;
    writeln!(text, "list{}", Spaced(list))?;
    dump::put_pool(text, &pool)?;
    dump::put_tally(text, tally)
}

// By itself, since `try_replay` lends two lists more and prints them.
fn try_counts(
    text: &mut Text<'_, impl Print>,
    pool: Pool,
    case: &Case,
    trace: &[u8],
) -> Result<()> {
    let (mut pool, mut tally) = (pool, case.tally);
    let answer = replay::counts(&mut pool, &mut tally, trace);
    writeln!(text, "counts {}", refusal::answer_of(answer))?;
    dump::put_pool(text, &pool)?;
    dump::put_tally(text, tally)
}

// A call on the pool that the image holds, sound or not.
fn try_held(
    text: &mut Text<'_, impl Print>,
    call: PoolCall,
    case: &Case,
    image: &[u8],
    trace: &[u8],
) -> Result<()> {
    let pool = match image::held(image) {
        Ok(pool) => pool,
        Err(none) => return writeln!(text, "held {}", u32::from(none.refusal)),
    };
    match call {
        PoolCall::Write => try_write(text, pool, case),
        PoolCall::Check => writeln!(text, "check {}", answer_of(pool::check(&pool))),
        PoolCall::Step => try_step(text, pool, case),
        PoolCall::Replay => try_replay(text, pool, case, trace),
        PoolCall::Counts => try_counts(text, pool, case, trace),
    }
}

fn try_call(
    text: &mut Text<'_, impl Print>,
    case: &Case,
    image: &[u8],
    trace: &[u8],
) -> Result<()> {
    match case.call {
        None => Ok(()),
        Some(Call::Read) => try_read(text, image),
        Some(Call::OnPool(call)) => try_held(text, call, case, image, trace),
    }
}

fn try_case(out: &impl Print, turn: u32, case: &Case, image: &[u8], trace: &[u8]) -> Result<()> {
    let mut text = Text::new(out);
    writeln!(text, "case {turn}")?;
    try_call(&mut text, case, image, trace)?;
    text.flush()
}

// Works the next case, once all of it is read.
fn next_case(
    out: &impl Print,
    from: &mut impl Read,
    turn: u32,
    images: &mut [u8],
    traces: &mut [u8],
) -> Result<bool> {
    let mut head = [0u8; 64];
    if read_full(from, &mut head)? < 64 {
        return Ok(false);
    }
    let case = case_in(&head);
    if images.len() < case.image || traces.len() < case.trace {
        return Ok(false);
    }
    let image = &mut images[..case.image];
    let trace = &mut traces[..case.trace];
    if read_full(from, image)? < case.image || read_full(from, trace)? < case.trace {
        return Ok(false);
    }
    try_case(out, turn, &case, image, trace)?;
    Ok(true)
}

// The turns are counted, since nothing says that the input ends.
fn main(rt: HostRuntime) -> Result<()> {
    let mut images = [0; INPUT_ROOM];
    let mut traces = [0; INPUT_ROOM];
    let mut input = rt.stdin();
    for turn in 0..TURNS {
        if !next_case(&rt, &mut input, turn, &mut images, &mut traces)? {
            return Ok(());
        }
    }
    Ok(())
}
