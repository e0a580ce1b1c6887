// Hands each case of a bundle on standard input to the checker, the reader, the writer or the converter, and prints a line
// with the answer and digests of all lent memory. traces/make writes the bundle, says how it is laid out, and knows the lines.
#![tactic(auto)]

ghost use Rattle.std.specs.Prelude.{◌≡◌, ◌+◌, ◌*◌, ◌≤◌, ◌<◌, length};

use lines::{Spaced, read_full};
use refusal::{Refusal, answer_of};
use settings::Settings;
use std::io::{Read, Result};
use trace::Summary;
use word::{Order, Word};

// The most cases of a bundle.
const TURNS: u32 = 1000;

// The most places and bytes that are lent.
const LIST_ROOM: usize = 8001;

const BYTE_ROOM: usize = 64064;

// Memory to lend, the same at each case.
const PAGES_TO_LEND: [u32; LIST_ROOM] = [7; LIST_ROOM];

const KINDS_TO_LEND: [u16; LIST_ROOM] = [7; LIST_ROOM];

const BYTES_TO_LEND: [u8; BYTE_ROOM] = [165; BYTE_ROOM];

// What is done with a case's body.
#[derive(Clone, Copy)]
enum Work {
    Check,
    Read,
    Write,
    Convert,
}

fn work_of(number: u32) -> Option<Work> {
    match number {
        1 => Some(Work::Check),
        2 => Some(Work::Read),
        3 => Some(Work::Write),
        4 => Some(Work::Convert),
        _ => None,
    }
}

fn say_settings(out: &impl Print, s: Settings) -> Result<()> {
    let counts = [s.rule, s.frames, s.batch, s.cap, s.sample, s.weight];
    print!(out; "{} {} {}", Spaced(&counts), s.span, s.seed)
}

fn say_checked(out: &impl Print, c: std::result::Result<Summary, Refusal>) -> Result<()> {
    match c {
        Err(refusal) => print!(out; " refused {}", u32::from(refusal)),
        Ok(h) => {
            print!(out; " accepted {}", h.order)?;
            say_settings(out, h.settings)?;
            print!(out; " {}", h.count)
        }
    }
}

// A digest with one number more.
fn mixed(h: u64, v: u32) -> u64
    requires { h < 4294967291 }
    ensures { result < 4294967291 }
{
    (h * 31 + (v as u64)) % 4294967291
}

fn digest<T: Copy + Into<u32>>(items: &[T]) -> u64 {
    let mut h: u64 = 1;
    for item in items {
        h = mixed(h, (*item).into());
    }
    h
}

fn try_check(out: &impl Print, body: &[u8]) -> Result<()> {
    print!(out; "check")?;
    say_checked(out, trace::check(body))
}

fn try_read(out: &impl Print, body: &[u8], pages_room: usize, kinds_room: usize) -> Result<()> {
    let mut pages = PAGES_TO_LEND;
    let mut kinds = KINDS_TO_LEND;
    if pages_room <= LIST_ROOM && kinds_room <= LIST_ROOM {
        print!(out; "read")?;
        say_checked(
            out,
            trace::read(body, &mut pages[..pages_room], &mut kinds[..kinds_room]),
        )?;
    }
    print!(out; " {} {}", digest(&pages), digest(&kinds))
}

fn try_convert(out: &impl Print, body: &[u8], room: usize) -> Result<()> {
    let mut lent = BYTES_TO_LEND;
    if room <= BYTE_ROOM {
        print!(out;
            "convert {}",
            answer_of(scribe::convert(body, &mut lent[..room]))
        )?;
    }
    print!(out; " {}", digest(&lent))
}

// The numbers of a list, of N bytes each.
fn take<T: Word, const N: usize>(body: &[u8], numbers: &mut [T])
    requires { (0 < N) × (T.width ≡ N) }
{
    for (number, bytes) in numbers.iter_mut().zip(body.chunks_exact(N)) {
        *number = T::get(bytes, 0, Order::High);
    }
}

// The number is a case's own, and no order elsewhere.
fn order_of(number: u16) -> Order {
    if number == 0 { Order::High } else { Order::Low }
}

// A write case's settings and order, with its lists.
fn write_lists(body: &[u8], pages: &[u32], kinds: &[u16], out: &mut [u8]) -> u32
    requires { 32 ≤ length body.now }
{
    let settings = settings::read(body, 0, Order::High);
    let order = order_of(u16::get(body, 20, Order::High));
    answer_of(scribe::write(settings, order, pages, kinds, out))
}

// A write case of p pages and k kinds, all there.
fn try_lists(out: &impl Print, body: &[u8], p: usize, k: usize, room: usize) -> Result<()>
    requires { (32 + 4 * p + 2 * k ≤ length body.now) × (p ≤ 8001) × (k ≤ 8001) × (room ≤ 64064) }
{
    let mut pages_lent = PAGES_TO_LEND;
    let mut kinds_lent = KINDS_TO_LEND;
    let mut lent = BYTES_TO_LEND;
    let pages = &mut pages_lent[..p];
    let kinds = &mut kinds_lent[..k];
    take::<u32, 4>(&body[32..], pages);
    take::<u16, 2>(&body[32 + 4 * p..], kinds);
    print!(out;
        "write {}",
        write_lists(body, pages, kinds, &mut lent[..room])
    )?;
    print!(out; " {}", digest(&lent))
}

fn try_write(out: &impl Print, body: &[u8], room: usize) -> Result<()> {
    if body.len() < 32 {
        return Ok(());
    }
    let p = u32::get(body, 24, Order::High) as usize;
    let k = u32::get(body, 28, Order::High) as usize;
    if p <= LIST_ROOM && k <= LIST_ROOM && 32 + 4 * p + 2 * k <= body.len() && room <= BYTE_ROOM {
        return try_lists(out, body, p, k, room);
    }
    Ok(())
}

fn try_case(
    out: &impl Print,
    work: Option<Work>,
    body: &[u8],
    room: usize,
    other_room: usize,
) -> Result<()> {
    match work {
        Some(Work::Check) => try_check(out, body)?,
        Some(Work::Read) => try_read(out, body, room, other_room)?,
        Some(Work::Write) => try_write(out, body, room)?,
        Some(Work::Convert) => try_convert(out, body, room)?,
        None => print!(out; "unknown")?,
    }
    println!(out;)
}

// Whether there was a case: its head, and its body in `body`.
fn next_case(out: &impl Print, from: &mut impl Read, body: &mut [u8]) -> Result<bool> {
    let mut head = [0u8; 16];
    if read_full(from, &mut head)? < 16 {
        return Ok(false);
    }
    let work = work_of(u32::get(&head, 0, Order::High));
    let size = u32::get(&head, 4, Order::High) as usize;
    let room = u32::get(&head, 8, Order::High) as usize;
    let other_room = u32::get(&head, 12, Order::High) as usize;
    if body.len() < size {
        return Ok(false);
    }
    let part = &mut body[..size];
    if read_full(from, part)? < size {
        return Ok(false);
    }
    try_case(out, work, part, room, other_room)?;
    Ok(true)
}

fn main(rt: HostRuntime) -> Result<()> {
    let mut space = [0; BYTE_ROOM];
    let mut input = rt.stdin();
    for _ in 0..TURNS {
        if !next_case(&rt, &mut input, &mut space)? {
            return Ok(());
        }
    }
    Ok(())
}
