// What each command does, with a trace that is read for it.
ghost use Rattle.std.specs.Prelude.{◌≡◌, IfOk, Ok};

use crate::{carry, sizes};
use amend::Fault;
use files::spaces::{INPUT_SPACE, TRACE_SPACE, zeros};
use files::{Stop, printed};
use lines::{Spaced, Text, say, say_refused};
use refusal::Refusal;
use std::io::{self, Write};
use wish::Wish;
use words::Request;
use words::names::Command;

// A quote has a line for each of eight sizes and the trace's own.
const QUOTE_LINES: u32 = 9;

// The first n bytes, or all of them where there are fewer: a call tells how many it has stored, and no promise of it says that they are there.
pub fn front(bytes: &[u8], n: usize) -> &[u8] {
    bytes.get(..n).unwrap_or(bytes)
}

// A run ends where a refusal has been printed.
pub fn refused(rt: &HostRuntime, said: io::Result<()>) -> Stop {
    match printed(rt, said) {
        Ok(()) => Stop::Refused,
        Err(stop) => stop,
    }
}

// What a call has answered that may refuse the trace; a refusal is printed.
pub fn granted<T>(rt: &HostRuntime, answer: Result<T, Refusal>) -> Result<T, Stop>
    ensures { IfOk result (λ value. answer ≡ Ok value) }
{
    answer.map_err(|refusal| refused(rt, say_refused(rt, u32::from(refusal))))
}

// A call that prints has answered, and has printed a refusal.
fn answered(rt: &HostRuntime, said: io::Result<Result<(), Refusal>>) -> Result<(), Stop> {
    printed(rt, said)?.map_err(|_| Stop::Refused)
}

fn check(rt: &HostRuntime, bytes: &[u8]) -> Result<(), Stop> {
    granted(rt, trace::check(bytes))?;
    printed(rt, say(rt, b"accepted\n"))
}

fn convert(rt: &HostRuntime, bytes: &[u8], output: Option<usize>) -> Result<(), Stop> {
    let mut space = zeros::<TRACE_SPACE>();
    granted(rt, scribe::convert(bytes, &mut space))?;
    files::write(rt, output, front(&space, bytes.len()))
}

// The trace with the settings that are wished for, in the space.
pub fn amended<'a>(
    rt: &HostRuntime,
    bytes: &[u8],
    wish: Wish,
    space: &'a mut [u8],
) -> Result<&'a [u8], Stop> {
    granted(rt, amend::set(bytes, wish, space))?;
    Ok(front(space, bytes.len()))
}

fn set(rt: &HostRuntime, bytes: &[u8], request: &Request) -> Result<(), Stop> {
    let mut space = zeros::<TRACE_SPACE>();
    let made = amended(rt, bytes, request.wish, &mut space)?;
    files::write(rt, request.output, made)
}

fn export(rt: &HostRuntime, bytes: &[u8]) -> Result<(), Stop> {
    let mut space = zeros::<{ text::TEXT_LIMIT }>();
    let size = granted(rt, text::export(bytes, &mut space))?;
    printed(rt, say(rt, front(&space, size)))
}

// A line of a quote, with so many frames, printed before the next is counted.
fn put_size(
    text: &mut Text<'_, impl Print>,
    bytes: &[u8],
    wish: Wish,
    frames: u16,
) -> io::Result<()> {
    let numbers = amend::quote_line(bytes, wish, frames as u64);
    writeln!(text, "{frames}{}", Spaced(&numbers))?;
    text.flush()
}

fn quote_sizes(out: &impl Print, bytes: &[u8], wish: Wish, own: u16) -> io::Result<()> {
    let mut text = Text::new(out);
    writeln!(
        text,
        "frames lru-misses lru-written clock-misses clock-written watt-misses watt-written"
    )?;
    text.flush()?;
    let mut size = amend::next_size(own, 0);
    for _ in 0..QUOTE_LINES {
        if size == 0 {
            break;
        }
        put_size(&mut text, bytes, wish, size)?;
        size = amend::next_size(own, size);
    }
    Ok(())
}

fn quote(rt: &HostRuntime, bytes: &[u8], wish: Wish) -> Result<(), Stop> {
    let sheet = granted(rt, amend::counts(bytes, wish).map_err(|none| none.refusal))?;
    printed(rt, quote_sizes(rt, bytes, wish, sheet.settings.frames))
}

// What is said of a text's first bad line.
fn say_bad_line(out: &impl Print, n: usize) -> io::Result<()> {
    println!(out; "line {n} refused")
}

fn import(rt: &HostRuntime, text: &[u8], request: &Request) -> Result<(), Stop> {
    let mut space = zeros::<TRACE_SPACE>();
    match amend::import(text, request.wish, request.order, &mut space) {
        Ok(size) => files::write(rt, request.output, front(&space, size)),
        Err(Fault::BadLine(n)) => Err(refused(rt, say_bad_line(rt, n))),
        Err(Fault::Refused(refusal)) => Err(refused(rt, say_refused(rt, u32::from(refusal)))),
    }
}

// Acts on the bytes of a trace, as far as there is space for one.
fn on_trace<F: FnOnce(&[u8]) -> Result<(), Stop>>(
    rt: &HostRuntime,
    input: Option<usize>,
    act: F,
) -> Result<(), Stop>
    requires { F.IsAlwaysCallable act }
{
    let mut space = zeros::<TRACE_SPACE>();
    act(files::read(rt, input, &mut space)?)
}

// Acts on the bytes of a text or an image, which is read whole.
fn on_whole<F: FnOnce(&[u8]) -> Result<(), Stop>>(
    rt: &HostRuntime,
    input: Option<usize>,
    act: F,
) -> Result<(), Stop>
    requires { F.IsAlwaysCallable act }
{
    let mut space = zeros::<INPUT_SPACE>();
    act(files::read_whole(rt, input, &mut space)?)
}

pub fn run(rt: &HostRuntime, request: &Request) -> Result<(), Stop> {
    let (input, output, wish) = (request.input, request.output, request.wish);
    match request.command {
        Command::Check => on_trace(rt, input, |bytes| check(rt, bytes)),
        Command::Inspect => on_trace(rt, input, |bytes| answered(rt, listing::inspect(rt, bytes))),
        Command::Convert => on_trace(rt, input, |bytes| convert(rt, bytes, output)),
        Command::Set => on_trace(rt, input, |bytes| set(rt, bytes, request)),
        Command::Export => on_trace(rt, input, |bytes| export(rt, bytes)),
        Command::Import => on_whole(rt, input, |text| import(rt, text, request)),
        Command::Bench | Command::Rows => carry::replay(rt, request),
        Command::Quote => on_trace(rt, input, |bytes| quote(rt, bytes, wish)),
        Command::Image => on_whole(
            rt,
            input,
            |bytes| answered(rt, listing::inspect_image(rt, bytes)),
        ),
        Command::Curve => on_trace(rt, input, |bytes| sizes::curve(rt, bytes, request.svg)),
    }
}
