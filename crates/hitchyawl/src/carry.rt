// A replay for `bench` or `rows`: from an image's pool, which is read before the trace, or from a fresh one; and the pool at
// the end is saved as an image, once all is printed.
ghost use Rattle.std.specs.Prelude.{◌≡◌, true, ◌≤◌, length, IfOk};
ghost use Rattle.std.proofs.lemmas.List.Edits.{sets};
ghost use Rattle.pool.specs.Sound.{sound_pool};
ghost use Rattle.image.specs.Layout.{image_length, used_in, encode_pool};
ghost use Rattle.replay.specs.Calls.{counts_of};

use crate::work::{amended, front, refused};
use files::Stop;
use files::spaces::{INPUT_SPACE, TRACE_SPACE, zeros};
use pool::Pool;
use replay::Ended;
use std::io;
use tally::Tally;
use word::Order;
use words::Request;
use words::names::Command;

// The image of a pool at the front of `out`; its length is the answer. None is refused: the pool is sound, and there is room
// for any.
fn put_image(pool: Pool, order: Order, out: &mut [u8]) -> usize
    requires { (sound_pool pool ≡ true) × (image_length 128 ≤ length out.old) }
    ensures { (out.new ≡ sets out.old 0 (encode_pool order pool)) × (result ≡ image_length (used_in pool)) }
{
    let _ = image::write(pool, order, out);
    image::HEADER_LENGTH + entry::ENTRY_LENGTH * (image::used_frames(pool) as usize)
}

// Writes the image of a pool in the byte order of the trace.
fn save(rt: &HostRuntime, pool: Pool, bytes: &[u8], output: Option<usize>) -> Result<(), Stop>
    requires { sound_pool pool ≡ true }
{
    let mut space = [0u8; image::BYTE_LIMIT];
    let size = put_image(pool, image::order_of(bytes), &mut space);
    files::write(rt, output, front(&space, size))
}

// The replay, printed as the command asks.
fn printed_replay(
    out: &impl Print,
    command: Command,
    pool: Pool,
    tally: Tally,
    bytes: &[u8],
) -> io::Result<Ended>
    ensures { IfOk result (λ ended. ended ≡ counts_of pool tally bytes.now) }
{
    match command {
        Command::Rows => listing::list(out, pool, tally, bytes),
        _ => listing::sheet(out, pool, tally, bytes),
    }
}

// How a replay that is printed ends: with its pool saved, where an image is named for it.
fn replay_ended(rt: &HostRuntime, request: &Request, after: Ended, bytes: &[u8]) -> Result<(), Stop>
    requires { after.refusal ≡ 0 → sound_pool after.pool ≡ true }
{
    if after.refusal != 0 {
        return Err(Stop::Refused);
    }
    if request.save.is_none() {
        return Ok(());
    }
    save(rt, after.pool, bytes, request.save)
}

// The replay of a trace that has its settings.
fn replay_set(rt: &HostRuntime, request: &Request, pool: Pool, bytes: &[u8]) -> Result<(), Stop> {
    match printed_replay(rt, request.command, pool, tally::zero(), bytes) {
        Ok(after) => replay_ended(rt, request, after, bytes),
        Err(error) => Err(files::failed(rt, b"standard output", &error)),
    }
}

// The pool of an image.
fn read_pool(rt: &HostRuntime, from: Option<usize>) -> Result<Pool, Stop> {
    let mut space = zeros::<INPUT_SPACE>();
    let opened = image::read(files::read_whole(rt, from, &mut space)?);
    opened.map_err(|none| refused(rt, lines::say_image_refused(rt, u32::from(none.refusal))))
}

// The pool of the image that is named, if one is.
fn first_pool(rt: &HostRuntime, from: Option<usize>) -> Result<Option<Pool>, Stop> {
    if from.is_none() {
        return Ok(None);
    }
    read_pool(rt, from).map(Some)
}

// The image is read before the trace.
pub fn replay(rt: &HostRuntime, request: &Request) -> Result<(), Stop> {
    let held = first_pool(rt, request.from)?;
    let mut space = zeros::<TRACE_SPACE>();
    let read = files::read(rt, request.input, &mut space)?;
    let mut other = zeros::<TRACE_SPACE>();
    let bytes = amended(rt, read, request.wish, &mut other)?;
    let pool = held.unwrap_or_else(|| listing::fresh_for(bytes));
    replay_set(rt, request, pool, bytes)
}
