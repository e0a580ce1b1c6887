// What is printed of a trace and of its replay: the trace's settings and counts; the sheet; the listing, its rows, the
// pages that were written, the pool that is left, and the counts; and the pool of an image.
#![tactic(auto)]

ghost use Rattle.std.specs.Prelude.{◌≡◌, ◌+◌, ◌<◌, ◌≤◌, length, IfOk};
ghost use Rattle.refusal.specs.Numbers.{answer_of};
ghost use Rattle.trace.specs.Check.{check_of, number_of_answer};
ghost use Rattle.pool.specs.Pool.{fresh_of};
ghost use Rattle.image.specs.Image.{image_of};
ghost use Rattle.replay.specs.Calls.{counts_of, ReplayInto};
ghost use Rattle.listing.specs.Fresh.{fresh_for};

use lines::{Spaced, Text, say_image_refused, say_refused};
use pool::{Frame, Pool};
use refusal::Refusal;
use replay::Ended;
use settings::Settings;
use std::io::{self, Write};
use tally::Tally;
use trace::{Summary, Trace};
use word::Order;

// Four numbers for each record of the longest trace.
const ROWS: usize = 4 * trace::RECORD_LIMIT;

// A page for each of its records and for each of 128 dirty frames.
const WRITTEN: usize = trace::RECORD_LIMIT + 128;

// The names of the six counts, in the tally's order.
const COUNT_NAMES: [&str; tally::COUNTS] = [
    "hits",
    "misses",
    "evictions",
    "batches",
    "written",
    "refused",
];

// How many records a trace has; a bad one none.
fn count_of(bytes: &[u8]) -> u32 {
    trace::check(bytes).map_or(0, |summary| summary.count)
}

fn fresh_by(settings: Settings) -> Pool
    ensures { result ≡ (fresh_of settings).pool }
{
    pool::fresh(settings).unwrap_or_else(|none| none.pool)
}

// A fresh pool by a trace's settings. For a bad trace any pool will do: a replay refuses the trace before it looks at the
// settings.
pub fn fresh_for(bytes: &[u8]) -> Pool
    ensures { result ≡ fresh_for (check_of bytes.now) }
{
    match trace::check(bytes) {
        Ok(summary) => fresh_by(summary.settings),
        Err(_) => fresh_by(settings::one_frame()),
    }
}

// The rows of a replay, each on a line.
fn put_rows(text: &mut Text<'_, impl Print>, rows: &[u32; ROWS], count: u32) -> io::Result<()> {
    writeln!(text, "rows {count}")?;
    let (rows, _) = rows.as_chunks::<4>();
    for row in rows.iter().take(count as usize) {
        writeln!(text, "{} {} {} {}", row[0], row[1], row[2], row[3])?;
    }
    Ok(())
}

// The pages that were written, each on a line.
fn put_written(
    text: &mut Text<'_, impl Print>,
    pages: &[u32; WRITTEN],
    count: u32,
) -> io::Result<()> {
    writeln!(text, "written {count}")?;
    for page in pages.iter().take(count as usize) {
        writeln!(text, "{page}")?;
    }
    Ok(())
}

// The first n entries of a log, newest first. A type allows more than there are places.
fn put_log(text: &mut Text<'_, impl Print>, log: &[u32], n: u8) -> io::Result<()> {
    let entries = &log[..log.len().min(usize::from(n))];
    write!(text, " :{}", Spaced(entries))
}

// A frame in use, with the places of its logs.
fn put_frame(
    text: &mut Text<'_, impl Print>,
    frame: &Frame,
    access: &[u32],
    write: &[u32],
) -> io::Result<()> {
    write!(
        text,
        "{} {} {} {} {}",
        frame.page,
        u8::from(frame.dirty),
        frame.pins,
        frame.count,
        frame.last
    )?;
    put_log(text, access, frame.accesses)?;
    put_log(text, write, frame.writes)?;
    writeln!(text)
}

fn put_frames(text: &mut Text<'_, impl Print>, p: &Pool) -> io::Result<()> {
    let logs = p.access.chunks(8).zip(p.write.chunks(4));
    for (frame, (access, write)) in p.frames.iter().zip(logs) {
        if frame.used {
            put_frame(text, frame, access, write)?;
        }
    }
    Ok(())
}

fn put_pool(text: &mut Text<'_, impl Print>, p: &Pool) -> io::Result<()> {
    writeln!(text, "pool {} {} {}", p.k, p.hand, p.sampler)?;
    writeln!(text, "frames {}", image::used_frames(*p))?;
    put_frames(text, p)
}

// The line of a rule's name.
fn put_policy(text: &mut Text<'_, impl Print>, rule: u16) -> io::Result<()> {
    writeln!(text, "policy {}", victim::name_of(rule))
}

// The counts as the tally lists them, each with its name.
fn put_counts(text: &mut Text<'_, impl Print>, t: Tally) -> io::Result<()> {
    for (name, count) in COUNT_NAMES.iter().zip(&tally::numbers(t)) {
        writeln!(text, "{name} {count}")?;
    }
    Ok(())
}

// The sheet of a replay to counts.
pub fn say_sheet(
    out: &impl Print,
    settings: Settings,
    records: u32,
    tally: Tally,
) -> io::Result<()> {
    let mut text = Text::new(out);
    put_policy(&mut text, settings.rule)?;
    writeln!(text, "frames {}", settings.frames)?;
    writeln!(text, "records {records}")?;
    put_counts(&mut text, tally)?;
    text.flush()
}

fn put_settings(text: &mut Text<'_, impl Print>, s: Settings) -> io::Result<()> {
    put_policy(text, s.rule)?;
    writeln!(text, "frames {}", s.frames)?;
    writeln!(text, "batch {}", s.batch)?;
    writeln!(text, "cap {}", s.cap)?;
    writeln!(text, "sample {}", s.sample)?;
    writeln!(text, "weight {}", s.weight)?;
    writeln!(text, "epoch {}", s.span)?;
    writeln!(text, "seed {}", s.seed)
}

fn say_summary(out: &impl Print, summary: Summary, writes: u32) -> io::Result<()> {
    let mut text = Text::new(out);
    writeln!(text, "order {}", summary.order)?;
    put_settings(&mut text, summary.settings)?;
    writeln!(text, "records {}", summary.count)?;
    writeln!(text, "writes {writes}")?;
    text.flush()
}

fn say_image(out: &impl Print, order: Order, pool: &Pool) -> io::Result<()> {
    let mut text = Text::new(out);
    writeln!(text, "order {order}")?;
    put_settings(&mut text, pool.settings)?;
    put_pool(&mut text, pool)?;
    text.flush()
}

fn say_listing(
    out: &impl Print,
    records: u32,
    rows: &[u32; ROWS],
    pages: u32,
    written: &[u32; WRITTEN],
    ended: &Ended,
) -> io::Result<()> {
    let mut text = Text::new(out);
    put_rows(&mut text, rows, records)?;
    put_written(&mut text, written, pages)?;
    put_pool(&mut text, &ended.pool)?;
    put_counts(&mut text, ended.tally)?;
    text.flush()
}

// Prints what a trace is, or that it is refused, and answers that.
pub fn inspect(out: &impl Print, bytes: &[u8]) -> io::Result<Result<(), Refusal>>
    ensures { IfOk result (λ answer. answer_of answer ≡ number_of_answer (check_of bytes.now)) }
{
    match Trace::of(bytes) {
        Ok(trace) => {
            say_summary(out, trace.summary, trace.writes())?;
            Ok(Ok(()))
        }
        Err(refusal) => {
            say_refused(out, u32::from(refusal))?;
            Ok(Err(refusal))
        }
    }
}

// Prints the order of an image and the pool that it holds, or that it is refused, and answers that.
pub fn inspect_image(out: &impl Print, bytes: &[u8]) -> io::Result<Result<(), Refusal>>
    ensures { IfOk result (λ answer. answer_of answer ≡ (image_of bytes.now).refusal) }
{
    match image::read(bytes) {
        Ok(pool) => say_image(out, image::order_of(bytes), &pool).map(|()| Ok(())),
        Err(none) => { say_image_refused(out, u32::from(none.refusal)).map(|()| Err(none.refusal)) }
    }
}

// What a pool and a tally come to, counted only.
fn counted(mut pool: Pool, mut tally: Tally, bytes: &[u8]) -> Ended
    ensures { result ≡ counts_of pool tally bytes.now }
{
    let answer = replay::counts(&mut pool, &mut tally, bytes);
    let refusal = refusal::answer_of(answer);
    Ended {
        refusal,
        pool,
        tally,
    }
}

// And with rows and written pages.
fn replayed(
    mut pool: Pool,
    mut tally: Tally,
    bytes: &[u8],
    rows: &mut [u32],
    written: &mut [u32],
) -> Ended
    ensures { ReplayInto pool tally bytes.now rows.old written.old result rows.new written.new }
{
    let answer = replay::replay(&mut pool, &mut tally, bytes, rows, written);
    let refusal = refusal::answer_of(answer);
    Ended {
        refusal,
        pool,
        tally,
    }
}

// Replays a trace and prints its sheet, or that it is refused.
pub fn sheet(out: &impl Print, pool: Pool, tally: Tally, bytes: &[u8]) -> io::Result<Ended>
    ensures { IfOk result (λ ended. ended ≡ counts_of pool tally bytes.now) }
{
    let ended = counted(pool, tally, bytes);
    if ended.refusal != 0 {
        say_refused(out, ended.refusal)?;
        return Ok(ended);
    }
    let after = ended.pool;
    say_sheet(out, after.settings, count_of(bytes), ended.tally)?;
    Ok(ended)
}

// Replays a trace and prints its listing, or that it is refused. The lists hold what any replay needs, so none is refused by 13, and the
// answer is that of a replay to counts.
pub fn list(out: &impl Print, pool: Pool, tally: Tally, bytes: &[u8]) -> io::Result<Ended>
    ensures { IfOk result (λ ended. ended ≡ counts_of pool tally bytes.now) }
{
    let mut rows = [0u32; ROWS];
    let mut written = [0u32; WRITTEN];
    let ended = replayed(pool, tally, bytes, &mut rows, &mut written);
    if ended.refusal != 0 {
        say_refused(out, ended.refusal)?;
        return Ok(ended);
    }
    let pages = ended.tally.written.wrapping_sub(tally.written);
    say_listing(out, count_of(bytes), &rows, pages, &written, &ended)?;
    Ok(ended)
}
