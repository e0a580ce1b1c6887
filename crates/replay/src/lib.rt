// The single step, replay with rows, and replay to counts.
#![tactic(auto)]

ghost use Rattle.std.specs.Prelude.{◌≡◌, true, ◌≤◌, length, IfOk, IfErr};
ghost use Rattle.refusal.specs.Numbers.{number_of, answer_of};
ghost use Rattle.trace.specs.Check.{trace_of};
ghost use Rattle.effect.specs.Record.{dirty_in};
ghost use Rattle.replay.specs.Replay.{replay_of};
ghost use Rattle.replay.specs.Calls.{may_begin, step_refusal, refused_step, stepped_by, StepInto, counts_refusal, room_for, ended_as, ended_of, counts_of, ReplayInto};
ghost use Rattle.replay.specs.ForCode.{RanInto};

use pool::{Frame, Pool};
use refusal::Refusal;
use tally::{Row, Tally};
use trace::Trace;

// What a replay came to: a refusal or 0, and pool and tally afterwards, as `counts_of` has them. Who prints a replay hands them on by value: where a
// write fails, a lent pool would be neither that before nor that after.
#[derive(Clone, Copy)]
pub struct Ended {
    pub refusal: u32,
    pub pool: Pool,
    pub tally: Tally,
}

// Why a step was refused, and its row.
#[derive(Clone, Copy, Debug, PartialEq, Eq)]
pub struct Unstepped {
    pub refusal: Refusal,
    pub row: Row,
}

// The row of a refused call is that of a refused record.
impl From<Refusal> for Unstepped {
    ghost from_gives = { λ refusal handed. handed ≡ refused_step refusal };

    fn from(refusal: Refusal) -> Unstepped {
        Unstepped {
            refusal,
            row: tally::refused_row(u32::from(refusal)),
        }
    }
}

// Whether the pool is sound and no count of the tally is too high.
fn may_begin(p: &Pool, t: Tally) -> bool
    ensures { result ≡ may_begin p.now t }
{
    pool::check(p).is_ok() & tally::within(t)
}

// Refusals 14, 6 and 13 of a step.
fn check_step(p: &Pool, t: Tally, kind: u16, places: usize) -> Result<(), Refusal>
    ensures { answer_of result ≡ step_refusal p.now t kind places }
{
    refusal::demand(may_begin(p, t), Refusal::NotSound)?;
    refusal::demand(kind <= 3, Refusal::BadField)?;
    refusal::demand(p.settings.batch as usize <= places, Refusal::NoRoom)
}

// One record by itself: its row is the answer, and its written pages go to the front of `written`. A refused step leaves all as it was.
pub fn step(
    pool: &mut Pool,
    tally: &mut Tally,
    page: u32,
    kind: u16,
    written: &mut [u32],
) -> Result<Row, Unstepped>
    ensures { StepInto pool.old tally.old page kind written.old (stepped_by result pool.new tally.new) written.new }
{
    check_step(pool, *tally, kind, written.len())?;
    let mut bench = table::bench_of(pool);
    let row = effect::play(&mut bench, page, kind, written, 0);
    tally::raise(tally, row);
    *pool = table::pool_of(&bench);
    Ok(row)
}

// How many frames are dirty.
fn dirty_frames(frames: &[Frame; 128]) -> usize
    ensures { (result ≡ dirty_in frames.now) × (result ≤ 128) }
{
    frames.iter().filter(|fr| fr.dirty).count()
}

// Every record of an accepted trace, with rows and written pages. This loop and that of `count` differ in where a record's pages go: here behind
// those of the record before, there over them; one loop for both would be told the place each time.
fn run(pool: &mut Pool, tally: &mut Tally, trace: &Trace, rows: &mut [u32], list: &mut [u32])
    requires { (may_begin pool.old tally.old ≡ true) × (room_for pool.old (trace_of trace.now.bytes.now) (length rows.old) (length list.old) ≡ true) }
    ensures { RanInto pool.old tally.old trace.now.bytes.now rows.old list.old (ended_as 0 pool.new tally.new) rows.new list.new }
{
    let mut bench = table::bench_of(pool);
    let mut t = *tally;
    let mut at: usize = 0;
    for i in 0..trace.summary.count as usize {
        let record = trace.record_at(i);
        let row = effect::play(&mut bench, record.page, record.kind, list, at);
        tally::put_row(rows, 4 * i, row);
        t = tally::raised(t, row);
        at += row.batch as usize;
    }
    *pool = table::pool_of(&bench);
    *tally = t;
}

// Every record of an accepted trace, counted only: the pages of one batch are written over those of the one before. Who has checked pool,
// tally and trace calls it at once.
pub fn count(pool: &mut Pool, tally: &mut Tally, trace: &Trace)
    requires { may_begin pool.old tally.old ≡ true }
    ensures { ended_as 0 pool.new tally.new ≡ ended_of 0 pool.old tally.old (replay_of pool.old tally.old (trace_of trace.now.bytes.now)) }
{
    let mut scratch = [0u32; 16];
    let mut bench = table::bench_of(pool);
    let mut t = *tally;
    for i in 0..trace.summary.count as usize {
        let record = trace.record_at(i);
        let row = effect::play(&mut bench, record.page, record.kind, &mut scratch, 0);
        t = tally::raised(t, row);
    }
    *pool = table::pool_of(&bench);
    *tally = t;
}

// The trace that may be replayed with this pool and tally: refusals 14, 1 to 8 and 15.
fn begin<'a>(pool: &Pool, tally: Tally, bytes: &'a [u8]) -> Result<Trace<'a>, Refusal>
    ensures ok { IfOk result (λ trace. (trace.bytes.now ≡ bytes.now) × (may_begin pool.now tally ≡ true) × (counts_refusal pool.now tally bytes.now ≡ 0)) }
    ensures err { IfErr result (λ refusal. counts_refusal pool.now tally bytes.now ≡ number_of refusal) }
{
    refusal::demand(may_begin(pool, tally), Refusal::NotSound)?;
    let trace = Trace::of(bytes)?;
    refusal::demand(
        settings::same(trace.summary.settings, pool.settings),
        Refusal::OtherSettings,
    )?;
    Ok(trace)
}

// Replay to counts: pool and tally are then as at its end, or as they were where it is refused.
pub fn counts(pool: &mut Pool, tally: &mut Tally, bytes: &[u8]) -> Result<(), Refusal>
    ensures { ended_as (answer_of result) pool.new tally.new ≡ counts_of pool.old tally.old bytes.now }
{
    let accepted = begin(pool, *tally, bytes)?;
    count(pool, tally, &accepted);
    Ok(())
}

// Whether the lists have room for the rows and written pages of an accepted trace.
fn has_room(p: &Pool, trace: &Trace, rows: usize, places: usize) -> bool
    ensures { result ≡ room_for p.now (trace_of trace.now.bytes.now) rows places }
{
    let n = trace.summary.count as usize;
    let writes = trace.writes() as usize;
    let dirty = dirty_frames(&p.frames);
    (4 * n <= rows) & (writes + dirty <= places)
}

// Replay with rows, four numbers each, and written pages, from the front of two lent lists. A refused one leaves all as it was.
pub fn replay(
    pool: &mut Pool,
    tally: &mut Tally,
    bytes: &[u8],
    rows: &mut [u32],
    written: &mut [u32],
) -> Result<(), Refusal>
    ensures { ReplayInto pool.old tally.old bytes.now rows.old written.old (ended_as (answer_of result) pool.new tally.new) rows.new written.new }
{
    let trace = begin(pool, *tally, bytes)?;
    let roomy = has_room(pool, &trace, rows.len(), written.len());
    refusal::demand(roomy, Refusal::NoRoom)?;
    run(pool, tally, &trace, rows, written);
    Ok(())
}
