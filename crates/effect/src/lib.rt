// What one record does to a pool: its row, the pages written, and the pool afterwards.
#![tactic(auto)]

ghost use Rattle.std.specs.Prelude.{◌≡◌, true, ◌+◌, ◌<◌, ◌≤◌, length, set};
ghost use Rattle.search.specs.Search.{pick};
ghost use Rattle.limit.specs.Limits.{reference_limit};
ghost use Rattle.pool.specs.Pool.{frame_at};
ghost use Rattle.pool.specs.Sound.{sound_pool};
ghost use Rattle.table.specs.Table.{frames_in, pool_on};
ghost use Rattle.tally.specs.Rows.{row, miss_clean, miss_dirty};
ghost use Rattle.effect.specs.Record.{record_of};
ghost use Rattle.effect.specs.ForCode.{Leaves, Plays, settled_hit, settled_miss, settled_reference, settled_unpin, asked, asked_by, settled_by, place_of, room_pages, RoomMade, RoomAsked, RoomWhere, Framed, pins_with, hit_frame, fetched_frame, unpinned_frame, Enterable, LogsEnd, Entering, hit_in, fetched_in, entered};

use pool::Frame;
use refusal::Refusal;
use table::{Bench, Table};
use tally::Row;

// The greatest pin count of a frame.
const PIN_LIMIT: u8 = 255;

// A row whose page that left and batch length have no meaning.
fn row_at(outcome: u32, frame: usize) -> Row
    requires { frame < 128 }
    ensures { result ≡ row outcome frame 0 0 }
{
    Row {
        outcome: outcome,
        frame: frame as u32,
        left: 0,
        batch: 0,
    }
}

// A hit in frame i, or refusal 12.
fn settle_hit(pins: u8, i: usize, pin: bool) -> Row
    requires { i < 128 }
    ensures { (result ≡ settled_hit pins i pin) × (result.frame < 128) }
{
    if pin & (pins == PIN_LIMIT) {
        return tally::refused_row(Refusal::PinsFull as u32);
    }
    row_at(tally::HIT, i)
}

// A miss in the lowest unused frame; with none, a victim is wanted, and nothing is known of it yet.
fn settle_miss(free: Option<usize>) -> Row
    requires { Framed free }
    ensures { (result ≡ settled_miss free) × (result.frame < 128) }
{
    let Some(i) = free else {
        return row_at(tally::MISS_CLEAN, 0);
    };
    row_at(tally::MISS_UNUSED, i)
}

// A read, a write or a pin.
fn settle_reference(k: u32, found: Option<usize>, pins: u8, free: Option<usize>, pin: bool) -> Row
    requires { Framed found × Framed free }
    ensures { (result ≡ settled_reference k found pins free pin) × (result.frame < 128) }
{
    if limit::REFERENCE_LIMIT <= k {
        return tally::refused_row(Refusal::NoReferenceLeft as u32);
    }
    match found {
        Some(i) => settle_hit(pins, i, pin),
        None => settle_miss(free),
    }
}

// An unpin: no reference.
fn settle_unpin(found: Option<usize>, pins: u8) -> Row
    requires { Framed found }
    ensures { (result ≡ settled_unpin found pins) × (result.frame < 128) }
{
    let Some(i) = found else {
        return tally::refused_row(Refusal::NotPinned as u32);
    };
    if pins == 0 {
        return tally::refused_row(Refusal::NotPinned as u32);
    }
    row_at(tally::UNPIN_DONE, i)
}

// What a record asks for: a reference or an unpin, or neither; with a write, with a pin.
#[derive(Clone, Copy)]
struct Asked {
    pub reference: bool,
    pub unpin: bool,
    pub write: bool,
    pub pin: bool,
}

fn asking(reference: bool, unpin: bool, write: bool, pin: bool) -> Asked
    ensures { result ≡ asked reference unpin write pin }
{
    Asked {
        reference: reference,
        unpin: unpin,
        write: write,
        pin: pin,
    }
}

// What a record asks for, by its kind: read, write, pin, unpin, and a bad one. Nothing else looks at a kind.
// By number: `replay::step` takes any kind, and refuses those that no record has.
fn asked_by(kind: u16) -> Asked
    ensures { result ≡ asked_by kind }
{
    match kind {
        0 => asking(true, false, false, false),
        1 => asking(true, false, true, false),
        2 => asking(true, false, false, true),
        3 => asking(false, true, false, false),
        4..=65535 => asking(false, false, false, false),
    }
}

// The row of a record at step k, whose page was found in a frame with so many pins, or may go into an unused one. Where it is a miss with
// a clean victim, a victim is wanted and is still to be found.
fn settle(k: u32, found: Option<usize>, pins: u8, free: Option<usize>, asks: Asked) -> Row
    requires { Framed found × Framed free }
    ensures { (result ≡ settled_by k found pins free asks) × (result.frame < 128) }
{
    if asks.reference {
        return settle_reference(k, found, pins, free, asks.pin);
    }
    if asks.unpin {
        return settle_unpin(found, pins);
    }
    tally::refused_row(Refusal::BadField as u32)
}

// The frame in which a page was found, or 0.
fn place_of(found: Option<usize>) -> usize
    requires { Framed found }
    ensures { (result ≡ place_of found) × (result < 128) }
{
    found.unwrap_or(0)
}

fn miss_of(dirty: bool) -> u32
    ensures { result ≡ pick dirty miss_dirty miss_clean }
{
    if dirty {
        return tally::MISS_DIRTY;
    }
    tally::MISS_CLEAN
}

// The row of victim v, whose batch is so long.
fn leaving_row(fr: Frame, v: usize, batch: usize) -> Row
    requires { (v < 128) × (batch < 128) }
    ensures { result ≡ row (pick fr.dirty miss_dirty miss_clean) v fr.page batch }
{
    Row {
        outcome: miss_of(fr.dirty),
        frame: v as u32,
        left: fr.page,
        batch: batch as u32,
    }
}

// Where a victim is wanted: it is chosen and its batch written, or the record is refused.
fn make_room(bench: &mut Bench, out: &mut [u32], at: usize) -> Row
    requires { (sound_pool (pool_on bench.old) ≡ true) × (at + length (room_pages (pool_on bench.old)) ≤ length out.old) }
    ensures { RoomMade (pool_on bench.old) at result bench.new out.old out.new }
{
    let found = victim::choose(bench);
    let Some(v) = found else {
        return tally::refused_row(Refusal::NoFrame as u32);
    };
    let fr = table::frame_at(&bench.table, v);
    let n = batch::write(bench, v, out, at);
    leaving_row(fr, v, n)
}

// One pin more where it is asked for.
fn pins_with(pin: bool, n: u8) -> u8
    ensures { result ≡ pins_with pin n }
{
    if pin & (n != PIN_LIMIT) {
        return n + 1;
    }
    n
}

fn hit_frame(fr: Frame, write: bool, pin: bool, cap: u16, k: u32) -> Frame
    requires { cap ≤ 7 }
    ensures { result ≡ hit_frame fr write pin cap k }
{
    let mut g = fr;
    g.dirty = g.dirty | write;
    g.pins = pins_with(pin, g.pins);
    g.count = reference::raise(cap, g.count);
    g.last = k;
    g
}

fn fetched_frame(page: u32, write: bool, pin: bool, k: u32) -> Frame
    ensures { result ≡ fetched_frame page write pin k }
{
    let mut g = pool::empty_frame();
    g.used = true;
    g.page = page;
    g.count = 1;
    g.dirty = write;
    g.pins = pins_with(pin, 0);
    g.last = k;
    g
}

fn unpinned_frame(fr: Frame) -> Frame
    ensures { result ≡ unpinned_frame fr }
{
    let mut g = fr;
    if 0 < g.pins {
        g.pins = g.pins - 1;
    }
    g
}

// A hit in frame i: its frame and logs changed where they stand, and one reference more.
fn enter_hit(bench: &mut Bench, i: usize, writes: bool, pins: bool)
    requires { Enterable (pool_on bench.old) i × LogsEnd (pool_on bench.old) i }
    ensures { pool_on bench.new ≡ hit_in (pool_on bench.old) i writes pins }
{
    let epoch = table::now_of(bench.head);
    let old = table::frame_at(&bench.table, i);
    let mut fr = hit_frame(old, writes, pins, bench.head.settings.cap, bench.head.k);
    fr.accesses = reference::enter::<8>(&mut bench.access, i, fr.accesses, epoch, true);
    fr.writes = reference::enter::<4>(&mut bench.write, i, fr.writes, epoch, writes);
    table::put(&mut bench.table, i, fr);
    bench.head.k += 1;
}

// A page fetched into frame i, likewise.
fn enter_fetch(bench: &mut Bench, i: usize, page: u32, writes: bool, pins: bool)
    requires { Enterable (pool_on bench.old) i }
    ensures { pool_on bench.new ≡ fetched_in (pool_on bench.old) i page writes pins }
{
    let epoch = table::now_of(bench.head);
    let mut fr = fetched_frame(page, writes, pins, bench.head.k);
    reference::clear::<8>(&mut bench.access, i);
    reference::clear::<4>(&mut bench.write, i);
    fr.accesses = reference::enter::<8>(&mut bench.access, i, 0, epoch, true);
    fr.writes = reference::enter::<4>(&mut bench.write, i, 0, epoch, writes);
    table::put(&mut bench.table, i, fr);
    table::note(&mut bench.table, page, i);
    bench.head.k += 1;
}

// An unpin of frame i.
fn enter_unpin(table: &mut Table, i: usize)
    requires { i < 128 }
    ensures { frames_in table.new ≡ set (frames_in table.old) i (unpinned_frame (frame_at (frames_in table.old) i)) }
{
    let old = table::frame_at(table, i);
    let fr = unpinned_frame(old);
    table::put(table, i, fr);
}

// A record with that row (a hit, a miss, an unpin, else refused), on a pool that has room for it. A refused one leaves all as it was.
// By number: a row's outcome is the number that C and the printed rows have.
fn enter(bench: &mut Bench, row: Row, page: u32, asks: Asked)
    requires { Entering (pool_on bench.old) row }
    ensures { pool_on bench.new ≡ entered (pool_on bench.old) row page asks }
{
    let i = row.frame as usize;
    match row.outcome {
        0 => enter_hit(bench, i, asks.write, asks.pin),
        1..=3 => enter_fetch(bench, i, page, asks.write, asks.pin),
        4 => enter_unpin(&mut bench.table, i),
        _ => {}
    }
}

// Where a victim is wanted, room is made; else the row stays as it was settled.
fn room_where(bench: &mut Bench, row: Row, out: &mut [u32], at: usize) -> Row
    requires { RoomAsked (pool_on bench.old) row at (length out.old) }
    ensures { RoomWhere (pool_on bench.old) row at result bench.new out.old out.new }
{
    if row.outcome == tally::MISS_CLEAN {
        return make_room(bench, out, at);
    }
    row
}

// What a record does to the pool that lies on a bench, in place, and its row; its written pages go to `out` from `at` on. Each part is
// called from here alone, so that the compiler puts it in here.
pub fn play(bench: &mut Bench, page: u32, kind: u16, out: &mut [u32], at: usize) -> Row
    requires { Plays (pool_on bench.old) (record_of (pool_on bench.old) page kind) at (length out.old) }
    ensures { Leaves (record_of (pool_on bench.old) page kind) at result bench.new out.old out.new }
{
    let asks = asked_by(kind);
    let head = bench.head;
    let n = reference::in_use(&bench.table, head.settings.frames);
    let found = reference::find(&bench.table, page, n);
    let free = reference::lowest_unused(n, head.settings.frames);
    // Where nothing was found these are the pins of frame 0, which are not looked at.
    let old = table::frame_at(&bench.table, place_of(found));
    let settled = settle(head.k, found, old.pins, free, asks);
    let row = room_where(bench, settled, out, at);
    enter(bench, row, page, asks);
    row
}
