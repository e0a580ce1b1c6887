// A pool's frames as one table of numbers, field after field, so that a search goes through one field, several frames at once.
// Behind them it has room for guesses at where a page is, which no frame reads.
#![tactic(auto)]

ghost use Rattle.std.specs.Prelude.{◌≡◌, false, ◌%◌, ◌<◌, length, set};
ghost use Rattle.pool.specs.Pool.{frame_at, with_count, now_at, with_dirty};
ghost use Rattle.table.specs.Table.{table_length, frames_in, guess_place, guess_in, pool_on};

use pool::{Frame, Pool};
use settings::Settings;
use std::array;

// Where the guesses begin: behind eight numbers to a frame.
const GUESSES: usize = 1024;

// Then 1,024 guesses.
pub const LENGTH: usize = 2048;

pub type Table = [u32; LENGTH];

// What a pool holds beside its frames and logs.
#[derive(Clone, Copy)]
pub struct Head {
    pub settings: Settings,
    pub k: u32,
    pub hand: u16,
    pub sampler: u32,
}

// A pool laid out to be worked on: head, table of frames, and logs, each changed where it stands.
#[derive(Clone, Copy)]
pub struct Bench {
    pub head: Head,
    pub table: Table,
    pub access: [u32; 1024],
    pub write: [u32; 512],
}

// Now: the epoch of the next reference.
pub fn now_of(h: Head) -> u32
    requires { 0 < h.settings.span }
    ensures { result ≡ now_at h.settings h.k }
{
    h.k / h.settings.span
}

// Any number as one of a byte, so that every table reads as frames.
fn byte(n: u32) -> u8
    ensures { result ≡ n % 256 }
{
    (n % 256) as u8
}

// Frame i.
pub fn frame_at(table: &Table, i: usize) -> Frame
    requires { i < 128 }
    ensures { result ≡ frame_at (frames_in table.now) i }
{
    Frame {
        used: table[i] == 1,
        page: table[i + 128],
        dirty: table[i + 256] == 1,
        pins: byte(table[i + 384]),
        count: byte(table[i + 512]),
        last: table[i + 640],
        accesses: byte(table[i + 768]),
        writes: byte(table[i + 896]),
    }
}

// Frame i becomes another. What stores is lent a slice, since of a lent array the prover is not told the length.
pub fn put(table: &mut [u32], i: usize, fr: Frame)
    requires { (i < 128) × (length table.old ≡ table_length) }
    ensures { frames_in table.new ≡ set (frames_in table.old) i fr }
{
    table[i] = u32::from(fr.used);
    table[i + 128] = fr.page;
    table[i + 256] = u32::from(fr.dirty);
    table[i + 384] = u32::from(fr.pins);
    table[i + 512] = u32::from(fr.count);
    table[i + 640] = fr.last;
    table[i + 768] = u32::from(fr.accesses);
    table[i + 896] = u32::from(fr.writes);
}

// Frame i gets another clock count.
pub fn put_count(table: &mut [u32], i: usize, n: u8)
    requires { (i < 128) × (length table.old ≡ table_length) }
    ensures { frames_in table.new ≡ set (frames_in table.old) i (with_count (frame_at (frames_in table.old) i) n) }
{
    table[i + 512] = u32::from(n);
}

// Frame i becomes clean. One store, as in `put_count`: one function for both would be told the field.
pub fn clean(table: &mut [u32], i: usize)
    requires { (i < 128) × (length table.old ≡ table_length) }
    ensures { frames_in table.new ≡ set (frames_in table.old) i (with_dirty (frame_at (frames_in table.old) i) false) }
{
    table[i + 256] = 0;
}

// The frame that was noted last at a page's place, for it or for another page, or frame 0: a guess, which whoever asks has to try.
pub fn guess(table: &Table, page: u32) -> usize
    ensures { (result ≡ guess_in table.now page) × (result < 128) }
{
    (table[GUESSES + (page % 1024) as usize] % 128) as usize
}

// Notes that a page is in frame i. The frames stay as they are.
pub fn note(table: &mut [u32], page: u32, i: usize)
    requires { (i < 128) × (length table.old ≡ table_length) }
    ensures { (table.new ≡ set table.old (guess_place page) i) × (frames_in table.new ≡ frames_in table.old) }
{
    table[GUESSES + (page % 1024) as usize] = i as u32;
}

// The table of a pool's frames, with the pages of those in use noted.
pub fn table_of(frames: &[Frame; 128]) -> Table
    ensures { frames_in result ≡ frames.now }
{
    let mut table = [0; LENGTH];
    for (i, fr) in frames.iter().enumerate() {
        put(&mut table, i, *fr);
        if fr.used {
            note(&mut table, fr.page, i);
        }
    }
    table
}

// The frames that a table holds.
fn frames_of(table: &Table) -> [Frame; 128]
    ensures { result ≡ frames_in table.now }
{
    array::from_fn(|i| frame_at(table, i))
}

// A pool laid out.
pub fn bench_of(p: &Pool) -> Bench
    ensures { pool_on result ≡ p.now }
{
    Bench {
        head: Head {
            settings: p.settings,
            k: p.k,
            hand: p.hand,
            sampler: p.sampler,
        },
        table: table_of(&p.frames),
        access: p.access,
        write: p.write,
    }
}

// The pool that lies on a bench.
pub fn pool_of(bench: &Bench) -> Pool
    ensures { result ≡ pool_on bench.now }
{
    Pool {
        settings: bench.head.settings,
        k: bench.head.k,
        hand: bench.head.hand,
        sampler: bench.head.sampler,
        frames: frames_of(&bench.table),
        access: bench.access,
        write: bench.write,
    }
}
