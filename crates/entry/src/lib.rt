// An entry of a pool image: a frame in use and its two logs, read from bytes and stored.
#![tactic(auto)]

ghost use Rattle.std.specs.Prelude.{◌≡◌, true, ◌+◌, ◌*◌, ◌≤◌, ◌<◌, ◌++◌, length, take, drop, eqb};
ghost use Rattle.std.proofs.lemmas.List.Edits.{sets};
ghost use Rattle.word.specs.Number.{bytes_of};
ghost use Rattle.search.specs.Search.{one_if};
ghost use Rattle.entry.specs.Entry.{entry_length, words_at, zero_in, entry_fits, frame_in, word_bytes, field_bytes};

use pool::Frame;
use word::{Order, Word};

pub const ENTRY_LENGTH: usize = 68;

// Where an entry has its access log, and its write log.
pub const ACCESS_PLACE: usize = 20;

pub const WRITE_PLACE: usize = 52;

// Whether the zero field of the entry at `at` is zero.
pub fn zero_right(bytes: &[u8], at: usize, order: Order) -> bool
    requires { at + entry_length ≤ length bytes.now }
    ensures { result ≡ eqb (zero_in order bytes.now at) 0 }
{
    u16::get(bytes, at + 18, order) == 0
}

// Whether a frame can hold the numbers of the entry at `at`.
pub fn fits(bytes: &[u8], at: usize, order: Order) -> bool
    requires { at + entry_length ≤ length bytes.now }
    ensures { result ≡ entry_fits order bytes.now at }
{
    let pins = u16::get(bytes, at + 8, order);
    let count = u16::get(bytes, at + 10, order);
    let dirty = u16::get(bytes, at + 12, order);
    let accesses = u16::get(bytes, at + 14, order);
    let writes = u16::get(bytes, at + 16, order);
    (dirty <= 1) & ((pins <= 255) & ((count <= 255) & ((accesses <= 255) & (writes <= 255))))
}

// The frame of the entry at `at`, whose numbers fit.
pub fn frame(bytes: &[u8], at: usize, order: Order) -> Frame
    requires { (at + entry_length ≤ length bytes.now) × (entry_fits order bytes.now at ≡ true) }
    ensures { result ≡ frame_in order bytes.now at }
{
    Frame {
        used: true,
        page: u32::get(bytes, at, order),
        dirty: u16::get(bytes, at + 12, order) == 1,
        pins: u16::get(bytes, at + 8, order) as u8,
        count: u16::get(bytes, at + 10, order) as u8,
        last: u32::get(bytes, at + 4, order),
        accesses: u16::get(bytes, at + 14, order) as u8,
        writes: u16::get(bytes, at + 16, order) as u8,
    }
}

// The n numbers that stand in `bytes` from `at` on are stored in a log from `to` on.
pub fn read_log(bytes: &[u8], at: usize, order: Order, log: &mut [u32], to: usize, n: usize)
    requires { (at + 4 * n ≤ length bytes.now) × (to + n ≤ length log.old) }
    ensures { log.new ≡ sets log.old to (words_at order bytes.now at n) }
{
    for j in 0..n {
        log[to + j] = u32::get(bytes, at + 4 * j, order);
    }
}

// The numbers of 4 bytes and the counts of a frame are stored from `at` on.
fn put_numbers(out: &mut [u8], at: usize, order: Order, fr: Frame)
    requires { at + 12 ≤ length out.old }
    ensures { out.new ≡ sets out.old at (bytes_of order 4 fr.page ++ bytes_of order 4 fr.last ++ bytes_of order 2 fr.pins ++ bytes_of order 2 fr.count) }
{
    u32::put(out, at, order, fr.page);
    u32::put(out, at + 4, order, fr.last);
    u16::put(out, at + 8, order, fr.pins as u16);
    u16::put(out, at + 10, order, fr.count as u16);
}

// Whether it is dirty, how long its logs are, and the zero, from `at` on.
fn put_lengths(out: &mut [u8], at: usize, order: Order, fr: Frame)
    requires { at + 8 ≤ length out.old }
    ensures { out.new ≡ sets out.old at (bytes_of order 2 (one_if fr.dirty) ++ bytes_of order 2 fr.accesses ++ bytes_of order 2 fr.writes ++ bytes_of order 2 0) }
{
    u16::put(out, at, order, search::one_if(fr.dirty) as u16);
    u16::put(out, at + 2, order, fr.accesses as u16);
    u16::put(out, at + 4, order, fr.writes as u16);
    u16::put(out, at + 6, order, 0);
}

// What an entry has before its logs is stored from `at` on.
pub fn put_fields(out: &mut [u8], at: usize, order: Order, fr: Frame)
    requires { at + 20 ≤ length out.old }
    ensures { out.new ≡ sets out.old at (field_bytes order fr) }
{
    put_numbers(out, at, order, fr);
    put_lengths(out, at + 12, order, fr);
}

// The n numbers of a log from `start` on are stored from `at` on.
pub fn put_log(out: &mut [u8], at: usize, order: Order, log: &[u32], start: usize, n: usize)
    requires { (at + 4 * n ≤ length out.old) × (start + n ≤ length log.now) }
    ensures { out.new ≡ sets out.old at (word_bytes order (take n (drop start log.now))) }
{
    for j in 0..n {
        u32::put(out, at + 4 * j, order, log[start + j]);
    }
}
