// Generalised clock: from the hand upward, lowering counts, until it rests on an unpinned frame with count 0.
ghost use Rattle.std.specs.Prelude.{◌≡◌, ◌<◌, ◌≤◌, true, Some};
ghost use Rattle.pool.specs.Sound.{sound_pool};
ghost use Rattle.table.specs.Table.{frames_in, pool_on};
ghost use Rattle.victim.specs.ForCode.{Chose};
ghost use Rattle.victim.specs.Clock.{rests, passed_count, next_hand, any_unpinned, some_unpinned, swept_choice, clock_choice};

use pool::Frame;
use table::{Bench, Table};

// Whether the hand rests on a frame: unpinned, with count 0.
fn resting(fr: Frame) -> bool
    ensures { result ≡ rests fr }
{
    if fr.pins == 0 { fr.count == 0 } else { false }
}

// The count of a frame that the hand passes: a pinned one's as it is, another's lowered.
fn passing(fr: Frame) -> u8
    ensures { result ≡ passed_count fr }
{
    if fr.pins == 0 {
        if 0 < fr.count {
            return fr.count - 1;
        }
    }
    fr.count
}

// The place after h, from f - 1 back to 0.
fn next_hand(h: usize, f: usize) -> usize
    requires { h < 128 }
    ensures { result ≡ next_hand f h }
{
    if h + 1 < f { h + 1 } else { 0 }
}

// The sweep: from the hand on until it rests, and then one past. With no unpinned frame it would not end. It is a
// loop that yields its victim by `break`, as the scope has it.
fn sweep(bench: &mut Bench) -> usize
    requires { (sound_pool (pool_on bench.old) ≡ true) × (some_unpinned (pool_on bench.old) ≡ true) }
    ensures { Chose (pool_on bench.old) (swept_choice (pool_on bench.old)) (Some result) bench.new }
{
    let f = bench.head.settings.frames as usize;
    let mut at = bench.head.hand as usize;
    let table = &mut bench.table;
    let v = loop {
        let fr = table::frame_at(table, at);
        if resting(fr) {
            break at;
        }
        table::put_count(table, at, passing(fr));
        at = next_hand(at, f);
    };
    let past = next_hand(v, f);
    bench.head.hand = past as u16;
    v
}

// The lowest unpinned frame below f.
fn any_unpinned(table: &Table, f: usize) -> Option<usize>
    requires { f ≤ 128 }
    ensures { result ≡ any_unpinned (frames_in table.now) f }
{
    for i in 0..f {
        let fr = table::frame_at(table, i);
        if fr.pins == 0 {
            return Some(i);
        }
    }
    None
}

// The victim of the sweep, or none and nothing changed where every frame is pinned.
pub fn choose(bench: &mut Bench) -> Option<usize>
    requires { sound_pool (pool_on bench.old) ≡ true }
    ensures { Chose (pool_on bench.old) (clock_choice (pool_on bench.old)) result bench.new }
{
    let f = bench.head.settings.frames as usize;
    let free = any_unpinned(&bench.table, f);
    match free {
        Some(_) => Some(sweep(bench)),
        None => None,
    }
}
