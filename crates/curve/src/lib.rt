// LRU's misses at every pool size, from one pass over a trace: the pages most recently used stand on a stack, and each use tells how many stand
// above its page. No pool is needed.
#![tactic(auto)]

ghost use Rattle.std.specs.Prelude.{◌≡◌, ◌≤◌, ◌<◌, length, take};
ghost use Rattle.std.proofs.lemmas.List.Edits.{sets};
ghost use Rattle.search.specs.ForCode.{past};
ghost use Rattle.refusal.specs.Numbers.{answer_of};
ghost use Rattle.trace.specs.Check.{trace_of};
ghost use Rattle.distance.specs.ForCode.{place_in};
ghost use Rattle.curve.specs.Curve.{sizes, no_pins, CurveInto};
ghost use Rattle.curve.specs.ForCode.{Stands, moved_up, left_by, deepened, Used, Times, leavings, Sparing};

use refusal::{Refusal, demand};
use trace::Trace;

// The pool sizes: 1 to 128 frames. As many pages stand on the stack.
pub const SIZES: usize = 128;

// What one pass over the records finds: whether all are reads and writes, and how many uses found their page at each place, counted one past it; at 0
// those that did not.
#[derive(Clone, Copy)]
struct Passed {
    pub plain: bool,
    pub times: [u32; SIZES + 1],
}

// One past the page's place among the first `depth` of the room, 0 where it is not there. No page stands twice, so a sum finds it, and there is no
// way out of the loop, so that several are compared at once.
fn place_of(room: &[u32; SIZES], depth: usize, page: u32) -> u32
    requires { Stands room.now depth }
    ensures value { result ≡ past (place_in (take depth room.now) page) }
    ensures upper_bound { result ≤ sizes }
{
    let mut sum: u32 = 0;
    for i in 0..depth {
        sum += search::one_past(room[i] == page, i as u32);
    }
    sum
}

// A page comes to the front, and the d before place d go one further down.
fn move_up(room: &mut [u32; SIZES], d: usize, page: u32)
    requires { (d < sizes) × (length room.old ≡ sizes) }
    ensures { room.new ≡ moved_up room.old d page }
{
    room.copy_within(..d, 1);
    room[0] = page;
}

fn left_by(found: usize, depth: usize) -> usize
    ensures { result ≡ left_by found depth }
{
    if found == 0 {
        depth.min(SIZES - 1)
    } else {
        found - 1
    }
}

fn deepened_by(found: usize, depth: usize) -> usize
    ensures { result ≡ deepened found depth }
{
    if found == 0 {
        depth.min(SIZES - 1) + 1
    } else {
        depth
    }
}

// A page is used: one past its place, and it stands in front.
fn use_page(room: &mut [u32; SIZES], depth: usize, page: u32) -> usize
    requires { Stands room.old depth }
    ensures { Used room.old depth page result room.new }
{
    let found = place_of(room, depth, page) as usize;
    move_up(room, left_by(found, depth), page);
    found
}

// One pass over the records of a trace.
fn pass(trace: &Trace) -> Passed
    ensures plain_value { result.plain ≡ no_pins (trace_of trace.now.bytes.now).kinds }
    ensures times { Times (trace_of trace.now.bytes.now).pages result.times trace.now.summary.count }
{
    let mut room = [0u32; SIZES];
    let mut times = [0u32; SIZES + 1];
    let mut depth: usize = 0;
    let mut plain = true;
    for i in 0..trace.summary.count as usize {
        let record = trace.record_at(i);
        plain &= record.kind <= 1;
        let found = use_page(&mut room, depth, record.page);
        depth = deepened_by(found, depth);
        times[found] += 1;
    }
    Passed { plain, times }
}

// The misses of n uses with 1, 2, .. 128 frames: each frame more spares those at one place more.
fn put_curve(list: &mut [u32], times: &[u32; SIZES + 1], n: u32)
    requires { (sizes ≤ length list.old) × Sparing times.now n }
    ensures { list.new ≡ sets list.old 0 (leavings times.now n sizes) }
{
    let mut left = n;
    for f in 0..SIZES {
        left -= times[f + 1];
        list[f] = left;
    }
}

// The curve of a trace at the front of the list; refused by 17, or 13, with nothing stored.
pub fn accepted_misses(trace: &Trace, list: &mut [u32]) -> Result<(), Refusal>
    ensures { CurveInto trace.now.bytes.now list.old (answer_of result) list.new }
{
    let passed = pass(trace);
    demand(passed.plain, Refusal::HasPins)?;
    demand(SIZES <= list.len(), Refusal::NoRoom)?;
    put_curve(list, &passed.times, trace.summary.count);
    Ok(())
}

// The misses of LRU from a fresh pool, with i + 1 frames at place i of the list, whatever rule the trace names; where it is refused, nothing is
// stored.
pub fn misses(bytes: &[u8], list: &mut [u32]) -> Result<(), Refusal>
    ensures { CurveInto bytes.now list.old (answer_of result) list.new }
{
    let trace = Trace::of(bytes)?;
    accepted_misses(&trace, list)
}
