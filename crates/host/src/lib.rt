// What the C transport calls: numbers and bytes in, 0 or a refusal out. include/hitchyawl.h is the same for C.
#![tactic(auto)]

ghost use Rattle.std.specs.Prelude.{◌≡◌, ◌*◌, ◌≤◌, length};
ghost use Rattle.refusal.specs.Numbers.{answer_of};
ghost use Rattle.trace.specs.Check.{check_of, number_of_answer};
ghost use Rattle.scribe.specs.Write.{ConvertedTo, ConvertsBack};
ghost use Rattle.std.proofs.lemmas.List.Edits.{sets};
ghost use Rattle.host.specs.Counts.{words_of, CountsInto};
ghost use Rattle.host.specs.Curve.{CurveBytesInto};

use refusal::{Refusal, answer_of, demand};
use trace::Trace;
use word::{Order, Word};

// The bytes of the counts, 4 for each.
pub const COUNTS_BYTES: usize = 4 * tally::COUNTS;

// The bytes of the curve, 4 for each size.
pub const CURVE_BYTES: usize = 4 * curve::SIZES;

// 0, or the trace's refusal.
pub fn hitchyawl_check(bytes: &[u8]) -> u32
    ensures { result ≡ number_of_answer (check_of bytes.now) }
{
    match trace::check(bytes) {
        Ok(_) => 0,
        Err(r) => u32::from(r),
    }
}

// The same trace in the other order at the front of `out`: 0, or the refusal with nothing stored.
pub fn hitchyawl_convert(bytes: &[u8], out: &mut [u8]) -> u32
    ensures converted_to { ConvertedTo bytes.now out.old result out.new }
    ensures converts_back { ConvertsBack bytes.now result out.new }
{
    answer_of(scribe::convert(bytes, out))
}

// Numbers, 4 bytes each, at the front of `out`.
fn put_numbers(out: &mut [u8], order: Order, l: &[u32])
    requires { 4 * length l.now ≤ length out.old }
    ensures { out.new ≡ sets out.old 0 (words_of order l.now) }
{
    for (i, number) in l.iter().enumerate() {
        u32::put(out, 4 * i, order, *number);
    }
}

fn counts_accepted(trace: &Trace, out: &mut [u8]) -> Result<(), Refusal>
    ensures { CountsInto trace.now.bytes.now out.old (answer_of result) out.new }
{
    demand(COUNTS_BYTES <= out.len(), Refusal::NoRoom)?;
    let order = trace.summary.order;
    let numbers = tally::numbers(fresh::counts(trace));
    put_numbers(out, order, &numbers);
    Ok(())
}

// The six counts of a replay from a fresh pool in the first 24 bytes of `out`, in the trace's order: 0, or the refusal with nothing stored.
pub fn hitchyawl_counts(bytes: &[u8], out: &mut [u8]) -> u32
    ensures { CountsInto bytes.now out.old result out.new }
{
    match Trace::of(bytes) {
        Ok(trace) => answer_of(counts_accepted(&trace, out)),
        Err(number) => u32::from(number),
    }
}

fn curve_accepted(trace: &Trace, out: &mut [u8]) -> Result<(), Refusal>
    ensures { CurveBytesInto trace.now.bytes.now out.old (answer_of result) out.new }
{
    let mut list = [0u32; curve::SIZES];
    curve::accepted_misses(trace, &mut list)?;
    demand(CURVE_BYTES <= out.len(), Refusal::NoRoom)?;
    let own = trace.summary.order;
    put_numbers(out, own, &list);
    Ok(())
}

// The misses of LRU with 1 to 128 frames in the first 512 bytes of `out`, in the trace's order: 0, or the refusal with nothing stored.
pub fn hitchyawl_curve(bytes: &[u8], out: &mut [u8]) -> u32
    ensures { CurveBytesInto bytes.now out.old result out.new }
{
    match Trace::of(bytes) {
        Ok(trace) => answer_of(curve_accepted(&trace, out)),
        Err(fault) => u32::from(fault),
    }
}
