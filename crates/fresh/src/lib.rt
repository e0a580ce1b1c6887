// Replay to counts from a fresh pool.
#![tactic(auto)]

ghost use Rattle.std.specs.Prelude.{◌≡◌};
ghost use Rattle.trace.specs.Check.{trace_of};
ghost use Rattle.fresh.specs.Fresh.{fresh_counts};

use tally::Tally;
use trace::Trace;

// The counts of a trace from a fresh pool, which is sound: neither is checked again. With no record no pool is made.
pub fn counts(trace: &Trace) -> Tally
    ensures { result ≡ fresh_counts (trace_of trace.now.bytes.now) }
{
    if trace.summary.count == 0 {
        return tally::zero();
    }
    let mut pool = pool::empty(trace.summary.settings);
    let mut tally = tally::zero();
    replay::count(&mut pool, &mut tally, trace);
    tally
}
