// Replays a trace on standard input to counts from a fresh pool, and prints the sheet, or `trace refused N`.
#![tactic(auto)]

use std::io::Result;

fn bench(out: &impl Print, bytes: &[u8]) -> Result<()> {
    match amend::counts_of(bytes) {
        Ok(sheet) => listing::say_sheet(out, sheet.settings, sheet.count, sheet.tally),
        Err(none) => lines::say_refused(out, u32::from(none.refusal)),
    }
}

// One byte more than the longest trace has is read, so that a longer input shows its wrong length.
fn main(rt: HostRuntime) -> Result<()> {
    let mut space = [0u8; trace::BYTE_LIMIT + 1];
    let n = lines::read_full(&mut rt.stdin(), &mut space)?;
    bench(&rt, &space[..n])
}
