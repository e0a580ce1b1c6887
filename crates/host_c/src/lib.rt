// What C calls: the functions of `host`, exported under the names that include/hitchyawl.h declares, each with the same clauses. A slice crosses
// as a pointer and its length.
#![tactic(auto)]

ghost use Rattle.std.specs.Prelude.{◌≡◌};
ghost use Rattle.trace.specs.Check.{check_of, number_of_answer};
ghost use Rattle.scribe.specs.Write.{ConvertedTo, ConvertsBack};
ghost use Rattle.host.specs.Counts.{CountsInto};
ghost use Rattle.host.specs.Curve.{CurveBytesInto};

// 0, or the trace's refusal.
#[unsafe(no_mangle)]
pub extern "C" fn hitchyawl_check(bytes: &[u8]) -> u32
    ensures { result ≡ number_of_answer (check_of bytes.now) }
{
    host::hitchyawl_check(bytes)
}

// The same trace in the other order at the front of `out`: 0, or the refusal with nothing stored.
#[unsafe(no_mangle)]
pub extern "C" fn hitchyawl_convert(bytes: &[u8], out: &mut [u8]) -> u32
    ensures converted_to { ConvertedTo bytes.now out.old result out.new }
    ensures converts_back { ConvertsBack bytes.now result out.new }
{
    host::hitchyawl_convert(bytes, out)
}

// The six counts of a replay from a fresh pool in the first 24 bytes of `out`, in the trace's order: 0, or the refusal with nothing stored.
#[unsafe(no_mangle)]
pub extern "C" fn hitchyawl_counts(bytes: &[u8], out: &mut [u8]) -> u32
    ensures { CountsInto bytes.now out.old result out.new }
{
    host::hitchyawl_counts(bytes, out)
}

// The misses of LRU with 1 to 128 frames in the first 512 bytes of `out`, in the trace's order: 0, or the refusal with nothing stored.
#[unsafe(no_mangle)]
pub extern "C" fn hitchyawl_curve(bytes: &[u8], out: &mut [u8]) -> u32
    ensures { CurveBytesInto bytes.now out.old result out.new }
{
    host::hitchyawl_curve(bytes, out)
}
