// The writer and the converter of traces.
#![tactic(auto)]

ghost use Rattle.std.specs.Prelude.{◌≡◌, ◌+◌, ◌≤◌, length};
ghost use Rattle.std.proofs.lemmas.List.Edits.{sets};
ghost use Rattle.trace.specs.Layout.{record_limit, header_length, file_length, known_kinds, writes_in, trace_from};
ghost use Rattle.trace.specs.Encode.{records_to, encode, other};
ghost use Rattle.trace.specs.Check.{trace_of};
ghost use Rattle.refusal.specs.Numbers.{answer_of};
ghost use Rattle.scribe.specs.Write.{write_refusal, WrittenTo, ReadsBack, ConvertedTo, ConvertsBack};

use refusal::{Refusal, demand};
use settings::Settings;
use trace::{HEADER_LENGTH, RECORD_LENGTH, RECORD_LIMIT, Trace};
use word::Order;

// What one pass over kinds finds.
#[derive(Clone, Copy)]
struct Kinds {
    pub known: bool,
    pub writes: usize,
}

fn survey_kinds(kinds: &[u16]) -> Kinds
    ensures { (result.known ≡ known_kinds kinds.now) × (result.writes ≡ writes_in kinds.now) × (result.writes ≤ length kinds.now) }
{
    let mut known = true;
    let mut writes: usize = 0;
    for kind in kinds {
        known &= *kind <= 3;
        writes += trace::count_write(*kind) as usize;
    }
    Kinds { known, writes }
}

fn put_records(out: &mut [u8], order: Order, pages: &[u32], kinds: &[u16])
    requires { (length pages.now ≡ length kinds.now) × (length pages.now ≤ record_limit) × (file_length (length pages.now) ≤ length out.old) }
    ensures { out.new ≡ sets out.old header_length (records_to order pages.now kinds.now (length pages.now)) }
{
    for i in 0..pages.len() {
        fields::put_record(
            out,
            HEADER_LENGTH + RECORD_LENGTH * i,
            order,
            pages[i],
            kinds[i],
        );
    }
}

// A whole trace, where there is room for it.
fn put_trace(settings: Settings, order: Order, pages: &[u32], kinds: &[u16], out: &mut [u8])
    requires { (length pages.now ≡ length kinds.now) × (length pages.now ≤ record_limit) × (file_length (length pages.now) ≤ length out.old) }
    ensures { out.new ≡ sets out.old 0 (encode (trace_from settings order pages.now kinds.now)) }
{
    let found = survey_kinds(kinds);
    let n = pages.len() as u32;
    let writes = found.writes as u32;
    fields::put_header(out, order, settings, n, writes);
    put_records(out, order, pages, kinds);
}

// The writer's refusals, where it is lent `room` bytes.
#[tactic(auto, unfolding(crate::specs::Write::write_refusal))]
fn check_write(
    settings: Settings,
    order: Order,
    pages: &[u32],
    kinds: &[u16],
    room: usize,
) -> Result<(), Refusal>
    ensures { answer_of result ≡ write_refusal (trace_from settings order pages.now kinds.now) room }
{
    if (RECORD_LIMIT < pages.len()) | (RECORD_LIMIT < kinds.len()) {
        return Err(Refusal::TooMany);
    }
    let found = survey_kinds(kinds);
    demand(pages.len() == kinds.len(), Refusal::WrongLength)?;
    demand(found.known, Refusal::BadField)?;
    demand(settings::in_range(settings), Refusal::OutOfRange)?;
    demand(
        HEADER_LENGTH + RECORD_LENGTH * pages.len() <= room,
        Refusal::NoRoom,
    )
}

// A trace is written to the front of `out`; where it is refused, nothing is stored.
pub fn write(
    settings: Settings,
    order: Order,
    pages: &[u32],
    kinds: &[u16],
    out: &mut [u8],
) -> Result<(), Refusal>
    ensures written_to { WrittenTo (trace_from settings order pages.now kinds.now) out.old (answer_of result) out.new }
    ensures reads_back { ReadsBack (trace_from settings order pages.now kinds.now) (answer_of result) out.new }
{
    check_write(settings, order, pages, kinds, out.len())?;
    put_trace(settings, order, pages, kinds, out);
    Ok(())
}

// Two cases: no trait of std says `the other` of two plainly.
fn other_order(order: Order) -> Order
    ensures { result ≡ other order }
{
    match order {
        Order::High => Order::Low,
        Order::Low => Order::High,
    }
}

// The records of a trace in an order, at their places in `out`.
fn convert_records(trace: &Trace, order: Order, out: &mut [u8])
    requires { length trace.now.bytes.now ≤ length out.old }
    ensures { out.new ≡ sets out.old header_length (records_to order (trace_of trace.now.bytes.now).pages (trace_of trace.now.bytes.now).kinds trace.now.summary.count) }
{
    for i in 0..trace.summary.count as usize {
        let record = trace.record_at(i);
        fields::put_record(
            out,
            HEADER_LENGTH + RECORD_LENGTH * i,
            order,
            record.page,
            record.kind,
        );
    }
}

fn convert_accepted(trace: &Trace, out: &mut [u8]) -> Result<(), Refusal>
    ensures { ConvertedTo trace.now.bytes.now out.old (answer_of result) out.new }
{
    demand(trace.bytes.len() <= out.len(), Refusal::NoRoom)?;
    let order = trace.summary.order;
    let to = other_order(order);
    let writes = trace.writes();
    fields::put_header(out, to, trace.summary.settings, trace.summary.count, writes);
    convert_records(trace, to, out);
    Ok(())
}

// The same trace in the other order, at the front of `out`; where it is refused, nothing is stored.
pub fn convert(bytes: &[u8], out: &mut [u8]) -> Result<(), Refusal>
    ensures converted_to { ConvertedTo bytes.now out.old (answer_of result) out.new }
    ensures converts_back { ConvertsBack bytes.now (answer_of result) out.new }
{
    let trace = Trace::of(bytes)?;
    convert_accepted(&trace, out)
}
