// Traces of edition 1: a header of 48 bytes, then records of 8 bytes, in either byte order.
#![tactic(auto)]

ghost use Rattle.std.specs.Prelude.{◌≡◌, ◌≤◌, ◌<◌, length};
ghost use Rattle.std.proofs.lemmas.List.Edits.{sets};
ghost use Rattle.refusal.specs.Numbers.{answer_of};
ghost use Rattle.trace.specs.Layout.{record_limit, header_length, file_length, mark_of, count_at, kind_at, zero_at, is_write, known_kinds, writes_in, all_zero, up_to, trace_at};
ghost use Rattle.trace.specs.Check.{layout_refusal, content_refusal, refusal_in, checked, outcome, check_of, Promises, trace_of, ReadInto, WritesAgain};
ghost use Rattle.trace.specs.Answer.{checked_by};

mod accepted;

pub use accepted::Trace;
use refusal::{Refusal, demand};
use settings::Settings;
use word::{Order, Word};

// What the checker tells of a trace that it accepts.
#[derive(Clone, Copy)]
pub struct Summary {
    pub settings: Settings,
    pub order: Order,
    pub count: u32,
}

// What one pass over the records finds.
#[derive(Clone, Copy)]
struct Survey {
    pub known: bool,
    pub zeros: bool,
    pub writes: u32,
}

#[derive(Clone, Copy)]
pub struct Record {
    pub page: u32,
    pub kind: u16,
}

pub const EDITION: u16 = 1;

pub const RECORD_LIMIT: usize = 8000;

pub const HEADER_LENGTH: usize = 48;

pub const RECORD_LENGTH: usize = 8;

// Where the settings stand in a header.
pub const SETTINGS_PLACE: usize = 24;

// The bytes of the longest trace.
pub const BYTE_LIMIT: usize = HEADER_LENGTH + RECORD_LENGTH * RECORD_LIMIT;

// The order that the first four bytes name, if they are a mark.
pub fn mark_of(s: &[u8]) -> Option<Order>
    requires { 4 ≤ length s.now }
    ensures { result ≡ mark_of s.now }
{
    if s.starts_with(b"\x01\x02\x03\x04") {
        Some(Order::High)
    } else if s.starts_with(b"\x04\x03\x02\x01") {
        Some(Order::Low)
    } else {
        None
    }
}

// Refusals 3 to 5.
#[tactic(auto, unfolding(crate::specs::Check::layout_refusal))]
fn check_layout(s: &[u8], order: Order) -> Result<(), Refusal>
    requires { header_length ≤ length s.now }
    ensures { answer_of result ≡ layout_refusal order s.now }
{
    let edition = u16::get(s, 4, order);
    let n = u32::get(s, 8, order) as usize;
    let offset = u32::get(s, 12, order);
    let long = u32::get(s, 20, order);
    let size = HEADER_LENGTH + RECORD_LENGTH * n;
    let lengths = (offset as usize == HEADER_LENGTH)
        & ((long as usize == size) & (s.len() == size));
    demand(edition == EDITION, Refusal::OtherEdition)?;
    demand(n <= RECORD_LIMIT, Refusal::TooMany)?;
    demand(lengths, Refusal::WrongLength)
}

// 1 for a write.
pub fn count_write(kind: u16) -> u32
    ensures { (result ≡ is_write kind) × (result ≤ 1) }
{
    search::one_if(kind == 1)
}

// One pass over the first n records.
fn survey_of(s: &[u8], order: Order, n: usize) -> Survey
    requires { (n ≤ record_limit) × (file_length n ≤ length s.now) }
    ensures { (result.known ≡ known_kinds (up_to (kind_at order s.now) n)) × (result.zeros ≡ all_zero (up_to (zero_at order s.now) n)) × (result.writes ≡ writes_in (up_to (kind_at order s.now) n)) }
{
    let mut known = true;
    let mut zeros = true;
    let mut writes: u32 = 0;
    for i in 0..n {
        let at = HEADER_LENGTH + RECORD_LENGTH * i;
        let kind = u16::get(s, at + 4, order);
        known &= kind <= 3;
        zeros &= u16::get(s, at + 6, order) == 0;
        writes += count_write(kind);
    }
    Survey {
        known,
        zeros,
        writes,
    }
}

// Refusals 6 to 8, of a trace whose lengths are right.
#[tactic(auto, unfolding(crate::specs::Check::content_refusal))]
fn check_content(s: &[u8], order: Order) -> Result<(), Refusal>
    requires { (count_at order s.now ≤ record_limit) × (length s.now ≡ file_length (count_at order s.now)) }
    ensures { answer_of result ≡ content_refusal order s.now }
{
    let n = u32::get(s, 8, order);
    let writes = u32::get(s, 16, order);
    let first_zero = u16::get(s, 6, order) == 0;
    let last_zero = u32::get(s, 44, order) == 0;
    let found = survey_of(s, order, n as usize);
    let zeros = first_zero & (last_zero & found.zeros);
    let ranges = settings::in_range(settings::read(s, SETTINGS_PLACE, order));
    demand(zeros & found.known, Refusal::BadField)?;
    demand(writes == found.writes, Refusal::WrongWrites)?;
    demand(ranges, Refusal::OutOfRange)
}

// Refusals 3 to 8.
#[tactic(auto, unfolding(crate::specs::Check::refusal_in), using(crate::proofs::Laws::laid_out, refusal::proofs::Laws::or_first))]
fn check_in(s: &[u8], order: Order) -> Result<(), Refusal>
    requires { header_length ≤ length s.now }
    ensures { answer_of result ≡ refusal_in order s.now }
{
    check_layout(s, order)?;
    check_content(s, order)
}

fn summary_in(s: &[u8], order: Order) -> Result<Summary, Refusal>
    requires { header_length ≤ length s.now }
    ensures { checked_by result ≡ checked (outcome (refusal_in order s.now) (trace_at order s.now)) }
{
    check_in(s, order)?;
    Ok(Summary {
        settings: settings::read(s, SETTINGS_PLACE, order),
        order,
        count: u32::get(s, 8, order),
    })
}

// A trace's settings, order and record count, or its first refusal.
pub fn check(bytes: &[u8]) -> Result<Summary, Refusal>
    ensures value { checked_by result ≡ check_of bytes.now }
    ensures promises { Promises bytes.now (checked_by result) }
{
    if bytes.len() < HEADER_LENGTH {
        return Err(Refusal::TooShort);
    }
    match mark_of(bytes) {
        Some(order) => summary_in(bytes, order),
        None => Err(Refusal::UnknownMark),
    }
}

// The pages and kinds of a trace, at the front of two lent lists.
fn read_records(trace: &Trace, pages: &mut [u32], kinds: &mut [u16])
    requires { (trace.now.summary.count ≤ length pages.old) × (trace.now.summary.count ≤ length kinds.old) }
    ensures pages_after { pages.new ≡ sets pages.old 0 (trace_of trace.now.bytes.now).pages }
    ensures kinds_after { kinds.new ≡ sets kinds.old 0 (trace_of trace.now.bytes.now).kinds }
{
    for i in 0..trace.summary.count as usize {
        let record = trace.record_at(i);
        pages[i] = record.page;
        kinds[i] = record.kind;
    }
}

fn read_accepted(trace: &Trace, pages: &mut [u32], kinds: &mut [u16]) -> Result<Summary, Refusal>
    ensures { ReadInto trace.now.bytes.now pages.old kinds.old (checked_by result) pages.new kinds.new }
{
    let n = trace.summary.count as usize;
    demand((n <= pages.len()) & (n <= kinds.len()), Refusal::NoRoom)?;
    read_records(trace, pages, kinds);
    Ok(trace.summary)
}

// The checker's answer, with the records in two lent lists.
pub fn read(bytes: &[u8], pages: &mut [u32], kinds: &mut [u16]) -> Result<Summary, Refusal>
    ensures read_into { ReadInto bytes.now pages.old kinds.old (checked_by result) pages.new kinds.new }
    ensures writes_again { WritesAgain bytes.now (checked_by result) pages.new kinds.new }
{
    let trace = Trace::of(bytes)?;
    read_accepted(&trace, pages, kinds)
}
