// A trace taken as if its header said otherwise, the trace of a text, and the sizes of a quote: what commands do beyond printing.
#![tactic(auto)]

ghost use Rattle.std.specs.Prelude.{◌≡◌, ◌≤◌, length, take};
ghost use Rattle.trace.specs.Layout.{record_limit, trace_from};
ghost use Rattle.wish.specs.Wish.{wished_settings};
ghost use Rattle.text.specs.Text.{lines_in, first_bad, pages_in, kinds_in};
ghost use Rattle.scribe.specs.Write.{WrittenTo, ReadsBack};
ghost use Rattle.refusal.specs.Numbers.{answer_of};
ghost use Rattle.amend.specs.declared.Fault.TheVariants.{Refused};
ghost use Rattle.amend.specs.Amend.{SetInto, SetsBack, imported_by, ImportedInto, ImportsBack, refused_sheet, counted_by, sheet_of, sheet_with};
ghost use Rattle.amend.specs.Quote.{nearer_of, next_size, quote_tally, quote_line};

use refusal::Refusal;
use settings::Settings;
use tally::Tally;
use trace::{RECORD_LIMIT, Summary, Trace};
use wish::Wish;
use word::Order;

// Why a text becomes no trace: its first bad line, or the trace's refusal.
#[derive(Clone, Copy, Debug, PartialEq, Eq)]
pub enum Fault {
    BadLine(usize),
    Refused(Refusal),
}

impl From<Refusal> for Fault {
    ghost from_gives = { λ refusal fault. fault ≡ Refused refusal };

    fn from(refusal: Refusal) -> Fault {
        Fault::Refused(refusal)
    }
}

// What a sheet says: settings, number of records and counts.
#[derive(Clone, Copy, Debug, PartialEq, Eq)]
pub struct Sheet {
    pub settings: Settings,
    pub count: u32,
    pub tally: Tally,
}

// Why nothing was counted, and the sheet that is handed back.
#[derive(Clone, Copy, Debug, PartialEq, Eq)]
pub struct Uncounted {
    pub refusal: Refusal,
    pub sheet: Sheet,
}

// Nothing is counted of what is refused: the least settings, no record, no count.
impl From<Refusal> for Uncounted {
    ghost from_gives = { λ refusal handed. handed ≡ refused_sheet refusal };

    fn from(refusal: Refusal) -> Uncounted {
        Uncounted {
            refusal,
            sheet: Sheet {
                settings: settings::one_frame(),
                count: 0,
                tally: tally::zero(),
            },
        }
    }
}

// Misses and pages written for each rule.
pub const QUOTE_NUMBERS: usize = 6;

// The first n pages and kinds are written as a trace.
fn write_first(
    settings: Settings,
    order: Order,
    pages: &[u32],
    kinds: &[u16],
    n: usize,
    out: &mut [u8],
) -> Result<(), Refusal>
    requires { (n ≤ length pages.now) × (n ≤ length kinds.now) }
    ensures written_to { WrittenTo (trace_from settings order (take n pages.now) (take n kinds.now)) out.old (answer_of result) out.new }
    ensures reads_back { ReadsBack (trace_from settings order (take n pages.now) (take n kinds.now)) (answer_of result) out.new }
{
    scribe::write(settings, order, &pages[..n], &kinds[..n], out)
}

// The records of an accepted trace with other settings, from the lists that they were read into.
fn set_accepted(
    summary: Summary,
    wish: Wish,
    pages: &[u32; RECORD_LIMIT],
    kinds: &[u16; RECORD_LIMIT],
    out: &mut [u8],
) -> Result<(), Refusal>
    requires { summary.count ≤ record_limit }
    ensures written_to { WrittenTo (trace_from (wished_settings wish summary.settings) summary.order (take summary.count pages.now) (take summary.count kinds.now)) out.old (answer_of result) out.new }
    ensures reads_back { ReadsBack (trace_from (wished_settings wish summary.settings) summary.order (take summary.count pages.now) (take summary.count kinds.now)) (answer_of result) out.new }
{
    let own = summary.settings;
    let order = summary.order;
    let n = summary.count as usize;
    write_first(wish::wished(wish, own), order, pages, kinds, n, out)
}

// The same records with other settings at the front of `out`, or the refusal with nothing stored.
pub fn set(bytes: &[u8], wish: Wish, out: &mut [u8]) -> Result<(), Refusal>
    ensures set_into { SetInto bytes.now wish out.old (answer_of result) out.new }
    ensures sets_back { SetsBack bytes.now wish (answer_of result) out.new }
{
    let mut pages = [0u32; RECORD_LIMIT];
    let mut kinds = [0u16; RECORD_LIMIT];
    let summary = trace::read(bytes, &mut pages, &mut kinds)?;
    set_accepted(summary, wish, &pages, &kinds, out)
}

// The n records of a text as a trace.
fn import_records(
    text: &[u8],
    n: usize,
    settings: Settings,
    order: Order,
    out: &mut [u8],
) -> Result<(), Refusal>
    requires { (n ≡ length (pages_in (lines_in text.now))) × (n ≤ record_limit) }
    ensures written_to { WrittenTo (trace_from settings order (pages_in (lines_in text.now)) (kinds_in (lines_in text.now))) out.old (answer_of result) out.new }
    ensures reads_back { ReadsBack (trace_from settings order (pages_in (lines_in text.now)) (kinds_in (lines_in text.now))) (answer_of result) out.new }
{
    let mut pages = [0u32; RECORD_LIMIT];
    let mut kinds = [0u16; RECORD_LIMIT];
    text::fill(text, &mut pages, &mut kinds);
    write_first(settings, order, &pages, &kinds, n, out)
}

// The trace of a text without a bad line at the front of `out`.
fn import_good(
    text: &[u8],
    n: usize,
    wish: Wish,
    order: Order,
    out: &mut [u8],
) -> Result<usize, Fault>
    requires { (n ≡ length (pages_in (lines_in text.now))) × (first_bad 0 (lines_in text.now) ≡ 0) }
    ensures imported_into { ImportedInto text.now wish order out.old (imported_by result) out.new }
    ensures imports_back { ImportsBack text.now wish order (imported_by result) out.new }
{
    if RECORD_LIMIT < n {
        return Err(Fault::Refused(Refusal::TooMany));
    }
    let settings = wish::wished(wish, wish::usual());
    import_records(text, n, settings, order, out)?;
    Ok(trace::HEADER_LENGTH + trace::RECORD_LENGTH * n)
}

// The trace of a text at the front of `out`: its length, or what is refused with nothing stored.
pub fn import(text: &[u8], wish: Wish, order: Order, out: &mut [u8]) -> Result<usize, Fault>
    ensures imported_into { ImportedInto text.now wish order out.old (imported_by result) out.new }
    ensures imports_back { ImportsBack text.now wish order (imported_by result) out.new }
{
    let found = text::survey_of(text);
    if let Some(line) = found.bad {
        return Err(Fault::BadLine(line));
    }
    import_good(text, found.records, wish, order, out)
}

// What the sheet of a trace says.
pub fn counts_of(bytes: &[u8]) -> Result<Sheet, Uncounted>
    ensures { counted_by result ≡ sheet_of bytes.now }
{
    let trace = Trace::of(bytes)?;
    Ok(Sheet {
        settings: trace.summary.settings,
        count: trace.summary.count,
        tally: fresh::counts(&trace),
    })
}

// What its sheet says where it is taken as if its header said otherwise.
pub fn counts(bytes: &[u8], wish: Wish) -> Result<Sheet, Uncounted>
    ensures { counted_by result ≡ sheet_with bytes.now wish }
{
    let mut space = [0u8; trace::BYTE_LIMIT];
    set(bytes, wish, &mut space)?;
    counts_of(&space[..bytes.len()])
}

// A size where it is above the last one and below the best so far; 0 is none, as in `next_size`.
fn nearer(last: u16, size: u16, best: u16) -> u16
    ensures { result ≡ nearer_of last size best }
{
    if (last < size) & ((best == 0) | (size < best)) {
        size
    } else {
        best
    }
}

// The next size of a quote for a trace of `own` frames, or 0, which stands before the first size and behind the last: one number tells both.
pub fn next_size(own: u16, last: u16) -> u16
    ensures { result ≡ next_size own last }
{
    let high = nearer(
        last,
        32,
        nearer(last, 64, nearer(last, 128, nearer(last, own, 0))),
    );
    nearer(
        last,
        1,
        nearer(
            last,
            2,
            nearer(last, 4, nearer(last, 8, nearer(last, 16, high))),
        ),
    )
}

// The counts of a trace under a rule with so many frames.
fn quote_tally(bytes: &[u8], wish: Wish, rule: u64, frames: u64) -> Tally
    ensures { result ≡ quote_tally bytes.now wish rule frames }
{
    let sized = wish::with(wish, wish::FRAMES, frames);
    match counts(bytes, wish::with(sized, wish::RULE, rule)) {
        Ok(sheet) => sheet.tally,
        Err(none) => none.sheet.tally,
    }
}

// The numbers of a quote's line: misses and pages written under each rule.
pub fn quote_line(bytes: &[u8], wish: Wish, frames: u64) -> [u32; QUOTE_NUMBERS]
    ensures { result ≡ quote_line bytes.now wish frames }
{
    let lru = quote_tally(bytes, wish, 0, frames);
    let clock = quote_tally(bytes, wish, 1, frames);
    let watt = quote_tally(bytes, wish, 2, frames);
    [
        lru.misses,
        lru.written,
        clock.misses,
        clock.written,
        watt.misses,
        watt.written,
    ]
}
