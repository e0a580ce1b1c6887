// A trace as text: a line for each record.
#![tactic(auto)]

ghost use Rattle.std.specs.Prelude.{◌≡◌, ◌+◌, ◌*◌, ◌≤◌, ◌<◌, eqb, length, position};
ghost use Rattle.std.specs.Iterator.{YieldsFirstRef, item_count};
ghost use Rattle.std.proofs.lemmas.List.Edits.{sets};
ghost use Rattle.search.specs.Search.{pick};
ghost use Rattle.refusal.specs.Refusals.{or_else};
ghost use Rattle.numeral.specs.Numeral.{numeral_of};
ghost use Rattle.text.specs.Text.{line_feed, is_passed, record_line, line_of, lines_of, lines_in, is_bad, line_numbered, first_bad, page_of, kind_of, pages_in, kinds_in, word_of, decimal_of, line_text, line_room, text_of, exported_by, ExportedInto};
ghost use Rattle.text.specs.ForCode.{number_in};
ghost use Rattle.trace.specs.Check.{trace_of};

use refusal::Refusal;
use trace::Trace;

// What a line is: passed over, a record's kind and page, or bad. That is three things, one more than an Option tells.
#[derive(Clone, Copy)]
pub enum Line {
    Passed,
    Record(u16, u32),
    Bad,
}

// What one look through a text finds: the first bad line, counted from 1, and how many records there are.
#[derive(Clone, Copy)]
pub struct Survey {
    pub bad: Option<usize>,
    pub records: usize,
}

// The bytes of the longest line, with its line feed.
pub const LINE_ROOM: usize = 17;

// The bytes of the longest text.
pub const TEXT_LIMIT: usize = LINE_ROOM * trace::RECORD_LIMIT;

// The lines of a text, one after the other: each ends in a line feed, which the last may lack.
#[derive(Drop)]
struct Lines<'a> {
    text: &'a [u8],
}

impl<'a> Iterator for Lines<'a> {
    type Item = &'a [u8];

    ghost next_gives = { YieldsFirstRef (λ s. lines_of s.text.now) };

    ghost remaining = { item_count (λ s. lines_of s.text.now) };

    fn next(&mut self) -> Option<&'a [u8]> {
        let text = self.text;
        match first_feed(text) {
            Some(end) => {
                self.text = &text[end + 1..];
                Some(&text[..end])
            }
            None if text.is_empty() => None,
            None => {
                self.text = &text[text.len()..];
                Some(text)
            }
        }
    }
}

// Where the first line feed of a text is.
fn first_feed(text: &[u8]) -> Option<usize>
    ensures { result ≡ position (λ c. eqb c line_feed) text.now }
{
    text.iter().position(|c| *c == b'\n')
}

// Whether a line is empty or a remark.
fn is_passed(line: &[u8]) -> bool
    ensures { result ≡ is_passed line.now }
{
    line.is_empty() || line[0] == b'#'
}

// A record of a kind, whose page is what stands behind the kind's word.
fn record_of(kind: u16, page: &[u8]) -> Line
    ensures { result ≡ record_line kind (numeral_of page.now) }
{
    match numeral::read(page) {
        Some(page) if page < numeral::NUMBER_LIMIT => Line::Record(kind, page as u32),
        _ => Line::Bad,
    }
}

pub fn line_of(line: &[u8]) -> Line
    ensures { result ≡ line_of line.now }
{
    if is_passed(line) {
        return Line::Passed;
    }
    if let Some(page) = line.strip_prefix(b"read ") {
        return record_of(0, page);
    }
    if let Some(page) = line.strip_prefix(b"write ") {
        return record_of(1, page);
    }
    if let Some(page) = line.strip_prefix(b"pin ") {
        return record_of(2, page);
    }
    if let Some(page) = line.strip_prefix(b"unpin ") {
        return record_of(3, page);
    }
    Line::Bad
}

fn is_bad(line: Line) -> bool
    ensures { result ≡ is_bad line }
{
    matches!(line, Line::Bad)
}

// How many records a line has.
fn records_of(line: Line) -> usize
    ensures { (result ≡ length (page_of line)) × (result ≤ 1) }
{
    match line {
        Line::Record(_, _) => 1,
        Line::Passed | Line::Bad => 0,
    }
}

// The first bad line so far, by its number: one that was found before, or the one of this number where it is bad.
fn first_of(bad: Option<usize>, fault: bool, number: usize) -> Option<usize>
    requires { (bad ≡ line_numbered (number_in bad)) × (0 < number) }
    ensures { result ≡ line_numbered (or_else (number_in bad) (pick fault number 0)) }
{
    if bad.is_some() {
        return bad;
    }
    fault.then_some(number)
}

// The first bad line, and how many records there are, in one look through the text.
pub fn survey_of(text: &[u8]) -> Survey
    ensures { (result.bad ≡ line_numbered (first_bad 0 (lines_in text.now))) × (result.records ≡ length (pages_in (lines_in text.now))) }
{
    let mut bad = None;
    let mut records = 0;
    let mut lines = 0;
    for bytes in (Lines { text }) {
        let line = line_of(bytes);
        lines += 1;
        bad = first_of(bad, is_bad(line), lines);
        records += records_of(line);
    }
    Survey { bad, records }
}

// What a line gives is stored at place n of both lists; answers the place after it.
fn store_line(line: Line, pages: &mut [u32], kinds: &mut [u16], n: usize) -> usize
    requires { (n + length (page_of line) ≤ length pages.old) × (n + length (kind_of line) ≤ length kinds.old) }
    ensures value { result ≡ n + length (page_of line) }
    ensures pages_after { pages.new ≡ sets pages.old n (page_of line) }
    ensures kinds_after { kinds.new ≡ sets kinds.old n (kind_of line) }
{
    if let Line::Record(kind, page) = line {
        pages[n] = page;
        kinds[n] = kind;
        return n + 1;
    }
    n
}

// The pages and kinds of the records, at the front of two lent lists.
pub fn fill(text: &[u8], pages: &mut [u32], kinds: &mut [u16])
    requires { (length (pages_in (lines_in text.now)) ≤ length pages.old) × (length (kinds_in (lines_in text.now)) ≤ length kinds.old) }
    ensures pages_after { pages.new ≡ sets pages.old 0 (pages_in (lines_in text.now)) }
    ensures kinds_after { kinds.new ≡ sets kinds.old 0 (kinds_in (lines_in text.now)) }
{
    let mut n = 0;
    for line in (Lines { text }) {
        n = store_line(line_of(line), pages, kinds, n);
    }
}

// Bytes are stored from `at` on; answers the place after them.
fn put_bytes(out: &mut [u8], at: usize, bytes: &[u8]) -> usize
    requires { at + length bytes.now ≤ length out.old }
    ensures value { result ≡ at + length bytes.now }
    ensures out_after { out.new ≡ sets out.old at bytes.now }
{
    let end = at + bytes.len();
    out[at..end].copy_from_slice(bytes);
    end
}

// A kind's word and the space behind it. A kind is a number, since the records that a writer is handed may have any (refusal 6).
fn put_word(out: &mut [u8], at: usize, kind: u16) -> usize
    requires { at + 6 ≤ length out.old }
    ensures value { result ≡ at + length (word_of kind) }
    ensures out_after { out.new ≡ sets out.old at (word_of kind) }
{
    match kind {
        0 => put_bytes(out, at, b"read "),
        1 => put_bytes(out, at, b"write "),
        2 => put_bytes(out, at, b"pin "),
        3..=65535 => put_bytes(out, at, b"unpin "),
    }
}

// A number's digits, by way of fixed memory.
fn put_decimal(out: &mut [u8], at: usize, n: u32) -> usize
    requires { at + 10 ≤ length out.old }
    ensures value { result ≡ at + length (decimal_of n) }
    ensures out_after { out.new ≡ sets out.old at (decimal_of n) }
{
    let mut digits = [0u8; 20];
    let count = io::decimal(u64::from(n), &mut digits);
    put_bytes(out, at, &digits[..count])
}

// The line of a record is stored from `at` on; answers the place after it.
fn put_line(out: &mut [u8], at: usize, kind: u16, page: u32) -> usize
    requires { at + line_room ≤ length out.old }
    ensures value { (result ≡ at + length (line_text kind page)) × (result ≤ at + line_room) }
    ensures out_after { out.new ≡ sets out.old at (line_text kind page) }
{
    let behind = put_word(out, at, kind);
    let end = put_decimal(out, behind, page);
    put_bytes(out, end, b"\n")
}

// The lines of an accepted trace; answers how many bytes they have.
fn put_lines(trace: &Trace, out: &mut [u8]) -> usize
    requires { line_room * trace.now.summary.count ≤ length out.old }
    ensures value { result ≡ length (text_of (trace_of trace.now.bytes.now)) }
    ensures out_after { out.new ≡ sets out.old 0 (text_of (trace_of trace.now.bytes.now)) }
{
    let n = trace.summary.count as usize;
    let mut at = 0;
    for i in 0..n {
        let record = trace.record_at(i);
        at = put_line(out, at, record.kind, record.page);
    }
    at
}

fn export_accepted(trace: &Trace, out: &mut [u8]) -> Result<usize, Refusal>
    ensures { ExportedInto trace.now.bytes.now out.old (exported_by result) out.new }
{
    let n = trace.summary.count as usize;
    if out.len() < LINE_ROOM * n {
        return Err(Refusal::NoRoom);
    }
    Ok(put_lines(trace, out))
}

// A trace as text at the front of `out`: how many bytes it has, or the refusal with nothing stored.
pub fn export(bytes: &[u8], out: &mut [u8]) -> Result<usize, Refusal>
    ensures { ExportedInto bytes.now out.old (exported_by result) out.new }
{
    let trace = Trace::of(bytes)?;
    export_accepted(&trace, out)
}
