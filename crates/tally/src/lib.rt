// Rows and the tally: what one step answers, and the six counts that it raises.
#![tactic(auto)]

ghost use Rattle.std.specs.Prelude.{◌≡◌, ◌+◌, ◌≤◌, length};
ghost use Rattle.std.proofs.lemmas.List.Edits.{sets};
ghost use Rattle.tally.specs.Rows.{row_numbers, refused_row};
ghost use Rattle.tally.specs.Tally.{numbers_of, counted_by, tally_within, zero_tally};
ghost use Rattle.tally.specs.ForCode.{Countable};

#[derive(Clone, Copy, Debug, PartialEq, Eq)]
pub struct Row {
    pub outcome: u32,
    pub frame: u32,
    pub left: u32,
    pub batch: u32,
}

#[derive(Clone, Copy, Debug, PartialEq, Eq)]
pub struct Tally {
    pub hits: u32,
    pub misses: u32,
    pub evictions: u32,
    pub batches: u32,
    pub written: u32,
    pub refused: u32,
}

// An outcome is a number, since a row is four numbers (`row_numbers`) and a refusal's number is part of it.
pub const HIT: u32 = 0;

pub const MISS_UNUSED: u32 = 1;

pub const MISS_CLEAN: u32 = 2;

pub const MISS_DIRTY: u32 = 3;

pub const UNPIN_DONE: u32 = 4;

// Refusal r is the outcome REFUSED + r.
pub const REFUSED: u32 = 100;

// How many counts a tally has.
pub const COUNTS: usize = 6;

// The most that a count may be in a tally that is handed in.
pub const TALLY_LIMIT: u32 = 4000000000;

// The tally before any step.
pub fn zero() -> Tally
    ensures { result ≡ zero_tally }
{
    Tally {
        hits: 0,
        misses: 0,
        evictions: 0,
        batches: 0,
        written: 0,
        refused: 0,
    }
}

// The counts, in the order in which they go everywhere.
pub fn numbers(t: Tally) -> [u32; COUNTS]
    ensures { result ≡ numbers_of t }
{
    [
        t.hits,
        t.misses,
        t.evictions,
        t.batches,
        t.written,
        t.refused,
    ]
}

// Whether no count is above the limit.
pub fn within(t: Tally) -> bool
    ensures { result ≡ tally_within t }
{
    numbers(t).iter().all(|n| *n <= TALLY_LIMIT)
}

// The tally after one more row: pins count as hits or misses, unpins as neither.
fn counted(t: Tally, row: Row) -> Tally
    requires { Countable t row }
    ensures { result ≡ counted_by t row }
{
    let outcome = row.outcome;
    let pages = row.batch;
    Tally {
        hits: t.hits + search::one_if(outcome == HIT),
        misses: t.misses + search::one_if((MISS_UNUSED <= outcome) & (outcome <= MISS_DIRTY)),
        evictions: t.evictions + search::one_if((MISS_CLEAN <= outcome) & (outcome <= MISS_DIRTY)),
        batches: t.batches + search::one_if(outcome == MISS_DIRTY),
        written: t.written + pages,
        refused: t.refused + search::one_if(REFUSED <= outcome),
    }
}

// The same on a tally that is lent: its six counts are raised in place.
pub fn raise(t: &mut Tally, row: Row)
    requires { Countable t.old row }
    ensures { t.new ≡ counted_by t.old row }
{
    let next = counted(*t, row);
    *t = next;
}

// The same on a tally by value, as a loop has it.
pub fn raised(t: Tally, row: Row) -> Tally
    requires { Countable t row }
    ensures { result ≡ counted_by t row }
{
    let mut next = t;
    raise(&mut next, row);
    next
}

// The row of a refused record. By a number, as the definition has it, whatever refusal that is.
pub fn refused_row(r: u32) -> Row
    requires { r ≤ 100 }
    ensures { result ≡ refused_row r }
{
    Row {
        outcome: REFUSED + r,
        frame: 0,
        left: 0,
        batch: 0,
    }
}

// Stores the four numbers of a row at a place.
pub fn put_row(rows: &mut [u32], at: usize, row: Row)
    requires { at + 4 ≤ length rows.old }
    ensures { rows.new ≡ sets rows.old at (row_numbers row) }
{
    rows[at] = row.outcome;
    rows[at + 1] = row.frame;
    rows[at + 2] = row.left;
    rows[at + 3] = row.batch;
}
