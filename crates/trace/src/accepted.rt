// A trace that the checker accepts.
ghost use Rattle.std.specs.Prelude.{◌≡◌};
ghost use Rattle.trace.specs.Check.{check_of};
ghost use Rattle.trace.specs.Check.Checked.{Accepted};

use crate::{HEADER_LENGTH, RECORD_LENGTH, Record, Summary};
use refusal::Refusal;
use word::Word;

// Bytes that the checker accepts, with what it tells of them.
#[derive(Clone, Copy)]
pub struct Trace<'a> {
    pub bytes: &'a [u8],
    pub summary: Summary,
    pub ghost accepted: { check_of bytes.now ≡ Accepted summary },
}

impl<'a> Trace<'a> {
    ghost use Rattle.std.specs.Prelude.{◌<◌, IfOk};
    ghost use Rattle.trace.specs.Layout.{record_in, writes_in};
    ghost use Rattle.trace.specs.Check.{trace_of};
    ghost use Rattle.trace.specs.Answer.{told_by};

    // The trace that bytes hold, or its first refusal.
    pub fn of(bytes: &'a [u8]) -> Result<Trace<'a>, Refusal>
        ensures value { told_by result ≡ check_of bytes.now }
        ensures same { IfOk result (λ trace. trace.bytes.now ≡ bytes.now) }
    {
        let summary = crate::check(bytes)?;
        Ok(Trace { bytes, summary })
    }

    // Record i.
    pub fn record_at(&self, i: usize) -> Record
        requires { i < self.now.summary.count }
        ensures { result ≡ record_in (trace_of self.now.bytes.now) i }
    {
        let order = self.summary.order;
        let at = HEADER_LENGTH + RECORD_LENGTH * i;
        Record {
            page: u32::get(self.bytes, at, order),
            kind: u16::get(self.bytes, at + 4, order),
        }
    }

    // How many of the records are writes.
    pub fn writes(&self) -> u32
        ensures { result ≡ writes_in (trace_of self.now.bytes.now).kinds }
    {
        u32::get(self.bytes, 16, self.summary.order)
    }
}
