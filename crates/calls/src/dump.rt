// What is printed of a pool and of a tally.
use lines::{Spaced, Text};
use pool::{Frame, Pool};
use settings::Settings;
use std::io::{Result, Write};
use tally::{Row, Tally};

pub fn put_row(text: &mut Text<'_, impl Print>, row: Row) -> Result<()> {
    let numbers = [row.outcome, row.frame, row.left, row.batch];
    writeln!(text, "row{}", Spaced(&numbers))
}

pub fn put_tally(text: &mut Text<'_, impl Print>, t: Tally) -> Result<()> {
    writeln!(text, "tally{}", Spaced(&tally::numbers(t)))
}

fn put_settings(text: &mut Text<'_, impl Print>, s: Settings) -> Result<()> {
    let counts = [s.rule, s.frames, s.batch, s.cap, s.sample, s.weight];
    writeln!(text, "settings{} {} {}", Spaced(&counts), s.span, s.seed)
}

// A frame in use, with all places of its logs, those past its entries too.
fn put_frame(
    text: &mut Text<'_, impl Print>,
    frame: &Frame,
    access: &[u32],
    write: &[u32],
) -> Result<()> {
    let numbers = [
        u32::from(frame.dirty),
        u32::from(frame.pins),
        u32::from(frame.count),
        frame.last,
        u32::from(frame.accesses),
        u32::from(frame.writes),
    ];
    write!(text, "{}{}", frame.page, Spaced(&numbers))?;
    writeln!(text, " :{} :{}", Spaced(access), Spaced(write))
}

fn put_frames(text: &mut Text<'_, impl Print>, p: &Pool) -> Result<()> {
    let logs = p.access.chunks(8).zip(p.write.chunks(4));
    for (frame, (access, write)) in p.frames.iter().zip(logs) {
        if frame.used {
            put_frame(text, frame, access, write)?;
        }
    }
    Ok(())
}

// What a pool holds, but for unused frames.
pub fn put_pool(text: &mut Text<'_, impl Print>, p: &Pool) -> Result<()> {
    put_settings(text, p.settings)?;
    writeln!(text, "pool {} {} {}", p.k, p.hand, p.sampler)?;
    writeln!(text, "frames {}", image::used_frames(*p))?;
    put_frames(text, p)
}
