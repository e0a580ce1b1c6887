// LRU's misses at every pool size, as lines or as a picture.
ghost use Rattle.curve.specs.Curve.{NeverRises};

use crate::work::granted;
use files::{Stop, printed};
use lines::Text;
use std::io::{self, Write};

// A line for each size: the frames, then the misses. The last line says that these never rise.
fn say_sizes(out: &impl Print, misses: &[u32; curve::SIZES]) -> io::Result<()>
    requires { NeverRises misses.now }
{
    let mut text = Text::new(out);
    for (frames, count) in (1u32..).zip(misses) {
        writeln!(text, "{frames} {count}")?;
    }
    picture::put_never_rises(&mut text, misses)?;
    writeln!(text)?;
    text.flush()
}

fn draw(out: &impl Print, bytes: &[u8], misses: &[u32; curve::SIZES]) -> io::Result<()>
    requires { NeverRises misses.now }
{
    match trace::check(bytes) {
        Err(_) => Ok(()),
        Ok(s) => picture::draw(out, s.count, s.settings.frames, misses),
    }
}

fn show(out: &impl Print, bytes: &[u8], misses: &[u32; curve::SIZES], svg: bool) -> io::Result<()>
    requires { NeverRises misses.now }
{
    if svg {
        return draw(out, bytes, misses);
    }
    say_sizes(out, misses)
}

pub fn curve(rt: &HostRuntime, bytes: &[u8], svg: bool) -> Result<(), Stop> {
    let mut misses = [0u32; curve::SIZES];
    granted(rt, curve::misses(bytes, &mut misses))?;
    printed(rt, show(rt, bytes, &misses, svg))
}
