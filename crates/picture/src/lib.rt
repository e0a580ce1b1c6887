// The curve as a picture, in SVG.
#![tactic(auto)]

ghost use Rattle.std.specs.Prelude.{◌≤◌};
ghost use Rattle.curve.specs.Curve.{NeverRises};

use lines::Text;
use scale::{misses_with, tick_for, ticks_for, x_for, y_for};
use std::io::{Result, Write};

// The frames at the marks of their axis.
const MARKS: [u16; 9] = [1, 16, 32, 48, 64, 80, 96, 112, 128];

fn put_head(text: &mut Text<'_, impl Print>, records: u32) -> Result<()> {
    write!(
        text,
        "<svg xmlns=\"http://www.w3.org/2000/svg\" width=\"180mm\" height=\"115mm\" viewBox=\"0 0 1800 1150\" \
        font-family=\"sans-serif\" font-size=\"32\">\n\
        <title>LRU misses by pool size</title>\n\
        <rect width=\"1800\" height=\"1150\" fill=\"white\"/>\n\
        <text x=\"200\" y=\"64\" font-size=\"48\">LRU misses by pool size</text>\n\
        <text x=\"200\" y=\"112\">records {records}</text>\n"
    )
}

// The lines of the misses.
fn put_lines(text: &mut Text<'_, impl Print>, most: u32) -> Result<()> {
    for t in 1..=ticks_for(most) {
        let y = y_for(most, tick_for(most, t));
        writeln!(text, "<path d=\"M200 {y}H1724\"/>")?;
    }
    Ok(())
}

// The number of each line, and of the axis, at its left. What it shares with `put_lines` is the loop, and not a word of the text.
fn put_labels(text: &mut Text<'_, impl Print>, most: u32) -> Result<()> {
    for t in 0..=ticks_for(most) {
        let misses = tick_for(most, t);
        let y = y_for(most, misses) + 11;
        writeln!(text, "<text x=\"180\" y=\"{y}\">{misses}</text>")?;
    }
    Ok(())
}

fn put_grid(text: &mut Text<'_, impl Print>, most: u32) -> Result<()> {
    writeln!(text, "<g fill=\"none\" stroke=\"#bbb\" stroke-width=\"2\">")?;
    put_lines(text, most)?;
    write!(text, "</g>\n<g text-anchor=\"end\">\n")?;
    put_labels(text, most)?;
    writeln!(text, "</g>")
}

fn put_sizes(text: &mut Text<'_, impl Print>) -> Result<()> {
    for frames in MARKS {
        let x = x_for(frames);
        writeln!(text, "<text x=\"{x}\" y=\"990\">{frames}</text>")?;
    }
    Ok(())
}

// The words for a curve that never rises. They can be put for no other.
pub fn put_never_rises(text: &mut Text<'_, impl Print>, misses: &[u32; 128]) -> Result<()>
    requires { NeverRises misses.now }
{
    text.write_all(b"never rises")
}

// What stands below the frames' axis.
fn put_below(text: &mut Text<'_, impl Print>, misses: &[u32; 128]) -> Result<()>
    requires { NeverRises misses.now }
{
    write!(
        text,
        "<text x=\"962\" y=\"1050\">frames</text>\n\
        <text x=\"962\" y=\"1110\">"
    )?;
    put_never_rises(text, misses)?;
    writeln!(text, ": more frames never cost more misses</text>")
}

fn put_names(text: &mut Text<'_, impl Print>, misses: &[u32; 128]) -> Result<()>
    requires { NeverRises misses.now }
{
    writeln!(text, "<g text-anchor=\"middle\">")?;
    put_sizes(text)?;
    put_below(text, misses)?;
    write!(
        text,
        "<text transform=\"translate(50 560) rotate(-90)\">misses</text>\n</g>\n"
    )
}

// The mark of each such size: another text at the same places.
fn put_marks(text: &mut Text<'_, impl Print>) -> Result<()> {
    for frames in MARKS {
        let x = x_for(frames);
        writeln!(text, "<path d=\"M{x} 940V952\"/>")?;
    }
    Ok(())
}

// The axes, and the upright line at the trace's own size.
fn put_axes(text: &mut Text<'_, impl Print>, own: u16) -> Result<()> {
    write!(
        text,
        "<g fill=\"none\" stroke=\"black\" stroke-width=\"3\">\n\
        <path d=\"M200 180V940H1724\"/>\n"
    )?;
    put_marks(text)?;
    let x = x_for(own);
    write!(
        text,
        "<path d=\"M{x} 940V180\" stroke-dasharray=\"12 10\"/>\n</g>\n"
    )
}

// The points of the curve, parted by spaces.
fn put_points(text: &mut Text<'_, impl Print>, misses: &[u32; 128]) -> Result<()> {
    for (frames, here) in (1..=128).zip(misses) {
        let x = x_for(frames);
        let y = y_for(misses[0], u64::from(*here));
        let ending = if frames < 128 { ' ' } else { '"' };
        write!(text, "{x},{y}{ending}")?;
    }
    Ok(())
}

fn put_curve(text: &mut Text<'_, impl Print>, misses: &[u32; 128]) -> Result<()> {
    write!(text, "<polyline points=\"")?;
    put_points(text, misses)?;
    writeln!(
        text,
        " fill=\"none\" stroke=\"black\" stroke-width=\"6\" stroke-linejoin=\"round\"/>"
    )
}

// The trace's own size, in words, on that side of its line where there is room.
fn put_words(text: &mut Text<'_, impl Print>, own: u16, misses: u32) -> Result<()> {
    let x = x_for(own);
    let side = if 64 < own { "end" } else { "start" };
    write!(
        text,
        "<text x=\"{x}\" y=\"152\" text-anchor=\"{side}\">own size: frames {own}, misses {misses}</text>\n"
    )
}

fn put_own(text: &mut Text<'_, impl Print>, own: u16, misses: &[u32; 128]) -> Result<()>
    requires { (1 ≤ own) × (own ≤ 128) }
{
    let here = misses_with(misses, own);
    let x = x_for(own);
    let y = y_for(misses[0], u64::from(here));
    writeln!(
        text,
        "<circle cx=\"{x}\" cy=\"{y}\" r=\"12\" fill=\"white\" stroke=\"black\" stroke-width=\"5\"/>"
    )?;
    put_words(text, own, here)?;
    writeln!(text, "</svg>")
}

// Prints the picture for a trace of so many records, whose own size is `own` frames. Place i of the list is the misses with
// i + 1 frames, and never rises: it says so.
pub fn draw(out: &impl Print, records: u32, own: u16, misses: &[u32; 128]) -> Result<()>
    requires { (1 ≤ own) × (own ≤ 128) × NeverRises misses.now }
{
    let mut text = Text::new(out);
    put_head(&mut text, records)?;
    put_grid(&mut text, misses[0])?;
    put_names(&mut text, misses)?;
    put_axes(&mut text, own)?;
    put_curve(&mut text, misses)?;
    put_own(&mut text, own, misses)?;
    text.flush()
}
