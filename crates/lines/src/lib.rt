// Words and numbers on standard output, and the bytes of an input, for the programs. What prints answers the error of the first
// write that fails.
#![tactic(auto)]

ghost use Rattle.std.specs.Prelude.{◌≡◌, ◌<◌, ◌≤◌, length, IfOk};

mod list;

pub use list::Spaced;
use std::io::{Read, Result, Write};

pub fn say(out: &impl Print, text: &[u8]) -> Result<()> {
    out.write_all(text)
}

// All that is said of a bad trace, by the refusal's number.
pub fn say_refused(out: &impl Print, refusal: u32) -> Result<()> {
    println!(out; "trace refused {refusal}")
}

// All that is said of a bad image: a line with other words.
pub fn say_image_refused(out: &impl Print, refusal: u32) -> Result<()> {
    println!(out; "image refused {refusal}")
}

// A text that is printed in pieces: what a write for each number prints takes ten times as long.
#[derive(Drop)]
pub struct Text<'a, P> {
    out: &'a P,
    bytes: [u8; 4096],
    // the place of its next byte
    pub at: usize,
    ghost within: { at < 4096 },
}

impl<'a, P: Print> Text<'a, P> {
    // An empty text.
    pub fn new(out: &'a P) -> Self
        ensures { result.at ≡ 0 }
    {
        Text {
            out,
            bytes: [0; 4096],
            at: 0,
        }
    }

    // Puts a byte; a full text is printed and begun anew.
    fn push(&mut self, byte: u8) -> Result<()> {
        self.bytes[self.at] = byte;
        if self.at + 1 < 4096 {
            self.at += 1;
            return Ok(());
        }
        self.at = 0;
        Print::write_all(self.out, &self.bytes)
    }
}

impl<P: Print> Write for Text<'_, P> {
    fn write(&mut self, bytes: &[u8]) -> Result<usize> {
        self.write_all(bytes)?;
        Ok(bytes.len())
    }

    // What does not fit is put byte by byte.
    fn write_all(&mut self, bytes: &[u8]) -> Result<()> {
        if bytes.len() < 4096 - self.at {
            let end = self.at + bytes.len();
            self.bytes[self.at..end].copy_from_slice(bytes);
            self.at = end;
            return Ok(());
        }
        for byte in bytes {
            self.push(*byte)?;
        }
        Ok(())
    }

    // Prints what the text holds.
    fn flush(&mut self) -> Result<()> {
        let end = self.at;
        self.at = 0;
        Print::write_all(self.out, &self.bytes[..end])
    }
}

// Reads until the space is full or the input ends, and answers how many bytes came.
// By index: std's `read_exact` does not count the bytes of an input that ends early, and its other methods fill a `Vec`.
pub fn read_full(from: &mut impl Read, space: &mut [u8]) -> Result<usize>
    ensures { IfOk result (λ n. n ≤ length space.new) }
{
    let mut done = 0;
    while done < space.len() {
        let n = from.read(&mut space[done..])?;
        if n == 0 {
            break;
        }
        done += n;
    }
    Ok(done)
}
