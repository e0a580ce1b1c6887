// For timing: reads the image on standard input and writes it again, a hundred thousand times, each time with another
// sampler number, and prints the sum of what was refused.
#![tactic(auto)]

ghost use Rattle.std.specs.Prelude.{◌≤◌, length};

use refusal::answer_of;
use std::io::Result;
use word::{Order, Word};

// The most bytes of an image.
const INPUT_ROOM: usize = 65536;

const TURNS: u32 = 100000;

// One image is read and written.
fn turn(bytes: &mut [u8], out: &mut [u8], i: u32) -> u32
    requires { 64 ≤ length bytes.old }
{
    u32::put(bytes, 56, Order::Low, i);
    match image::read(bytes) {
        Ok(pool) => answer_of(image::write(pool, Order::Low, out)),
        Err(none) => u32::from(none.refusal),
    }
}

fn turns(bytes: &mut [u8], out: &mut [u8]) -> u32
    requires { 64 ≤ length bytes.old }
{
    let mut sum: u32 = 0;
    for i in 0..TURNS {
        sum = sum.wrapping_add(turn(bytes, out, i));
    }
    sum
}

fn main(rt: HostRuntime) -> Result<()> {
    let mut space = [0u8; INPUT_ROOM];
    let mut out = [0u8; image::BYTE_LIMIT];
    let size = lines::read_full(&mut rt.stdin(), &mut space)?;
    if size < image::HEADER_LENGTH {
        return lines::say(&rt, b"no image\n");
    }
    let bytes = &mut space[..size];
    println!(rt; "refused {}", turns(bytes, &mut out))
}
