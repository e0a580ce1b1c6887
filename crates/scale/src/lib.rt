// The scale of the curve's picture, in tenths of a millimetre; `most` is the misses with one frame.
#![tactic(auto)]

ghost use Rattle.std.specs.Prelude.{◌≡◌, ◌*◌, ◌≤◌, ◌<◌, leb, get_or};
ghost use Rattle.scale.specs.Scale.{steps, step_of, ticks_of, top_of, x_of, y_of, misses_with};

// The steps that lines may have.
const STEPS: [u64; 27] = [
    1, 2, 5, 10, 20, 50, 100, 200, 500, 1000, 2000, 5000, 10000, 20000, 50000, 100000, 200000,
    500000, 1000000, 2000000, 5000000, 10000000, 20000000, 50000000, 100000000, 200000000,
    500000000,
];

// The last of them.
const LAST: usize = 26;

fn step_at(i: usize) -> u64
    requires { i < 27 }
    ensures { (result ≡ get_or steps i 0) × (1 ≤ result) × (result ≤ 500000000) }
{
    STEPS[i]
}

// Whether ten steps are enough.
fn is_enough(most: u32, step: u64) -> bool
    requires { step ≤ 500000000 }
    ensures { result ≡ leb most (10 * step) }
{
    most as u64 <= 10 * step
}

// S, the step between two lines.
pub fn step_for(most: u32) -> u64
    ensures { (result ≡ step_of most) × (1 ≤ result) × (result ≤ 500000000) × (most ≤ 10 * result) }
{
    for i in 0..LAST {
        let step = step_at(i);
        if is_enough(most, step) {
            return step;
        }
    }
    step_at(LAST)
}

// T, the number of lines above 0.
pub fn ticks_for(most: u32) -> u64
    ensures { (result ≡ ticks_of most) × (1 ≤ result) × (result ≤ 10) }
{
    let step = step_for(most);
    let ticks = (most as u64 + (step - 1)) / step;
    ticks.max(1)
}

// The misses at line t.
pub fn tick_for(most: u32, t: u64) -> u64
    requires { t ≤ 10 }
    ensures { (result ≡ step_of most * t) × (t ≤ result) × (result ≤ 5000000000) }
{
    step_for(most) * t
}

// S × T, where the misses' axis ends.
fn top_for(most: u32) -> u64
    ensures { (result ≡ top_of most) × (1 ≤ result) }
{
    tick_for(most, ticks_for(most))
}

pub fn y_for(most: u32, misses: u64) -> u64
    requires { misses ≤ 5000000000 }
    ensures { (result ≡ y_of most misses) × (result ≤ 940) }
{
    let up = 760 * misses / top_for(most);
    940_u64.saturating_sub(up)
}

pub fn x_for(frames: u16) -> u64
    ensures { result ≡ x_of frames }
{
    188 + 12 * (frames as u64)
}

// M(f), the misses with so many frames.
pub fn misses_with(misses: &[u32; 128], frames: u16) -> u32
    requires { (1 ≤ frames) × (frames ≤ 128) }
    ensures { result ≡ misses_with misses.now frames }
{
    let i = frames as usize - 1;
    misses[i]
}
