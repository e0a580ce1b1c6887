// The eight settings of a replay: their ranges, when two are the same, and their bytes.
#![tactic(auto)]

ghost use Rattle.std.specs.Prelude.{◌≡◌, ◌+◌, ◌≤◌, length, take};
ghost use Rattle.std.proofs.lemmas.List.Edits.{sets};
ghost use Rattle.settings.specs.Settings.{between, the_fields, in_range, same_settings, settings_length, field_bytes, settings_bytes, settings_at, one_frame};

use word::{Order, Word};

#[derive(Clone, Copy, Debug, PartialEq, Eq)]
pub struct Settings {
    // A number and no enum: any settings may be handed in, also with a rule that there is none of.
    pub rule: u16,
    pub frames: u16,
    pub batch: u16,
    pub cap: u16,
    pub sample: u16,
    pub weight: u16,
    pub span: u32,
    pub seed: u32,
}

// The greatest epoch length.
pub const SPAN_LIMIT: u32 = 50000;

fn within(least: u32, x: u32, most: u32) -> bool
    ensures { result ≡ between least most x }
{
    (least..=most).contains(&x)
}

// Whether each setting is in its range, used by the rule or not.
pub fn in_range(s: Settings) -> bool
    ensures { result ≡ in_range s }
{
    within(0, s.rule as u32, 2)
        & (within(1, s.frames as u32, 128)
            & (within(1, s.batch as u32, 16)
                & (within(1, s.cap as u32, 7)
                    & (within(1, s.sample as u32, 16)
                        & (within(0, s.weight as u32, 16) & within(1, s.span, SPAN_LIMIT))))))
}

// Whether all eight are the same.
pub fn same(a: Settings, b: Settings) -> bool
    ensures { result ≡ same_settings a b }
{
    a == b
}

// The settings of the least pool: LRU and one frame.
pub fn one_frame() -> Settings
    ensures { result ≡ one_frame }
{
    Settings {
        rule: 0,
        frames: 1,
        batch: 1,
        cap: 1,
        sample: 1,
        weight: 0,
        span: 1,
        seed: 0,
    }
}

// The settings that stand in `bytes` from `at` on.
pub fn read(bytes: &[u8], at: usize, order: Order) -> Settings
    requires { at + settings_length ≤ length bytes.now }
    ensures { result ≡ settings_at order at bytes.now }
{
    Settings {
        rule: u16::get(bytes, at, order),
        frames: u16::get(bytes, at + 2, order),
        batch: u16::get(bytes, at + 4, order),
        cap: u16::get(bytes, at + 6, order),
        sample: u16::get(bytes, at + 8, order),
        weight: u16::get(bytes, at + 10, order),
        span: u32::get(bytes, at + 12, order),
        seed: u32::get(bytes, at + 16, order),
    }
}

// The six settings of 2 bytes, from `at` on.
fn put_shorts(out: &mut [u8], at: usize, order: Order, settings: Settings)
    requires { at + settings_length ≤ length out.old }
    ensures { out.new ≡ sets out.old at (field_bytes order (take 6 the_fields) settings) }
{
    u16::put(out, at, order, settings.rule);
    u16::put(out, at + 2, order, settings.frames);
    u16::put(out, at + 4, order, settings.batch);
    u16::put(out, at + 6, order, settings.cap);
    u16::put(out, at + 8, order, settings.sample);
    u16::put(out, at + 10, order, settings.weight);
}

// The settings are stored from `at` on.
pub fn put(out: &mut [u8], at: usize, order: Order, settings: Settings)
    requires { at + settings_length ≤ length out.old }
    ensures { out.new ≡ sets out.old at (settings_bytes order settings) }
{
    put_shorts(out, at, order, settings);
    u32::put(out, at + 12, order, settings.span);
    u32::put(out, at + 16, order, settings.seed);
}
