// Settings that are wished for instead of a trace's own.
#![tactic(auto)]

ghost use Rattle.std.specs.Prelude.{◌≡◌, [], ◌∷◌, ◌<◌};
ghost use Rattle.settings.specs.Settings.{the_fields, settings_by};
ghost use Rattle.wish.specs.Wish.{no_wish, wished_for, chosen_at, fit_fields, settings_fitting, wished_settings, usual_settings};

use settings::Settings;

// For each setting, by its place among the eight, the number that is wished for, if any.
#[derive(Clone, Copy)]
pub struct Wish {
    pub numbers: [Option<u64>; 8],
}

// The places of the settings.
pub const RULE: usize = 0;

pub const FRAMES: usize = 1;

pub const BATCH: usize = 2;

pub const CAP: usize = 3;

pub const SAMPLE: usize = 4;

pub const WEIGHT: usize = 5;

pub const EPOCH: usize = 6;

pub const SEED: usize = 7;

// Every setting is kept.
pub fn none() -> Wish
    ensures { result ≡ no_wish }
{
    Wish { numbers: [None; 8] }
}

// A wish with one number more; the last one counts.
pub fn with(w: Wish, place: usize, number: u64) -> Wish
    requires { place < 8 }
    ensures { result ≡ wished_for w place number }
{
    let mut next = w;
    next.numbers[place] = Some(number);
    next
}

// The number wished for at a place, else the setting's own.
fn chosen(w: Wish, place: usize, own: u64) -> u64
    requires { place < 8 }
    ensures { result ≡ chosen_at w place own }
{
    w.numbers[place].unwrap_or(own)
}

// Whether each number fits its field.
fn fit(
    rule: u64,
    frames: u64,
    batch: u64,
    cap: u64,
    sample: u64,
    weight: u64,
    span: u64,
    seed: u64,
) -> bool
    ensures { result ≡ fit_fields the_fields (rule ∷ frames ∷ batch ∷ cap ∷ sample ∷ weight ∷ span ∷ seed ∷ []) }
{
    (rule < 65536)
        & ((frames < 65536)
            & ((batch < 65536)
                & ((cap < 65536)
                    & ((sample < 65536)
                        & ((weight < 65536) & ((span < 4294967296) & (seed < 4294967296)))))))
}

// Eight numbers as settings; out of range where one does not fit its field.
fn settings_by(
    rule: u64,
    frames: u64,
    batch: u64,
    cap: u64,
    sample: u64,
    weight: u64,
    span: u64,
    seed: u64,
) -> Settings
    ensures { result ≡ settings_fitting (rule ∷ frames ∷ batch ∷ cap ∷ sample ∷ weight ∷ span ∷ seed ∷ []) }
{
    if fit(rule, frames, batch, cap, sample, weight, span, seed) {
        return Settings {
            rule: (rule % 65536) as u16,
            frames: (frames % 65536) as u16,
            batch: (batch % 65536) as u16,
            cap: (cap % 65536) as u16,
            sample: (sample % 65536) as u16,
            weight: (weight % 65536) as u16,
            span: (span % 4294967296) as u32,
            seed: (seed % 4294967296) as u32,
        };
    }
    no_settings()
}

// What no number fits: all are 0, and no pool has 0 frames.
fn no_settings() -> Settings
    ensures { result ≡ settings_by [] }
{
    Settings {
        rule: 0,
        frames: 0,
        batch: 0,
        cap: 0,
        sample: 0,
        weight: 0,
        span: 0,
        seed: 0,
    }
}

// The settings with what is wished for.
pub fn wished(w: Wish, own: Settings) -> Settings
    ensures { result ≡ wished_settings w own }
{
    settings_by(
        chosen(w, RULE, own.rule as u64),
        chosen(w, FRAMES, own.frames as u64),
        chosen(w, BATCH, own.batch as u64),
        chosen(w, CAP, own.cap as u64),
        chosen(w, SAMPLE, own.sample as u64),
        chosen(w, WEIGHT, own.weight as u64),
        chosen(w, EPOCH, own.span as u64),
        chosen(w, SEED, own.seed as u64),
    )
}

// What is taken where there is no trace to have settings.
pub fn usual() -> Settings
    ensures { result ≡ usual_settings }
{
    Settings {
        rule: 0,
        frames: 64,
        batch: 8,
        cap: 5,
        sample: 8,
        weight: 2,
        span: 100,
        seed: 1,
    }
}
