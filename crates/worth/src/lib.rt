// What a page is worth, as exact fractions: parts, the worth of a log, the value of a page, and comparing them.
#![tactic(auto)]

ghost use Rattle.std.specs.Prelude.{◌≡◌, ◌+◌, ◌<◌, ◌≤◌, length};
ghost use Rattle.limit.specs.Limits.{reference_limit};
ghost use Rattle.worth.specs.Value.{age_of, part_of, less_fraction, greater_of, worth_of, value_of};
ghost use Rattle.worth.specs.Sizes.{worth_num, weight_limit, Small, WorthSmall};

#[derive(Clone, Copy)]
pub struct Fraction {
    pub num: u64,
    pub den: u64,
}

// Whether a < b, by cross products: nothing is rounded.
pub fn less(a: Fraction, b: Fraction) -> bool
    requires { Small a × Small b }
    ensures { result ≡ less_fraction a b }
{
    let one = a.num * b.den;
    let other = b.num * a.den;
    one < other
}

// The greater of two, the first on a tie.
fn greater(a: Fraction, b: Fraction) -> Fraction
    requires { Small a × Small b }
    ensures { result ≡ greater_of a b }
{
    if less(a, b) {
        return b;
    }
    a
}

// How long ago t was, with 0 counted as 1.
fn age(epoch: u32, t: u32) -> u32
    ensures { result ≡ age_of epoch t }
{
    epoch.saturating_sub(t).max(1)
}

// The part of an entry that has j newer ones before it.
fn part(j: usize, age: u32) -> Fraction
    requires { j < worth_num }
    ensures { result ≡ part_of j age }
{
    let d = u64::from(age);
    if j == 0 {
        return Fraction {
            num: 1,
            den: 10 * d,
        };
    }
    Fraction {
        num: j as u64 + 1,
        den: d,
    }
}

// The worth of the log of len entries that starts at `at`, newest first.
pub fn log_worth(a: &[u32], at: usize, len: usize, epoch: u32) -> Fraction
    requires { (at + len ≤ length a.now) × (len ≤ worth_num) × (epoch ≤ reference_limit) }
    ensures { result ≡ worth_of a.now at len epoch }
{
    let mut best = Fraction { num: 0, den: 1 };
    for (j, t) in a[at..at + len].iter().enumerate() {
        let next = part(j, age(epoch, *t));
        best = greater(best, next);
    }
    best
}

// The access worth and weight times the write worth.
pub fn value(access: Fraction, write: Fraction, weight: u16) -> Fraction
    requires { WorthSmall access × WorthSmall write × (weight ≤ weight_limit) }
    ensures { result ≡ value_of access write weight }
{
    let m = weight as u64;
    Fraction {
        num: access.num * write.den + m * write.num * access.den,
        den: access.den * write.den,
    }
}
