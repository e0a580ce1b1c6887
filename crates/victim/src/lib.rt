// The replacement rules: each, in a module of its own, chooses its victim.
#![tactic(auto)]

pub mod clock;
pub mod lru;
pub mod watt;

ghost use Rattle.std.specs.Prelude.{◌≡◌, ◌≤◌, true, length};
ghost use Rattle.pool.specs.Sound.{sound_pool};
ghost use Rattle.table.specs.Table.{pool_on};
ghost use Rattle.victim.specs.ForCode.{Chose};
ghost use Rattle.victim.specs.Rules.{by_rule, choice_of};

use table::Bench;

// The name of a rule; a number that no rule has has none.
pub fn name_of(rule: u16) -> &'static str
    ensures { (result.now ≡ (by_rule rule).name) × (length result.now ≤ 16) }
{
    match rule {
        0 => "lru",
        1 => "clock",
        2 => "watt",
        3..=65535 => "",
    }
}

// What the pool's own rule chooses: its victim or none; it moves hand, sampler number and counts where they stand.
// By number: settings hold a rule as a trace does, any number, and `choose` and `name_of` answer for each; an enum would ask more of callers.
pub fn choose(bench: &mut Bench) -> Option<usize>
    requires { sound_pool (pool_on bench.old) ≡ true }
    ensures { Chose (pool_on bench.old) (choice_of (pool_on bench.old)) result bench.new }
{
    match bench.head.settings.rule {
        0 => lru::choose(bench),
        1 => clock::choose(bench),
        2 => watt::choose(bench),
        3..=65535 => None,
    }
}
