// What the program says of itself: on standard output where it is asked to, on standard error where the words are wrong.
use crate::names::Command;
use std::fmt::{self, Display, Formatter};

const COMMANDS: &str = "usage: hitchyawl COMMAND [OPTIONS] FILES\n\
    \n  check [TRACE]                whether the trace is accepted\
    \n  inspect [TRACE]              its order, its settings, and how many records and writes it has\
    \n  convert TRACE OUT            writes it in the other byte order\
    \n  set [SETTINGS] TRACE OUT     writes it with other settings\
    \n  export [TRACE]               prints a line for each record\
    \n  import [SETTINGS] [--order high|low] TEXT OUT\
    \n                               writes the trace of such lines\
    \n  bench [SETTINGS] [--from IMAGE] [--save IMAGE] [TRACE]\
    \n                               replays it and prints the sheet\
    \n  rows [SETTINGS] [--from IMAGE] [--save IMAGE] [TRACE]\
    \n                               replays it and prints the listing\
    \n  quote [SETTINGS] [TRACE]     misses and pages written by each rule at each size\
    \n  image [IMAGE]                the pool that an image holds\
    \n  curve [--svg] [TRACE]        LRU's misses with 1 to 128 frames, as lines or as a picture\n\
    \n`hitchyawl COMMAND --help` says more of a command.\n";

const IMPORT: &str =
    "\nWrites the trace of a text. A line is `read`, `write`, `pin` or `unpin`, one space and a page\n\
    below 4294967296; empty lines and those that begin with # are passed over. Prints\n\
    `line N refused` for the first line that is bad. A trace has at most 8000 records, and a text\n\
    1048576 bytes.\n\
    \n  --order high|low     which byte of a number comes first in the trace: high, if not given\n\
    \nSettings that are not given: lru, 64 frames, batch 8, cap 5, sample 8, weight 2, epoch 100,\n\
    seed 1.\n";

const BENCH: &str =
    "\nReplays the trace, from a fresh pool if no image is given, and prints the sheet: rule, frames,\n\
    records and six counts.\n";

const ROWS: &str =
    "\nReplays the trace, from a fresh pool if no image is given, and prints `rows` and a row for each\n\
    record (outcome, frame, page that left, batch length), `written` and the pages written, `pool`\n\
    and `frames`, the pool at the end, and the six counts.\n";

const QUOTE: &str =
    "\nReplays the trace by each rule with 1, 2, 4, 8, 16, 32, 64, 128 and its own number of frames, and\n\
    prints a line for each number: the frames, then the misses and pages written by lru, clock and\n\
    watt.\n";

const IMAGE: &str =
    "\nPrints an image, which is the pool that a replay left (`bench` and `rows` save it): its byte\n\
    order, the settings, and `pool` and `frames` as in a listing.\n";

const CURVE: &str =
    "\nPrints the misses that LRU has with 1 to 128 frames, from a fresh pool and whatever rule the trace\n\
    names: a line for each, the frames, then the misses. The last line is `never rises`: under LRU more\n\
    frames never cost more misses. A trace with a pin or an unpin is refused 17.\n\
    \n  --svg          draws them instead, as an SVG picture 180 by 115 mm, with the trace's own frames\
    \n                 marked\n";

const SETTINGS: &str = "\nSETTINGS, taken as if the header said so:\
    \n  --rule lru|clock|watt\
    \n  --frames N     1 to 128, how many pages the pool has room for\
    \n  --batch N      1 to 16, the most pages written when a dirty page leaves\
    \n  --cap N        1 to 7, how high clock counts a page's hits\
    \n  --sample N     1 to 16, how many draws watt makes for a victim\
    \n  --weight N     0 to 16, how much writes add to a page's value in watt\
    \n  --epoch N      1 to 50000, how many references make an epoch of watt\
    \n  --seed N       what watt's draws follow from\n";

const IMAGES: &str = "\nAn IMAGE is the pool that a replay left:\
    \n  --from IMAGE   starts from it; it has the settings that the trace has, or the trace is refused 15\
    \n  --save IMAGE   once all is printed, writes the pool at the end, in the trace's byte order;\
    \n                 it may be the same file\
    \nOne of image and trace may be standard input; an image is not saved to standard output by -.\n";

const REST: &str =
    "\nA file is a path, or - for standard input or output; where [TRACE], or [IMAGE] of `image`,\n\
    is left out, standard input is read. After -- every word is a file. A bad trace or setting\n\
    prints `trace refused N`, a bad image `image refused N`.\n\
    Exit status: 0 done, 1 refused, 2 wrong words, 3 a file that cannot be read or written.\n\
    \nExample:\n";

// What the program says of a command, or of all where none is named.
#[derive(Clone, Copy)]
pub struct Help(pub Option<Command>);

// How a command is called; without one, how each is.
pub fn usage_of(command: Option<Command>) -> &'static str {
    match command {
        Some(Command::Check) => "usage: hitchyawl check [TRACE]\n",
        Some(Command::Inspect) => "usage: hitchyawl inspect [TRACE]\n",
        Some(Command::Convert) => "usage: hitchyawl convert TRACE OUT\n",
        Some(Command::Set) => "usage: hitchyawl set [SETTINGS] TRACE OUT\n",
        Some(Command::Export) => "usage: hitchyawl export [TRACE]\n",
        Some(Command::Import) => {
            "usage: hitchyawl import [SETTINGS] [--order high|low] TEXT OUT\n"
        }
        Some(Command::Bench) => {
            "usage: hitchyawl bench [SETTINGS] [--from IMAGE] [--save IMAGE] [TRACE]\n"
        }
        Some(Command::Rows) => {
            "usage: hitchyawl rows [SETTINGS] [--from IMAGE] [--save IMAGE] [TRACE]\n"
        }
        Some(Command::Quote) => "usage: hitchyawl quote [SETTINGS] [TRACE]\n",
        Some(Command::Image) => "usage: hitchyawl image [IMAGE]\n",
        Some(Command::Curve) => "usage: hitchyawl curve [--svg] [TRACE]\n",
        None => COMMANDS,
    }
}

fn account_of(command: Option<Command>) -> &'static str {
    match command {
        Some(Command::Check) => "\nPrints `accepted`.\n",
        Some(Command::Inspect) => {
            "\nPrints the byte order, the settings, and how many records and writes there are.\n"
        }
        Some(Command::Convert) => "\nWrites the trace in the other byte order.\n",
        Some(Command::Set) => {
            "\nWrites the same records with other settings. OUT may be TRACE.\n"
        }
        Some(Command::Export) => {
            "\nPrints a line for each record: `read 12`, `write 12`, `pin 12` or `unpin 12`.\n"
        }
        Some(Command::Import) => IMPORT,
        Some(Command::Bench) => BENCH,
        Some(Command::Rows) => ROWS,
        Some(Command::Quote) => QUOTE,
        Some(Command::Image) => IMAGE,
        Some(Command::Curve) => CURVE,
        None => {
            "\nTRACE and TEXT are files to read, OUT is a file to write. An IMAGE is the pool that a replay left.\n"
        }
    }
}

fn example_of(command: Option<Command>) -> &'static str {
    match command {
        Some(Command::Check) => "  hitchyawl check day.trace\n",
        Some(Command::Inspect) => "  hitchyawl inspect day.trace\n",
        Some(Command::Convert) => "  hitchyawl convert day.trace other.trace\n",
        Some(Command::Set) => "  hitchyawl set --frames 32 day.trace less.trace\n",
        Some(Command::Export) => "  hitchyawl export day.trace > day.txt\n",
        Some(Command::Import) => {
            "  hitchyawl import --rule clock --order low day.txt day.trace\n"
        }
        Some(Command::Bench) => {
            "  hitchyawl bench --rule watt --frames 32 day.trace\
            \n  hitchyawl bench --from monday.pool --save tuesday.pool tuesday.trace\n"
        }
        Some(Command::Rows) => {
            "  hitchyawl rows --frames 32 day.trace\
            \n  hitchyawl rows --save monday.pool monday.trace\n"
        }
        Some(Command::Quote) => "  hitchyawl quote --batch 4 day.trace\n",
        Some(Command::Image) => "  hitchyawl image monday.pool\n",
        Some(Command::Curve) => {
            "  hitchyawl curve day.trace\
            \n  hitchyawl curve --svg day.trace > day.svg\n"
        }
        None => "  hitchyawl bench --frames 32 day.trace\n",
    }
}

impl Display for Help {
    fn fmt<W: fmt::Write>(&self, f: &mut Formatter<W>) -> fmt::Result {
        let Help(command) = *self;
        f.write_str(usage_of(command))?;
        f.write_str(account_of(command))?;
        if command.is_some_and(|c| c.takes().settings) {
            f.write_str(SETTINGS)?;
        }
        if command.is_some_and(|c| c.takes().images) {
            f.write_str(IMAGES)?;
        }
        f.write_str(REST)?;
        f.write_str(example_of(command))
    }
}
