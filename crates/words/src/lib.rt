// The words that the program is started with, as what they ask for.
#![tactic(auto)]

pub mod help;
pub mod names;

use files::spaces::{WORD_SPACE, zeros};
use files::{Argument, tell};
use names::{Command, Flag, Takes, Valued};
use std::fmt::{self, Display, Formatter};
use wish::Wish;
use word::Order;

// How many rules have a name.
const RULES: u16 = 3;

// What is wrong with the words.
#[derive(Clone, Copy, Debug, PartialEq, Eq)]
pub enum Fault {
    NoCommand,
    UnknownCommand,
    UnknownOption,
    OptionNotTaken,
    NoValue,
    NoNumber,
    NoRule,
    NoOrder,
    TooFewFiles,
    TooManyFiles,
    InputTwice,
    OutputTaken,
}

// The first fault, the number of its word, where it is one word's, and the command, where one is named.
#[derive(Clone, Copy)]
pub struct Wrong {
    command: Option<Command>,
    fault: Fault,
    place: Option<usize>,
}

// Of a file the number of its word is kept, where one is named.
#[derive(Clone, Copy)]
pub struct Request {
    pub command: Command,
    pub input: Option<usize>,
    pub output: Option<usize>,
    pub wish: Wish,
    pub order: Order,
    // The image that a replay starts from, and the one that it leaves.
    pub from: Option<usize>,
    pub save: Option<usize>,
    // Whether a picture is asked for.
    pub svg: bool,
}

// What words ask for.
#[derive(Clone, Copy)]
pub enum Asked {
    // Help on a command, or on all.
    Help(Option<Command>),
    Work(Request),
}

// A command's words, as far as they are read.
#[derive(Clone, Copy)]
struct Reading {
    request: Request,
    takes: Takes,
    help: bool,
    // Whether the options have ended.
    ended: bool,
    // The option whose value is the next word, and the number of its own.
    waits: Option<(Valued, usize)>,
    wrong: Option<Wrong>,
}

impl Display for Fault {
    fn fmt<W: fmt::Write>(&self, f: &mut Formatter<W>) -> fmt::Result {
        f.write_str(match *self {
            Fault::NoCommand => "no command is given",
            Fault::UnknownCommand => "no such command",
            Fault::UnknownOption => "no such option",
            Fault::OptionNotTaken => "not an option of this command",
            Fault::NoValue => "the option's value is missing",
            Fault::NoNumber => "not a number",
            Fault::NoRule => "no such rule",
            Fault::NoOrder => "no such order, high or low",
            Fault::TooFewFiles => "a file is missing",
            Fault::TooManyFiles => "one file too many",
            Fault::InputTwice => "standard input is named twice",
            Fault::OutputTaken => "standard output is taken",
        })
    }
}

impl Wrong {
    // The line that says what is wrong with the words, and how the command is called. Where standard error cannot be written
    // there is nowhere to tell it.
    pub fn tell(&self, rt: &HostRuntime) {
        let mut space = zeros::<WORD_SPACE>();
        tell(rt, b"hitchyawl: ");
        if let Some(word) = Argument::fetch(rt, self.place, &mut space) {
            tell(rt, word.text);
            tell(rt, b": ");
        }
        let _ = rt.eprintln(self.fault);
        let _ = rt.eprint(help::usage_of(self.command));
    }
}

fn is_rule(word: &[u8], rule: u16) -> bool {
    victim::name_of(rule).as_bytes() == word
}

// The rule of this name.
fn rule_named(word: &[u8]) -> Option<u16> {
    (0..RULES).find(|rule| is_rule(word, *rule))
}

fn order_named(word: &[u8]) -> Option<Order> {
    match word {
        b"high" => Some(Order::High),
        b"low" => Some(Order::Low),
        _ => None,
    }
}

// Whether a word is an option: `-` alone is a file.
fn is_flag(word: &[u8]) -> bool {
    word.len() > 1 && word.starts_with(b"-")
}

// Whether a word is there and names no file, but standard input or output.
fn is_standard(rt: &HostRuntime, place: Option<usize>) -> bool {
    let mut space = zeros::<WORD_SPACE>();
    Argument::fetch(rt, place, &mut space).is_some_and(|word| word.is(b"-"))
}

impl Reading {
    // A command with no words after it.
    fn new(command: Command) -> Reading {
        Reading {
            request: Request {
                command,
                input: None,
                output: None,
                wish: wish::none(),
                order: Order::High,
                from: None,
                save: None,
                svg: false,
            },
            takes: command.takes(),
            help: false,
            ended: false,
            waits: None,
            wrong: None,
        }
    }

    // The first fault counts.
    fn fault(&mut self, fault: Fault, place: Option<usize>) {
        let command = Some(self.request.command);
        self.wrong = self.wrong.or(Some(Wrong {
            command,
            fault,
            place,
        }));
    }

    // Places that no wish has are left alone: no option names one.
    fn take_wish(&mut self, place: usize, number: u64) {
        if place < 8 {
            self.request.wish = wish::with(self.request.wish, place, number);
        }
    }

    fn take_setting(&mut self, place: usize, word: Argument) {
        let (number, fault) = if place == wish::RULE {
            (rule_named(word.text).map(u64::from), Fault::NoRule)
        } else {
            (numeral::read(word.text), Fault::NoNumber)
        };
        match number {
            Some(number) => self.take_wish(place, number),
            None => self.fault(fault, Some(word.number)),
        }
    }

    fn take_order(&mut self, word: Argument) {
        match order_named(word.text) {
            Some(order) => self.request.order = order,
            None => self.fault(Fault::NoOrder, Some(word.number)),
        }
    }

    fn take_value(&mut self, option: Valued, word: Argument) {
        match option {
            Valued::Setting(place) => self.take_setting(place, word),
            Valued::Order => self.take_order(word),
            Valued::From => self.request.from = Some(word.number),
            Valued::Save => self.request.save = Some(word.number),
        }
    }

    fn take_file(&mut self, number: usize) {
        if self.request.input.is_none() {
            self.request.input = Some(number);
        } else if self.request.output.is_none() {
            self.request.output = Some(number);
        } else {
            self.fault(Fault::TooManyFiles, Some(number));
        }
    }

    fn is_taken(&self, option: Valued) -> bool {
        match option {
            Valued::Setting(_) => self.takes.settings,
            Valued::Order => self.takes.order,
            Valued::From | Valued::Save => self.takes.images,
        }
    }

    // An option's value is passed over where the command does not take the option.
    fn await_value(&mut self, option: Valued, number: usize) {
        self.waits = Some((option, number));
        if !self.is_taken(option) {
            self.fault(Fault::OptionNotTaken, Some(number));
        }
    }

    fn take_flag(&mut self, word: Argument) {
        match Flag::named(word.text) {
            Some(Flag::Valued(option)) => self.await_value(option, word.number),
            Some(Flag::Svg) if self.takes.svg => self.request.svg = true,
            Some(Flag::Svg) => self.fault(Fault::OptionNotTaken, Some(word.number)),
            Some(Flag::Help) => self.help = true,
            Some(Flag::Last) => self.ended = true,
            None => self.fault(Fault::UnknownOption, Some(word.number)),
        }
    }

    fn take_word(&mut self, word: Argument) {
        match self.waits.take() {
            Some((option, _)) => self.take_value(option, word),
            None if self.ended || !is_flag(word.text) => self.take_file(word.number),
            None => self.take_flag(word),
        }
    }

    // Takes the word of a number, and answers whether there is one.
    fn take_next(&mut self, rt: &HostRuntime, number: usize) -> bool {
        let mut space = zeros::<WORD_SPACE>();
        match Argument::fetch(rt, Some(number), &mut space) {
            Some(word) => {
                self.take_word(word);
                true
            }
            None => false,
        }
    }

    // The faults of files that are named rightly, but that cannot be read or written beside each other.
    fn end_together(&mut self, rt: &HostRuntime) {
        let request = self.request;
        let from_input = request.input.is_none() || is_standard(rt, request.input);
        if from_input && is_standard(rt, request.from) {
            self.fault(Fault::InputTwice, request.from);
        } else if is_standard(rt, request.save) {
            self.fault(Fault::OutputTaken, request.save);
        }
    }

    // The faults that show once all words are read.
    fn end(&mut self, rt: &HostRuntime) {
        match (self.waits, self.request.output) {
            (Some((_, number)), _) => self.fault(Fault::NoValue, Some(number)),
            (None, None) if self.takes.output => self.fault(Fault::TooFewFiles, None),
            (None, Some(number)) if !self.takes.output => {
                self.fault(Fault::TooManyFiles, Some(number))
            }
            _ => self.end_together(rt),
        }
    }

    // What is asked for. Help is given whatever is wrong.
    fn asked(&self) -> Result<Asked, Wrong> {
        if self.help {
            return Ok(Asked::Help(Some(self.request.command)));
        }
        match self.wrong {
            Some(wrong) => Err(wrong),
            None => Ok(Asked::Work(self.request)),
        }
    }
}

// What the words after a command ask for.
fn read_rest(rt: &HostRuntime, command: Command) -> Result<Asked, Wrong> {
    let mut reading = Reading::new(command);
    for number in 2..usize::MAX {
        if !reading.take_next(rt, number) {
            break;
        }
    }
    reading.end(rt);
    reading.asked()
}

// No command, for this reason.
fn without_command(fault: Fault, place: Option<usize>) -> Result<Asked, Wrong> {
    Err(Wrong {
        command: None,
        fault,
        place,
    })
}

// What the words ask for, or what is wrong with them.
pub fn read(rt: &HostRuntime) -> Result<Asked, Wrong> {
    let mut space = zeros::<WORD_SPACE>();
    let Some(word) = Argument::fetch(rt, Some(1), &mut space) else {
        return without_command(Fault::NoCommand, None);
    };
    match Command::named(word.text) {
        Some(command) => read_rest(rt, command),
        None if word.is(b"--help") => Ok(Asked::Help(None)),
        None => without_command(Fault::UnknownCommand, Some(1)),
    }
}
