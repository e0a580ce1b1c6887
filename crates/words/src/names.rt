// The names of the commands and of their options, and what each command takes.

#[derive(Clone, Copy, Debug, PartialEq, Eq)]
pub enum Command {
    Check,
    Inspect,
    Convert,
    Set,
    Export,
    Import,
    Bench,
    Rows,
    Quote,
    Image,
    Curve,
}

// What a word that begins with `-` is.
#[derive(Clone, Copy)]
pub enum Flag {
    // The next word is its value.
    Valued(Valued),
    // A picture is asked for.
    Svg,
    Help,
    // No option follows it.
    Last,
}

// An option that has a value.
#[derive(Clone, Copy)]
pub enum Valued {
    // A setting, by its place in a wish.
    Setting(usize),
    Order,
    // The image that a replay starts from, and the one that it leaves.
    From,
    Save,
}

// Whether a command writes a file, and which options it takes.
#[derive(Clone, Copy)]
pub struct Takes {
    pub output: bool,
    pub settings: bool,
    pub order: bool,
    pub images: bool,
    pub svg: bool,
}

// A trace or an image, or standard input where none is named.
const INPUT_ALONE: Takes = Takes {
    output: false,
    settings: false,
    order: false,
    images: false,
    svg: false,
};

impl Command {
    // The command of this name.
    pub fn named(word: &[u8]) -> Option<Command> {
        match word {
            b"check" => Some(Command::Check),
            b"inspect" => Some(Command::Inspect),
            b"convert" => Some(Command::Convert),
            b"set" => Some(Command::Set),
            b"export" => Some(Command::Export),
            b"import" => Some(Command::Import),
            b"bench" => Some(Command::Bench),
            b"rows" => Some(Command::Rows),
            b"quote" => Some(Command::Quote),
            b"image" => Some(Command::Image),
            b"curve" => Some(Command::Curve),
            _ => None,
        }
    }

    pub fn takes(self) -> Takes {
        match self {
            Command::Check | Command::Inspect | Command::Export | Command::Image => INPUT_ALONE,
            Command::Convert => Takes {
                output: true,
                ..INPUT_ALONE
            },
            Command::Set => Takes {
                output: true,
                settings: true,
                ..INPUT_ALONE
            },
            Command::Import => Takes {
                output: true,
                settings: true,
                order: true,
                ..INPUT_ALONE
            },
            Command::Bench | Command::Rows => Takes {
                settings: true,
                images: true,
                ..INPUT_ALONE
            },
            Command::Quote => Takes {
                settings: true,
                ..INPUT_ALONE
            },
            Command::Curve => Takes {
                svg: true,
                ..INPUT_ALONE
            },
        }
    }
}

impl Flag {
    // The option of this name.
    pub fn named(word: &[u8]) -> Option<Flag> {
        match word {
            b"--svg" => Some(Flag::Svg),
            b"--help" => Some(Flag::Help),
            b"--" => Some(Flag::Last),
            _ => Valued::named(word).map(Flag::Valued),
        }
    }
}

impl Valued {
    fn named(word: &[u8]) -> Option<Valued> {
        match word {
            b"--frames" => Some(Valued::Setting(wish::FRAMES)),
            b"--rule" => Some(Valued::Setting(wish::RULE)),
            b"--batch" => Some(Valued::Setting(wish::BATCH)),
            b"--cap" => Some(Valued::Setting(wish::CAP)),
            b"--sample" => Some(Valued::Setting(wish::SAMPLE)),
            b"--weight" => Some(Valued::Setting(wish::WEIGHT)),
            b"--epoch" => Some(Valued::Setting(wish::EPOCH)),
            b"--seed" => Some(Valued::Setting(wish::SEED)),
            b"--order" => Some(Valued::Order),
            b"--from" => Some(Valued::From),
            b"--save" => Some(Valued::Save),
            _ => None,
        }
    }
}
