// Input and output files, by the numbers of the words that name them. What fails is told on standard error at once.
#![tactic(auto)]

ghost use Rattle.std.specs.Prelude.{◌≡◌, ◌↔◌, IsTrue};

pub mod spaces;

use lines::{read_full, say};
use spaces::{WORD_SPACE, zeros};
use std::env::{Env, FillError};
use std::fs::{File, OpenOptions};
use std::io::{Error, ErrorKind, Read, Seek, SeekFrom, Write};
use std::process::ExitCode;
use std::{env, fs, io, process, str};

// Why a run ends without its work done.
#[derive(Clone, Copy, Debug, PartialEq, Eq)]
pub enum Stop {
    Refused,
    WrongWords,
    Failed,
    // Whoever read what the program writes has gone.
    Unread,
}

// 141 is what a shell says of a program that the system ends since nobody reads what it writes.
impl From<Stop> for ExitCode {
    fn from(stop: Stop) -> ExitCode {
        match stop {
            Stop::Refused => ExitCode::from(1),
            Stop::WrongWords => ExitCode::from(2),
            Stop::Failed => ExitCode::from(3),
            Stop::Unread => ExitCode::from(141),
        }
    }
}

// One of the words that the program is started with.
#[derive(Clone, Copy)]
pub struct Argument<'a> {
    pub number: usize,
    pub text: &'a [u8],
}

// Where an input comes from or an output goes: standard input or output, or a file that a word names.
#[derive(Clone, Copy)]
enum Place<'a> {
    Standard,
    Named(Argument<'a>),
}

// What is written, and the file that it goes to: the name as it is told, and the path.
#[derive(Clone, Copy)]
struct Output<'a> {
    name: &'a [u8],
    path: &'a str,
    bytes: &'a [u8],
}

// A new file beside the output, and its name.
#[derive(Drop)]
struct Part {
    file: File,
    name: String,
}

// So many names are tried for it.
const TRIES: u64 = 100;

// The system's number for a name that is no text.
const NO_TEXT: i32 = 84;

// Writes to standard error. Where that fails there is nowhere to tell it.
pub fn tell(rt: &HostRuntime, text: &[u8]) {
    let _ = say(&rt.stderr(), text);
}

// What the system says of an error, without the number that the library puts behind it.
fn reason(text: &str) -> &str {
    match text.split_once(" (os error ") {
        Some((reason, _)) => reason,
        None => text,
    }
}

// Where there is no memory for the text, the number is told too.
fn tell_reason(rt: &HostRuntime, error: &Error) {
    match format!(in rt.alloc(); "{error}") {
        Ok(text) => tell(rt, reason(text.as_str()).as_bytes()),
        Err(_) => {
            let _ = rt.eprint(error);
        }
    }
}

// Tells why a call failed. Where nobody reads what is written there is nothing to tell, as where the system ends a program for it.
pub fn failed(rt: &HostRuntime, name: &[u8], error: &Error) -> Stop {
    if error.kind() == ErrorKind::BrokenPipe {
        return Stop::Unread;
    }
    tell(rt, b"hitchyawl: ");
    tell(rt, name);
    tell(rt, b": ");
    tell_reason(rt, error);
    tell(rt, b"\n");
    Stop::Failed
}

// What printing ends in.
pub fn printed<T>(rt: &HostRuntime, said: io::Result<T>) -> Result<T, Stop> {
    said.map_err(|error| failed(rt, b"standard output", &error))
}

// The file that stands in for one whose name is no text, which the library cannot open. The script `hitchyawl` makes it.
fn stand_in(rt: &HostRuntime, number: usize) -> io::Result<String> {
    let variable = format!(in rt.alloc(); "HITCHYAWL_WORD_{number}")?;
    env::var(rt, variable.as_str()).map_err(|_| Error::from_raw_os_error(NO_TEXT))
}

// Reads to the front of the space until it is full or the input ends.
fn fill<'a>(from: &mut impl Read, space: &'a mut [u8]) -> io::Result<&'a [u8]> {
    let size = read_full(from, space)?;
    Ok(&space[..size])
}

impl<'a> Argument<'a> {
    // The word of a number, where there is one; its bytes are put into the space. Of one that is too long the first bytes are
    // taken.
    pub fn fetch(
        rt: &HostRuntime,
        number: Option<usize>,
        space: &'a mut [u8],
    ) -> Option<Argument<'a>> {
        let number = number?;
        match rt.arg(number, space) {
            Ok(n) => Some(Argument {
                number,
                text: &space[..n],
            }),
            Err(FillError::TooLong) => Some(Argument {
                number,
                text: space,
            }),
            Err(FillError::NotPresent) => None,
        }
    }

    // Whether it is this text.
    pub fn is(&self, text: &[u8]) -> bool
        ensures { IsTrue result ↔ self.now.text.now ≡ text.now }
    {
        self.text == text
    }

    // The path of the file that it names.
    fn path(&self, rt: &HostRuntime) -> io::Result<String> {
        match str::from_utf8(self.text) {
            Ok(path) => Ok(String::from_str(rt.alloc(), path)?),
            Err(_) => stand_in(rt, self.number),
        }
    }

    fn open(&self, rt: &HostRuntime) -> io::Result<File> {
        let path = self.path(rt)?;
        File::open(rt, path.as_str())
    }

    fn write(&self, rt: &HostRuntime, bytes: &[u8]) -> io::Result<()> {
        let path = self.path(rt)?;
        let output = Output {
            name: self.text,
            path: path.as_str(),
            bytes,
        };
        output.write(rt)
    }
}

impl<'a> Place<'a> {
    // What the word of a number names; a space is lent for it.
    fn named(rt: &HostRuntime, number: Option<usize>, space: &'a mut [u8]) -> Place<'a> {
        match Argument::fetch(rt, number, space) {
            Some(word) if !word.is(b"-") => Place::Named(word),
            _ => Place::Standard,
        }
    }

    // Its name, as it is told.
    fn name(&self, standard: &'a [u8]) -> &'a [u8] {
        match self {
            Place::Standard => standard,
            Place::Named(word) => word.text,
        }
    }

    fn input_name(&self) -> &'a [u8] {
        self.name(b"standard input")
    }

    fn output_name(&self) -> &'a [u8] {
        self.name(b"standard output")
    }

    fn fill<'s>(&self, rt: &HostRuntime, space: &'s mut [u8]) -> io::Result<&'s [u8]> {
        match self {
            Place::Standard => fill(&mut rt.stdin(), space),
            Place::Named(word) => {
                let mut file = word.open(rt)?;
                fill(&mut file, space)
            }
        }
    }

    // An input that cannot be read has failed, whatever its error: `Stop::Unread` is of what is written.
    fn read<'s>(&self, rt: &HostRuntime, space: &'s mut [u8]) -> Result<&'s [u8], Stop> {
        self.fill(rt, space).map_err(|error| {
            failed(rt, self.input_name(), &error);
            Stop::Failed
        })
    }

    // Standard output is not opened again, so that what is written to it before and after stays in its place.
    fn write(&self, rt: &HostRuntime, bytes: &[u8]) -> io::Result<()> {
        match self {
            Place::Named(word) if !word.is(b"/dev/stdout") => word.write(rt, bytes),
            _ => say(rt, bytes),
        }
    }
}

// Reads the file that a word names, or standard input where none does, as far as there is space.
pub fn read<'a>(
    rt: &HostRuntime,
    file: Option<usize>,
    space: &'a mut [u8],
) -> Result<&'a [u8], Stop> {
    let mut word = zeros::<WORD_SPACE>();
    Place::named(rt, file, &mut word).read(rt, space)
}

// Reads the whole of an input. One that fills the space is too large; no call has failed then.
pub fn read_whole<'a>(
    rt: &HostRuntime,
    file: Option<usize>,
    space: &'a mut [u8],
) -> Result<&'a [u8], Stop> {
    let room = space.len();
    let mut word = zeros::<WORD_SPACE>();
    let input = Place::named(rt, file, &mut word);
    let bytes = input.read(rt, space)?;
    if bytes.len() < room {
        return Ok(bytes);
    }
    tell(rt, b"hitchyawl: ");
    tell(rt, input.input_name());
    tell(rt, b": File too large\n");
    Err(Stop::Failed)
}

// Writes the file that a word names, or standard output where none does.
pub fn write(rt: &HostRuntime, file: Option<usize>, bytes: &[u8]) -> Result<(), Stop> {
    let mut word = zeros::<WORD_SPACE>();
    let output = Place::named(rt, file, &mut word);
    output
        .write(rt, bytes)
        .map_err(|error| failed(rt, output.output_name(), &error))
}

// All of it is stored before the file is closed.
fn stored(file: File, bytes: &[u8]) -> io::Result<()> {
    let mut to = file;
    to.write_all(bytes)?;
    to.sync_all()
}

// Whether a name stands for an open descriptor, whatever is behind it.
fn is_descriptor(name: &[u8]) -> bool {
    name.starts_with(b"/dev/fd/") || name.starts_with(b"/dev/std") || name.starts_with(b"/proc/")
}

// Whether an open file is a regular one. A pipe has no positions, and a device like /dev/null none but 0. The size of a
// block device cannot be set; that is tried below /dev/ alone, since setting the size of a file, if to what it is, changes its time.
fn is_regular(file: &File, name: &[u8]) -> bool {
    let mut at = file;
    if !matches!(at.seek(SeekFrom::Start(1)), Ok(1)) {
        return false;
    }
    if !name.starts_with(b"/dev/") {
        return true;
    }
    at.seek(SeekFrom::End(0))
        .is_ok_and(|size| file.set_len(size).is_ok())
}

impl<'a> Output<'a> {
    // The path, the process's number, from the second try on the try's, and `part`.
    fn part_name(&self, rt: &HostRuntime, tries: u64) -> io::Result<String> {
        let path = self.path;
        let id = process::id(rt.process());
        if tries == 0 {
            return Ok(format!(in rt.alloc(); "{path}.{id}.part")?);
        }
        Ok(format!(in rt.alloc(); "{path}.{id}.{tries}.part")?)
    }

    fn create(&self, rt: &HostRuntime, tries: u64) -> io::Result<Part> {
        let name = self.part_name(rt, tries)?;
        let file = File::create_new(rt, name.as_str())?;
        Ok(Part { file, name })
    }

    // Makes a file of a name that is not taken, as one may be by another machine's process of the same number.
    fn create_part(&self, rt: &HostRuntime) -> io::Result<Part> {
        for tries in 0..TRIES - 1 {
            match self.create(rt, tries) {
                Err(error) if error.kind() == ErrorKind::AlreadyExists => {}
                made => return made,
            }
        }
        self.create(rt, TRIES - 1)
    }

    // The new file takes the output's name once all of it is stored.
    fn replace(&self, rt: &HostRuntime, part: Part) -> io::Result<()> {
        let Part { file, name } = part;
        let ended = stored(file, self.bytes).and_then(|()| fs::rename(
            rt,
            name.as_str(),
            self.path,
        ));
        if ended.is_err() {
            let _ = fs::remove_file(rt, name.as_str());
        }
        ended
    }

    // Writes it whole under another name and renames it, so that whoever looks sees the old file or the new one.
    fn write_whole(&self, rt: &HostRuntime) -> io::Result<()> {
        let part = self.create_part(rt)?;
        self.replace(rt, part)
    }

    // A pipe or a device is no file that another could take the place of.
    fn write_open(&self, rt: &HostRuntime, file: File) -> io::Result<()> {
        if is_descriptor(self.name) || !is_regular(&file, self.name) {
            let mut to = file;
            return to.write_all(self.bytes);
        }
        self.write_whole(rt)
    }

    // Opened to append, as it is here, nothing of a file is changed.
    fn write(&self, rt: &HostRuntime) -> io::Result<()> {
        match OpenOptions::new().append(true).open(rt, self.path) {
            Ok(file) => self.write_open(rt, file),
            Err(error) if error.kind() == ErrorKind::NotFound => self.write_whole(rt),
            Err(error) => Err(error),
        }
    }
}
