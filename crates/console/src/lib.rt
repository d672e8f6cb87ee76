// What the programs share: their arguments, a whole input read into a lent buffer, an answer printed, numbers with a point. What fails is told on
// standard error.
#![tactic(auto)]

ghost use Rattle.std.specs.Prelude.{◌≡◌, ◌≤◌, ◌/◌, ◌%◌, length, Ok, IfOk, IfSome};

use limits::MOST_BYTES;
use std::env::{Env, FillError};
use std::fmt::Display;
use std::fs::File;
use std::io::{Cursor, Error, Read, Write};
use std::{fmt, fs, io};

// Room for a junction file and one byte more, so that a longer one is refused by the library; and for as many bytes of a plan file as can
// matter: later bytes change no answer (specs/Long.antt of plan_judge, delays and offsets).
pub const JUNCTION_ROOM: usize = MOST_BYTES + 1;

pub const PLAN_ROOM: usize = 65672;

// Room for an argument's text; a longer one is none.
const ARGUMENT_ROOM: usize = 4096;

// Room for what a program prints: sixteen streams of `intergreens` take some 5,000 bytes.
const TEXT_ROOM: usize = 16384;

// A number with a decimal point: its whole part, and in so many places the part behind the point.
#[derive(Clone, Copy)]
pub struct Decimal {
    whole: u64,
    part: u64,
    places: usize,
}

impl Decimal {
    pub fn tenths(n: u64) -> Decimal
        ensures whole { result.whole ≡ n / 10 }
        ensures part { result.part ≡ n % 10 }
        ensures places { result.places ≡ 1 }
    {
        Decimal {
            whole: n / 10,
            part: n % 10,
            places: 1,
        }
    }

    pub fn ten_thousandths(n: u64) -> Decimal
        ensures whole { result.whole ≡ n / 10000 }
        ensures part { result.part ≡ n % 10000 }
        ensures places { result.places ≡ 4 }
    {
        Decimal {
            whole: n / 10000,
            part: n % 10000,
            places: 4,
        }
    }
}

impl Display for Decimal {
    fn fmt<W: fmt::Write>(&self, f: &mut fmt::Formatter<W>) -> fmt::Result {
        let Decimal {
            whole,
            part,
            places,
        } = *self;
        write!(f, "{whole}.{part:0places$}")
    }
}

// A program as it was called: its name, and the words after it that say how it is called.
#[derive(Clone, Copy)]
pub struct Program<'a> {
    rt: &'a HostRuntime,
    name: &'a str,
    words: &'a str,
}

impl<'a> Program<'a> {
    pub fn new(rt: &'a HostRuntime, name: &'a str, words: &'a str) -> Program<'a>
        ensures name { result.name.now ≡ name.now }
        ensures words { result.words.now ≡ words.now }
    {
        Program { rt, name, words }
    }

    // Whether there is an argument i; the first is 1.
    pub fn has_argument(&self, i: usize) -> bool {
        !matches!(self.rt.arg(i, &mut [0; 1]), Err(FillError::NotPresent))
    }

    // Whether argument i is missing, or can be a file's name: it does not begin with a hyphen.
    pub fn is_name(&self, i: usize) -> bool {
        let mut first = [0; 1];
        // An argument that is longer leaves its first byte.
        let _ = self.rt.arg(i, &mut first);
        first[0] != b'-'
    }

    // Whether the arguments are two that can be files' names; else tells how the program is called.
    pub fn has_two_names(&self) -> bool {
        let two = self.has_argument(2)
            && !self.has_argument(3)
            && self.is_name(1)
            && self.is_name(2);
        if !two {
            self.usage();
        }
        two
    }

    // Tells how the program is called.
    pub fn usage(&self) {
        let Program { rt, name, words } = *self;
        tell(rt, format_args!("usage: {name} {words}"));
    }

    // The number that argument i is; one that is missing or too long is none.
    pub fn number(&self, i: usize) -> Option<usize> {
        decimals::decimal(self.argument(i, &mut [0; ARGUMENT_ROOM])?)
    }

    // The text of argument i in the lent buffer; one that is missing or too long is none.
    fn argument<'b>(&self, i: usize, room: &'b mut [u8]) -> Option<&'b [u8]> {
        let n = self.rt.arg(i, room).ok()?;
        Some(&room[..n])
    }

    // The name of a file that argument i is. What is no such name is told.
    fn file_name<'b>(&self, i: usize, room: &'b mut [u8]) -> Option<&'b str> {
        let text = self.argument(i, room).unwrap_or_default();
        if text.is_empty() {
            self.tell("a file name is empty or too long");
            return None;
        }
        let name = std::str::from_utf8(text).ok();
        if name.is_none() {
            self.tell("a file name is not UTF-8 text");
        }
        name
    }

    // Tells what failed in the program.
    fn tell(&self, what: &str) {
        let Program { rt, name, .. } = *self;
        tell(rt, format_args!("{name}: {what}"));
    }

    // Reads the file that argument i names or, where there is no such argument, standard input, as far as the buffer goes.
    pub fn read_input<'b>(&self, i: usize, room: &'b mut [u8]) -> Option<&'b mut [u8]>
        ensures { IfSome result (λ file. length file.now ≤ length room.old) }
    {
        if self.has_argument(i) {
            return self.read_argument(i, room);
        }
        let Program { rt, name, .. } = *self;
        let read = read_full(&mut rt.stdin(), room);
        let n = got(rt, format_args!("{name}: standard input"), read)?;
        Some(&mut room[..n])
    }

    // Reads the file that argument i names, as far as the buffer goes.
    pub fn read_argument<'b>(&self, i: usize, room: &'b mut [u8]) -> Option<&'b mut [u8]>
        ensures { IfSome result (λ file. length file.now ≤ length room.old) }
    {
        let mut name = [0; ARGUMENT_ROOM];
        let path = self.file_name(i, &mut name)?;
        let n = got(self.rt, path, read_path(self.rt, path, room))?;
        Some(&mut room[..n])
    }

    // Reads the files that the first two arguments name, as far as each buffer goes.
    pub fn read_two<'b>(
        &self,
        first: &'b mut [u8],
        second: &'b mut [u8],
    ) -> Option<(&'b mut [u8], &'b mut [u8])>
        ensures { IfSome result (λ files. (length files.0.now ≤ length first.old) × (length files.1.now ≤ length second.old)) }
    {
        let one = self.read_argument(1, first)?;
        let two = self.read_argument(2, second)?;
        Some((one, two))
    }

    // Prints a line.
    pub fn print_line<D: Display + Drop>(&self, line: D) {
        self.print(format_args!("{line}\n"));
    }

    // Prints a text by one write.
    pub fn print<D: Display + Drop>(&self, answer: D) {
        let mut text = Cursor::new([0; TEXT_ROOM]);
        if write!(text, "{answer}").is_err() {
            self.tell("the text is too long for its buffer");
            return;
        }
        let Program { rt, name, .. } = *self;
        let printed = Print::write_all(rt, written(&text));
        got(rt, format_args!("{name}: standard output"), printed);
    }

    // Writes a new file that argument i names; none where it does not stand whole. A file of that name that is there already is left as it is.
    pub fn write_new(&self, i: usize, file: &[u8]) -> Option<()> {
        let mut name = [0; ARGUMENT_ROOM];
        let path = self.file_name(i, &mut name)?;
        let new = got(self.rt, path, File::create_new(self.rt, path))?;
        let whole = got(self.rt, path, write_whole(new, file));
        if whole.is_none() {
            let _ = fs::remove_file(self.rt, path);
        }
        whole
    }
}

fn read_path(rt: &HostRuntime, path: &str, room: &mut [u8]) -> io::Result<usize>
    ensures { IfOk result (λ n. n ≤ length room.new) }
{
    read_full(&mut File::open(rt, path)?, room)
}

// Reads until the buffer is full or nothing is left to read, and answers how many bytes are in the buffer.
// Stays a loop over a count: std has no method that fills a lent buffer as far as the input goes and answers how far that is.
fn read_full<R: Read>(from: &mut R, room: &mut [u8]) -> io::Result<usize>
    ensures { IfOk result (λ n. n ≤ length room.new) }
{
    let mut size = 0;
    while size < room.len() {
        let n = from.read(&mut room[size..])?;
        if n == 0 {
            break;
        }
        size += n;
    }
    Ok(size)
}

// What succeeded. Of what failed it is told what it was, and why.
fn got<T, D: Display + Drop>(rt: &HostRuntime, what: D, outcome: io::Result<T>) -> Option<T>
    ensures { IfSome result (λ x. outcome ≡ Ok x) }
{
    match outcome {
        Ok(value) => Some(value),
        Err(error) => {
            fail(rt, what, &error);
            None
        }
    }
}

// Tells what failed, and why: the system's words, without the number that std adds to them.
fn fail<D: Display + Drop>(rt: &HostRuntime, what: D, error: &Error) {
    let mut text = Cursor::new([0; 256]);
    let _ = write!(text, "{error}");
    let words = std::str::from_utf8(written(&text)).unwrap_or_default();
    let reason = words.split_once(" (").map_or(words, |(reason, _)| reason);
    tell(rt, format_args!("{what}: {reason}"));
}

// What stands in a buffer that was written to.
fn written<const N: usize>(text: &Cursor<[u8; N]>) -> &[u8] {
    let n = (text.position() as usize).min(N);
    &text.get_ref()[..n]
}

// Writes a line on standard error. Where that fails, there is no place left to tell it.
fn tell<D: Display + Drop>(rt: &HostRuntime, line: D) {
    let _ = rt.stderr().println(line);
}

// Writes a file and closes it. What fails as the system stores it is known once it is stored.
fn write_whole(mut new: File, file: &[u8]) -> io::Result<()> {
    new.write_all(file)?;
    new.sync_all()
}
