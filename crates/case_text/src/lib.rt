// The text of test cases, one a line: what is asked and a label up to a colon, then a file in hexadecimal, with or without spaces between
// the bytes; `*N` after a byte stands for that byte N times, and ends at a space. Answers are printed on standard output.
#![tactic(auto)]

ghost use Rattle.std.specs.Prelude.{◌≤◌, length};

use std::fmt;
use std::fmt::Display;

// A case's file has at most so many bytes.
pub const FILE_ROOM: usize = 131072;

// Bytes that are printed in hexadecimal.
#[derive(Clone, Copy)]
pub struct Hex<'a>(pub &'a [u8]);

impl Display for Hex<'_> {
    fn fmt<W: fmt::Write>(&self, f: &mut fmt::Formatter<W>) -> fmt::Result {
        let Hex(bytes) = *self;
        for byte in bytes {
            write!(f, "{byte:02x}")?;
        }
        Ok(())
    }
}

// Whether a line is no case: it is empty or a comment.
pub fn is_comment(line: &[u8]) -> bool {
    line.is_empty() || line.starts_with(b"#")
}

// A line's text up to the colon, with it.
pub fn head(line: &[u8]) -> &[u8] {
    line.split_inclusive(|byte| *byte == b':')
        .next()
        .unwrap_or_default()
}

// A line's text after the colon.
fn body(line: &[u8]) -> &[u8] {
    line.splitn(2, |byte| *byte == b':')
        .nth(1)
        .unwrap_or_default()
}

// The number that a line's text after the colon begins with, after one space or none; and what stands after it.
fn number_first(line: &[u8]) -> (&[u8], &[u8]) {
    let text = body(line);
    let text = text.strip_prefix(b" ").unwrap_or(text);
    let end = text
        .iter()
        .position(|byte| *byte == b' ')
        .unwrap_or(text.len());
    text.split_at(end)
}

// The number after a line's colon, or the most that is asked for.
pub fn number(line: &[u8], most: usize) -> usize
    ensures { result ≤ most }
{
    let (digits, _) = number_first(line);
    decimal(digits).min(most)
}

// The number at a place among those after a line's colon and one byte more, from 0; 0 where there are fewer.
pub fn number_at(line: &[u8], place: usize) -> usize {
    let text = body(line).get(1..).unwrap_or_default();
    text.split(|byte| *byte == b' ')
        .nth(place)
        .map_or(0, decimal)
}

// Puts the bytes after a line's colon into the buffer and answers them. Bytes beyond the buffer are dropped.
pub fn fill<'a>(line: &[u8], room: &'a mut [u8]) -> &'a mut [u8]
    ensures { length result.now ≤ length room.old }
{
    put_words(body(line), room)
}

// The same with the bytes after a number.
pub fn fill_after_number<'a>(line: &[u8], room: &'a mut [u8]) -> &'a mut [u8]
    ensures { length result.now ≤ length room.old }
{
    let (_, text) = number_first(line);
    put_words(text, room)
}

fn put_words<'a>(text: &[u8], room: &'a mut [u8]) -> &'a mut [u8]
    ensures { length result.now ≤ length room.old }
{
    let mut size = 0;
    for word in text.split(|byte| *byte == b' ') {
        size = put_word(word, room, size);
    }
    &mut room[..size]
}

// Puts bytes in hexadecimal behind those that are there, the last of them as often as the number after a star says; answers how many are there.
fn put_word(word: &[u8], room: &mut [u8], size: usize) -> usize
    requires { size ≤ length room.old }
    ensures { result ≤ length room.old }
{
    let star = word
        .iter()
        .position(|byte| *byte == b'*')
        .unwrap_or(word.len());
    let (digits, times) = word.split_at(star);
    let size = put_pairs(digits, room, size);
    repeat_last(room, size, decimal(times).min(FILE_ROOM))
}

fn put_pairs(digits: &[u8], room: &mut [u8], size: usize) -> usize
    requires { size ≤ length room.old }
    ensures { result ≤ length room.old }
{
    let mut n = size;
    for pair in digits.chunks_exact(2) {
        n = put_byte(room, n, hex_digit(pair[0]) * 16 + hex_digit(pair[1]));
    }
    n
}

fn put_byte(room: &mut [u8], size: usize, byte: u8) -> usize
    requires { size ≤ length room.old }
    ensures { result ≤ length room.old }
{
    if size == room.len() {
        return size;
    }
    room[size] = byte;
    size + 1
}

// Puts the last byte that is there again until it stands there so many times.
fn repeat_last(room: &mut [u8], size: usize, times: usize) -> usize
    requires { size ≤ length room.old }
    ensures { result ≤ length room.old }
{
    let Some(last) = room[..size].last().copied() else {
        return size;
    };
    let mut n = size;
    for _ in 1..times {
        n = put_byte(room, n, last);
    }
    n
}

fn hex_digit(digit: u8) -> u8
    ensures { result ≤ 15 }
{
    match digit {
        b'0'..=b'9' => digit - b'0',
        b'a'..=b'f' => digit - b'a' + 10,
        _ => 0,
    }
}

// The number that the digits of a text make, 0 where there are none; of one of more than 19 digits, the first 19 alone.
fn decimal(text: &[u8]) -> usize
    ensures { result ≤ 9999999999999999999 }
{
    let mut n: usize = 0;
    for byte in text {
        if byte.is_ascii_digit() && n < 1000000000000000000 {
            n = n * 10 + usize::from(*byte - b'0');
        }
    }
    n
}

// Prints a text. What cannot be printed is let go, here and below.
pub fn print<D: Display + Drop>(rt: &impl Print, text: D) {
    let _ = rt.print(text);
}

// Prints bytes as they are.
pub fn print_bytes(rt: &impl Print, bytes: &[u8]) {
    let _ = rt.write_all(bytes);
}
