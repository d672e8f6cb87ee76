// Fields of a file, and the answer that every reader gives (document 01, "The junction file" and "Questions in order").
#![tactic(auto)]

ghost use Rattle.std.specs.Prelude.{◌≡◌, ℕ, Bool, ◌+◌, ◌≤◌, ◌<◌, length};
ghost use Rattle.fields.specs.Verdict.{Passed, ask, ask_each};
ghost use Rattle.fields.specs.Bytes.{byte_at, number_at, byte_in, number_in, field_end};

use std::error::Error;
use std::fmt;

// The first question that is not met: its number and a place, in place of an answer.
// The number stays a number, and no enum of questions: `Answers` of `demands`, and each theorem of a refusal, states the papers' number.
#[derive(Clone, Copy, Debug, PartialEq, Eq)]
pub struct Refusal {
    pub number: u8,
    pub place: usize,
}

impl fmt::Display for Refusal {
    fn fmt<W: fmt::Write>(&self, f: &mut fmt::Formatter<W>) -> fmt::Result {
        write!(f, "refused {} {}", self.number, self.place)
    }
}

impl Error for Refusal {}

// A question asked: a refusal with its number and a place where the answer is no.
pub fn ask(answer: bool, number: u8, place: usize) -> Result<(), Refusal>
    ensures { result ≡ ask answer number place Passed }
{
    if answer {
        Ok(())
    } else {
        Err(Refusal { number, place })
    }
}

// A question asked of each of so many places, from 0: a refusal with the number, from 1, of the first place where the answer is no.
pub fn ask_each<F: Fn(usize) -> bool>(number: u8, n: usize, answer: F) -> Result<(), Refusal>
    requires callable { (i : ℕ) → i < n → F.pre answer i }
    ensures { (holds : ℕ → Bool)
        → ((i : ℕ) (b : Bool) → i < n → F.post answer i b → b ≡ holds (i + 1))
        → result ≡ ask_each holds number n Passed }
{
    for i in 0..n {
        if !answer(i) {
            return Err(Refusal {
                number,
                place: i + 1,
            });
        }
    }
    Ok(())
}

// The byte at a place, 0 past the end.
#[tactic(auto, unfolding(crate::specs::Bytes::byte_at))]
pub fn byte(s: &[u8], at: usize) -> u8
    ensures { result ≡ byte_at s.now at }
{
    if at < s.len() { s[at] } else { 0 }
}

// The number of two bytes at a place, high byte first; a byte past the end counts as 0.
#[tactic(auto, using(crate::specs::Bytes::number_at_past), unfolding(crate::specs::Bytes::number_at))]
pub fn number(s: &[u8], at: usize) -> u16
    ensures { result ≡ number_at s.now at }
{
    if s.len() <= at {
        return 0;
    }
    u16::from_be_bytes([byte(s, at), byte(s, at + 1)])
}

// Whether the byte at a place is from low to high.
#[tactic(auto, unfolding(crate::specs::Bytes::byte_in))]
pub fn byte_in(s: &[u8], at: usize, low: u8, high: u8) -> bool
    ensures { result ≡ byte_in s.now at low high }
{
    (low..=high).contains(&byte(s, at))
}

// Whether the number at a place is from low to high.
#[tactic(auto, unfolding(crate::specs::Bytes::number_in))]
pub fn number_in(s: &[u8], at: usize, low: u16, high: u16) -> bool
    ensures { result ≡ number_in s.now at low high }
{
    (low..=high).contains(&number(s, at))
}

// Where the field at a place ends: it fits the file where that is no more than the file's length.
#[tactic(auto, unfolding(crate::specs::Bytes::field_end))]
pub fn field_end(s: &[u8], at: usize) -> usize
    requires { at ≤ length s.now }
    ensures { result ≡ field_end s.now at }
{
    at + 3 + number(s, at + 1) as usize
}
