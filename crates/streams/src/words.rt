// The words of a call, asked for by their positions: the program's own name, then what stands behind it.
ghost use Rattle.std.specs.Prelude.{◌≡◌, ◌≤◌, ℕ, List, [], Option, None, Some, length, map, slice_get, IfSome, MatchOption};
ghost use Rattle.std.specs.Str.{IsAscii};
ghost use Rattle.streams.specs.Words.{Gives, shown_byte, shown_of};

use std::env::{Env, FillError};
use std::str;

pub trait Words {
    // The words, where they are known.
    ghost words: { Self → Option (List (List ℕ)) } = { λ _. None };

    // Puts the word at a position into the lent bytes, as far as there is room for it, and answers how many bytes of it stand there. None behind the last word.
    fn word(&self, i: usize, room: &mut [u8]) -> Option<usize>
        ensures within { IfSome result (λ n. n ≤ length room.new) }
        ensures gives { Gives (words self.now) i room.new result };
}

/// The arguments of this process. What they are no contract says.
#[derive(Clone, Copy)]
pub struct Arguments<'a, R: Env> {
    pub rt: &'a R,
}

impl<'a, R: Env> Words for Arguments<'a, R> {
    fn word(&self, i: usize, room: &mut [u8]) -> Option<usize> {
        match self.rt.arg(i, &mut *room) {
            Ok(n) => Some(n),
            // of one that is too long the runtime leaves the first bytes there
            Err(FillError::TooLong) => Some(room.len()),
            Err(FillError::NotPresent) => None,
        }
    }
}

// As many bytes of a word as are shown, at most.
const SHOWN: usize = 40;

// One byte more: that a word is longer is noticed.
pub const SHOWN_ROOM: usize = SHOWN + 1;

// The word at a position, to be shown in a line: what is no printable character of ASCII is a question mark, and a longer word is cut. Nothing behind the last
// word.
pub fn shown<'a, A: Words>(words: &A, i: usize, room: &'a mut [u8; SHOWN_ROOM]) -> &'a str
    ensures cut { length result.now ≤ 40 }
    ensures shown { (all : List (List ℕ)) → A.words words.now ≡ Some all → MatchOption (slice_get all i) (result.now ≡ []) (λ word. result.now ≡ shown_of word) }
{
    let Some(n) = words.word(i, &mut *room) else {
        return "";
    };
    put_printable(&mut room[..n]);
    if n < SHOWN_ROOM {
        return ascii_text(&room[..n]);
    }
    room[SHOWN - 3..SHOWN].copy_from_slice(b"...");
    ascii_text(&room[..SHOWN])
}

// Puts a question mark for each byte that is no printable character of ASCII.
fn put_printable(bytes: &mut [u8])
    ensures { bytes.new ≡ map shown_byte bytes.old }
{
    for i in 0..bytes.len() {
        bytes[i] = printable(bytes[i]);
    }
}

fn printable(b: u8) -> u8
    ensures { result ≡ shown_byte b }
{
    if b' ' <= b && b <= b'~' { b } else { b'?' }
}

// Bytes of ASCII are a text.
fn ascii_text(bytes: &[u8]) -> &str
    ensures begins { length result.now ≤ length bytes.now }
    ensures ascii { IsAscii bytes.now → result.now ≡ bytes.now }
{
    str::from_utf8(bytes).unwrap_or("")
}
