// What the words of a call ask, where they ask no work: the only one behind the program's own name is `--help` or `--version`.
ghost use Rattle.std.specs.Prelude.{◌≡◌, ◌≢◌, ◌↔◌, ℕ, List, None, Some, codes, slice_get};
ghost use Rattle.streams.specs.Words.{IsOnlyWord};

use crate::words::Words;

// The longest word that is looked for has as many bytes; one more, so that no longer word is taken for it.
const WORD_ROOM: usize = 10;

/// What a call asks: nothing beside the program's work where no word stands behind its own name, one of the two where the only one is its word, and other
/// things by all else.
#[derive(Clone, Copy, Debug, PartialEq, Eq)]
pub enum Asked {
    Nothing,
    Help,
    Version,
    Other,
}

// What a call asks.
pub fn asked_by_words<A: Words>(words: &A) -> Asked
    ensures nothing { (all : List (List ℕ)) → A.words words.now ≡ Some all → (result ≡ Asked.Nothing) ↔ (slice_get all 1 ≡ None) }
    ensures help { (all : List (List ℕ)) → A.words words.now ≡ Some all → (result ≡ Asked.Help) ↔ IsOnlyWord all (codes "--help") }
    ensures version { (all : List (List ℕ)) → A.words words.now ≡ Some all → (result ≡ Asked.Version) ↔ IsOnlyWord all (codes "--version") }
{
    let mut room = [0u8; WORD_ROOM];
    let Some(n) = words.word(1, &mut room) else {
        return Asked::Nothing;
    };
    let mut none = [0u8; 0];
    if words.word(2, &mut none).is_some() {
        return Asked::Other;
    }
    asked_by(&room[..n])
}

// What an only word asks.
fn asked_by(word: &[u8]) -> Asked
    ensures help { (result ≡ Asked.Help) ↔ (word.now ≡ codes "--help") }
    ensures version { (result ≡ Asked.Version) ↔ (word.now ≡ codes "--version") }
    ensures not_nothing { result ≢ Asked.Nothing }
{
    if word == b"--help".as_slice() {
        Asked::Help
    } else if word == b"--version".as_slice() {
        Asked::Version
    } else {
        Asked::Other
    }
}
