//! The words of a line, and how many of them a first word takes.

ghost use Rattle.std.specs.Prelude.{◌≡◌, bytes_eq, ◌+◌, ◌==◌, ◌<◌, ◌≤◌, [], ◌∷◌, position, take, length, All, IfSome, IfNone, IfOk, IfErr};
ghost use Rattle.lapd_script.specs.Words.{words_of, texts, no_words, one_word, two_words, three_words};

use crate::kind::FaultKind;
use arrayvec::ArrayVec;

/// One word more than the longest line has, so that a line with too many is known by their number.
pub(crate) const MOST_WORDS: usize = 17;

/// The words of a line: each space separates two, which may be empty. Those past [`MOST_WORDS`] are left out.
pub(crate) fn words_of(line: &[u8]) -> ArrayVec<&[u8], MOST_WORDS>
    ensures words { texts result.items ≡ take 17 (words_of line.now) }
    ensures short { All (λ word. length word.now ≤ length line.now) result.items }
{
    let mut words = ArrayVec::new();
    let mut rest = line;
    while let Some((word, more)) = split_word(rest) {
        if words.is_full() {
            return words;
        }
        words.push(word);
        rest = more;
    }
    if words.is_full() {
        return words;
    }
    words.push(rest);
    words
}

/// The first word, and what stands after its space; `None` if no space is left.
fn split_word(rest: &[u8]) -> Option<(&[u8], &[u8])>
    ensures split { IfSome result (λ parts. words_of rest.now ≡ parts.0.now ∷ words_of parts.1.now) }
    ensures shorter { IfSome result (λ parts. length parts.0.now + length parts.1.now < length rest.now) }
    ensures last { IfNone result (words_of rest.now ≡ rest.now ∷ []) }
{
    let Some(end) = place_of(rest, b' ') else {
        return None;
    };
    Some((&rest[..end], &rest[end + 1..]))
}

/// The first place of an octet.
pub(crate) fn place_of(octets: &[u8], octet: u8) -> Option<usize>
    ensures { result ≡ position (λ one. one == octet) octets.now }
{
    octets.iter().position(|one| *one == octet)
}

/// Tests that there is no word.
pub(crate) fn none(words: &[&[u8]]) -> Result<(), FaultKind>
    ensures { no_words (texts words.now) ≡ result }
{
    match words {
        [] => Ok(()),
        _ => Err(FaultKind::BadNumberOfWords),
    }
}

/// The one word.
pub(crate) fn one<'a>(words: &[&'a [u8]]) -> Result<&'a [u8], FaultKind>
    ensures ok { IfOk result (λ word. words.now ≡ word ∷ []) }
    ensures err { IfErr result (λ kind. one_word (texts words.now) ≡ Err kind) }
{
    match words {
        [word] => Ok(*word),
        _ => Err(FaultKind::BadNumberOfWords),
    }
}

/// The two words.
pub(crate) fn two<'a>(words: &[&'a [u8]]) -> Result<(&'a [u8], &'a [u8]), FaultKind>
    ensures ok { IfOk result (λ word. words.now ≡ word.0 ∷ word.1 ∷ []) }
    ensures err { IfErr result (λ kind. two_words (texts words.now) ≡ Err kind) }
{
    match words {
        [first, second] => Ok((*first, *second)),
        _ => Err(FaultKind::BadNumberOfWords),
    }
}

/// The three words.
pub(crate) fn three<'a>(words: &[&'a [u8]]) -> Result<(&'a [u8], &'a [u8], &'a [u8]), FaultKind>
    ensures ok { IfOk result (λ word. words.now ≡ word.0 ∷ word.1 ∷ word.2 ∷ []) }
    ensures err { IfErr result (λ kind. three_words (texts words.now) ≡ Err kind) }
{
    match words {
        [first, second, third] => Ok((*first, *second, *third)),
        _ => Err(FaultKind::BadNumberOfWords),
    }
}

/// Whether a word is this one.
pub(crate) fn is(word: &[u8], name: &[u8]) -> bool
    ensures { result ≡ bytes_eq word.now name.now }
{
    word == name
}
