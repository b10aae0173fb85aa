// A line cut into words, and a word read as a number.
ghost use Rattle.std.specs.Prelude.{◌≡◌, ◌+◌, [], ◌∷◌, IfOk, MatchOption, map, take};
ghost use Rattle.std.specs.List.{before_first};
ghost use Rattle.days.specs.Numbers.{is_number, number_in};
ghost use Rattle.days.specs.Words.{blank, hash, line_words, most_words, newline, words};

use super::Reason;
use std::alloc::{AllocError, Global};
use std::str;

// A reading has five words, and a sixth is one too many.
const MOST_WORDS: usize = 6;

// A space, a tab or a carriage return separates words.
fn is_blank(byte: u8) -> bool
    ensures { result ≡ blank byte }
{
    matches!(byte, b' ' | b'\t' | b'\r')
}

// What stands before the line's comment and its newline.
fn code(line: &[u8]) -> &[u8]
    ensures { result.now ≡ before_first hash (before_first newline line.now) }
{
    let end = line.iter().position(|byte| matches!(byte, b'#' | b'\n'));
    &line[..end.unwrap_or(line.len())]
}

// The first word, and what stands behind it.
fn first_word(text: &[u8]) -> Option<(&[u8], &[u8])>
    ensures { MatchOption result (words text.now ≡ []) (λ p. words text.now ≡ p.0.now ∷ words p.1.now) }
{
    let start = text.iter().position(|byte| !is_blank(*byte))?;
    let text = &text[start..];
    let end = text.iter().position(|byte| is_blank(*byte));
    Some(text.split_at(end.unwrap_or(text.len())))
}

// The first words of a line, one more at most than a command has: that one is too many, whatever follows, and a line may be
// as long as memory.
pub fn words(heap: Global, line: &[u8]) -> Result<Vec<&[u8]>, AllocError>
    ensures { IfOk result (λ found. map (λ word. word.now) found.items ≡ take most_words (line_words (before_first newline line.now))) }
{
    let mut found = Vec::new(heap);
    let mut rest = code(line);
    for _ in 0..MOST_WORDS {
        let Some((word, behind)) = first_word(rest) else {
            break;
        };
        found.push(word)?;
        rest = behind;
    }
    Ok(found)
}

// Digits only, and at least one; a number has no sign.
fn is_number(word: &[u8]) -> bool
    ensures { result ≡ is_number word.now }
{
    !word.is_empty() && word.iter().all(|byte| byte.is_ascii_digit())
}

// The number that a word writes, if it is at most `most`.
pub fn number(word: &[u8], most: u64) -> Result<u64, Reason>
    ensures { result ≡ number_in (most + 1) word.now }
{
    if !is_number(word) {
        return Err(Reason::NotNumber);
    }
    let Ok(digits) = str::from_utf8(word) else {
        return Err(Reason::NotNumber);
    };
    match digits.parse() {
        Ok(number) if number <= most => Ok(number),
        _ => Err(Reason::TooLarge),
    }
}
