//! Lines and words.

ghost use Rattle.std.specs.Prelude.{◌≡◌, ◌==◌, ◌<◌, ◌∷◌, IfOk, length, map};
ghost use Rattle.std.specs.List.{list_all, position};
ghost use Rattle.std.specs.Str.Lines.{strip_carriage_return};
ghost use Rattle.script_lines.specs.Texts.{is_blank, is_text_byte, is_some_word, lines_of, words_of, is_skipped, without_blanks, without_word, after_two_words};

use std::alloc::{AllocError, Global};

/// A space or a tab.
pub fn is_blank(byte: u8) -> bool
    ensures { result ≡ is_blank byte }
{
    byte == b' ' || byte == b'\t'
}

fn is_text_byte(byte: u8) -> bool
    ensures { result ≡ is_text_byte byte }
{
    byte == b'\t' || (b' '..=b'~').contains(&byte)
}

/// Whether every byte may stand in a line.
pub fn is_text(line: &[u8]) -> bool
    ensures { result ≡ list_all is_text_byte line.now }
{
    line.iter().all(|byte| is_text_byte(*byte))
}

fn without_return(line: &[u8]) -> &[u8]
    ensures value { result.now ≡ strip_carriage_return line.now }
{
    match line {
        [front @ .., b'\r'] => front,
        _ => line,
    }
}

// The place of the first LF.
fn line_end(bytes: &[u8]) -> Option<usize>
    ensures { result ≡ position (λ byte. byte == 10) bytes.now }
{
    bytes.iter().position(|byte| *byte == b'\n')
}

/// The first line, and what follows it.
pub fn first_line(bytes: &[u8]) -> (&[u8], &[u8])
    requires { 0 < length bytes.now }
    ensures lines { lines_of bytes.now ≡ result.0.now ∷ lines_of result.1.now }
    ensures shorter { length result.1.now < length bytes.now }
{
    match line_end(bytes) {
        Some(at) => (without_return(&bytes[..at]), &bytes[at + 1..]),
        None => (without_return(bytes), &[]),
    }
}

fn is_some_word(word: &[u8]) -> bool
    ensures { result ≡ is_some_word word.now }
{
    !word.is_empty()
}

/// What stands between blanks.
pub fn words_of(alloc: Global, line: &[u8]) -> Result<Vec<&[u8]>, AllocError>
    ensures { IfOk result (λ words. map (λ word. word.now) words.items ≡ words_of line.now) }
{
    line.split(|byte| is_blank(*byte))
        .filter(|word| is_some_word(word))
        .collect(alloc)
}

/// Whether the line with these words is one of blanks, or a comment.
pub fn is_skipped(words: &[&[u8]]) -> bool
    ensures { result ≡ is_skipped (map (λ word. word.now) words.now) }
{
    match words {
        [] => true,
        [[first, ..], ..] => *first == b'#',
        _ => false,
    }
}

#[tactic(auto, unfolding(crate::specs::Texts::without_blanks))]
fn without_blanks(bytes: &[u8]) -> &[u8]
    ensures { result.now ≡ without_blanks bytes.now }
{
    let mut rest = bytes;
    while let [first, after @ ..] = rest {
        if !is_blank(*first) {
            break;
        }
        rest = after;
    }
    rest
}

#[tactic(auto, unfolding(crate::specs::Texts::without_word))]
fn without_word(bytes: &[u8]) -> &[u8]
    ensures { result.now ≡ without_word bytes.now }
{
    let mut rest = bytes;
    while let [first, after @ ..] = rest {
        if is_blank(*first) {
            break;
        }
        rest = after;
    }
    rest
}

/// What follows the line's first two words.
#[tactic(auto, unfolding(crate::specs::Texts::after_two_words))]
pub fn after_two_words(line: &[u8]) -> &[u8]
    ensures { result.now ≡ after_two_words line.now }
{
    without_blanks(without_word(without_blanks(without_word(without_blanks(line)))))
}
