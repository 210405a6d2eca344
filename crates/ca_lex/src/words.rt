//! The words of a logical line.
ghost use Rattle.std.specs.Prelude.{◌≡◌, ◌<◌, ◌≤◌, ◌∷◌, ◌++◌, length, map, IfOk, List, ℕ, false};
ghost use Rattle.ca_lex.specs.Words.{is_blank, ends_word, word_len, words_of};
ghost use Rattle.ca_lex.specs.code.Words.{BeginsWord, first_word_len};
ghost use Rattle.ca_lex.specs.Words.{upper_case};

use crate::Text;
use ca_base::NoMemory;
use std::alloc::Global;

pub(crate) fn is_blank(byte: u8) -> bool
    ensures { result ≡ is_blank byte }
{
    byte == b' ' || byte == b'\t' || byte == b'\r'
}

pub(crate) fn ends_word(byte: u8) -> bool
    ensures { result ≡ ends_word byte }
{
    is_blank(byte) || byte == b'='
}

pub(crate) fn word_len(text: &[u8]) -> usize
    ensures len { result ≡ word_len text.now }
    ensures within { result ≤ length text.now }
{
    let mut len = 0;
    let mut rest = text;
    'bytes: while let [byte, more @ ..] = rest {
        if ends_word(*byte) {
            return len;
        }
        len += 1;
        rest = more;
    }
    len
}

fn first_word_len(text: &[u8]) -> usize
    ensures len { result ≡ first_word_len text.now }
    ensures within { result ≤ length text.now }
    ensures some { BeginsWord text.now → 0 < result }
{
    match text {
        [] => 0,
        [b'=', ..] => 1,
        _ => word_len(text),
    }
}

/// The first word of a text that begins with one, and the rest.
fn first_word(text: &[u8]) -> (&[u8], &[u8])
    requires { BeginsWord text.now }
    ensures words { words_of text.now ≡ result.0.now ∷ words_of result.1.now }
    ensures shorter { length result.1.now < length text.now }
{
    text.split_at(first_word_len(text))
}

/// The words of a text, in order: the longest runs of bytes that are neither blanks nor `=`, and each `=`.
/// Bytes of any value may be in a word.
pub fn spice_words(alloc: Global, text: &[u8]) -> Result<Vec<&[u8]>, NoMemory>
    ensures ok { IfOk result (λ words. map (λ word. word.now) words.items ≡ words_of text.now) }
{
    let mut words = Vec::new(alloc);
    let mut rest = text;
    'words: while let [byte, more @ ..] = rest {
        if is_blank(*byte) {
            rest = more;
        } else {
            let (word, after) = first_word(rest);
            words.push(word)?;
            rest = after;
        }
    }
    Ok(words)
}

/// The word with its ASCII letters in upper case, by which names and keywords are compared.
pub fn fold(alloc: Global, word: &[u8]) -> Result<Text, NoMemory>
    ensures ok { IfOk result (λ text. text ≡ upper_case word.now) }
{
    Ok(Text::from_vec(word.to_ascii_uppercase(alloc)?))
}
