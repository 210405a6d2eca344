//! The codes of claims.

ghost use Rattle.std.specs.Prelude.{IfOk, true, false};
ghost use Rattle.ca_cert_text.specs.code.Reading.{IsTokenAt, IsBranchAt, IsCodeAt};

use crate::cut::cut;
use crate::number::{GREATEST_BIT, number_of};
use ca_base::NoMemory;
use ca_code::Code;
use ca_flat::Token;
use std::alloc::Global;

// The branch on the bit that these digits are.
fn branch_of(digits: &[u8], first: bool) -> Option<Token>
    ensures { IsBranchAt first digits.now result }
{
    let Some(bit) = number_of(digits) else {
        return None;
    };
    if bit > GREATEST_BIT {
        return None;
    }
    Some(Token::Branch {
        bit: bit as u16,
        first,
    })
}

// The token that a word is.
fn token_of(word: &[u8]) -> Option<Token>
    ensures { IsTokenAt word.now result }
{
    let [kind, digits @ ..] = word else {
        return None;
    };
    match *kind {
        b'+' => branch_of(digits, true),
        b'-' => branch_of(digits, false),
        b'.' => {
            if digits.is_empty() {
                Some(Token::Leaf)
            } else {
                None
            }
        }
        _ => None,
    }
}

/// The code whose tokens, each after a space, a text is.
pub(crate) fn code_of(alloc: Global, text: &[u8]) -> Result<Option<Code>, NoMemory>
    ensures { IfOk result (IsCodeAt text.now) }
{
    let mut code = Code::new(alloc);
    let mut rest = text;
    'words: while let [space, more @ ..] = rest {
        if *space != b' ' {
            return Ok(None);
        }
        let (word, after) = cut(more, b' ');
        let Some(token) = token_of(word) else {
            return Ok(None);
        };
        code.push(token)?;
        rest = after;
    }
    Ok(Some(code))
}
