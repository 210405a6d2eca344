//! The tokens of a text.
ghost use Rattle.std.specs.Prelude.{◌≡◌, ◌≤◌, ◌||◌, ◌==◌, [], ◌∷◌, ◌++◌, length, OnOk};
ghost use Rattle.ca_lex.specs.Reading.{Gives};
ghost use Rattle.ca_token.specs.LexFault.{fault_reported, tokens_of};
ghost use Rattle.ca_token.specs.Next.{IsNext};
ghost use Rattle.ca_token.specs.Scan.{line_at, tokens_after};

use crate::fault::{Flaw, LexFault};
use crate::piece::{Piece, piece_of};
use ca_base::NoMemory;
use ca_lex::Token;
use std::alloc::Global;
use std::marker::Model;

/// Tokens in order. Contracts see them as a list.
#[derive(Drop)]
pub struct Tokens {
    tokens: Vec<Token>,
}

impl Model for Tokens {
    ghost use Rattle.ca_lex.specs.declared.token.Token.{Token};
    ghost use Rattle.std.specs.Prelude.{List};

    ghost Value = { List Token };

    ghost view = { λ tokens. tokens.tokens.items };
}

impl Tokens {
    /// The tokens as a slice.
    pub fn as_slice(&self) -> &[Token]
        ensures { result.now ≡ self.now }
    {
        &self.tokens
    }

    fn push(&mut self, token: Token) -> Result<(), NoMemory>
        ensures { OnOk result (self.new ≡ self.old ++ token ∷ []) }
    {
        Ok(self.tokens.push(token)?)
    }
}

/// What follows in a text.
#[derive(Clone, Copy, Debug, PartialEq, Eq)]
pub enum Next {
    Token(Token),
    /// The token that begins next breaks a rule.
    Flaw(Flaw),
    /// Nothing but white space, comments, attributes and directives follows.
    End,
}

/// The line of the byte at this place, counted from 1. A line feed belongs to the line that it ends.
pub fn line_at(text: &[u8], place: usize) -> usize
    requires { place ≤ length text.now }
    ensures { result ≡ line_at place text.now }
{
    let mut line = 1;
    for byte in &text[..place] {
        if *byte == b'\n' {
            line += 1;
        }
    }
    line
}

// Whether only white space is before the byte after a byte of white space, on its line.
fn begins_line_after(begins_line: bool, byte: u8) -> bool
    ensures { result ≡ (begins_line || byte == 10) }
{
    begins_line || byte == b'\n'
}

/// The token, the fault or the end that follows in a text after a place, which is 0 or the end of the token
/// before.
pub fn next_token(text: &[u8], place: usize) -> Next
    requires { place ≤ length text.now }
    ensures { IsNext text.now place result (tokens_after place text.now) }
{
    let mut at = place;
    let mut begins_line = place == 0;
    'pieces: while at < text.len() {
        let (_, rest) = text.split_at(at);
        match piece_of(begins_line, rest) {
            Piece::Blank => {
                begins_line = begins_line_after(begins_line, text[at]);
                at += 1;
            }
            Piece::Skipped(len) => {
                begins_line = false;
                at += len;
            }
            Piece::Found(kind, len) => {
                return Next::Token(Token {
                    kind,
                    start: at,
                    end: at + len,
                });
            }
            Piece::Broken(shift, kind) => {
                return Next::Flaw(Flaw {
                    at,
                    place: at + shift,
                    kind,
                });
            }
        }
    }
    Next::End
}

/// The tokens of a gate netlist's text, or its first fault.
pub fn verilog_tokens(alloc: Global, bytes: &[u8]) -> Result<Tokens, LexFault>
    ensures { Gives fault_reported (λ tokens. tokens) result (tokens_of bytes.now) }
{
    let mut tokens = Tokens {
        tokens: Vec::new(alloc),
    };
    let mut place = 0;
    'tokens: loop {
        match next_token(bytes, place) {
            Next::Token(token) => {
                tokens.push(token)?;
                place = token.end;
            }
            Next::Flaw(flaw) => {
                return Err(LexFault::At {
                    at: flaw.at,
                    line: line_at(bytes, flaw.place),
                    kind: flaw.kind,
                });
            }
            Next::End => return Ok(tokens),
        }
    }
}
