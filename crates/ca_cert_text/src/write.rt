//! The text of a certificate, written.

ghost use Rattle.std.specs.Prelude.{◌≡◌, ◌++◌, decimal, OnOk, IfOk};
ghost use Rattle.ca_cert_text.specs.CertText.{token_word, code_words, claim_words, claim_line, claim_lines};
ghost use Rattle.ca_cert_text.specs.CertText.{head_line, certificate_text};

use ca_base::NoMemory;
use ca_claim::{Certificate, Claim};
use ca_code::Code;
use ca_flat::Token;
use ca_lex::Text;
use itoa::Buffer;
use std::alloc::Global;

// Appends a number.
fn put_number(text: &mut Text, number: u32) -> Result<(), NoMemory>
    ensures { OnOk result (text.new ≡ text.old ++ decimal number) }
{
    text.append(Buffer::new().format(number).as_bytes())
}

// Appends a token.
fn put_token(text: &mut Text, token: Token) -> Result<(), NoMemory>
    ensures { OnOk result (text.new ≡ text.old ++ token_word token) }
{
    match token {
        Token::Leaf => text.push(b'.'),
        Token::Branch { bit, first: true } => {
            text.push(b'+')?;
            put_number(text, u32::from(bit))
        }
        Token::Branch { bit, first: false } => {
            text.push(b'-')?;
            put_number(text, u32::from(bit))
        }
    }
}

// Appends the tokens of a code, each after a space.
fn put_code(text: &mut Text, code: &Code) -> Result<(), NoMemory>
    ensures { OnOk result (text.new ≡ text.old ++ code_words code.now) }
{
    for place in 0..code.len() {
        text.push(b' ')?;
        put_token(text, code.get(place))?;
    }
    Ok(())
}

// Appends a claim.
fn put_claim(text: &mut Text, claim: &Claim) -> Result<(), NoMemory>
    ensures { OnOk result (text.new ≡ text.old ++ claim_words claim.now) }
{
    match claim {
        Claim::Credited { pair, output } => {
            text.append(b"c ")?;
            put_number(text, *pair)?;
            text.push(b' ')?;
            put_number(text, *output)
        }
        Claim::Unexposable => text.push(b'x'),
        Claim::Untestable { code } => {
            text.push(b'u')?;
            put_code(text, code)
        }
        Claim::Aborted { code } => {
            text.push(b'a')?;
            put_code(text, code)
        }
    }
}

// Appends the first line.
fn put_head(text: &mut Text, budget: u32) -> Result<(), NoMemory>
    ensures { OnOk result (text.new ≡ text.old ++ head_line budget) }
{
    text.append(b"cellaware certificate 1 budget ")?;
    put_number(text, budget)?;
    text.push(b'\n')
}

// Appends the line of a claim.
fn put_line(text: &mut Text, claim: &Claim) -> Result<(), NoMemory>
    ensures { OnOk result (text.new ≡ text.old ++ claim_line claim.now) }
{
    put_claim(text, claim)?;
    text.push(b'\n')
}

/// The text of a certificate. It is of the form where the budget and the bits aren't too great.
pub fn write_certificate(alloc: Global, certificate: &Certificate) -> Result<Text, NoMemory>
    ensures { IfOk result (λ text. text ≡ certificate_text certificate.now) }
{
    let mut text = Text::new(alloc);
    put_head(&mut text, certificate.budget)?;
    for claim in certificate.claims.as_slice() {
        put_line(&mut text, claim)?;
    }
    Ok(text)
}
