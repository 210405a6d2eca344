//! The words that stand for vectors.

ghost use Rattle.std.specs.Prelude.{◌≡◌, ◌↔◌, IsTrue, IfErr, IfOk, OnOk};
ghost use Rattle.ca_request.specs.Vectors.{letters_of, trit_of};
ghost use Rattle.ca_request.specs.Asked.{FitsInputs, IsVectorsStage};

use ca_fault::Fault;
use ca_lex::Text;
use ca_linked::Chip;
use ca_net::Trit;
use std::alloc::Global;

/// The letters of a vector, of which a dash has none.
pub fn letters_of(vector: &str) -> &[u8]
    ensures { result.now ≡ letters_of vector.now }
{
    if vector == "-" {
        &[]
    } else {
        vector.as_bytes()
    }
}

/// The value of a letter.
pub fn trit(letter: u8) -> Trit
    ensures { result ≡ trit_of letter }
{
    match letter {
        b'0' => Trit::Zero,
        b'1' => Trit::One,
        _ => Trit::X,
    }
}

/// The letters of a first and a last vector, one for each chip input.
#[derive(Clone, Copy)]
pub struct Vectors<'a> {
    pub first: &'a [u8],
    pub last: &'a [u8],
}

// Whether a vector has one letter for each chip input.
fn fits(chip: &Chip, vector: &str) -> bool
    ensures { IsTrue result ↔ FitsInputs chip.now vector.now }
{
    letters_of(vector).len() == chip.inputs()
}

/// The letters of the two vectors that the words spell. The first vector is judged before the last.
pub fn find_vectors<'a>(
    alloc: Global,
    chip: &Chip,
    first: &'a str,
    last: &'a str,
) -> Result<Vectors<'a>, Fault>
    ensures first { IfOk result (λ vectors. vectors.first.now ≡ letters_of first.now) }
    ensures last { IfOk result (λ vectors. vectors.last.now ≡ letters_of last.now) }
    ensures first_fits { OnOk result (FitsInputs chip.now first.now) }
    ensures last_fits { OnOk result (FitsInputs chip.now last.now) }
    ensures cause { IfErr result (IsVectorsStage chip.now first.now last.now) }
{
    if !fits(chip, first) {
        return Err(Fault::BadVector {
            word: Text::from_bytes(alloc, first.as_bytes())?,
        });
    }
    if !fits(chip, last) {
        return Err(Fault::BadVector {
            word: Text::from_bytes(alloc, last.as_bytes())?,
        });
    }
    Ok(Vectors {
        first: letters_of(first),
        last: letters_of(last),
    })
}
