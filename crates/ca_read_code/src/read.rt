//! Whole codes and spent codes.

ghost use Rattle.std.specs.Prelude.{◌≡◌, ◌↔◌, IfOk, IsTrue};
ghost use Rattle.ca_flat.specs.Codes.{branch_count, IsWholeBy, IsSpentBy};
ghost use Rattle.ca_read_code.specs.Examined.{IsSameAim};
ghost use Rattle.ca_read_code.specs.CodeEnd.{rules_of};
ghost use Rattle.ca_read_code.specs.code.CodeEnd.{end_by, IsEnd};

use crate::examiner::Examiner;
use crate::walk::{CodeEnd, Stride, read_token};
use ca_base::NoMemory;
use ca_code::Code;
use ca_flat::Token;
use std::alloc::Global;

// Reads a code from the pair of which no bit is set.
fn read<E: Examiner>(alloc: Global, examiner: &mut E, code: &Code) -> Result<CodeEnd, NoMemory>
    ensures aim { IsSameAim (E.examined examiner.old) (E.examined examiner.new) }
    ensures end { IfOk result (IsEnd (E.examined examiner.new) code.now) }
{
    let mut decisions = Vec::new(alloc);
    examiner.clear();
    for place in 0..code.len() {
        match read_token(examiner, &mut decisions, code.get(place))? {
            Stride::Goes => {}
            Stride::Falls => return Ok(CodeEnd::Unlawful),
            Stride::Ends => return Ok(end_at(place + 1 == code.len())),
        }
    }
    Ok(CodeEnd::Front)
}

// A tree that ends with the last token is the whole code; no token may come after it.
fn end_at(is_last: bool) -> CodeEnd
    ensures { result ≡ end_by is_last }
{
    if is_last {
        CodeEnd::Whole
    } else {
        CodeEnd::Unlawful
    }
}

// How many of the tokens are branches.
fn branch_count(code: &Code) -> usize
    ensures { result ≡ branch_count code.now }
{
    let mut count = 0;
    for place in 0..code.len() {
        match code.get(place) {
            Token::Branch { .. } => count += 1,
            Token::Leaf => {}
        }
    }
    count
}

/// Whether the code is a whole one.
pub fn is_whole<E: Examiner>(alloc: Global, examiner: &mut E, code: &Code) -> Result<bool, NoMemory>
    ensures aim { IsSameAim (E.examined examiner.old) (E.examined examiner.new) }
    ensures whole { IfOk result (λ whole. IsTrue whole
        ↔ IsWholeBy (rules_of (E.examined examiner.new)) (E.examined examiner.new).chip code.now) }
{
    match read(alloc, examiner, code)? {
        CodeEnd::Whole => Ok(true),
        CodeEnd::Unlawful => Ok(false),
        CodeEnd::Front => Ok(false),
    }
}

/// Whether the code is spent for the budget.
pub fn is_spent<E: Examiner>(
    alloc: Global,
    examiner: &mut E,
    code: &Code,
    budget: u32,
) -> Result<bool, NoMemory>
    ensures aim { IsSameAim (E.examined examiner.old) (E.examined examiner.new) }
    ensures spent { IfOk result (λ spent. IsTrue spent
        ↔ IsSpentBy (rules_of (E.examined examiner.new)) (E.examined examiner.new).chip budget code.now) }
{
    match read(alloc, examiner, code)? {
        CodeEnd::Front => Ok(branch_count(code) == budget as usize && examiner.may_go_on()),
        CodeEnd::Unlawful => Ok(false),
        CodeEnd::Whole => Ok(false),
    }
}
