//! The lines of a certificate, without their line feeds.

ghost use Rattle.std.specs.Prelude.{IfOk};
ghost use Rattle.ca_cert_text.specs.code.Reading.{IsBudgetAt, IsCreditAt, IsUnexposableAt, IsUntestableAt};
ghost use Rattle.ca_cert_text.specs.code.Reading.{IsAbortedAt, IsClaimAt};

use crate::code::code_of;
use crate::cut::cut;
use crate::number::{MOST_BUDGET, number_of};
use ca_base::NoMemory;
use ca_claim::Claim;
use std::alloc::Global;

/// The budget that a first line says.
pub(crate) fn budget_of(line: &[u8]) -> Option<u32>
    ensures { IsBudgetAt line.now result }
{
    let head = b"cellaware certificate 1 budget ".as_slice();
    if line.len() < head.len() {
        return None;
    }
    let (front, digits) = line.split_at(head.len());
    if front != head {
        return None;
    }
    let Some(budget) = number_of(digits) else {
        return None;
    };
    if budget > MOST_BUDGET {
        return None;
    }
    Some(budget)
}

// The credit that the words after `c` are.
fn credit_of(text: &[u8]) -> Option<Claim>
    ensures { IsCreditAt text.now result }
{
    let [space, words @ ..] = text else {
        return None;
    };
    if *space != b' ' {
        return None;
    }
    let (pair, after) = cut(words, b' ');
    let [_, output @ ..] = after else {
        return None;
    };
    let Some(pair) = number_of(pair) else {
        return None;
    };
    let Some(output) = number_of(output) else {
        return None;
    };
    Some(Claim::Credited { pair, output })
}

// The claim that nothing is said after `x`.
fn unexposable_of(text: &[u8]) -> Option<Claim>
    ensures { IsUnexposableAt text.now result }
{
    if text.is_empty() {
        Some(Claim::Unexposable)
    } else {
        None
    }
}

// The claim that a code proves a defect untestable.
fn untestable_of(alloc: Global, text: &[u8]) -> Result<Option<Claim>, NoMemory>
    ensures { IfOk result (IsUntestableAt text.now) }
{
    match code_of(alloc, text)? {
        Some(code) => Ok(Some(Claim::Untestable { code })),
        None => Ok(None),
    }
}

// The claim that a code has used up the budget.
fn aborted_of(alloc: Global, text: &[u8]) -> Result<Option<Claim>, NoMemory>
    ensures { IfOk result (IsAbortedAt text.now) }
{
    match code_of(alloc, text)? {
        Some(code) => Ok(Some(Claim::Aborted { code })),
        None => Ok(None),
    }
}

/// The claim that a line is.
pub(crate) fn claim_of(alloc: Global, line: &[u8]) -> Result<Option<Claim>, NoMemory>
    ensures { IfOk result (IsClaimAt line.now) }
{
    let [kind, rest @ ..] = line else {
        return Ok(None);
    };
    match *kind {
        b'c' => Ok(credit_of(rest)),
        b'x' => Ok(unexposable_of(rest)),
        b'u' => untestable_of(alloc, rest),
        b'a' => aborted_of(alloc, rest),
        _ => Ok(None),
    }
}
