//! The words for a budget and for the number of a generated chip.

ghost use Rattle.std.specs.Prelude.{◌≡◌, ◌↔◌, decimal, IsTrue, IfSome, IsNone};
ghost use Rattle.ca_words.specs.Budget.{IsBudget, HasBudget, IsChipNumber, HasChipNumber};

use ca_make::MOST_GATES;
use itoa::Buffer;

/// The most branches that each search may be given.
pub const MOST_BUDGET: u32 = 65_536;

// Whether the word is how the number is written.
fn is_written(word: &str, number: u32) -> bool
    ensures { IsTrue result ↔ (word.now ≡ decimal number) }
{
    Buffer::new().format(number) == word
}

/// The number that a word says, if it may be a budget.
#[tactic(auto, using(crate::proofs::BudgetLemmas::said_is_read))]
pub fn budget_of(word: &str) -> Option<u32>
    ensures some { IfSome result (HasBudget word.now) }
    ensures none { IsNone result → ¬ (IsBudget word.now) }
{
    match word.parse::<u32>() {
        Ok(budget) => {
            if budget <= MOST_BUDGET && is_written(word, budget) {
                Some(budget)
            } else {
                None
            }
        }
        Err(_) => None,
    }
}

/// The number that a word says, if there is a generated chip of it.
#[tactic(auto, using(crate::proofs::BudgetLemmas::number_is_read))]
pub fn chip_number_of(word: &str) -> Option<u32>
    ensures some { IfSome result (HasChipNumber word.now) }
    ensures none { IsNone result → ¬ (IsChipNumber word.now) }
{
    match word.parse::<u32>() {
        Ok(number) => {
            if number >= 1 && number <= MOST_GATES && is_written(word, number) {
                Some(number)
            } else {
                None
            }
        }
        Err(_) => None,
    }
}
