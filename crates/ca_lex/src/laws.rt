//! What the definitions imply.
ghost use Rattle.std.specs.Prelude.{◌≡◌, ℕ, List, Result, Some, Err};
ghost use Rattle.ca_lex.specs.Length.{length_of};
ghost use Rattle.ca_lex.specs.LengthGrammar.{IsLength};
ghost use Rattle.ca_lex.specs.FirstFault.{steps_from, IsFirstFault};

/// A word is a length exactly where it is digits, an optional point and digits, an optional exponent and an
/// optional suffix, one after another, with 1 to 32 digits before the exponent and a value from 1 to 10^24.
/// Its value is theirs.
pub fn length_grammar()
    ensures found { (word : List ℕ) (value : ℕ) → length_of word ≡ Some value → IsLength word value }
    ensures only { (word : List ℕ) (value : ℕ) → IsLength word value → length_of word ≡ Some value }
{}

/// A reading item by item has a fault exactly where that is the fault of the first item that has one.
pub fn first_fault<Item, State, Fault>()
    ensures found { (step : Item → State → Result State Fault) (start : State) (items : List Item)
        (fault : Fault)
        → steps_from step start items ≡ Err fault → IsFirstFault step start items fault }
    ensures only { (step : Item → State → Result State Fault) (start : State) (items : List Item)
        (fault : Fault)
        → IsFirstFault step start items fault → steps_from step start items ≡ Err fault }
{}
