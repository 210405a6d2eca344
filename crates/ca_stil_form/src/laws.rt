//! What the definitions imply.

ghost use Rattle.std.specs.Prelude.{◌≡◌, ◌<◌, ◌^◌, ℕ, Bool, true, List, Ok, Err};
ghost use Rattle.ca_net.specs.declared.trit.Trit.{Trit};
ghost use Rattle.ca_stil.specs.declared.chip.StilChip.{StilChip};
ghost use Rattle.ca_stil.specs.Chip.{longest, AreOf};
ghost use Rattle.ca_stil.specs.Text.{stil_text};
ghost use Rattle.ca_stil_form.specs.Form.{Token};
ghost use Rattle.ca_stil_form.specs.Reading.{whole, IsWritten, IsFirstFaulty};
ghost use Rattle.ca_stil_form.specs.Tokens.{tokens_of};
ghost use Rattle.ca_stil_form.specs.Whole.{Stil, stil_form};
ghost use Rattle.ca_stil_form.specs.Value.{stil_value};
ghost use Rattle.ca_stil_form.specs.Allowed.{NamedValuesAreAllowed};

/// Tokens read as some values exactly where they are the tokens of these values' text; and they are faulty
/// exactly at their first token that no text of the form has after the tokens before it, or at their end
/// where they end too early.
pub fn stil_reading()
    ensures written { (tokens : List Token) (value : Stil) → IsWritten stil_form value tokens
        → whole stil_form tokens ≡ Ok value }
    ensures read { (tokens : List Token) (value : Stil) → whole stil_form tokens ≡ Ok value
        → IsWritten stil_form value tokens }
    ensures found { (tokens : List Token) (left : ℕ) → whole stil_form tokens ≡ Err left
        → IsFirstFaulty stil_form tokens left }
    ensures reported { (tokens : List Token) (left : ℕ) → IsFirstFaulty stil_form tokens left
        → whole stil_form tokens ≡ Err left }
{}

/// The text of values reads as these values, and its tokens are those that are written.
pub fn stil_is_read_back()
    ensures tokens { (value : Stil) → stil_form.allowed value ≡ true
        → tokens_of (stil_form.text value) ≡ stil_form.written value }
    ensures read { (value : Stil) → stil_form.allowed value ≡ true
        → whole stil_form (tokens_of (stil_form.text value)) ≡ Ok value }
{}

/// The text that is written of a chip is that of the form, for the values that the chip, its pairs and their
/// expected values make; and where the form allows these values, the text reads as them.
pub fn chip_text_is_of_the_form()
    ensures same { (chip : StilChip) (pairs : List (List Bool)) (expected : List (List Trit))
        → longest chip.chains < 2 ^ 64 → AreOf chip pairs expected
        → stil_form.text (stil_value chip pairs expected) ≡ stil_text chip pairs expected }
    ensures read { (chip : StilChip) (pairs : List (List Bool)) (expected : List (List Trit))
        → longest chip.chains < 2 ^ 64 → AreOf chip pairs expected
        → stil_form.allowed (stil_value chip pairs expected) ≡ true
        → whole stil_form (tokens_of (stil_text chip pairs expected)) ≡ Ok (stil_value chip pairs expected) }
{}

/// The form allows the values of each chip whose names, groups and chains are as it asks.
pub fn named_values_are_allowed()
    ensures { NamedValuesAreAllowed }
{}
