//! What the definitions imply.

ghost use Rattle.std.specs.Prelude.{◌≡◌, ℕ, List};
ghost use Rattle.ca_stil_form.specs.Form.{Token, mapped};
ghost use Rattle.ca_stil_form.specs.Frame.{Frame};
ghost use Rattle.ca_stil_form.specs.Pattern.{pair_form};
ghost use Rattle.ca_stil_form.specs.Whole.{stil_form};
ghost use Rattle.ca_stil_read.specs.Plan.{flat_pair, read_pair};
ghost use Rattle.ca_stil_read.specs.Whole.{flat_stil, read_all};

/// What a pair, and a whole text, read as part by part is what their forms read, the values of each pair one
/// after another.
pub fn parts_are_of_the_form()
    ensures pair { (frame : Frame) (number : ℕ) (tokens : List Token)
        → mapped flat_pair ((pair_form frame number).read tokens) ≡ read_pair frame number tokens }
    ensures whole { (tokens : List Token) → mapped flat_stil (stil_form.read tokens) ≡ read_all tokens }
{}
