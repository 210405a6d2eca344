//! A law of the names of observed outputs.

ghost use Rattle.ca_outputs.specs.Laws.{OutputsAreNamed, NamesAreAsManyAsOutputs};

/// Names and nets are of the same outputs, in the same order, so that there are as many of both.
pub fn outputs_are_named()
    ensures order { OutputsAreNamed }
    ensures count { NamesAreAsManyAsOutputs }
{}
