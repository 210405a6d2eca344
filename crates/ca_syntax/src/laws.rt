//! Laws of syntax trees, each the contract of a function that does nothing.

ghost use Rattle.ca_syntax.specs.Laws.{RightTreeIsRead, LargeTreeIsRefused, ReadTextHasTree};
ghost use Rattle.ca_syntax.specs.Laws.{LargeTextHasTree, ReadTreeIsRight, LargeTreeIsRight};
ghost use Rattle.ca_syntax.specs.Example.{ExampleIsRead};

/// The text of a tree whose names and ranges are right reads as the netlist of the tree.
pub fn right_tree_is_read()
    ensures { RightTreeIsRead }
{}

/// One that declares too many bits is refused for their number alone.
pub fn large_tree_is_refused()
    ensures { LargeTreeIsRefused }
{}

/// What a text reads as is the netlist of a right tree, of which it is the text.
pub fn read_text_has_tree()
    ensures { ReadTextHasTree }
{}

/// A text that is refused for the number of its bits is that of a right tree with that many.
pub fn large_text_has_tree()
    ensures { LargeTextHasTree }
{}

/// A tree whose text reads as a netlist, or is refused for the number of its bits, is right.
pub fn read_tree_is_right()
    ensures read { ReadTreeIsRight }
    ensures large { LargeTreeIsRight }
{}

/// The example is the text of its tree, and reads as the netlist that is written out.
pub fn example_is_read()
    ensures { ExampleIsRead }
{}
