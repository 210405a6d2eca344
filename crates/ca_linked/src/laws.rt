//! Laws of linked chips.

ghost use Rattle.ca_linked.specs.Laws.{OrderHasNoLoop};

/// Where there is an order, no list of instances, each driving a net on an input pin of the next, returns to
/// its first.
pub fn order_has_no_loop()
    ensures { OrderHasNoLoop }
{}
