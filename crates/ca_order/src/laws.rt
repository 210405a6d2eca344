//! A law of order files, the contract of a function that does nothing.

ghost use Rattle.ca_order.specs.Laws.{ReadEventsAreAllowed};

/// Each event of an order file may come in a run of the network for the two vectors.
pub fn read_events_are_allowed()
    ensures { ReadEventsAreAllowed }
{}
