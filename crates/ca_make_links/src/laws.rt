//! The laws of generated chips, linked: each is the contract of a function that does nothing.

ghost use Rattle.ca_make_links.specs.Laws.{ChipKeepsRules, ChipHasNoChains};

/// A generated chip, over its library and with no scan cells, breaks no rule of linking and passes no limit.
pub fn chip_keeps_rules()
    ensures { ChipKeepsRules }
{}

/// A generated chip, linked over its library and with no scan cells, has no scan instance and no chain, and
/// tracing its chains is refused only for out of memory.
pub fn chip_has_no_chains()
    ensures { ChipHasNoChains }
{}
