//! Laws of the definitions, each the contract of a function that does nothing.

ghost use Rattle.ca_merge.specs.Laws.{DraftCoreIsMerged, DraftHasNoLoop, DraftIsReady, DraftIsWired};

/// The core of the draft of the merged chip is the core's merged chip.
pub fn draft_core_is_merged()
    ensures { DraftCoreIsMerged }
{}

/// The draft has no loop.
pub fn draft_has_no_loop()
    ensures { DraftHasNoLoop }
{}

/// With an order it is a wired chip.
pub fn draft_is_wired()
    ensures { DraftIsWired }
{}

/// It is ready to be wired.
pub fn draft_is_ready()
    ensures { DraftIsReady }
{}
