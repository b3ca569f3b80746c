//! Laws of the definitions.
ghost use Rattle.term_store.specs.Laws.{SortDepthIsNesting};

/// The depth that a sort store tells of a sort is how deep the sort's canonical text nests, whatever
/// names its parameters have. Calling it does nothing.
pub fn text_laws()
    ensures { SortDepthIsNesting }
{}
