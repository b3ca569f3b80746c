//! Laws of the grammar of sorts and terms. The bodies are empty: the contracts are the laws.
ghost use Rattle.term_grammar.specs.WordNumbers.{SyntaxWords};
ghost use Rattle.term_grammar.specs.GrammarLaws.{SortsAreRead, TermsAreRead, SortFaultsAreFound, TermFaultsAreFound, AtMostOneSort, AtMostOneTerm, SortOrFault, TermOrFault, SortsBegin, TermsBegin};

/// The numbers by which the grammar tells its words are those of their texts in every table of names.
pub fn word_laws()
    ensures { SyntaxWords }
{}

/// What is read of a tree is what the grammar says, and the fault is that of the first tree without a shape.
pub fn grammar_laws()
    ensures sorts { SortsAreRead }
    ensures terms { TermsAreRead }
    ensures sort_faults { SortFaultsAreFound }
    ensures term_faults { TermFaultsAreFound }
    ensures one_sort { AtMostOneSort }
    ensures one_term { AtMostOneTerm }
    ensures sort_or_fault { SortOrFault }
    ensures term_or_fault { TermOrFault }
    ensures sort_bytes { SortsBegin }
    ensures term_bytes { TermsBegin }
{}
