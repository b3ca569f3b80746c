//! Laws of s-expressions and their tokens. The bodies are empty: the contracts are the laws.
ghost use Rattle.lex_core.specs.declared.token.Tok.{Tok};
ghost use Rattle.lex_core.specs.Token.{Token};
ghost use Rattle.sexp_core.specs.Laws.{FlatFixes, ReadsOnce, ReadsOrFaults, NotBoth, FirstFaultFixed, ReadsWithTexts};

/// Tokens fix their s-expression, with names as numbers and as texts.
pub fn tree_laws()
    ensures numbers { FlatFixes Tok }
    ensures texts { FlatFixes Token }
{}

/// Tokens either read as lists and an unfinished list, in one way, or they have a first token that breaks a rule.
pub fn reading_laws()
    ensures once { ReadsOnce Token }
    ensures either { ReadsOrFaults Token }
    ensures not_both { NotBoth Token }
    ensures first_fault { FirstFaultFixed Token }
    ensures with_texts { ReadsWithTexts }
{}
