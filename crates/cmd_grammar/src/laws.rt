//! Laws of the grammar of commands. The bodies are empty: the contracts are the laws.
ghost use Rattle.std.specs.Prelude.{◌≡◌, ◌↔◌, ◌⊎◌, Ok, Err};
ghost use Rattle.lex_core.specs.declared.token.Tok.{Tok};
ghost use Rattle.lex_core.specs.declared.place.Place.{Place};
ghost use Rattle.sexp_core.specs.Sexp.{Sexp};
ghost use Rattle.cmd_grammar.specs.WordNumbers.{CommandNames};
ghost use Rattle.cmd_grammar.specs.Commands.{Command};
ghost use Rattle.cmd_grammar.specs.CommandReads.{read_command};
ghost use Rattle.cmd_grammar.specs.Grammar.{ReadsCommand, IsGrammarFault};

/// The numbers by which the grammar tells the names of commands are those of their texts in every table of names.
pub fn word_laws()
    ensures { CommandNames }
{}

/// The reading of a tree agrees with the grammar: it gives the command that the tree is, or what is wrong with it. A tree is
/// at most one command and has at most one fault, and it has exactly one of both.
pub fn grammar_laws()
    ensures command { (t : Sexp Tok) (c : Command) → ReadsCommand t c ↔ read_command t ≡ Ok c }
    ensures fault { (t : Sexp Tok) (p : Place) → IsGrammarFault t p ↔ read_command t ≡ Err p }
    ensures one_command { (t : Sexp Tok) (c d : Command) → ReadsCommand t c → ReadsCommand t d → c ≡ d }
    ensures one_fault { (t : Sexp Tok) (p q : Place) → IsGrammarFault t p → IsGrammarFault t q → p ≡ q }
    ensures not_both { (t : Sexp Tok) (c : Command) (p : Place) → ReadsCommand t c → IsGrammarFault t p → ⊥ }
    ensures one_of_both { (t : Sexp Tok) → ((c : Command) × ReadsCommand t c) ⊎ ((p : Place) × IsGrammarFault t p) }
{}
