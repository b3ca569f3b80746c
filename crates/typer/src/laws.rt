//! The laws of the rules on sorts and terms.
ghost use Rattle.std.specs.Prelude.{false, ℕ, ◌≡◌, ◌⊎◌, ◌<◌, List, [], length};
ghost use Rattle.std.specs.List.{All, Contains};
ghost use Rattle.lex_core.specs.declared.place.Place.{Place};
ghost use Rattle.sig_table.specs.declared.theories.Theories.{Theories};
ghost use Rattle.sort_store.specs.declared.head.DeclNo.{DeclNo};
ghost use Rattle.sort_store.specs.Tree.{Sort};
ghost use Rattle.judgement.specs.Judging.{well_sorted};
ghost use Rattle.term_grammar.specs.Syntax as syntax;
ghost use Rattle.term_store.specs.Declarations.{Declaration, names_in, term_name};
ghost use Rattle.scope_stack.specs.Levels.{live};
ghost use Rattle.term_store.specs.SoundTerms.{AppliesBelow, IsSoundSort, IsSoundTerm, AreSoundVars, Bound, bound_also};
ghost use Rattle.typer.specs.Declarations.{Declarations, FunDeclaration};
ghost use Rattle.typer.specs.SortRules.{SortOf, SortFault, judge_sort};
ghost use Rattle.typer.specs.Soundness.{HasSoundSorts, IsSoundSignature};
ghost use Rattle.term_store.specs.Term.{PlainTerm};
ghost use Rattle.typer.specs.FreeVariables.{has_free};
ghost use Rattle.typer.specs.FunctionSymbols.{Signature};
ghost use Rattle.typer.specs.NamedTerms.{AreNamedAfter};
ghost use Rattle.typer.specs.TermRules.{Elaborates, TermFault};

/// The laws of the rules on sorts: under any texts, declarations, theories and parameters a raw sort has
/// one sort or one fault, and never both. It computes nothing: its contract states them.
pub fn sort_laws()
    ensures decided { (texts : List (List ℕ)) (declarations : Declarations) (theories : Theories) (params : List ℕ) (raw : syntax.Sort)
        → ((t : Sort) × SortOf texts declarations theories params raw t) ⊎ ((place : Place) × SortFault texts declarations theories params raw place) }
    ensures never_both { (texts : List (List ℕ)) (declarations : Declarations) (theories : Theories) (params : List ℕ) (raw : syntax.Sort) (t : Sort) (place : Place)
        → SortOf texts declarations theories params raw t → SortFault texts declarations theories params raw place → ⊥ }
    ensures sort_once { (texts : List (List ℕ)) (declarations : Declarations) (theories : Theories) (params : List ℕ) (raw : syntax.Sort) (t u : Sort)
        → SortOf texts declarations theories params raw t → SortOf texts declarations theories params raw u → t ≡ u }
    ensures fault_once { (texts : List (List ℕ)) (declarations : Declarations) (theories : Theories) (params : List ℕ) (raw : syntax.Sort) (p q : Place)
        → SortFault texts declarations theories params raw p → SortFault texts declarations theories params raw q → p ≡ q }
{}

/// The laws of the rules on terms: under any signature and variables, and after any names that the command has declared, a term
/// has one typed term, with the names declared then, or one fault, and never both. It computes nothing: its contract states them.
pub fn term_laws()
    ensures decided { (signature : Signature) (vars : List (ℕ × Sort)) (before : List ℕ) (raw : syntax.Term)
        → ((t : PlainTerm) × (after : List ℕ) × Elaborates signature vars before raw t after) ⊎ ((place : Place) × TermFault signature vars before raw place) }
    ensures never_both { (signature : Signature) (vars : List (ℕ × Sort)) (before : List ℕ) (raw : syntax.Term) (t : PlainTerm) (after : List ℕ) (place : Place)
        → Elaborates signature vars before raw t after → TermFault signature vars before raw place → ⊥ }
    ensures term_once { (signature : Signature) (vars : List (ℕ × Sort)) (before : List ℕ) (raw : syntax.Term) (t u : PlainTerm) (after later : List ℕ)
        → Elaborates signature vars before raw t after → Elaborates signature vars before raw u later → (t ≡ u) × (after ≡ later) }
    ensures fault_once { (signature : Signature) (vars : List (ℕ × Sort)) (before : List ℕ) (raw : syntax.Term) (p q : Place)
        → TermFault signature vars before raw p → TermFault signature vars before raw q → p ≡ q }
{}

/// The laws of named terms: the names that a term declares are those of its named terms, in reading order, with numbers one after
/// the other from the next one on; and where the term is sound, each of its named terms is sound whatever variables are bound round
/// it. It computes nothing: its contract states them.
pub fn name_laws()
    ensures given { (signature : Signature) (vars : List (ℕ × Sort)) (raw : syntax.Term) (t : PlainTerm) (before after : List ℕ)
        → Elaborates signature vars before raw t after → AreNamedAfter signature before (names_in t) after }
    ensures sound { (script : List Declaration) (signature : Signature) (vars : List (ℕ × Sort))
        → IsSoundSignature script signature → AreSoundVars script vars → (raw : syntax.Term) (t : PlainTerm) (before after : List ℕ)
        → Elaborates signature vars before raw t after → (d : DeclNo) (name : ℕ) (u : PlainTerm) → Contains (names_in t) (term_name d name u)
        → (outer : Bound) → IsSoundTerm script outer u }
{}

/// The laws of soundness: under the declarations of a script, where the live sort symbols are sound, each
/// sort that the rules give is sound, and where the signature and the variables are, each term is. A term
/// applies only functions with numbers below each bound that all live functions are below. It computes nothing: its contract
/// states them.
pub fn soundness_laws()
    ensures sorts { (script : List Declaration) (texts : List (List ℕ)) (declarations : Declarations) (theories : Theories) (params : List ℕ)
        → HasSoundSorts script declarations → (raw : syntax.Sort) (t : Sort) (before after : List ℕ)
        → judge_sort texts declarations theories params raw before (well_sorted t after) → IsSoundSort script (length params) t }
    ensures terms { (script : List Declaration) (signature : Signature) (vars : List (ℕ × Sort))
        → IsSoundSignature script signature → AreSoundVars script vars → (raw : syntax.Term) (t : PlainTerm) (before after : List ℕ)
        → Elaborates signature vars before raw t after → IsSoundTerm script (bound_also vars []) t }
    ensures lower { (n : ℕ) (signature : Signature) → All (λ (d : ℕ × FunDeclaration). d.1.number.0 < n) (live signature.declarations.funs)
        → (vars : List (ℕ × Sort)) (raw : syntax.Term) (t : PlainTerm) (before after : List ℕ)
        → Elaborates signature vars before raw t after → AppliesBelow n t }
{}

/// The law of free variables: a sound term in which no variable stands free is sound whatever variables are bound round it. It
/// computes nothing: its contract states it.
pub fn closed_terms()
    ensures { (script : List Declaration) (t : PlainTerm) (inner outer : Bound) → has_free [] t ≡ false → IsSoundTerm script inner t → IsSoundTerm script outer t }
{}
