//! The laws of the lexicon.
ghost use Rattle.std.specs.Prelude.{◌≡◌, ◌++◌, ◌⊎◌, ◌<◌, ℕ, Bool, List, [], Option, Some, length, slice_get, slice_index_or};
ghost use Rattle.lex_core.specs.Faults.{ShowsFault, HasTokens, HasFault};
ghost use Rattle.lex_core.specs.Lexeme.{Lexes, AllStandIn};
ghost use Rattle.lex_core.specs.LexerCalls.{HasRead};
ghost use Rattle.lex_core.specs.LexerSteps.{LexerState};
ghost use Rattle.lex_core.specs.NameTable.{IsNameTable, with_text, number_of};
ghost use Rattle.lex_core.specs.Segmentation.{Viable};
ghost use Rattle.lex_core.specs.Token.{Token};
ghost use Rattle.sig_table.specs.declared.code.Code.{Code};

/// The laws of the lexicon. It computes nothing: its contract states them.
pub fn lexicon_laws()
    // Viable bytes are exactly those with a continuation that lexes.
    ensures viable { (bytes : List ℕ) → Viable bytes
        → (more : List ℕ) × (tokens : List Token) × Lexes (bytes ++ more) tokens }
    ensures prefix { (bytes more : List ℕ) (tokens : List Token)
        → Lexes (bytes ++ more) tokens → Viable bytes }

    // The bytes fix the tokens.
    ensures unique { (bytes : List ℕ) (s t : List Token) → Lexes bytes s → Lexes bytes t → s ≡ t }

    // Each token is spelled at its place, also before the text ends.
    ensures spelled { (bytes : List ℕ) (tokens : List Token)
        → Lexes bytes tokens → AllStandIn bytes tokens }
    ensures spelled_so_far { (bytes : List ℕ) (tokens : List Token) (lexer : Option LexerState)
        → HasRead bytes tokens lexer → AllStandIn bytes tokens }

    // Each text lexes or shows a fault, and never both.
    ensures decided { (bytes : List ℕ) → HasTokens bytes ⊎ HasFault bytes }
    ensures apart { (bytes : List ℕ) (s t : List Token) (ended : Bool) (at : ℕ) (code : Code)
        → ShowsFault bytes s ended at code → Lexes bytes t → ⊥ }

    // The bytes fix the tokens before a fault, its place and its code.
    ensures unique_fault { (bytes : List ℕ) (s t : List Token) (ended closed : Bool)
        (at place : ℕ) (code rule : Code)
        → ShowsFault bytes s ended at code → ShowsFault bytes t closed place rule
        → (s ≡ t) × (at ≡ place) × (code ≡ rule) }
{}

/// The laws of the numbers of names. It computes nothing: its contract states them.
pub fn name_laws()
    // In a table different numbers have different texts.
    ensures distinct { (texts : List (List ℕ)) (i j : ℕ) → IsNameTable texts
        → i < length texts → j < length texts
        → slice_index_or texts i [] ≡ slice_index_or texts j [] → i ≡ j }

    // A table stays one when a text comes, and the text stands at its number.
    ensures table { (texts : List (List ℕ)) (text : List ℕ)
        → IsNameTable texts → IsNameTable (with_text texts text) }
    ensures stands { (texts : List (List ℕ)) (text : List ℕ)
        → slice_get (with_text texts text) (number_of text texts) ≡ Some text }
{}
