//! Whether the patterns of a `match` cover a datatype.
ghost use Rattle.std.specs.Prelude.{◌≡◌, ◌↔◌, IsTrue};
ghost use Rattle.std.specs.List.{list_all, list_any};
ghost use Rattle.term_store.specs.Command.{plain_datatype};
ghost use Rattle.dt_rules.specs.Coverage.{is_variable as is_variable_pattern, is_of_constructor as is_pattern_of, Covers};

use sort_store::DeclNo;
use term_store::{Constructor, Datatype, Pattern};

// Whether the pattern is a variable.
fn is_variable(pattern: &Pattern) -> bool
    ensures { result ≡ is_variable_pattern pattern.now }
{
    matches!(pattern, Pattern::Var(_))
}

// Whether the pattern begins with the constructor of this number.
fn is_of_constructor(pattern: &Pattern, constructor: DeclNo) -> bool
    ensures { result ≡ is_pattern_of constructor pattern.now }
{
    match pattern {
        Pattern::Var(_) => false,
        Pattern::Con { no, .. } => no.0 == constructor.0,
    }
}

// Whether some pattern is a variable.
fn has_variable(patterns: &[Pattern]) -> bool
    ensures { result ≡ list_any is_variable_pattern patterns.now }
{
    patterns.iter().any(|pattern| is_variable(pattern))
}

// Whether some pattern begins with the constructor of this number.
fn has_pattern(patterns: &[Pattern], constructor: DeclNo) -> bool
    ensures { result ≡ list_any (is_pattern_of constructor) patterns.now }
{
    patterns
        .iter()
        .any(|pattern| is_of_constructor(pattern, constructor))
}

// Whether each of the constructors has a pattern.
fn have_patterns(patterns: &[Pattern], constructors: &[Constructor]) -> bool
    ensures { result ≡ list_all (λ c. list_any (is_pattern_of c.no) patterns.now) constructors.now }
{
    constructors
        .iter()
        .all(|constructor| has_pattern(patterns, constructor.no))
}

/// Whether the patterns of a `match` cover the datatype (SMT-LIB 2.6, section 3.6.1): true exactly
/// where a pattern is a variable, or every constructor of the datatype has a pattern.
pub fn covers(datatype: &Datatype, patterns: &[Pattern]) -> bool
    ensures { IsTrue result ↔ Covers patterns.now (plain_datatype datatype.now) }
{
    has_variable(patterns) || have_patterns(patterns, datatype.constructors.as_slice())
}
