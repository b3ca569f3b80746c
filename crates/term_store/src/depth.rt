//! The depth of the canonical text of a node, from those of its parts.
ghost use Rattle.std.specs.Prelude.{◌≡◌, List, [], ℕ, map, max, suc};
ghost use Rattle.sort_store.specs.Tree as sorts;
ghost use Rattle.term_store.specs.CanonicalText.{node_text, term_texts, binding_texts, case_texts, note_text, note_texts, var_texts, function_text, applied_head, pattern_text, sort_text, term_text, value_texts};
ghost use Rattle.term_store.specs.Depth.{saturated, nesting, nesting_all, list_depth};
ghost use Rattle.term_store.specs.NumberedNodes.{numbered_node, numbered_note, numbered_notes, terms, cases};
ghost use Rattle.term_store.specs.Term.{app, trees, case_trees, note_tree, note_trees, node_tree, plain_var, tree};
ghost use Rattle.term_store.specs.Value.{unplaced_value};

use crate::parts::{Applied, Fun, Pattern};
use crate::term::{Note, TermNode, TermRef};
use crate::value::depth_of_value;
use lex_core::NameId;
use sexp_core::Tree;
use sort_store::SortRef;

// The deepest of some terms.
pub(crate) fn deepest(args: &[TermRef]) -> u32
    ensures { result ≡ saturated (nesting_all (term_texts (trees (terms args.now)))) }
{
    let mut deep = 0;
    for arg in args {
        deep = deep.max(arg.print_depth());
    }
    deep
}

// A symbol that stands alone where no names come after it, and else in a list with them.
fn depth_with(names: &[NameId]) -> u32
    ensures { result ≡ list_depth names.now }
{
    if names.is_empty() { 0 } else { 1 }
}

// A function symbol without `as`.
#[tactic(auto, using(crate::proofs::TextDepths::text_words))]
fn depth_of_function(head: &Applied) -> u32
    ensures { result ≡ nesting (function_text head.now.fun head.now.name head.now.indices) }
{
    match &head.fun {
        Fun::Tester(_) => 1,
        Fun::Theory => depth_with(head.indices.as_slice()),
        Fun::Declared(_) => depth_with(head.indices.as_slice()),
    }
}

// The sort of a variable or of an application.
#[tactic(auto, using(crate::proofs::TextDepths::text_words))]
pub(crate) fn depth_of_sort(sort: &SortRef) -> u32
    ensures { result ≡ saturated (nesting (sort_text [] (sorts.tree sort.now))) }
{
    sort.print_depth()
}

// A function symbol, with `as` where it is ambiguous.
fn depth_of_head(head: &Applied, sort: &SortRef) -> u32
    ensures { result ≡ saturated (nesting (applied_head head.now (sorts.tree sort.now))) }
{
    let depth = depth_of_function(head);
    if head.qualify {
        depth.max(depth_of_sort(sort)).saturating_add(1)
    } else {
        depth
    }
}

// An application.
#[tactic(auto, using(crate::proofs::TextDepths::text_words))]
fn depth_of_app(head: &Applied, args: &[TermRef], sort: &SortRef) -> u32
    ensures { result ≡ saturated (nesting (node_text (sorts.tree sort.now) (app head.now (trees (terms args.now))))) }
{
    let depth = depth_of_head(head, sort);
    if args.is_empty() {
        return depth;
    }
    deepest(args).max(depth).saturating_add(1)
}

// The bindings of some variables, whatever these are.
#[tactic(auto, using(crate::proofs::TextDepths::text_words))]
fn deepest_binding(values: &[TermRef]) -> u32
    ensures { (vars : List ℕ) → result ≡ saturated (nesting_all (binding_texts vars (trees (terms values.now)))) }
{
    if values.is_empty() {
        return 0;
    }
    deepest(values).saturating_add(1)
}

// The variables of a quantifier, or the parameters of a function.
#[tactic(auto, using(crate::proofs::TextDepths::text_words))]
pub(crate) fn deepest_var(vars: &[(NameId, SortRef)]) -> u32
    ensures { result ≡ saturated (nesting_all (var_texts (map plain_var vars.now))) }
{
    let mut deep = 0;
    for var in vars {
        deep = deep.max(depth_of_sort(&var.1).saturating_add(1));
    }
    deep
}

#[tactic(auto, using(crate::proofs::TextDepths::text_words))]
fn depth_of_pattern(pattern: &Pattern) -> u32
    ensures { result ≡ nesting (pattern_text pattern.now) }
{
    match pattern {
        Pattern::Var(_) => 0,
        Pattern::Con {
            no: _,
            name: _,
            vars,
        } => depth_with(vars.as_slice()),
    }
}

// The cases of a match.
#[tactic(auto, using(crate::proofs::TextDepths::text_words))]
fn deepest_case(arms: &[(Pattern, TermRef)]) -> u32
    ensures { result ≡ saturated (nesting_all (case_texts (case_trees (cases arms.now)))) }
{
    let mut deep = 0;
    for arm in arms {
        let depth = depth_of_pattern(&arm.0).max(arm.1.print_depth());
        deep = deep.max(depth.saturating_add(1));
    }
    deep
}

// The value of an attribute, if there is one.
#[tactic(auto, using(crate::proofs::TextDepths::text_words))]
pub(crate) fn depth_of_attribute(value: &Option<Tree>) -> u32
    ensures { result ≡ saturated (nesting_all (value_texts (unplaced_value value.now))) }
{
    match value {
        Some(value) => depth_of_value(value),
        None => 0,
    }
}

// One attribute, without a list round it.
#[tactic(auto, using(crate::proofs::TextDepths::text_words))]
fn depth_of_note(note: &Note) -> u32
    ensures { result ≡ saturated (nesting_all (note_text (note_tree (numbered_note note.now)))) }
{
    match note {
        Note::Named { no: _, name: _ } => 0,
        Note::Pattern(args) => deepest(args).saturating_add(1),
        Note::Other { key: _, value } => depth_of_attribute(value),
    }
}

// The attributes of a term.
#[tactic(auto, using(crate::proofs::TextDepths::text_words))]
fn deepest_note(notes: &[Note]) -> u32
    ensures { result ≡ saturated (nesting_all (note_texts (note_trees (numbered_notes notes.now)))) }
{
    let mut deep = 0;
    for note in notes {
        deep = deep.max(depth_of_note(note));
    }
    deep
}

// A node with this sort.
#[tactic(auto, using(crate::proofs::TextDepths::text_words))]
pub(crate) fn depth_of_node(node: &TermNode, sort: &SortRef) -> u32
    ensures { result ≡ saturated (nesting (node_text (sorts.tree sort.now) (node_tree (numbered_node node.now)))) }
{
    match node {
        TermNode::Lit { kind: _, text: _ } => 0,
        TermNode::Var(_) => 0,
        TermNode::App { head, args } => depth_of_app(head, args, sort),
        TermNode::Let {
            vars: _,
            values,
            body,
        } => nested(deepest_binding(values), body),
        TermNode::Quant { all: _, vars, body } => nested(deepest_var(vars), body),
        TermNode::Match { of, cases } => nested(deepest_case(cases), of),
        TermNode::Ann { body, notes } => deepest_note(notes)
            .max(body.print_depth())
            .saturating_add(1),
    }
}

// A list of parts that are so deep and a term, together in one list.
fn nested(parts: u32, term: &TermRef) -> u32
    ensures { result ≡ saturated (suc (max (suc parts) (nesting (term_text (tree term.now))))) }
{
    parts
        .saturating_add(1)
        .max(term.print_depth())
        .saturating_add(1)
}
