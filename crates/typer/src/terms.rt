//! The typed terms of terms.
ghost use Rattle.std.specs.Prelude.{◌≡◌, ◌↔◌, ◌==◌, ◌++◌, ℕ, [], IfErr, IfOk, IfSome, IsTrue, None, map, option_map};
ghost use Rattle.std.specs.List.{list_any};
ghost use Rattle.std.specs.Option.{IsSome, option_copied};
ghost use Rattle.sort_store.specs.Interned as sorts;
ghost use Rattle.sort_store.specs.Tree as sort_tree;
ghost use Rattle.term_store.specs.Interned as terms;
ghost use Rattle.term_store.specs.Interned.{AreNotesInterned, IsNoteInterned};
ghost use Rattle.term_store.specs.NumberedNodes.{numbered_note, numbered_notes};
ghost use Rattle.term_grammar.specs.Syntax as syntax;
ghost use Rattle.term_grammar.specs.Syntax.{qualified_at, term_at};
ghost use Rattle.term_store.specs.Term.{plain_var, tree};
ghost use Rattle.typer.specs.Answers.{Answers, Meets, asked_answer, bindings_answer, case_answer, cases_answer, constant_answer, note_answer, notes_answer, term_answer, typed_answer, typed_answers};
ghost use Rattle.typer.specs.FunctionSymbols.{datatypes_of, signature_of};
ghost use Rattle.typer.specs.MatchRules.{instance_of};
ghost use Rattle.typer.specs.Ready.{IsReady};
ghost use Rattle.typer.specs.TermRules as spec;
ghost use Rattle.typer.specs.TermRules.{apply_head, judge_application, judge_asked, judge_bindings, judge_case, judge_cases, judge_constant, judge_indexed_symbol, judge_literal, judge_literal_sort, judge_note, judge_notes, judge_quantifier, judge_symbol, judge_term, judge_terms, judge_variable, judge_variables};
ghost use Rattle.typer.specs.Typed.{AreBound, AreTyped, AreTypedBindings, AreTypedCases, HasElaborated, HasGrown, IsTyped};

use crate::binders::{
    is_bool, new_let, new_quantifier, type_variables, with_bindings, with_variables,
};
use crate::head::{TypedHead, head, indexed_head};
use crate::made::{constant_sort, copy_of};
use crate::names::name_term;
use crate::notes::{new_annotation, other_note};
use crate::patterns::{covered_match, datatype_of, is_branch_sort, typed_pattern};
use crate::sorts::type_sort;
use crate::symbol::text_of;
use crate::typed::{TypedBinding, TypedCase, TypedCases, TypedTerm, TypedTerms, new_term};
use crate::world::World;
use dt_rules::{TyError, fault};
use lex_core::{NameId, Tok, TokKind};
use sig_table::Code;
use sort_store::{Head, SortRef};
use term_grammar::{
    RawBindings, RawCases, RawIdentifier, RawIdentifierKind, RawIndices, RawNote, RawNoteKind,
    RawNotes, RawPattern, RawQualified, RawQualifiedKind, RawTerm, RawTermKind, RawTerms,
    RawVariables,
};
use term_store::{Note, TermNode, TermRef};

// What the last variable of this name has.
#[tactic(auto, using(crate::proofs::BoundNames::bound_words))]
fn bound(vars: &[(NameId, SortRef)], name: NameId) -> Option<&SortRef>
    ensures { option_copied result ≡ spec.bound vars.now name }
{
    let mut found = None;
    for var in vars {
        if var.0 == name {
            found = Some(&var.1);
        }
    }
    found
}

// The sort symbol of a literal's sort.
fn literal_head(world: &World, tok: &Tok) -> Result<Head, TyError>
    ensures { Answers (constant_answer result) (judge_literal_sort (signature_of world.now) tok.now) }
{
    // Two bytes, `#b` or `#x`, stand before the digits.
    let digit_count = text_of(&world.names, tok.name).len().saturating_sub(2);
    let width = match tok.kind {
        TokKind::Numeral if world.theories.ints => return Ok(Head::Int),
        TokKind::Binary if world.theories.bits => digit_count,
        TokKind::Hexadecimal if world.theories.bits => digit_count.saturating_mul(4),
        _ => return Err(fault(Code::LiteralWithoutSort, tok.at)),
    };
    match u32::try_from(width) {
        Ok(width) => Ok(Head::BitVec(width)),
        Err(_) => Err(fault(Code::NumberTooLarge, tok.at)),
    }
}

// A literal.
#[tactic(auto, using(crate::proofs::TypedSteps::typed_words))]
fn literal(world: &mut World, tok: Tok) -> Result<TypedTerm, TyError>
    requires ready { IsReady world.old }
    ensures answer { Answers (typed_answer result) (judge_literal (signature_of world.old) tok) }
    ensures typed { IfOk result (IsTyped world.new) }
    ensures grown { HasGrown world.old world.new }
    ensures ready { IsReady world.new }
{
    let head = literal_head(world, &tok)?;
    let sort = constant_sort(&mut world.sorts, head)?;
    let node = TermNode::Lit {
        kind: tok.kind,
        text: tok.name,
    };
    new_term(world, node, sort)
}

// Whether a symbol stands without arguments and without `as`.
fn stands_alone(args: &TypedTerms, asked: &Option<SortRef>) -> bool
    ensures { IsTrue result ↔ ((map tree args.now.terms.items ≡ []) × (option_map sort_tree.tree asked.now ≡ None)) }
{
    args.terms.is_empty() && asked.is_none()
}

// A bound variable of this sort, with what stands round it.
fn variable(
    world: &mut World,
    at: u32,
    args: &TypedTerms,
    asked: &Option<SortRef>,
    name: NameId,
    sort: &SortRef,
) -> Result<TypedTerm, TyError>
    requires ready { IsReady world.old }
    requires sort { sorts.IsInterned world.old.sorts sort.now }
    ensures answer { Answers (typed_answer result)
        (judge_variable at (map tree args.now.terms.items) (option_map sort_tree.tree asked.now) name (sort_tree.tree sort.now)) }
    ensures typed { IfOk result (IsTyped world.new) }
    ensures grown { HasGrown world.old world.new }
    ensures ready { IsReady world.new }
{
    if !stands_alone(args, asked) {
        return Err(fault(Code::AppliedVariable, at));
    }
    let sort = copy_of(sort)?;
    new_term(world, TermNode::Var(name), sort)
}

// A function symbol with its arguments.
fn apply(world: &mut World, head: TypedHead, args: TypedTerms) -> Result<TypedTerm, TyError>
    requires ready { IsReady world.old }
    requires args { AreTyped world.old args }
    requires head { sorts.IsInterned world.old.sorts head.sort }
    ensures answer { IfOk result (λ t. tree t.term ≡ apply_head (head.applied, sort_tree.tree head.sort) (map tree args.terms.items)) }
    ensures typed { IfOk result (IsTyped world.new) }
    ensures grown { HasGrown world.old world.new }
    ensures ready { IsReady world.new }
    ensures err { IfErr result (λ e. e ≡ TyError.NoMemory) }
{
    let node = TermNode::App {
        head: head.applied,
        args: args.terms,
    };
    new_term(world, node, head.sort)
}

// A symbol with its arguments, in a term that begins at a byte.
fn symbol(
    world: &mut World,
    vars: &[(NameId, SortRef)],
    at: u32,
    args: TypedTerms,
    asked: &Option<SortRef>,
    name: NameId,
) -> Result<TypedTerm, TyError>
    requires ready { IsReady world.old }
    requires vars { AreBound world.old vars.now }
    requires args { AreTyped world.old args }
    requires asked { IfSome asked.now (sorts.IsInterned world.old.sorts) }
    ensures answer { Answers (typed_answer result)
        (judge_symbol (signature_of world.old) (spec.bound (map plain_var vars.now) name) at (map tree args.terms.items) (option_map sort_tree.tree asked.now) name) }
    ensures typed { IfOk result (IsTyped world.new) }
    ensures grown { HasGrown world.old world.new }
    ensures ready { IsReady world.new }
{
    match bound(vars, name) {
        Some(sort) => variable(world, at, &args, asked, name, sort),
        None => match head(world, at, &args.sorts, asked, name) {
            Ok(head) => apply(world, head, args),
            Err(error) => Err(error),
        },
    }
}

// An indexed symbol with its arguments, in a term that begins at a byte.
fn indexed_symbol(
    world: &mut World,
    at: u32,
    args: TypedTerms,
    asked: &Option<SortRef>,
    name: NameId,
    indices: &RawIndices,
) -> Result<TypedTerm, TyError>
    requires ready { IsReady world.old }
    requires args { AreTyped world.old args }
    requires asked { IfSome asked.now (sorts.IsInterned world.old.sorts) }
    ensures answer { Answers (typed_answer result)
        (judge_indexed_symbol (signature_of world.old) at (map tree args.terms.items) (option_map sort_tree.tree asked.now) name indices.now) }
    ensures typed { IfOk result (IsTyped world.new) }
    ensures grown { HasGrown world.old world.new }
    ensures ready { IsReady world.new }
{
    match indexed_head(world, at, &args.sorts, asked, name, indices) {
        Ok(head) => apply(world, head, args),
        Err(error) => Err(error),
    }
}

// An identifier with its arguments, in a term that begins at a byte.
fn application(
    world: &mut World,
    vars: &[(NameId, SortRef)],
    at: u32,
    args: TypedTerms,
    asked: &Option<SortRef>,
    identifier: &RawIdentifier,
) -> Result<TypedTerm, TyError>
    requires ready { IsReady world.old }
    requires vars { AreBound world.old vars.now }
    requires args { AreTyped world.old args }
    requires asked { IfSome asked.now (sorts.IsInterned world.old.sorts) }
    ensures answer { Answers (typed_answer result)
        (judge_application (signature_of world.old) (map plain_var vars.now) at (map tree args.terms.items) (option_map sort_tree.tree asked.now) identifier.now) }
    ensures typed { IfOk result (IsTyped world.new) }
    ensures grown { HasGrown world.old world.new }
    ensures ready { IsReady world.new }
{
    match identifier.kind() {
        RawIdentifierKind::Symbol(tok) => symbol(world, vars, at, args, asked, tok.name),
        RawIdentifierKind::Indexed { name, indices } => indexed_symbol(
            world, at, args, asked, name.name, &indices,
        ),
    }
}

// The sort that `as` names, if the head has it.
fn asked_sort(world: &mut World, head: &RawQualified) -> Result<Option<SortRef>, TyError>
    requires ready { IsReady world.old }
    ensures answer { Answers (asked_answer result) (judge_asked (signature_of world.old) head.now) }
    ensures interned { IfOk result (λ asked. IfSome asked (sorts.IsInterned world.new.sorts)) }
    ensures grown { HasGrown world.old world.new }
    ensures ready { IsReady world.new }
{
    match head.kind() {
        RawQualifiedKind::Identifier(_) => Ok(None),
        RawQualifiedKind::As { sort, .. } => match type_sort(world, &[], sort) {
            Ok(sort) => Ok(Some(sort)),
            Err(error) => Err(error),
        },
    }
}

// The identifier of a head.
fn identifier_of<'t>(head: &RawQualified<'t>) -> RawIdentifier<'t>
    ensures { result ≡ spec.identifier_of head.now }
{
    match head.kind() {
        RawQualifiedKind::Identifier(identifier) => identifier,
        RawQualifiedKind::As { identifier, .. } => identifier,
    }
}

// The typed terms of terms in order, or the first fault.
#[cycle(terms)]
fn elaborate_all(
    world: &mut World,
    vars: &[(NameId, SortRef)],
    raws: &RawTerms,
) -> Result<TypedTerms, TyError>
    requires ready { IsReady world.old }
    requires vars { AreBound world.old vars.now }
    ensures answer { Meets (typed_answers result) (judge_terms (signature_of world.old) (map plain_var vars.now) raws.now) world.old.seen.items world.new.seen.items }
    ensures typed { IfOk result (AreTyped world.new) }
    ensures grown { HasElaborated world.old world.new }
    ensures ready { IsReady world.new }
{
    let mut typed = TypedTerms::new(world.alloc);
    let mut next = raws.split();
    while let Some((first, rest)) = next {
        let term = elaborate(world, vars, &first)?;
        typed.push(term)?;
        next = rest.split();
    }
    Ok(typed)
}

// A head without arguments.
fn constant(
    world: &mut World,
    vars: &[(NameId, SortRef)],
    at: u32,
    head: &RawQualified,
) -> Result<TypedTerm, TyError>
    requires ready { IsReady world.old }
    requires vars { AreBound world.old vars.now }
    requires at { at ≡ qualified_at head.now }
    ensures answer { Answers (typed_answer result) (judge_constant (signature_of world.old) (map plain_var vars.now) head.now) }
    ensures typed { IfOk result (IsTyped world.new) }
    ensures grown { HasGrown world.old world.new }
    ensures ready { IsReady world.new }
{
    let asked = asked_sort(world, head)?;
    let args = TypedTerms::new(world.alloc);
    application(world, vars, at, args, &asked, &identifier_of(head))
}

// A head with its arguments, in a term that begins at a byte.
#[cycle(terms)]
fn elaborate_applied(
    world: &mut World,
    vars: &[(NameId, SortRef)],
    at: u32,
    head: &RawQualified,
    args: &RawTerms,
) -> Result<TypedTerm, TyError>
    requires ready { IsReady world.old }
    requires vars { AreBound world.old vars.now }
    ensures answer { Meets (typed_answer result) (judge_term (signature_of world.old) (map plain_var vars.now) (syntax.application at head.now args.now)) world.old.seen.items world.new.seen.items }
    ensures typed { IfOk result (IsTyped world.new) }
    ensures grown { HasElaborated world.old world.new }
    ensures ready { IsReady world.new }
{
    let asked = asked_sort(world, head)?;
    let args = elaborate_all(world, vars, args)?;
    application(world, vars, at, args, &asked, &identifier_of(head))
}

// Whether the variable is one of those bound already.
fn is_repeated(bindings: &[TypedBinding], name: NameId) -> bool
    ensures { result ≡ list_any (λ b. b.name == name) bindings.now }
{
    bindings.iter().any(|binding| binding.name == name)
}

// The bindings of a let in order, or the first fault.
#[cycle(terms)]
fn elaborate_bindings(
    world: &mut World,
    vars: &[(NameId, SortRef)],
    raws: &RawBindings,
) -> Result<Vec<TypedBinding>, TyError>
    requires ready { IsReady world.old }
    requires vars { AreBound world.old vars.now }
    ensures answer { Meets (bindings_answer result) (judge_bindings (signature_of world.old) (map plain_var vars.now) [] raws.now) world.old.seen.items world.new.seen.items }
    ensures typed { IfOk result (λ v. AreTypedBindings world.new v.items) }
    ensures grown { HasElaborated world.old world.new }
    ensures ready { IsReady world.new }
{
    let mut bindings = Vec::new(world.alloc);
    let mut next = raws.split();
    while let Some((first, rest)) = next {
        let tok = first.name;
        let name = tok.name;
        if is_repeated(&bindings, name) {
            return Err(fault(Code::RepeatedVariable, tok.at));
        }
        let term = first.term;
        let value = elaborate(world, vars, &term)?;
        match bindings.push(TypedBinding { name, value }) {
            Ok(()) => {}
            Err(_) => return Err(TyError::NoMemory),
        }
        next = rest.split();
    }
    Ok(bindings)
}

// A let, whose list begins at some byte.
#[cycle(terms)]
fn elaborate_let(
    world: &mut World,
    vars: &[(NameId, SortRef)],
    bindings: &RawBindings,
    body: &RawTerm,
) -> Result<TypedTerm, TyError>
    requires ready { IsReady world.old }
    requires vars { AreBound world.old vars.now }
    ensures answer { (at : ℕ) → Meets (typed_answer result) (judge_term (signature_of world.old) (map plain_var vars.now) (syntax.let_in at bindings.now body.now)) world.old.seen.items world.new.seen.items }
    ensures typed { IfOk result (IsTyped world.new) }
    ensures grown { HasElaborated world.old world.new }
    ensures ready { IsReady world.new }
{
    let bindings = elaborate_bindings(world, vars, bindings)?;
    let inner = with_bindings(world.alloc, vars, &bindings)?;
    let body = elaborate(world, &inner, body)?;
    new_let(world, &bindings, body)
}

// A quantifier over these variables.
#[cycle(terms)]
fn elaborate_quantifier(
    world: &mut World,
    vars: &[(NameId, SortRef)],
    all: bool,
    variables: &RawVariables,
    body: &RawTerm,
) -> Result<TypedTerm, TyError>
    requires ready { IsReady world.old }
    requires vars { AreBound world.old vars.now }
    ensures answer { Meets (typed_answer result) (judge_quantifier all (term_at body.now) (judge_variables (signature_of world.old) variables.now)
        (λ own. judge_term (signature_of world.old) (map plain_var vars.now ++ own) body.now)) world.old.seen.items world.new.seen.items }
    ensures typed { IfOk result (IsTyped world.new) }
    ensures grown { HasElaborated world.old world.new }
    ensures ready { IsReady world.new }
{
    let own = type_variables(world, variables)?;
    let inner = with_variables(world.alloc, vars, &own)?;
    let typed = elaborate(world, &inner, body)?;
    if !is_bool(&typed.sort) {
        return Err(fault(Code::WrongTermSort, body.at()));
    }
    new_quantifier(world, all, own, typed)
}

// An attribute of the term.
#[cycle(terms)]
fn elaborate_note(
    world: &mut World,
    vars: &[(NameId, SortRef)],
    body: &TermRef,
    raw: &RawNote,
) -> Result<Note, TyError>
    requires ready { IsReady world.old }
    requires vars { AreBound world.old vars.now }
    ensures answer { Meets (note_answer result) (judge_note (signature_of world.old) (map plain_var vars.now) (tree body.now) raw.now) world.old.seen.items world.new.seen.items }
    ensures interned { IfOk result (λ n. IsNoteInterned world.new.terms (numbered_note n)) }
    ensures grown { HasElaborated world.old world.new }
    ensures ready { IsReady world.new }
{
    match raw.kind() {
        RawNoteKind::Named { name } => name_term(world, body, name),
        RawNoteKind::Pattern { terms } => match elaborate_all(world, vars, &terms) {
            Ok(typed) => Ok(Note::Pattern(typed.terms)),
            Err(error) => Err(error),
        },
        RawNoteKind::Attribute(attribute) => other_note(world.alloc, &attribute),
    }
}

// The attributes of the term in order, or the first fault.
#[cycle(terms)]
fn elaborate_notes(
    world: &mut World,
    vars: &[(NameId, SortRef)],
    body: &TermRef,
    raws: &RawNotes,
) -> Result<Vec<Note>, TyError>
    requires ready { IsReady world.old }
    requires vars { AreBound world.old vars.now }
    ensures answer { Meets (notes_answer result) (judge_notes (signature_of world.old) (map plain_var vars.now) (tree body.now) raws.now) world.old.seen.items world.new.seen.items }
    ensures interned { IfOk result (λ v. AreNotesInterned world.new.terms (numbered_notes v.items)) }
    ensures grown { HasElaborated world.old world.new }
    ensures ready { IsReady world.new }
{
    let mut notes = Vec::new(world.alloc);
    let mut next = raws.split();
    while let Some((first, rest)) = next {
        let note = elaborate_note(world, vars, body, &first)?;
        match notes.push(note) {
            Ok(()) => {}
            Err(_) => return Err(TyError::NoMemory),
        }
        next = rest.split();
    }
    Ok(notes)
}

// A term with attributes, whose list begins at some byte.
#[cycle(terms)]
fn elaborate_annotated(
    world: &mut World,
    vars: &[(NameId, SortRef)],
    body: &RawTerm,
    notes: &RawNotes,
) -> Result<TypedTerm, TyError>
    requires ready { IsReady world.old }
    requires vars { AreBound world.old vars.now }
    ensures answer { (at : ℕ) → Meets (typed_answer result) (judge_term (signature_of world.old) (map plain_var vars.now) (syntax.annotated at body.now notes.now)) world.old.seen.items world.new.seen.items }
    ensures typed { IfOk result (IsTyped world.new) }
    ensures grown { HasElaborated world.old world.new }
    ensures ready { IsReady world.new }
{
    let body = elaborate(world, vars, body)?;
    let notes = elaborate_notes(world, vars, &body.term, notes)?;
    new_annotation(world, body, notes)
}

// A case of a match on a term of this sort, after a branch of some sort if there is one before.
#[cycle(terms)]
fn elaborate_case(
    world: &mut World,
    vars: &[(NameId, SortRef)],
    sort: &SortRef,
    first: &Option<SortRef>,
    pattern: RawPattern,
    branch: &RawTerm,
) -> Result<TypedCase, TyError>
    requires ready { IsReady world.old }
    requires vars { AreBound world.old vars.now }
    requires sort { sorts.IsInterned world.old.sorts sort.now }
    requires first { IfSome first.now (sorts.IsInterned world.old.sorts) }
    requires instance { IsSome (instance_of (datatypes_of world.old.script) (sort_tree.tree sort.now)) }
    ensures answer { IfSome (instance_of (datatypes_of world.old.script) (sort_tree.tree sort.now)) (λ i. Meets (case_answer result)
        (judge_case i (sort_tree.tree sort.now) (option_map sort_tree.tree first.now) pattern.entry (term_at branch.now)
        (λ own. judge_term (signature_of world.old) (map plain_var vars.now ++ own) branch.now)) world.old.seen.items world.new.seen.items) }
    ensures typed { IfOk result (λ c. IsTyped world.new c.branch) }
    ensures grown { HasElaborated world.old world.new }
    ensures ready { IsReady world.new }
{
    let typed = typed_pattern(world, sort, pattern)?;
    let inner = with_variables(world.alloc, vars, &typed.variables)?;
    let value = elaborate(world, &inner, branch)?;
    if !is_branch_sort(first, &value.sort) {
        return Err(fault(Code::WrongBranchSort, branch.at()));
    }
    Ok(TypedCase {
        pattern: typed.pattern,
        branch: value,
    })
}

// The cases of a match on a term of this sort in order, or the first fault.
#[cycle(terms)]
fn elaborate_cases(
    world: &mut World,
    vars: &[(NameId, SortRef)],
    sort: &SortRef,
    raws: &RawCases,
) -> Result<TypedCases, TyError>
    requires ready { IsReady world.old }
    requires vars { AreBound world.old vars.now }
    requires sort { sorts.IsInterned world.old.sorts sort.now }
    requires instance { IsSome (instance_of (datatypes_of world.old.script) (sort_tree.tree sort.now)) }
    ensures answer { IfSome (instance_of (datatypes_of world.old.script) (sort_tree.tree sort.now)) (λ i. Meets (cases_answer result)
        (judge_cases (signature_of world.old) (map plain_var vars.now) i (sort_tree.tree sort.now) None raws.now) world.old.seen.items world.new.seen.items) }
    ensures typed { IfOk result (AreTypedCases world.new) }
    ensures grown { HasElaborated world.old world.new }
    ensures ready { IsReady world.new }
{
    let mut cases = TypedCases::new(world.alloc);
    let mut next = raws.split();
    while let Some((first, rest)) = next {
        let pattern = first.pattern;
        let term = first.term;
        let case = elaborate_case(world, vars, sort, &cases.sort, pattern, &term)?;
        cases.push(case)?;
        next = rest.split();
    }
    Ok(cases)
}

// A match, whose list begins at a byte.
#[cycle(terms)]
fn elaborate_match(
    world: &mut World,
    vars: &[(NameId, SortRef)],
    at: u32,
    of: &RawTerm,
    cases: &RawCases,
) -> Result<TypedTerm, TyError>
    requires ready { IsReady world.old }
    requires vars { AreBound world.old vars.now }
    ensures answer { Meets (typed_answer result) (judge_term (signature_of world.old) (map plain_var vars.now) (syntax.match_with at of.now cases.now)) world.old.seen.items world.new.seen.items }
    ensures typed { IfOk result (IsTyped world.new) }
    ensures grown { HasElaborated world.old world.new }
    ensures ready { IsReady world.new }
{
    let typed = elaborate(world, vars, of)?;
    if datatype_of(&world.script, &typed.sort).is_none() {
        return Err(fault(Code::MatchOnNonDatatype, of.at()));
    }
    let cases = elaborate_cases(world, vars, &typed.sort, cases)?;
    covered_match(world, at, typed, cases)
}

// The typed term of a term, or the first fault.
#[cycle(terms)]
fn elaborate(
    world: &mut World,
    vars: &[(NameId, SortRef)],
    raw: &RawTerm,
) -> Result<TypedTerm, TyError>
    requires ready { IsReady world.old }
    requires vars { AreBound world.old vars.now }
    ensures answer { Meets (typed_answer result) (judge_term (signature_of world.old) (map plain_var vars.now) raw.now) world.old.seen.items world.new.seen.items }
    ensures typed { IfOk result (IsTyped world.new) }
    ensures grown { HasElaborated world.old world.new }
    ensures ready { IsReady world.new }
{
    let at = raw.at();
    match raw.kind() {
        RawTermKind::Constant(tok) => literal(world, tok),
        RawTermKind::Qualified(head) => constant(world, vars, at, &head),
        RawTermKind::Application { head, args } => elaborate_applied(world, vars, at, &head, &args),
        RawTermKind::Let { bindings, body } => elaborate_let(world, vars, &bindings, &body),
        RawTermKind::Forall { variables, body } => elaborate_quantifier(
            world, vars, true, &variables, &body,
        ),
        RawTermKind::Exists { variables, body } => elaborate_quantifier(
            world, vars, false, &variables, &body,
        ),
        RawTermKind::Match { term, cases } => elaborate_match(world, vars, at, &term, &cases),
        RawTermKind::Annotated { term, notes } => elaborate_annotated(world, vars, &term, &notes),
    }
}

/// The typed term of a term (SMT-LIB 2.6, section 3.6), where these variables are bound round it, the innermost last. The errors
/// are the first rule that it does not meet, with its byte, and that memory runs out. The stores of sorts and terms only grow,
/// also before an error, and so do the names that the command has declared, with the number of the next one: each `:named` in the
/// term gives one. All else stays as it was; the names are not declared in the scopes.
pub fn type_term(
    world: &mut World,
    vars: &[(NameId, SortRef)],
    raw: RawTerm,
) -> Result<TermRef, TyError>
    requires ready { IsReady world.old }
    requires vars { AreBound world.old vars.now }
    ensures answer { Meets (term_answer result) (judge_term (signature_of world.old) (map plain_var vars.now) raw.entry) world.old.seen.items world.new.seen.items }
    ensures interned { IfOk result (terms.IsInterned world.new.terms) }
    ensures grown { HasElaborated world.old world.new }
    ensures ready { IsReady world.new }
{
    match elaborate(world, vars, &raw) {
        Ok(typed) => Ok(typed.term),
        Err(error) => Err(error),
    }
}
