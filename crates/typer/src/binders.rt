//! The terms that bind variables.
ghost use Rattle.std.specs.Prelude.{◌≡◌, ◌++◌, ◌↔◌, IfErr, IfOk, IsTrue, OnOk, map};
ghost use Rattle.sort_store.specs.CoreRanks.{bool};
ghost use Rattle.sort_store.specs.Interned.{IsInterned};
ghost use Rattle.sort_store.specs.Tree as sort_tree;
ghost use Rattle.term_store.specs.Term.{plain_var, tree};
ghost use Rattle.typer.specs.Answers.{Answers, variable_answer, variables_answer};
ghost use Rattle.typer.specs.FunctionSymbols.{signature_of};
ghost use Rattle.typer.specs.Ready.{IsReady};
ghost use Rattle.typer.specs.TermRules.{judge_sorted, judge_variables, let_term, quantified};
ghost use Rattle.typer.specs.Typed.{AreBound, AreTypedBindings, HasGrown, IsTyped, binding_tree, bound_variable};

use crate::made::copy_of;
use crate::sorts::type_sort;
use crate::typed::{TypedBinding, TypedTerm, new_term};
use crate::world::World;
use dt_rules::TyError;
use lex_core::NameId;
use sort_store::{Head, SortRef};
use std::alloc::Global;
use term_grammar::{RawSort, RawVariables};
use term_store::{TermNode, TermRef};

/// Whether a sort is Bool.
pub fn is_bool(sort: &SortRef) -> bool
    ensures { IsTrue result ↔ (sort_tree.tree sort.now ≡ bool) }
{
    match sort.head() {
        Head::Bool => sort.arg_count() == 0,
        _ => false,
    }
}

// Puts the variables last.
fn push_variables(
    list: &mut Vec<(NameId, SortRef)>,
    vars: &[(NameId, SortRef)],
) -> Result<(), TyError>
    ensures ok { OnOk result (list.new.items ≡ list.old.items ++ vars.now) }
    ensures err { IfErr result (λ e. e ≡ TyError.NoMemory) }
{
    for var in vars {
        let sort = copy_of(&var.1)?;
        match list.push((var.0, sort)) {
            Ok(()) => {}
            Err(_) => return Err(TyError::NoMemory),
        }
    }
    Ok(())
}

// Puts the variables of a let last.
fn push_bound(list: &mut Vec<(NameId, SortRef)>, bindings: &[TypedBinding]) -> Result<(), TyError>
    ensures ok { OnOk result (list.new.items ≡ list.old.items ++ map bound_variable bindings.now) }
    ensures err { IfErr result (λ e. e ≡ TyError.NoMemory) }
{
    for binding in bindings {
        let sort = copy_of(&binding.value.sort)?;
        match list.push((binding.name, sort)) {
            Ok(()) => {}
            Err(_) => return Err(TyError::NoMemory),
        }
    }
    Ok(())
}

/// The variables with more of them inside.
pub(crate) fn with_variables(
    alloc: Global,
    vars: &[(NameId, SortRef)],
    more: &[(NameId, SortRef)],
) -> Result<Vec<(NameId, SortRef)>, TyError>
    ensures ok { IfOk result (λ v. v.items ≡ vars.now ++ more.now) }
    ensures err { IfErr result (λ e. e ≡ TyError.NoMemory) }
{
    let mut inner = Vec::new(alloc);
    push_variables(&mut inner, vars)?;
    push_variables(&mut inner, more)?;
    Ok(inner)
}

/// The variables with those of a let inside.
pub(crate) fn with_bindings(
    alloc: Global,
    vars: &[(NameId, SortRef)],
    bindings: &[TypedBinding],
) -> Result<Vec<(NameId, SortRef)>, TyError>
    ensures ok { IfOk result (λ v. v.items ≡ vars.now ++ map bound_variable bindings.now) }
    ensures err { IfErr result (λ e. e ≡ TyError.NoMemory) }
{
    let mut inner = Vec::new(alloc);
    push_variables(&mut inner, vars)?;
    push_bound(&mut inner, bindings)?;
    Ok(inner)
}

// The variables of a let.
fn names_of(alloc: Global, bindings: &[TypedBinding]) -> Result<Vec<NameId>, TyError>
    ensures ok { IfOk result (λ v. v.items ≡ map (λ b. b.name) bindings.now) }
    ensures err { IfErr result (λ e. e ≡ TyError.NoMemory) }
{
    let mut names = Vec::new(alloc);
    for binding in bindings {
        match names.push(binding.name) {
            Ok(()) => {}
            Err(_) => return Err(TyError::NoMemory),
        }
    }
    Ok(names)
}

// The terms of a let's variables.
fn values_of(alloc: Global, bindings: &[TypedBinding]) -> Result<Vec<TermRef>, TyError>
    ensures ok { IfOk result (λ v. v.items ≡ map (λ b. b.value.term) bindings.now) }
    ensures err { IfErr result (λ e. e ≡ TyError.NoMemory) }
{
    let mut values = Vec::new(alloc);
    for binding in bindings {
        let value = match binding.value.term.clone() {
            Ok(value) => value,
            Err(_) => return Err(TyError::NoMemory),
        };
        match values.push(value) {
            Ok(()) => {}
            Err(_) => return Err(TyError::NoMemory),
        }
    }
    Ok(values)
}

/// A let with these bindings and this body.
pub(crate) fn new_let(
    world: &mut World,
    bindings: &[TypedBinding],
    body: TypedTerm,
) -> Result<TypedTerm, TyError>
    requires ready { IsReady world.old }
    requires bindings { AreTypedBindings world.old bindings.now }
    requires body { IsTyped world.old body }
    ensures term { IfOk result (λ t. tree t.term ≡ let_term (map binding_tree bindings.now) (tree body.term)) }
    ensures typed { IfOk result (IsTyped world.new) }
    ensures grown { HasGrown world.old world.new }
    ensures ready { IsReady world.new }
    ensures err { IfErr result (λ e. e ≡ TyError.NoMemory) }
{
    let vars = names_of(world.alloc, bindings)?;
    let values = values_of(world.alloc, bindings)?;
    let TypedTerm { term, sort } = body;
    let node = TermNode::Let {
        vars,
        values,
        body: term,
    };
    new_term(world, node, sort)
}

// A variable of a quantifier with its sort.
fn type_variable(
    world: &mut World,
    name: NameId,
    raw: RawSort,
) -> Result<(NameId, SortRef), TyError>
    requires ready { IsReady world.old }
    ensures answer { Answers (variable_answer result) (judge_sorted (signature_of world.old) name raw.entry) }
    ensures interned { IfOk result (λ v. IsInterned world.new.sorts v.1) }
    ensures grown { HasGrown world.old world.new }
    ensures ready { IsReady world.new }
{
    match type_sort(world, &[], raw) {
        Ok(sort) => Ok((name, sort)),
        Err(error) => Err(error),
    }
}

/// The variables of a quantifier with their sorts (SMT-LIB 2.6, section 3.6).
pub(crate) fn type_variables(
    world: &mut World,
    raws: &RawVariables,
) -> Result<Vec<(NameId, SortRef)>, TyError>
    requires ready { IsReady world.old }
    ensures answer { Answers (variables_answer result) (judge_variables (signature_of world.old) raws.now) }
    ensures bound { IfOk result (λ v. AreBound world.new v.items) }
    ensures grown { HasGrown world.old world.new }
    ensures ready { IsReady world.new }
{
    let mut vars = Vec::new(world.alloc);
    let mut next = raws.split();
    while let Some((first, rest)) = next {
        let var = type_variable(world, first.name.name, first.sort)?;
        match vars.push(var) {
            Ok(()) => {}
            Err(_) => return Err(TyError::NoMemory),
        }
        next = rest.split();
    }
    Ok(vars)
}

/// A quantifier over these variables, whose body is of sort Bool.
pub(crate) fn new_quantifier(
    world: &mut World,
    all: bool,
    vars: Vec<(NameId, SortRef)>,
    body: TypedTerm,
) -> Result<TypedTerm, TyError>
    requires ready { IsReady world.old }
    requires body { IsTyped world.old body }
    requires bool { sort_tree.tree body.sort ≡ bool }
    ensures term { IfOk result (λ t. tree t.term ≡ quantified all (map plain_var vars.items) (tree body.term)) }
    ensures typed { IfOk result (IsTyped world.new) }
    ensures grown { HasGrown world.old world.new }
    ensures ready { IsReady world.new }
    ensures err { IfErr result (λ e. e ≡ TyError.NoMemory) }
{
    let TypedTerm { term, sort } = body;
    let node = TermNode::Quant {
        all,
        vars,
        body: term,
    };
    new_term(world, node, sort)
}
