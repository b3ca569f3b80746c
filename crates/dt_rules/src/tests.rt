//! Patterns and matches on a datatype of lists, worked by hand.
ghost use Rattle.std.specs.Prelude.{◌≡◌, ◌+◌, ◌<◌, ◌≤◌, ◌^◌, [], IfOk, length};
ghost use Rattle.std.specs.List.{Contains};
ghost use Rattle.term_store.specs.declared.command.Constructor.{Constructor};

use crate::{TyError, check_group, check_pattern, covers};
use lex_core::{NameId, Names, Place, Tok, tokens_of_text};
use sexp_core::{Builder, Tree, Trees};
use sig_table::Code;
use sort_store::{DeclNo, Head, SortRef, SortStore};
use std::alloc::Global;
use std::slice::from_ref;
use std::test::Fail;
use term_grammar::{RawCases, RawTermKind, read_term};
use term_store::{Constructor, Datatype, Defs, Field, ListOf, Pattern};

fn give(builder: &mut Builder, tok: Tok) -> Option<Tree>
    requires { length builder.old.0 < 2 ^ 31 }
    ensures { length builder.new.0 ≤ length builder.old.0 + 1 }
{
    builder.take(tok).unwrap_or(None)
}

// The tree that the last token completes.
fn last_tree(builder: &mut Builder, toks: &[Tok]) -> Option<Tree>
    requires { length builder.old.0 + length toks.now < 2 ^ 31 }
{
    let mut last = None;
    for tok in toks {
        last = give(builder, *tok);
    }
    last
}

fn tree_of(alloc: Global, names: &mut Names, text: &[u8]) -> Option<Tree>
    requires short { length text.now < 2 ^ 30 }
    requires few { length names.old + length text.now < 2 ^ 31 }
{
    let Ok(toks) = tokens_of_text(alloc, names, text) else {
        return None;
    };
    if toks.len() > 1000 {
        return None;
    }
    last_tree(&mut Builder::new(alloc), &toks)
}

fn constructor(
    alloc: Global,
    no: u32,
    name: NameId,
    sort: &SortRef,
    fields: u32,
) -> Result<Constructor, Fail> {
    let mut list = ListOf::new(alloc);
    for i in 0..fields {
        list.push(Field {
            no: DeclNo(i),
            name,
            sort: sort.clone()?,
        })?;
    }
    Ok(Constructor {
        no: DeclNo(no),
        name,
        fields: list,
    })
}

// `nil` without fields and `cons` with two, under the numbers 1 and 2.
fn list_datatype(alloc: Global, names: &mut Names) -> Result<Option<Datatype>, Fail>
    requires { length names.old < 2000 }
{
    let Ok(toks) = tokens_of_text(alloc, names, b"List nil cons ") else {
        return Ok(None);
    };
    let &[list, nil, cons] = toks.as_slice() else {
        return Ok(None);
    };
    let mut sorts = SortStore::new(alloc);
    let sort = sorts.make(Head::Int, &[])?;
    let mut constructors = ListOf::new(alloc);
    constructors.push(constructor(alloc, 1, nil.name, &sort, 0)?)?;
    constructors.push(constructor(alloc, 2, cons.name, &sort, 2)?)?;
    Ok(Some(Datatype {
        no: DeclNo(0),
        name: list.name,
        params: ListOf::new(alloc),
        constructors,
    }))
}

// What became of a pattern: a variable; the number of a constructor, with its variables counted; or
// the fault.
#[derive(Clone, Copy, Debug, PartialEq, Eq)]
enum Answer {
    Variable,
    Constructor(u32, usize),
    Fault(Code, u32),
    NoMemory,
}

fn answer_of(judged: &Result<Pattern, TyError>) -> Answer {
    match judged {
        Ok(Pattern::Var(_)) => Answer::Variable,
        Ok(Pattern::Con { no, vars, .. }) => Answer::Constructor(no.0, vars.as_slice().len()),
        Err(TyError::Fault(Place { code, at })) => Answer::Fault(*code, *at),
        Err(TyError::NoMemory) => Answer::NoMemory,
    }
}

// A match with one case, and what becomes of its pattern, which begins at byte 11.
static PATTERNS: [(&[u8], Answer); 11] = [
    (b"(match l ((nil p)))", Answer::Constructor(1, 0)),
    (b"(match l ((other p)))", Answer::Variable),
    (
        b"(match l ((cons p)))",
        Answer::Fault(Code::WrongPatternArity, 11),
    ),
    (b"(match l (((cons h t) p)))", Answer::Constructor(2, 2)),
    (
        b"(match l (((cons nil cons) p)))",
        Answer::Constructor(2, 2),
    ),
    (
        b"(match l (((cons h) p)))",
        Answer::Fault(Code::WrongPatternArity, 11),
    ),
    (
        b"(match l (((nil h) p)))",
        Answer::Fault(Code::WrongPatternArity, 11),
    ),
    (
        b"(match l (((cons h h) p)))",
        Answer::Fault(Code::RepeatedVariable, 19),
    ),
    (
        b"(match l (((cons h h h) p)))",
        Answer::Fault(Code::WrongPatternArity, 11),
    ),
    (
        b"(match l (((other h) p)))",
        Answer::Fault(Code::UnknownConstructor, 11),
    ),
    (
        b"(match l (((other h h) p)))",
        Answer::Fault(Code::UnknownConstructor, 11),
    ),
];

// What becomes of the pattern of the first case.
fn first_answer(
    alloc: Global,
    names: &Names,
    datatype: &Datatype,
    cases: &RawCases,
) -> Option<Answer> {
    let case = cases.get(0)?;
    Some(answer_of(&check_pattern(alloc, names, datatype, case.pattern)))
}

#[test]
fn pattern_rows(rt: HostRuntime) -> Result<(), Fail> {
    let alloc = rt.alloc();
    let mut names = Names::new(alloc)?;
    assert!(rt; names.count() < 1000);
    let datatype = list_datatype(alloc, &mut names)?.expect(&rt, "a datatype");
    for (text, want) in &PATTERNS {
        assert!(rt; names.count() < 1000 && text.len() < 1000);
        let tree = tree_of(alloc, &mut names, text).expect(&rt, "one tree");
        let (part, _) = Trees::of(&tree).split().expect(&rt, "the tree");
        let term = read_term(part).expect(&rt, "a term");
        let RawTermKind::Match { cases, .. } = term.kind() else {
            assert!(rt; false, "a match");
            return Ok(());
        };
        assert_eq!(rt;
            first_answer(alloc, &names, &datatype, &cases),
            Some(*want),
            "{text:?}"
        );
    }
    Ok(())
}

// A match, and whether its patterns cover the lists.
static MATCHES: [(&[u8], bool); 6] = [
    (b"(match l (((cons h t) true)))", false),
    (b"(match l (((cons h t) true) (other false)))", true),
    (b"(match l ((nil true) ((cons h t) false)))", true),
    (b"(match l ((nil true) (nil false)))", false),
    (b"(match l ((other true)))", true),
    (
        b"(match l (((cons h t) true) (nil true) ((cons h t) false)))",
        true,
    ),
];

// The patterns of the cases.
fn patterns_of(
    alloc: Global,
    names: &Names,
    datatype: &Datatype,
    cases: &RawCases,
) -> Result<Vec<Pattern>, Fail> {
    let mut patterns = Vec::new(alloc);
    for i in 0..cases.len() {
        if let Some(case) = cases.get(i) {
            if let Ok(pattern) = check_pattern(alloc, names, datatype, case.pattern) {
                patterns.push(pattern)?;
            }
        }
    }
    Ok(patterns)
}

#[test]
fn match_rows(rt: HostRuntime) -> Result<(), Fail> {
    let alloc = rt.alloc();
    let mut names = Names::new(alloc)?;
    assert!(rt; names.count() < 1000);
    let datatype = list_datatype(alloc, &mut names)?.expect(&rt, "a datatype");
    assert!(rt; !covers(&datatype, &[]));
    for (text, want) in &MATCHES {
        assert!(rt; names.count() < 1000 && text.len() < 1000);
        let tree = tree_of(alloc, &mut names, text).expect(&rt, "one tree");
        let (part, _) = Trees::of(&tree).split().expect(&rt, "the tree");
        let term = read_term(part).expect(&rt, "a term");
        let RawTermKind::Match { cases, .. } = term.kind() else {
            assert!(rt; false, "a match");
            return Ok(());
        };
        let patterns = patterns_of(alloc, &names, &datatype, &cases)?;
        assert_eq!(rt; covers(&datatype, &patterns), *want, "{text:?}");
    }
    Ok(())
}

// A datatype with one constructor, which has no field.
#[tactic(auto, using(crate::proofs::ReadyGroups::one_constant))]
fn unit_datatype(alloc: Global, name: NameId) -> Result<Datatype, Fail>
    ensures { IfOk result (λ t. (c : Constructor) → Contains t.constructors c → c.fields ≡ []) }
{
    let mut constructors = ListOf::new(alloc);
    let unit = Constructor {
        no: DeclNo(1),
        name,
        fields: ListOf::new(alloc),
    };
    constructors.push(unit)?;
    Ok(Datatype {
        no: DeclNo(0),
        name,
        params: ListOf::new(alloc),
        constructors,
    })
}

#[test]
fn group_of_one(rt: HostRuntime) -> Result<(), Fail> {
    let alloc = rt.alloc();
    let mut names = Names::new(alloc)?;
    assert!(rt; names.count() < 1000);
    let name = names.intern(b"Unit")?;
    let mut sorts = SortStore::new(alloc);
    let defs = Defs::new(alloc);
    let datatype = unit_datatype(alloc, name)?;
    assert!(rt; check_group(alloc, &mut sorts, &defs, from_ref(&datatype)).is_ok());
    Ok(())
}
