//! Commands of all kinds, and how deep their texts nest.
use super::kinds::{Kit, made, make_kit, name_list};
use super::values::tree_of;
use crate::{
    Constructor, Datatype, Def, Field, ListOf, TermRef, TermStore, TypedCommand, depth_of_command,
};
use lex_core::{NameId, Names};
use sexp_core::Tree;
use sort_store::{DeclNo, Head, SortRef, SortStore, Sorts};
use std::alloc::Global;
use std::process::Abort;
use std::slice::from_ref;
use std::test::Fail;

// What the commands are made of: the kit's Int and `(_ BitVec 8)`, `(a (_ BitVec 8))`, and the terms `a`
// and `(forall ((a Int)) a)`.
#[derive(Drop)]
struct Parts {
    kit: Kit,
    nested: SortRef,
    constant: TermRef,
    formula: TermRef,
}

// Commands without a list in them.
fn flat_row(name: NameId, row: u8) -> TypedCommand {
    match row {
        b'a' => TypedCommand::CheckSat,
        b'b' => TypedCommand::DeclareSort {
            no: DeclNo(0),
            name,
            arity: 2,
        },
        b'c' => TypedCommand::Echo { text: name },
        b'd' => TypedCommand::Exit,
        b'e' => TypedCommand::GetAssertions,
        b'f' => TypedCommand::GetAssignment,
        b'g' => TypedCommand::GetInfo { key: name },
        b'h' => TypedCommand::GetModel,
        b'i' => TypedCommand::GetOption { key: name },
        b'j' => TypedCommand::GetProof,
        b'k' => TypedCommand::GetUnsatAssumptions,
        b'l' => TypedCommand::GetUnsatCore,
        b'm' => TypedCommand::Pop { count: 1 },
        b'n' => TypedCommand::Push { count: 1 },
        b'o' => TypedCommand::Reset,
        b'p' => TypedCommand::ResetAssertions,
        _ => TypedCommand::SetLogic { name },
    }
}

fn one<T: Drop>(alloc: Global, item: T) -> Result<ListOf<T>, Fail> {
    let mut list = ListOf::new(alloc);
    list.push(item)?;
    Ok(list)
}

fn datatype(kit: &Kit, params: &[NameId], fields: ListOf<Field>) -> Result<Datatype, Fail> {
    let constructor = Constructor {
        no: DeclNo(1),
        name: kit.a,
        fields,
    };
    Ok(Datatype {
        no: DeclNo(0),
        name: kit.a,
        params: name_list(kit.alloc, params)?,
        constructors: one(kit.alloc, constructor)?,
    })
}

// `((a))`
fn single_value(kit: &Kit) -> Result<Datatype, Fail> {
    datatype(kit, &[], ListOf::new(kit.alloc))
}

// `(par (b) ((a (b (_ BitVec 8)))))`
fn parametric(kit: &Kit) -> Result<Datatype, Fail> {
    let field = Field {
        no: DeclNo(2),
        name: kit.b,
        sort: kit.bits.clone()?,
    };
    datatype(kit, &[kit.b], one(kit.alloc, field)?)
}

fn datatype_row(kit: &Kit, row: u8) -> Result<TypedCommand, Fail> {
    match row {
        b'A' => Ok(TypedCommand::DeclareDatatype {
            datatype: single_value(kit)?,
        }),
        b'B' => Ok(TypedCommand::DeclareDatatype {
            datatype: parametric(kit)?,
        }),
        b'C' => Ok(TypedCommand::DeclareDatatypes {
            group: one(kit.alloc, single_value(kit)?)?,
        }),
        _ => {
            let mut group = one(kit.alloc, parametric(kit)?)?;
            group.push(single_value(kit)?)?;
            Ok(TypedCommand::DeclareDatatypes { group })
        }
    }
}

fn declared(kit: &Kit, args: &[SortRef], sort: &SortRef) -> Result<TypedCommand, Fail> {
    let mut list = Sorts::new(kit.alloc);
    for arg in args {
        list.push(arg.clone()?)?;
    }
    Ok(TypedCommand::DeclareFun {
        no: DeclNo(0),
        name: kit.a,
        args: list,
        result: sort.clone()?,
    })
}

fn sort_row(parts: &Parts, row: u8) -> Result<TypedCommand, Fail> {
    let kit = &parts.kit;
    match row {
        b'E' => Ok(TypedCommand::DeclareConst {
            no: DeclNo(0),
            name: kit.a,
            sort: kit.bits.clone()?,
        }),
        b'F' => declared(kit, &[], &kit.int),
        b'G' => declared(kit, from_ref(&kit.bits), &kit.int),
        b'H' => declared(kit, &[], &parts.nested),
        b'I' => Ok(TypedCommand::DefineSort {
            name: kit.a,
            params: ListOf::new(kit.alloc),
            sort: kit.int.clone()?,
        }),
        _ => Ok(TypedCommand::DefineSort {
            name: kit.a,
            params: name_list(kit.alloc, &[kit.b])?,
            sort: parts.nested.clone()?,
        }),
    }
}

fn def(
    kit: &Kit,
    params: ListOf<(NameId, SortRef)>,
    sort: &SortRef,
    body: &TermRef,
) -> Result<Def, Fail> {
    Ok(Def {
        no: DeclNo(0),
        name: kit.a,
        params,
        result: sort.clone()?,
        body: body.clone()?,
        recursive: false,
    })
}

// `a ((b (_ BitVec 8))) Int a`
fn unary(parts: &Parts) -> Result<Def, Fail> {
    let kit = &parts.kit;
    let params = one(kit.alloc, (kit.b, kit.bits.clone()?))?;
    def(kit, params, &kit.int, &parts.constant)
}

// `a () Int (forall ((a Int)) a)`
fn nullary(parts: &Parts) -> Result<Def, Fail> {
    let kit = &parts.kit;
    def(kit, ListOf::new(kit.alloc), &kit.int, &parts.formula)
}

// `a () (a (_ BitVec 8)) a`
fn nested(parts: &Parts) -> Result<Def, Fail> {
    let kit = &parts.kit;
    def(kit, ListOf::new(kit.alloc), &parts.nested, &parts.constant)
}

fn definition_row(parts: &Parts, row: u8) -> Result<TypedCommand, Fail> {
    let alloc = parts.kit.alloc;
    match row {
        b'K' => Ok(TypedCommand::DefineFun { def: unary(parts)? }),
        b'L' => Ok(TypedCommand::DefineFun {
            def: nested(parts)?,
        }),
        b'M' => Ok(TypedCommand::DefineFunRec {
            def: nullary(parts)?,
        }),
        b'N' => Ok(TypedCommand::DefineFunsRec {
            defs: one(alloc, unary(parts)?)?,
        }),
        _ => Ok(TypedCommand::DefineFunsRec {
            defs: one(alloc, nullary(parts)?)?,
        }),
    }
}

fn term_row(parts: &Parts, row: u8) -> Result<TypedCommand, Fail> {
    let mut terms = ListOf::new(parts.kit.alloc);
    if row == b'P' {
        return Ok(TypedCommand::CheckSatAssuming { terms });
    }
    let term = parts.formula.clone()?;
    if row == b'Q' {
        return Ok(TypedCommand::Assert { term });
    }
    terms.push(term)?;
    terms.push(parts.constant.clone()?)?;
    Ok(TypedCommand::GetValue { terms })
}

fn value(rt: &impl Abort, alloc: Global, text: &[u8]) -> Result<Option<Tree>, Fail> {
    let mut names = Names::new(alloc)?;
    Ok(tree_of(rt, alloc, &mut names, text))
}

fn value_row(rt: &impl Abort, kit: &Kit, row: u8) -> Result<TypedCommand, Fail> {
    let key = kit.a;
    match row {
        b'X' => Ok(TypedCommand::SetInfo { key, value: None }),
        b'Y' => Ok(TypedCommand::SetInfo {
            key,
            value: value(rt, kit.alloc, b"(b (1))")?,
        }),
        _ => Ok(TypedCommand::SetOption {
            key,
            value: value(rt, kit.alloc, b"(b)")?,
        }),
    }
}

fn command(rt: &impl Abort, parts: &Parts, row: u8) -> Result<TypedCommand, Fail> {
    match row {
        b'A'..=b'D' => datatype_row(&parts.kit, row),
        b'E'..=b'J' => sort_row(parts, row),
        b'K'..=b'O' => definition_row(parts, row),
        b'P'..=b'R' => term_row(parts, row),
        b'X'..=b'Z' => value_row(rt, &parts.kit, row),
        _ => Ok(flat_row(parts.kit.a, row)),
    }
}

fn nested_sort(sorts: &mut SortStore, name: NameId) -> Result<SortRef, Fail> {
    let bits = sorts.make(Head::BitVec(8), &[])?;
    let head = Head::Free {
        no: DeclNo(0),
        name,
    };
    Ok(sorts.make(head, from_ref(&bits))?)
}

// The rows with their texts, each with the lists counted round the deepest place.
static ROWS: [(u8, &str, u32); 38] = [
    (b'a', "(check-sat)", 1),
    (b'b', "(declare-sort a 2)", 1),
    (b'c', "(echo \"a\")", 1),
    (b'd', "(exit)", 1),
    (b'e', "(get-assertions)", 1),
    (b'f', "(get-assignment)", 1),
    (b'g', "(get-info :a)", 1),
    (b'h', "(get-model)", 1),
    (b'i', "(get-option :a)", 1),
    (b'j', "(get-proof)", 1),
    (b'k', "(get-unsat-assumptions)", 1),
    (b'l', "(get-unsat-core)", 1),
    (b'm', "(pop 1)", 1),
    (b'n', "(push 1)", 1),
    (b'o', "(reset)", 1),
    (b'p', "(reset-assertions)", 1),
    (b'q', "(set-logic a)", 1),
    (b'A', "(declare-datatype a ((a)))", 3),
    (
        b'B',
        "(declare-datatype a (par (b) ((a (b (_ BitVec 8))))))",
        6,
    ),
    (b'C', "(declare-datatypes ((a 0)) (((a))))", 4),
    (
        b'D',
        "(declare-datatypes ((a 1) (a 0)) ((par (b) ((a (b (_ BitVec 8))))) ((a))))",
        7,
    ),
    (b'E', "(declare-const a (_ BitVec 8))", 2),
    (b'F', "(declare-fun a () Int)", 2),
    (b'G', "(declare-fun a ((_ BitVec 8)) Int)", 3),
    (b'H', "(declare-fun a () (a (_ BitVec 8)))", 3),
    (b'I', "(define-sort a () Int)", 2),
    (b'J', "(define-sort a (b) (a (_ BitVec 8)))", 3),
    (b'K', "(define-fun a ((b (_ BitVec 8))) Int a)", 4),
    (b'L', "(define-fun a () (a (_ BitVec 8)) a)", 3),
    (b'M', "(define-fun-rec a () Int (forall ((a Int)) a))", 4),
    (
        b'N',
        "(define-funs-rec ((a ((b (_ BitVec 8))) Int)) (a))",
        6,
    ),
    (
        b'O',
        "(define-funs-rec ((a () Int)) ((forall ((a Int)) a)))",
        5,
    ),
    (b'P', "(check-sat-assuming ())", 2),
    (b'Q', "(assert (forall ((a Int)) a))", 4),
    (b'R', "(get-value ((forall ((a Int)) a) a))", 5),
    (b'X', "(set-info :a)", 1),
    (b'Y', "(set-info :a (b (1)))", 3),
    (b'Z', "(set-option :a (b))", 2),
];

#[test]
fn depths_of_commands(rt: HostRuntime) -> Result<(), Fail> {
    let alloc = rt.alloc();
    let mut sorts = SortStore::new(alloc);
    let mut store = TermStore::new(alloc);
    let kit = make_kit(&rt, alloc, &mut sorts)?;
    let nested = nested_sort(&mut sorts, kit.a)?;
    let constant = made(&kit, &mut store, b'A')?;
    let formula = made(&kit, &mut store, b'a')?;
    let parts = Parts {
        kit,
        nested,
        constant,
        formula,
    };
    for (row, text, depth) in &ROWS {
        let command = command(&rt, &parts, *row)?;
        assert_eq!(rt; depth_of_command(&command), *depth, "{text}");
    }
    Ok(())
}
