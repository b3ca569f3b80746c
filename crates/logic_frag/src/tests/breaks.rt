//! The first rule that a command breaks, worked by hand.
ghost use Rattle.std.specs.Prelude.{IfOk};
ghost use Rattle.term_store.specs.Interned.{IsInterned, Grows};

use crate::{first_break, logic_of};
use lex_core::{NameId, Names, TokKind};
use sig_table::Code;
use sort_store::{DeclNo, Head, SortRef, SortStore};
use std::alloc::Global;
use std::process::Abort;
use std::test::Fail;
use term_store::{Applied, Def, Defs, Fun, ListOf, TermNode, TermRef, TermStore, TypedCommand};

// What the commands are made of.
#[derive(Drop)]
struct Kit {
    alloc: Global,
    names: Names,
    x: NameId,
    y: NameId,
    two: NameId,
    times: NameId,
    bool: SortRef,
    int: SortRef,
}

#[derive(Clone, Copy, Debug)]
enum Form {
    // `(assert (forall ((x Bool)) x))`
    Quantified,
    // `(get-value ((* x y)))`, where x and y are constants of sort Int.
    Product,
    // `(get-value ((* 2 x)))`
    Doubled,
    // `(get-value ((* (* 2 2) x)))`
    DoubledTwice,
    // `(get-value ((let ((y 2)) (* y x))))`
    DoubledInLet,
    // `(get-value ((let ((y (* x y))) x)))`
    ProductInLet,
    // `(declare-sort x 0)`
    FreeSort,
    // `(define-fun-rec y () Bool y)`
    Recursive,
    // `(define-fun-rec y () Bool (forall ((x Bool)) x))`
    RecursiveQuantified,
}

fn interned(rt: &impl Abort, names: &mut Names, text: &[u8]) -> Result<NameId, Fail> {
    assert!(rt; names.count() < 1000);
    Ok(names.intern(text)?)
}

fn make_kit(rt: &impl Abort, alloc: Global, sorts: &mut SortStore) -> Result<Kit, Fail> {
    let mut names = Names::new(alloc)?;
    let x = interned(rt, &mut names, b"x")?;
    let y = interned(rt, &mut names, b"y")?;
    let two = interned(rt, &mut names, b"2")?;
    let times = interned(rt, &mut names, b"*")?;
    Ok(Kit {
        alloc,
        names,
        x,
        y,
        two,
        times,
        bool: sorts.make(Head::Bool, &[])?,
        int: sorts.make(Head::Int, &[])?,
    })
}

fn head(alloc: Global, fun: Fun, name: NameId) -> Applied {
    Applied {
        fun,
        name,
        indices: ListOf::new(alloc),
        qualify: false,
    }
}

// A constant, whose declaration has the number of its name.
fn constant(kit: &Kit, store: &mut TermStore, name: NameId, sort: &SortRef) -> Result<TermRef, Fail>
    ensures interned { IfOk result (λ t. IsInterned store.new t) }
    ensures grows { Grows store.old store.new }
{
    let fun = Fun::Declared(DeclNo(name.number()));
    let node = TermNode::App {
        head: head(kit.alloc, fun, name),
        args: Vec::new(kit.alloc),
    };
    let sort = sort.clone()?;
    Ok(store.make(node, sort)?)
}

fn two(kit: &Kit, store: &mut TermStore) -> Result<TermRef, Fail>
    ensures interned { IfOk result (λ t. IsInterned store.new t) }
    ensures grows { Grows store.old store.new }
{
    let node = TermNode::Lit {
        kind: TokKind::Numeral,
        text: kit.two,
    };
    let sort = kit.int.clone()?;
    Ok(store.make(node, sort)?)
}

fn times(
    kit: &Kit,
    store: &mut TermStore,
    first: &TermRef,
    second: &TermRef,
) -> Result<TermRef, Fail>
    requires first { IsInterned store.old first.now }
    requires second { IsInterned store.old second.now }
    ensures interned { IfOk result (λ t. IsInterned store.new t) }
    ensures grows { Grows store.old store.new }
{
    let args = vec![in kit.alloc; first.clone()?, second.clone()?]?;
    let node = TermNode::App {
        head: head(kit.alloc, Fun::Theory, kit.times),
        args,
    };
    let sort = kit.int.clone()?;
    Ok(store.make(node, sort)?)
}

#[tactic(auto, using(term_store::proofs::InternedTerms::grown_words))]
fn product(kit: &Kit, store: &mut TermStore) -> Result<TermRef, Fail>
    ensures { IfOk result (λ t. IsInterned store.new t) }
{
    let x = constant(kit, store, kit.x, &kit.int)?;
    let y = constant(kit, store, kit.y, &kit.int)?;
    times(kit, store, &x, &y)
}

#[tactic(auto, using(term_store::proofs::InternedTerms::grown_words))]
fn doubled(kit: &Kit, store: &mut TermStore) -> Result<TermRef, Fail> {
    let two = two(kit, store)?;
    let x = constant(kit, store, kit.x, &kit.int)?;
    times(kit, store, &two, &x)
}

#[tactic(auto, using(term_store::proofs::InternedTerms::grown_words))]
fn doubled_twice(kit: &Kit, store: &mut TermStore) -> Result<TermRef, Fail> {
    let two = two(kit, store)?;
    let four = times(kit, store, &two, &two)?;
    let x = constant(kit, store, kit.x, &kit.int)?;
    times(kit, store, &four, &x)
}

// `let` with y as its variable.
fn bound(kit: &Kit, store: &mut TermStore, value: TermRef, body: TermRef) -> Result<TermRef, Fail>
    requires value { IsInterned store.old value }
    requires body { IsInterned store.old body }
{
    let node = TermNode::Let {
        vars: vec![in kit.alloc; kit.y]?,
        values: vec![in kit.alloc; value]?,
        body,
    };
    let sort = kit.int.clone()?;
    Ok(store.make(node, sort)?)
}

// `(* y x)`, where y is a variable.
#[tactic(auto, using(term_store::proofs::InternedTerms::grown_words))]
fn multiple(kit: &Kit, store: &mut TermStore) -> Result<TermRef, Fail>
    ensures { IfOk result (λ t. IsInterned store.new t) }
{
    let sort = kit.int.clone()?;
    let y = store.make(TermNode::Var(kit.y), sort)?;
    let x = constant(kit, store, kit.x, &kit.int)?;
    times(kit, store, &y, &x)
}

#[tactic(auto, using(term_store::proofs::InternedTerms::grown_words))]
fn doubled_in_let(kit: &Kit, store: &mut TermStore) -> Result<TermRef, Fail> {
    let body = multiple(kit, store)?;
    let two = two(kit, store)?;
    bound(kit, store, two, body)
}

#[tactic(auto, using(term_store::proofs::InternedTerms::grown_words))]
fn product_in_let(kit: &Kit, store: &mut TermStore) -> Result<TermRef, Fail> {
    let value = product(kit, store)?;
    let x = constant(kit, store, kit.x, &kit.int)?;
    bound(kit, store, value, x)
}

#[tactic(auto, using(term_store::proofs::InternedTerms::grown_words))]
fn quantified(kit: &Kit, store: &mut TermStore) -> Result<TermRef, Fail> {
    let sort = kit.bool.clone()?;
    let body = store.make(TermNode::Var(kit.x), sort)?;
    let vars = vec![in kit.alloc; (kit.x, kit.bool.clone()?)]?;
    let node = TermNode::Quant {
        all: true,
        vars,
        body,
    };
    let sort = kit.bool.clone()?;
    Ok(store.make(node, sort)?)
}

fn value_of(kit: &Kit, term: TermRef) -> Result<TypedCommand, Fail> {
    let mut terms = ListOf::new(kit.alloc);
    terms.push(term)?;
    Ok(TypedCommand::GetValue { terms })
}

fn recursive(kit: &Kit, body: TermRef) -> Result<TypedCommand, Fail> {
    let def = Def {
        no: DeclNo(kit.y.number()),
        name: kit.y,
        params: ListOf::new(kit.alloc),
        result: kit.bool.clone()?,
        body,
        recursive: true,
    };
    Ok(TypedCommand::DefineFunRec { def })
}

fn command(kit: &Kit, store: &mut TermStore, form: Form) -> Result<TypedCommand, Fail> {
    match form {
        Form::Quantified => {
            let term = quantified(kit, store)?;
            Ok(TypedCommand::Assert { term })
        }
        Form::Product => value_of(kit, product(kit, store)?),
        Form::Doubled => value_of(kit, doubled(kit, store)?),
        Form::DoubledTwice => value_of(kit, doubled_twice(kit, store)?),
        Form::DoubledInLet => value_of(kit, doubled_in_let(kit, store)?),
        Form::ProductInLet => value_of(kit, product_in_let(kit, store)?),
        Form::FreeSort => Ok(TypedCommand::DeclareSort {
            no: DeclNo(0),
            name: kit.x,
            arity: 0,
        }),
        Form::Recursive => recursive(kit, constant(kit, store, kit.y, &kit.bool)?),
        Form::RecursiveQuantified => recursive(kit, quantified(kit, store)?),
    }
}

type Row = (&'static [u8], Form, Option<Code>);

fn first_code(
    rt: &impl Abort,
    kit: &Kit,
    store: &mut TermStore,
    name: &[u8],
    form: Form,
) -> Result<Option<Code>, Fail> {
    let logic = logic_of(name).expect(rt, "a logic");
    let command = command(kit, store, form)?;
    let defs = Defs::new(kit.alloc);
    Ok(first_break(kit.alloc, &logic, &kit.names, &command, &defs)?)
}

#[test]
fn first_codes(rt: HostRuntime) -> Result<(), Fail> {
    let alloc = rt.alloc();
    let mut sorts = SortStore::new(alloc);
    let mut store = TermStore::new(alloc);
    let kit = make_kit(&rt, alloc, &mut sorts)?;
    let rows: [Row; 15] = [
        (
            b"QF_UF",
            Form::Quantified,
            Some(Code::QuantifierOutsideLogic),
        ),
        (b"ALL", Form::Quantified, None),
        (b"QF_LIA", Form::Product, Some(Code::NotLinear)),
        (b"QF_NIA", Form::Product, None),
        (b"ALL", Form::Product, None),
        (b"QF_LIA", Form::Doubled, None),
        (b"QF_IDL", Form::Doubled, Some(Code::NotDifference)),
        // `(* 2 2)` is no coefficient.
        (b"QF_LIA", Form::DoubledTwice, Some(Code::NotLinear)),
        // A variable of `let` stands for its value, which is itself a term of the command.
        (b"QF_LIA", Form::DoubledInLet, None),
        (b"QF_LIA", Form::ProductInLet, Some(Code::NotLinear)),
        (b"QF_LIA", Form::FreeSort, Some(Code::SortOutsideLogic)),
        (b"QF_UF", Form::FreeSort, None),
        (b"QF_UF", Form::Recursive, Some(Code::RecursionOutsideLogic)),
        (b"UF", Form::Recursive, None),
        // Of two rules the one with the lower code.
        (
            b"QF_UF",
            Form::RecursiveQuantified,
            Some(Code::QuantifierOutsideLogic),
        ),
    ];
    for (name, form, code) in rows {
        let found = first_code(&rt, &kit, &mut store, name, form)?;
        assert_eq!(rt; found, code, "{name:?} {form:?}");
    }
    Ok(())
}
