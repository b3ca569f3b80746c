//! Commands and near misses, read by hand from the grammar of the standard.
ghost use Rattle.std.specs.Prelude.{◌+◌, ◌<◌, ◌≤◌, ◌^◌, length};

use crate::{GrError, read_command};
use lex_core::{Names, Place, Tok, tokens_of_text};
use sexp_core::{Builder, Tree};
use sig_table::Code;
use std::alloc::Global;
use std::test::Fail;

// The text of a list, and why it is no command, with the byte; or `None` for a command.
static ROWS: [(&[u8], Option<(Code, u32)>); 99] = [
    (b"(assert true)", None),
    (b"(check-sat)", None),
    (b"(check-sat-assuming (p (not q)))", None),
    (b"(declare-const c (Array Int Int))", None),
    (
        b"(declare-datatype L ((nil) (cons (head Int) (tail L))))",
        None,
    ),
    (
        b"(declare-datatypes ((T 1)) ((par (X) ((mk (x X))))))",
        None,
    ),
    (b"(declare-fun f (Int (_ BitVec 8)) Bool)", None),
    (b"(declare-sort S 0)", None),
    (b"(define-fun g ((x Int)) Int (+ x 1))", None),
    (b"(define-fun-rec h ((x Int)) Int (h x))", None),
    (
        b"(define-funs-rec ((a () Int) (b ((x Int)) Int)) (1 2))",
        None,
    ),
    (b"(define-sort P (X) (Array X X))", None),
    (b"(echo \"a\")", None),
    (b"(exit)", None),
    (b"(get-assertions)", None),
    (b"(get-assignment)", None),
    (b"(get-info :name)", None),
    (b"(get-model)", None),
    (b"(get-option :print-success)", None),
    (b"(get-proof)", None),
    (b"(get-unsat-assumptions)", None),
    (b"(get-unsat-core)", None),
    (b"(get-value (x (+ x 1)))", None),
    (b"(pop 1)", None),
    (b"(push 0)", None),
    (b"(reset)", None),
    (b"(reset-assertions)", None),
    (b"(set-info :source |a b|)", None),
    (b"(set-logic QF_UF)", None),
    (b"(set-option :global-declarations |true|)", None),
    (b"(set-info :x)", None),
    (b"(assert (let ((x 1) (y #b1)) (f x y)))", None),
    (
        b"(assert (forall ((x Int)) (exists ((y (_ BitVec 8))) (= x y))))",
        None,
    ),
    (b"(assert (match l ((nil true) ((cons h t) false))))", None),
    (
        b"(assert (! p :named a :pattern ((f x) y) :other :value (a 1 :k let) :end))",
        None,
    ),
    (
        b"(assert ((as f S) ((_ extract 3 0) x) (as c (P Int))))",
        None,
    ),
    (b"  (foo)", Some((Code::UnknownCommand, 2))),
    (b"()", Some((Code::UnknownCommand, 0))),
    (b"((check-sat))", Some((Code::UnknownCommand, 0))),
    (b"(let)", Some((Code::UnknownCommand, 0))),
    (b"(assert p q)", Some((Code::WrongCommandForm, 0))),
    (b"(check-sat 1)", Some((Code::WrongCommandForm, 0))),
    (
        b"(check-sat-assuming ((not (not p))))",
        Some((Code::WrongCommandForm, 0)),
    ),
    (
        b"(declare-const let Int)",
        Some((Code::WrongCommandForm, 0)),
    ),
    (
        b"(declare-datatype L ())",
        Some((Code::WrongCommandForm, 0)),
    ),
    (
        b"(declare-datatypes ((T a)) (((c))))",
        Some((Code::WrongCommandForm, 0)),
    ),
    (
        b"(declare-fun f Int Int)",
        Some((Code::WrongCommandForm, 0)),
    ),
    (b"(declare-sort S x)", Some((Code::WrongCommandForm, 0))),
    (
        b"(define-fun g (x Int) Int 1)",
        Some((Code::WrongCommandForm, 0)),
    ),
    (
        b"(define-fun-rec h () Int)",
        Some((Code::WrongCommandForm, 0)),
    ),
    (
        b"(define-funs-rec ((a () Int)) (1 2))",
        Some((Code::WrongCommandForm, 0)),
    ),
    (b"(define-sort P X Int)", Some((Code::WrongCommandForm, 0))),
    (b"(echo a)", Some((Code::WrongCommandForm, 0))),
    (b"(exit 0)", Some((Code::WrongCommandForm, 0))),
    (b"(get-assertions 1)", Some((Code::WrongCommandForm, 0))),
    (b"(get-assignment p)", Some((Code::WrongCommandForm, 0))),
    (b"(get-info name)", Some((Code::WrongCommandForm, 0))),
    (b"(get-model 1)", Some((Code::WrongCommandForm, 0))),
    (b"(get-option p)", Some((Code::WrongCommandForm, 0))),
    (b"(get-proof 1)", Some((Code::WrongCommandForm, 0))),
    (
        b"(get-unsat-assumptions 1)",
        Some((Code::WrongCommandForm, 0)),
    ),
    (b"(get-unsat-core 1)", Some((Code::WrongCommandForm, 0))),
    (b"(get-value ())", Some((Code::WrongCommandForm, 0))),
    (b"(pop -1)", Some((Code::WrongCommandForm, 0))),
    (b"(push 1 1)", Some((Code::WrongCommandForm, 0))),
    (b"(reset 1)", Some((Code::WrongCommandForm, 0))),
    (b"(reset-assertions 1)", Some((Code::WrongCommandForm, 0))),
    (b"(set-info :a b c)", Some((Code::WrongCommandForm, 0))),
    (b"(set-info :a :b)", Some((Code::WrongCommandForm, 0))),
    (b"(set-logic 1)", Some((Code::WrongCommandForm, 0))),
    (
        b"(set-option :global-declarations)",
        Some((Code::WrongCommandForm, 0)),
    ),
    (
        b"(set-option :global-declarations yes)",
        Some((Code::WrongCommandForm, 0)),
    ),
    (
        b"(assert (let () true) 1)",
        Some((Code::WrongCommandForm, 0)),
    ),
    (b"(assert (let () true))", Some((Code::WrongTermForm, 8))),
    (b"(assert (! t))", Some((Code::WrongTermForm, 8))),
    (b"(assert (_ f))", Some((Code::WrongTermForm, 8))),
    (b"(assert (as x))", Some((Code::WrongTermForm, 8))),
    (b"(assert (! t :named))", Some((Code::WrongTermForm, 8))),
    (b"(assert (! t :named 1))", Some((Code::WrongTermForm, 8))),
    (
        b"(assert (! t :pattern ()))",
        Some((Code::WrongTermForm, 8)),
    ),
    (b"(assert (f))", Some((Code::WrongTermForm, 8))),
    (b"(assert ())", Some((Code::WrongTermForm, 8))),
    (b"(assert :k)", Some((Code::WrongTermForm, 8))),
    (b"(assert let)", Some((Code::WrongTermForm, 8))),
    (b"(assert (1 2))", Some((Code::WrongTermForm, 8))),
    (
        b"(assert (match x ((1 y))))",
        Some((Code::WrongTermForm, 8)),
    ),
    (
        b"(assert (let ((x (f))) (g)))",
        Some((Code::WrongTermForm, 17)),
    ),
    (
        b"(assert (forall ((x (Int))) (f)))",
        Some((Code::WrongTermForm, 20)),
    ),
    (
        b"(assert (f (as x (S)) (g)))",
        Some((Code::WrongTermForm, 17)),
    ),
    (
        b"(assert ((as f (S)) (g)))",
        Some((Code::WrongTermForm, 15)),
    ),
    (
        b"(declare-fun f (Int (S)) (T))",
        Some((Code::WrongTermForm, 20)),
    ),
    (
        b"(define-fun f ((x (S))) (T) (g))",
        Some((Code::WrongTermForm, 18)),
    ),
    (
        b"(declare-datatypes ((T 0)) (((c (s (S))))))",
        Some((Code::WrongTermForm, 35)),
    ),
    (b"(get-value (x (f)))", Some((Code::WrongTermForm, 14))),
    (
        b"(assert (match x ((c (f)))))",
        Some((Code::WrongTermForm, 21)),
    ),
    (
        b"(assert (! (f) :pattern ((g))))",
        Some((Code::WrongTermForm, 11)),
    ),
    (
        b"(assert (! t :pattern ((g))))",
        Some((Code::WrongTermForm, 23)),
    ),
    (
        b"(define-funs-rec ((a () (S))) ((f)))",
        Some((Code::WrongTermForm, 24)),
    ),
    (b"(define-sort P (X) (X))", Some((Code::WrongTermForm, 19))),
];

fn give(builder: &mut Builder, tok: Tok) -> Option<Tree>
    requires { length builder.old.0 < 2 ^ 31 }
    ensures { length builder.new.0 ≤ length builder.old.0 + 1 }
{
    builder.take(tok).unwrap_or(None)
}

// The tree that the last token completes.
fn last_tree(builder: &mut Builder, toks: &[Tok]) -> Option<Tree>
    requires { length builder.old.0 + length toks.now < 2 ^ 31 }
{
    let mut last = None;
    for tok in toks {
        last = give(builder, *tok);
    }
    last
}

pub(crate) fn tree_of(alloc: Global, names: &mut Names, text: &[u8]) -> Option<Tree>
    requires short { length text.now < 2 ^ 30 }
    requires few { length names.old + length text.now < 2 ^ 31 }
{
    let Ok(toks) = tokens_of_text(alloc, names, text) else {
        return None;
    };
    if toks.len() > 1000 {
        return None;
    }
    last_tree(&mut Builder::new(alloc), &toks)
}

#[test]
fn command_rows(rt: HostRuntime) -> Result<(), Fail> {
    let alloc = rt.alloc();
    for (text, want) in &ROWS {
        let mut names = Names::new(alloc)?;
        assert!(rt; names.count() < 1000);
        assert!(rt; text.len() < 100);
        let tree = tree_of(alloc, &mut names, text).expect(&rt, "one tree");
        let got = match read_command(alloc, &names, &tree) {
            Ok(raw) => {
                assert_eq!(rt; raw.at(), 0);
                None
            }
            Err(GrError::Fault(Place { code, at })) => Some((code, at)),
            Err(GrError::NoMemory) => Some((Code::UnknownCommand, 1)),
        };
        assert_eq!(rt; got, *want, "{text:?}");
    }
    Ok(())
}
