//! Values of attributes at several bytes.
ghost use Rattle.std.specs.Prelude.{◌+◌, ◌<◌, ◌≤◌, ◌^◌, length, IfOk};
ghost use Rattle.term_store.specs.Interned.{IsInterned, HasNoRepeats, Grows};

use crate::{Note, TermNode, TermRef, TermStore, same_term};
use lex_core::{NameId, Names, Tok, tokens_of_text};
use sexp_core::{Builder, Tree};
use sort_store::{Head, SortRef, SortStore};
use std::alloc::Global;
use std::process::Abort;
use std::test::Fail;

fn give(builder: &mut Builder, tok: Tok) -> Option<Tree>
    requires { length builder.old.0 < 2 ^ 31 }
    ensures { length builder.new.0 ≤ length builder.old.0 + 1 }
{
    builder.take(tok).unwrap_or(None)
}

// The tree that the last token completes.
fn last_tree(builder: &mut Builder, toks: &[Tok]) -> Option<Tree>
    requires { length builder.old.0 + length toks.now < 2 ^ 31 }
{
    let mut last = None;
    for tok in toks {
        last = give(builder, *tok);
    }
    last
}

pub(super) fn tree_of(
    rt: &impl Abort,
    alloc: Global,
    names: &mut Names,
    text: &[u8],
) -> Option<Tree> {
    assert!(rt; text.len() < 100);
    assert!(rt; names.count() < 1000);
    let Ok(toks) = tokens_of_text(alloc, names, text) else {
        return None;
    };
    assert!(rt; toks.len() < 1000);
    last_tree(&mut Builder::new(alloc), &toks)
}

// `(! x :a V)` with this value.
#[tactic(auto, using(crate::proofs::InternedTerms::grown_words))]
fn annotated(
    alloc: Global,
    store: &mut TermStore,
    name: NameId,
    sort: &SortRef,
    value: Option<Tree>,
) -> Result<TermRef, Fail>
    ensures interned { IfOk result (λ t. IsInterned store.new t) }
    ensures grows { IfOk result (λ _. Grows store.old store.new) }
    ensures distinct { IfOk result (λ _. HasNoRepeats store.new) }
{
    let body = store.make(TermNode::Var(name), sort.clone()?)?;
    let notes = vec![in alloc; Note::Other { key: name, value }]?;
    let term = store.make(TermNode::Ann { body, notes }, sort.clone()?)?;
    Ok(term)
}

// What the annotated terms are made of.
#[derive(Drop)]
struct Kit {
    alloc: Global,
    name: NameId,
    sort: SortRef,
}

#[tactic(auto, using(crate::proofs::InternedTerms::together))]
fn compared(
    kit: &Kit,
    store: &mut TermStore,
    a: Option<Tree>,
    b: Option<Tree>,
) -> Result<(bool, u32), Fail> {
    let a = annotated(kit.alloc, store, kit.name, &kit.sort, a)?;
    let b = annotated(kit.alloc, store, kit.name, &kit.sort, b)?;
    Ok((same_term(&a, &b), a.print_depth()))
}

// Two texts, each a list, whether they are one value, and how deep the text of the term with the first
// one nests. An empty text is no value.
static VALUES: [(&[u8], &[u8], bool, u32); 9] = [
    (b"", b"", true, 1),
    (b"", b"()", false, 1),
    (b"(b 1 (c))", b"  ( b 1\n(c ) )", true, 3),
    (b"(b (1 (c)))", b"(b (1 c))", false, 4),
    (b"(b 1 (c))", b"(b 1 c)", false, 3),
    (b"(|b|)", b"(b)", true, 2),
    (b"(\"b\")", b"(b)", false, 2),
    (b"((b) c)", b"((b c))", false, 3),
    (b"(#x0a)", b"(#x0A)", false, 2),
];

#[test]
fn values_at_other_bytes(rt: HostRuntime) -> Result<(), Fail> {
    let alloc = rt.alloc();
    let mut names = Names::new(alloc)?;
    assert!(rt; names.count() < 1000);
    let name = names.intern(b"a")?;
    let mut sorts = SortStore::new(alloc);
    let sort = sorts.make(Head::Bool, &[])?;
    let mut store = TermStore::new(alloc);
    let kit = Kit { alloc, name, sort };
    for (a, b, same, depth) in &VALUES {
        let first = tree_of(&rt, alloc, &mut names, a);
        let second = tree_of(&rt, alloc, &mut names, b);
        assert_eq!(rt; first.is_some(), !a.is_empty(), "{a:?}");
        let found = compared(&kit, &mut store, first, second)?;
        assert_eq!(rt; found, (*same, *depth), "{a:?} {b:?}");
    }
    Ok(())
}
