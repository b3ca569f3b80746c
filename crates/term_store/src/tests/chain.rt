//! A long chain of terms.
ghost use Rattle.std.specs.Prelude.{IfOk};
ghost use Rattle.term_store.specs.Interned.{IsInterned};

use crate::{Applied, Fun, ListOf, Script, TermNode, TermRef, TermStore, TypedCommand};
use lex_core::{NameId, Names};
use sort_store::{DeclNo, Head, SortRef, SortStore};
use std::alloc::Global;
use std::test::Fail;

fn head(alloc: Global, name: NameId) -> Applied {
    Applied {
        fun: Fun::Declared(DeclNo(0)),
        name,
        indices: ListOf::new(alloc),
        qualify: false,
    }
}

// `(a (a (.. a ..)))`, with as many lists as said.
fn chain(
    alloc: Global,
    store: &mut TermStore,
    name: NameId,
    sort: &SortRef,
    count: u32,
) -> Result<TermRef, Fail> {
    let node = TermNode::App {
        head: head(alloc, name),
        args: Vec::new(alloc),
    };
    let mut term = store.make(node, sort.clone()?)?;
    for _ in 0..count {
        let node = TermNode::App {
            head: head(alloc, name),
            args: vec![in alloc; term]?,
        };
        term = store.make(node, sort.clone()?)?;
    }
    Ok(term)
}

// Neither the script nor the store drops deep.
#[test]
fn long_chain(rt: HostRuntime) -> Result<(), Fail> {
    let alloc = rt.alloc();
    let mut names = Names::new(alloc)?;
    assert!(rt; names.count() < 1000);
    let name = names.intern(b"a")?;
    let mut sorts = SortStore::new(alloc);
    let bool = sorts.make(Head::Bool, &[])?;
    let mut store = TermStore::new(alloc);
    let mut script = Script::new(alloc);
    let term = chain(alloc, &mut store, name, &bool, 100_000)?;
    assert_eq!(rt; (store.count(), term.print_depth()), (100_001, 100_000));
    script.push(TypedCommand::Assert { term })?;
    assert!(rt; matches!(script.command(0), Some(TypedCommand::Assert { term: _ })));
    assert_eq!(rt; (script.len(), script.is_empty()), (1, false));
    Ok(())
}
