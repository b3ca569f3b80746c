//! Definitions and datatypes by their numbers.
ghost use Rattle.std.specs.Prelude.{◌≡◌, IfOk};

use crate::{Datatype, Def, ListOf, Script, TermNode, TermStore};
use lex_core::{NameId, Names};
use sort_store::{DeclNo, Head, SortRef, SortStore};
use std::alloc::Global;
use std::test::Fail;

fn datatype(alloc: Global, no: u32, name: NameId) -> Datatype
    ensures { result.no.0 ≡ no }
{
    Datatype {
        no: DeclNo(no),
        name,
        params: ListOf::new(alloc),
        constructors: ListOf::new(alloc),
    }
}

fn def(
    alloc: Global,
    store: &mut TermStore,
    no: u32,
    name: NameId,
    sort: &SortRef,
) -> Result<Def, Fail>
    ensures { IfOk result (λ d. d.no.0 ≡ no) }
{
    Ok(Def {
        no: DeclNo(no),
        name,
        params: ListOf::new(alloc),
        result: sort.clone()?,
        body: store.make(TermNode::Var(name), sort.clone()?)?,
        recursive: false,
    })
}

#[test]
fn kept_by_number(rt: HostRuntime) -> Result<(), Fail> {
    let alloc = rt.alloc();
    let mut names = Names::new(alloc)?;
    assert!(rt; names.count() < 1000);
    let name = names.intern(b"a")?;
    let mut sorts = SortStore::new(alloc);
    let sort = sorts.make(Head::Bool, &[])?;
    let mut store = TermStore::new(alloc);
    let mut script = Script::new(alloc);
    let kept = def(alloc, &mut store, 7, name, &sort)?;
    script.defs_mut().keep_def(kept)?;
    script.defs_mut().keep_datatype(datatype(alloc, 3, name))?;
    for no in 0..10 {
        let no = DeclNo(no);
        let found = script.defs().def(no);
        assert_eq!(rt; found.is_some(), no == DeclNo(7));
        let found = script.defs().datatype(no);
        assert_eq!(rt; found.is_some(), no == DeclNo(3));
    }
    Ok(())
}
