ghost use Rattle.std.specs.Prelude.{◌≡◌, ◌+◌, ◌<◌, ◌≤◌, ◌^◌, length};

use super::*;
use lex_core::{NameId, Names, Place, Tok, TokKind};
use sig_table::Code;
use std::alloc::Global;
use std::process::Abort;
use std::test::Fail;

fn give(builder: &mut Builder, tok: Tok) -> Result<Option<Tree>, SexpError>
    requires { length builder.old.0 < 2 ^ 31 }
    ensures { length builder.new.0 ≤ length builder.old.0 + 1 }
{
    builder.take(tok)
}

// Gives the tokens one by one, and answers as the last one is answered.
fn give_all(builder: &mut Builder, toks: &[Tok]) -> Result<Option<Tree>, SexpError>
    requires { length builder.old.0 + length toks.now < 2 ^ 31 }
    ensures { length builder.new.0 ≤ length builder.old.0 + length toks.now }
{
    let mut last = None;
    for tok in toks {
        last = give(builder, *tok)?;
    }
    Ok(last)
}

fn tok(kind: TokKind, name: NameId, at: u32) -> Tok {
    Tok { kind, name, at }
}

fn refuses(rt: &impl Abort, builder: &mut Builder, toks: &[Tok], code: Code, at: u32)
    requires { length builder.old.0 + length toks.now < 2 ^ 31 }
    ensures { length builder.new.0 ≤ length builder.old.0 + length toks.now }
{
    let fault = SexpError::Fault(Place { code, at });
    assert!(rt; matches!(give_all(builder, toks), Err(e) if e == fault));
}

// Two lists are open at the end.
fn two_open(rt: &impl Abort, alloc: Global, open: Tok, inner: Tok) {
    let mut builder = Builder::new(alloc);
    assert_eq!(rt; builder.finish(), Ok(()));
    assert!(rt; matches!(builder.take(open), Ok(None)));
    assert!(rt; matches!(builder.take(inner), Ok(None)));
    let place = Place {
        code: Code::UnclosedList,
        at: open.at,
    };
    assert_eq!(rt; builder.finish(), Err(place));
}

// The tokens of `(a (b) c)` from byte 10 on, and tokens that break a rule.
#[test]
fn small_trees(rt: HostRuntime) -> Result<(), Fail> {
    let alloc = rt.alloc();
    let name = Names::new(alloc)?.intern(b"a")?;
    let [open, inner] = [10, 13].map(|at| tok(TokKind::Open, name, at));
    let [a, b, c] = [11, 14, 17].map(|at| tok(TokKind::Symbol, name, at));
    let [close, last] = [15, 18].map(|at| tok(TokKind::Close, name, at));

    let mut builder = Builder::new(alloc);
    let tree = give_all(&mut builder, &[open, a, inner, b, close, c, last])?.expect(&rt, "a tree");
    let items = [
        Item::Open { skip: 5, at: 10 },
        Item::Atom(a),
        Item::Open { skip: 4, at: 13 },
        Item::Atom(b),
        Item::Atom(c),
    ];
    assert_eq!(rt; tree.len(), items.len());
    for (i, item) in items.iter().enumerate() {
        assert_eq!(rt; tree.item(i), Some(*item), "at {i}");
    }
    assert_eq!(rt; tree.item(5), None);

    // The parts, and a copy of the inner list.
    let trees = Trees::of(&tree);
    assert_eq!(rt; trees.len(), 1);
    let (whole, _) = trees.split().expect(&rt, "the list");
    if let Part::List { at, parts } = &whole {
        assert_eq!(rt; (*at, parts.len()), (10, 3));
        let (_, others) = parts.split().expect(&rt, "the first part");
        let (list, _) = others.split().expect(&rt, "the second part");
        let copy = list.copy(alloc)?;
        assert!(rt; copy.items() == [Item::Open { skip: 2, at: 13 }, Item::Atom(b)].as_slice());
    }
    assert!(rt; whole.copy(alloc)?.items() == tree.items());

    two_open(&rt, alloc, open, inner);
    refuses(
        &rt,
        &mut Builder::new(alloc),
        &[last],
        Code::UnmatchedClose,
        18,
    );
    refuses(
        &rt,
        &mut Builder::new(alloc),
        &[b],
        Code::AtomOutsideLists,
        14,
    );
    refuses(
        &rt,
        &mut Builder::new(alloc),
        &[open, close, c],
        Code::AtomOutsideLists,
        17,
    );
    Ok(())
}

// The parenthesis that opens the 4,001st list, and a token after it.
#[test]
fn deep_lists(rt: HostRuntime) -> Result<(), Fail> {
    let alloc = rt.alloc();
    let name = Names::new(alloc)?.intern(b"a")?;
    let mut builder = Builder::new(alloc);
    for at in 0..4000 {
        assert!(rt; matches!(give(&mut builder, tok(TokKind::Open, name, at)), Ok(None)));
    }
    let [fault, close] = [TokKind::Open, TokKind::Close].map(|kind| tok(kind, name, 4000));
    refuses(&rt, &mut builder, &[fault], Code::ListsTooDeep, 4000);
    refuses(&rt, &mut builder, &[close], Code::ListsTooDeep, 4000);
    Ok(())
}
