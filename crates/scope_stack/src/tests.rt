//! Rows of calls, worked by hand.
use crate::{FunEntry, FunKind, ScopeError, Scopes, SortEntry, TooFew};
use lex_core::{NameId, Names};
use sort_store::{DeclNo, Head, SortStore, Sorts};
use std::alloc::Global;
use std::process::Abort;
use std::test::Fail;

// Calls and their answers. `(` and `)` open and close a level, `g` and `l` make declarations global
// and not global, `a` and `r` are reset-assertions and reset. `s` and `f` declare a sort and a
// function symbol under the name that follows, `S` and `F` look it up. The answer of a look-up is
// the number of the declaration, counted from 1 over the row, and 0 where there is none; of a refused
// call `-`, of the others `+`.
static ROWS: [(&[u8], &[u8]); 18] = [
    // A pop takes what its level declared.
    (b"(sASA)SA", b"++1+0"),
    (b"(sA)sASA", b"++++2"),
    (b"(fAFA)FA", b"++1+0"),
    (b"(sA(sBSASB)SASB)SASB", b"++++12+10+00"),
    // But not what is global.
    (b"g(sA)SAsA", b"++++1-"),
    (b"g(fA)FAfA", b"++++1-"),
    (b"g(sAlsB)SASB", b"++++++10"),
    // No two live declarations have one name, whatever their levels.
    (b"sAsASA", b"+-1"),
    (b"sA(sA)SA", b"++-+1"),
    (b"gsAlsAfAfA", b"+++-+-"),
    // The name spaces are two.
    (b"sAFAfASAFA", b"+0+12"),
    (b"(fA)sAFASA", b"++++02"),
    // No level is open.
    (b")(", b"-+"),
    (b"())", b"++-"),
    // reset-assertions keeps what is global, and the flag.
    (b"sAgsBlsCaSASBSC", b"++++++020"),
    (b"((gsAalsBasCSASBSC)", b"+++++++++103-"),
    (b"gasAaSA", b"++++1"),
    // reset keeps nothing, and turns the flag off.
    (b"gsA(rSAsAaSA)", b"++++0++0-"),
];

// What the calls of a row stand on. The scopes are dropped before the store of their sorts.
#[derive(Drop)]
struct Row {
    alloc: Global,
    names: Names,
    scopes: Scopes,
    sorts: SortStore,
    declared: u32,
}

impl Row {
    fn new(alloc: Global) -> Result<Row, Fail> {
        Ok(Row {
            alloc,
            names: Names::new(alloc)?,
            scopes: Scopes::new(alloc),
            sorts: SortStore::new(alloc),
            declared: 0,
        })
    }

    fn name(&mut self, rt: &impl Abort, letter: u8) -> Result<NameId, Fail> {
        assert!(rt; self.names.count() < 1000);
        Ok(self.names.intern(&[letter])?)
    }

    // Declares a sort or a function symbol under the next number.
    fn declare(&mut self, is_sort: bool, name: NameId) -> Result<bool, Fail> {
        let no = DeclNo(self.declared.wrapping_add(1));
        let result = if is_sort {
            let entry = SortEntry::Free { no, arity: 0 };
            self.scopes.declare_sort(name, entry)
        } else {
            let entry = FunEntry {
                no,
                kind: FunKind::Free,
                params: 0,
                args: Sorts::new(self.alloc),
                result: self.sorts.make(Head::Bool, &[])?,
            };
            self.scopes.declare_fun(name, entry)
        };
        match result {
            Ok(()) => {
                self.declared = no.0;
                Ok(true)
            }
            Err(ScopeError::InUse) => Ok(false),
            Err(error) => Err(Fail::from(error)),
        }
    }

    // The number under which a sort symbol was declared, or 0.
    fn sort_number(&self, name: NameId) -> u32 {
        match self.scopes.find_sort(name) {
            Some(SortEntry::Free { no, arity: _ }) => no.0,
            _ => 0,
        }
    }

    // The number under which a function symbol was declared, or 0.
    fn fun_number(&self, name: NameId) -> u32 {
        match self.scopes.find_fun(name) {
            Some(entry) => entry.no.0,
            None => 0,
        }
    }

    // The answer of the call that `symbol` begins, for a name.
    fn answer_for(&mut self, symbol: u8, name: NameId) -> Result<u8, Fail> {
        match symbol {
            b's' => Ok(mark(self.declare(true, name)?)),
            b'f' => Ok(mark(self.declare(false, name)?)),
            b'S' => Ok(digit(self.sort_number(name))),
            _ => Ok(digit(self.fun_number(name))),
        }
    }

    // The answer of a call, of which the last byte is given.
    fn answer(&mut self, rt: &impl Abort, symbol: u8, byte: u8) -> Result<u8, Fail> {
        if byte.is_ascii_uppercase() {
            let name = self.name(rt, byte)?;
            return self.answer_for(symbol, name);
        }
        Ok(mark(self.call(byte)?))
    }

    // Whether the call of a byte that stands alone is accepted.
    fn call(&mut self, byte: u8) -> Result<bool, Fail> {
        match byte {
            b'(' => self.scopes.push(1)?,
            b')' => return Ok(self.scopes.pop(1).is_ok()),
            b'g' => self.scopes.set_global(true),
            b'l' => self.scopes.set_global(false),
            b'a' => self.scopes.reset_assertions(),
            _ => self.scopes.reset(),
        }
        Ok(true)
    }
}

fn mark(accepted: bool) -> u8 {
    if accepted { b'+' } else { b'-' }
}

fn digit(number: u32) -> u8 {
    b'0' + (number % 10) as u8
}

// The answers of a row's calls.
fn answers(rt: &impl Abort, mut row: Row, calls: &[u8]) -> Result<Vec<u8>, Fail> {
    let mut answers = Vec::new(row.alloc);
    let mut symbol = 0;
    for byte in calls {
        if matches!(*byte, b's' | b'f' | b'S' | b'F') {
            symbol = *byte;
        } else {
            answers.push(row.answer(rt, symbol, *byte)?)?;
        }
    }
    Ok(answers)
}

#[test]
fn rows_of_calls(rt: HostRuntime) -> Result<(), Fail> {
    for (calls, expected) in &ROWS {
        let got = answers(&rt, Row::new(rt.alloc())?, calls)?;
        assert!(rt; got.as_slice() == *expected, "{calls:?}");
    }
    Ok(())
}

#[test]
fn limits_on_levels(rt: HostRuntime) -> Result<(), Fail> {
    let mut scopes = Scopes::new(rt.alloc());
    assert!(rt; scopes.push(65_535).is_ok());
    assert_eq!(rt; scopes.levels(), 65_535);
    assert!(rt; matches!(scopes.push(1), Err(ScopeError::TooDeep)));
    assert!(rt; scopes.push(0).is_ok());
    assert!(rt; matches!(scopes.pop(65_536), Err(TooFew)));
    assert!(rt; scopes.pop(65_535).is_ok());
    assert_eq!(rt; scopes.levels(), 0);
    Ok(())
}
