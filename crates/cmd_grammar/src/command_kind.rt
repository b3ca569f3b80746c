//! The commands, by their productions.

use crate::datatype_dec::{RawDataDec, RawDataDecs};
use crate::fun_dec::{RawFunDecs, RawFunDef};
use crate::literal::RawLiterals;
use crate::sort_dec::RawSortDecs;
use lex_core::Tok;
use term_grammar::{RawAttribute, RawSort, RawSorts, RawSymbols, RawTerm, RawTerms};

/// A command, by its production (SMT-LIB 2.6, section 3.9).
#[derive(Drop)]
pub enum RawCommandKind<'t> {
    /// `( assert term )`
    Assert(RawTerm<'t>),
    /// `( check-sat )`
    CheckSat,
    /// `( check-sat-assuming ( literal* ) )`
    CheckSatAssuming(RawLiterals<'t>),
    /// `( declare-const symbol sort )`
    DeclareConst {
        name: Tok,
        sort: RawSort<'t>,
    },
    /// `( declare-datatype symbol data_dec )`
    DeclareDatatype {
        name: Tok,
        declaration: RawDataDec<'t>,
    },
    /// `( declare-datatypes ( sort_dec+ ) ( data_dec+ ) )`
    DeclareDatatypes {
        sorts: RawSortDecs<'t>,
        datatypes: RawDataDecs<'t>,
    },
    /// `( declare-fun symbol ( sort* ) sort )`
    DeclareFun {
        name: Tok,
        args: RawSorts<'t>,
        result: RawSort<'t>,
    },
    /// `( declare-sort symbol numeral )`
    DeclareSort {
        name: Tok,
        arity: Tok,
    },
    /// `( define-fun fun_def )`
    DefineFun(RawFunDef<'t>),
    /// `( define-fun-rec fun_def )`
    DefineFunRec(RawFunDef<'t>),
    /// `( define-funs-rec ( fun_dec+ ) ( term+ ) )`, with lists of equal lengths
    DefineFunsRec {
        declarations: RawFunDecs<'t>,
        bodies: RawTerms<'t>,
    },
    /// `( define-sort symbol ( symbol* ) sort )`
    DefineSort {
        name: Tok,
        params: RawSymbols<'t>,
        sort: RawSort<'t>,
    },
    /// `( echo string )`
    Echo(Tok),
    /// `( exit )`
    Exit,
    /// `( get-assertions )`
    GetAssertions,
    /// `( get-assignment )`
    GetAssignment,
    /// `( get-info keyword )`
    GetInfo(Tok),
    /// `( get-model )`
    GetModel,
    /// `( get-option keyword )`
    GetOption(Tok),
    /// `( get-proof )`
    GetProof,
    /// `( get-unsat-assumptions )`
    GetUnsatAssumptions,
    /// `( get-unsat-core )`
    GetUnsatCore,
    /// `( get-value ( term+ ) )`
    GetValue(RawTerms<'t>),
    /// `( pop numeral )`
    Pop(Tok),
    /// `( push numeral )`
    Push(Tok),
    /// `( reset )`
    Reset,
    /// `( reset-assertions )`
    ResetAssertions,
    /// `( set-info attribute )`
    SetInfo(RawAttribute<'t>),
    /// `( set-logic symbol )`
    SetLogic(Tok),
    /// `( set-option attribute )`, where `:global-declarations` has the value `true` or `false`
    SetOption(RawAttribute<'t>),
}
