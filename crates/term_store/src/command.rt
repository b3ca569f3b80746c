//! The typed commands and their parts.
use crate::list::ListOf;
use crate::term::TermRef;
use lex_core::NameId;
use sexp_core::Tree;
use sort_store::{DeclNo, SortRef, Sorts};

/// A datatype (SMT-LIB 2.6, section 4.2.3). Its own parameters are numbered from 0 in its field sorts.
#[derive(Drop)]
pub struct Datatype {
    pub no: DeclNo,
    pub name: NameId,
    pub params: ListOf<NameId>,
    pub constructors: ListOf<Constructor>,
}

/// A constructor of a datatype, with its fields in order.
#[derive(Drop)]
pub struct Constructor {
    pub no: DeclNo,
    pub name: NameId,
    pub fields: ListOf<Field>,
}

/// A field of a constructor, which its selector names.
#[derive(Drop)]
pub struct Field {
    pub no: DeclNo,
    pub name: NameId,
    pub sort: SortRef,
}

/// A definition of a function (SMT-LIB 2.6, section 4.2.3). A named term is one without parameters.
#[derive(Drop)]
pub struct Def {
    pub no: DeclNo,
    pub name: NameId,
    pub params: ListOf<(NameId, SortRef)>,
    pub result: SortRef,
    pub body: TermRef,
    /// Whether the function is live in its own body.
    pub recursive: bool,
}

/// An accepted command (SMT-LIB 2.6, section 4.2), with its terms and sorts.
#[derive(Drop)]
pub enum TypedCommand {
    Assert {
        term: TermRef,
    },
    CheckSat,
    CheckSatAssuming {
        terms: ListOf<TermRef>,
    },
    DeclareConst {
        no: DeclNo,
        name: NameId,
        sort: SortRef,
    },
    DeclareDatatype {
        datatype: Datatype,
    },
    DeclareDatatypes {
        group: ListOf<Datatype>,
    },
    DeclareFun {
        no: DeclNo,
        name: NameId,
        args: Sorts,
        result: SortRef,
    },
    DeclareSort {
        no: DeclNo,
        name: NameId,
        arity: u32,
    },
    DefineFun {
        def: Def,
    },
    DefineFunRec {
        def: Def,
    },
    DefineFunsRec {
        defs: ListOf<Def>,
    },
    /// The parameters are numbered from 0 in the sort.
    DefineSort {
        name: NameId,
        params: ListOf<NameId>,
        sort: SortRef,
    },
    Echo {
        text: NameId,
    },
    Exit,
    GetAssertions,
    GetAssignment,
    GetInfo {
        key: NameId,
    },
    GetModel,
    GetOption {
        key: NameId,
    },
    GetProof,
    GetUnsatAssumptions,
    GetUnsatCore,
    GetValue {
        terms: ListOf<TermRef>,
    },
    /// Removes as many levels of the assertion stack.
    Pop {
        count: u32,
    },
    /// Opens as many levels of the assertion stack.
    Push {
        count: u32,
    },
    Reset,
    ResetAssertions,
    SetInfo {
        key: NameId,
        value: Option<Tree>,
    },
    SetLogic {
        name: NameId,
    },
    SetOption {
        key: NameId,
        value: Option<Tree>,
    },
}
