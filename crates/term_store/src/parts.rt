//! The parts of a term's nodes that hold no terms.
use crate::list::ListOf;
use lex_core::NameId;
use sort_store::DeclNo;

/// What a function symbol stands for.
#[derive(Clone, Copy, Debug, PartialEq, Eq)]
pub enum Fun {
    /// A function of a theory, which its name and indices tell.
    Theory,
    /// A declared or defined function, a constructor, a selector or a named term, by its declaration.
    Declared(DeclNo),
    /// `(_ is c)`, by the declaration of the constructor c.
    Tester(DeclNo),
}

/// The function symbol of an application (SMT-LIB 2.6, section 3.6).
#[derive(Drop)]
pub struct Applied {
    pub fun: Fun,
    /// The symbol; of a tester the constructor.
    pub name: NameId,
    /// The numerals of an indexed symbol. A tester has none.
    pub indices: ListOf<NameId>,
    /// Whether the symbol is ambiguous, so that it is written with `as` and the application's sort.
    pub qualify: bool,
}

/// The pattern of a match case (SMT-LIB 2.6, section 3.6.1).
#[derive(Drop)]
pub enum Pattern {
    /// A variable, which matches each value.
    Var(NameId),
    /// A constructor with variables for its fields.
    Con {
        no: DeclNo,
        name: NameId,
        vars: ListOf<NameId>,
    },
}
