//! Trees from tokens.
ghost use Rattle.std.specs.Prelude.{◌≡◌, ℕ, ◌++◌, ◌<◌, ◌^◌, ◌↔◌, List, [], ◌∷◌, length, vec_len, None, Some, Ok, Err, IfSome, IfOk, IfErr, IsOk};
ghost use Rattle.sig_table.specs.declared.code.Code.{Code as Rule};
ghost use Rattle.lex_core.specs.declared.token.Tok.{Tok as Atom};
ghost use Rattle.sexp_core.specs.Sexp.{Sexps, list, flat};
ghost use Rattle.sexp_core.specs.Tokens.{flat_tok};
ghost use Rattle.sexp_core.specs.Reading.{TreeFault, IsUnfinished, IsUnclosed, IsList};
ghost use Rattle.sexp_core.specs.OpenLists.{OpenList, Represents, AreOpenLists, open_tokens, open_lists, opening_byte};
ghost use Rattle.sexp_core.specs.Builder.{IsTreeError, fault_at, AddsAtom, BeginsList, EndsList, Takes};

use crate::tree::{Item, Tree};
use lex_core::{Place, Tok, TokKind};
use sig_table::Code;
use std::alloc::Global;
use std::marker::Model;
use std::mem;
use thiserror::Error;

/// The most lists that may be open at a place.
pub const MAX_DEPTH: usize = 4000;

/// Why a token was not taken.
#[derive(Clone, Copy, Debug, PartialEq, Eq, Error)]
pub enum SexpError {
    /// The token breaks a rule: `UnmatchedClose`, `AtomOutsideLists` or `ListsTooDeep`, at its first byte.
    #[error("the parentheses are wrong")]
    Fault(Place),
    /// Memory ran out.
    #[error("out of memory")]
    NoMemory,
}

/// Makes trees from tokens. Contracts see it as the tokens of the list that is not complete yet, and the error that
/// it has answered.
#[derive(Drop)]
pub struct Builder {
    alloc: Global,
    items: Vec<Item>,
    starts: Vec<u32>,
    failed: Option<SexpError>,
}

impl Model for Builder {
    ghost use Rattle.sexp_core.specs.OpenLists.{open_tokens, open_lists, AreOpenLists};
    ghost use Rattle.sexp_core.specs.Builder.{State};

    ghost Value = { State };

    ghost view = { λ b. (open_tokens (open_lists b.starts.items b.items.items), b.failed) };

    ghost invariant = { λ b. AreOpenLists b.starts.items b.items.items };
}

impl Builder {
    /// A builder with no list open.
    pub fn new(alloc: Global) -> Builder
        ensures { result ≡ ([], None) }
    {
        Builder {
            alloc,
            items: Vec::new(alloc),
            starts: Vec::new(alloc),
            failed: None,
        }
    }

    /// Takes the next token, and gives the tree when its last parenthesis comes; `None` while a list is open.
    ///
    /// `Fault` comes exactly where the token is a closing parenthesis with no list open (`UnmatchedClose`), an atom
    /// outside every list (`AtomOutsideLists`) or the parenthesis that opens one list more than `MAX_DEPTH`
    /// (`ListsTooDeep`), at that token's first byte. After an error each later call answers it again.
    pub fn take(&mut self, tok: Tok) -> Result<Option<Tree>, SexpError>
        requires { length self.old.0 < 2 ^ 31 }
        // What it holds is always the beginning of a list, or nothing.
        ensures unfinished { IsUnfinished self.new.0 }
        // An error comes again, and nothing changes.
        ensures again { IfSome self.old.1 (λ e. (result ≡ Err e) × (self.new ≡ self.old)) }

        // With no earlier error, a tree is a list, and its tokens are those that came.
        ensures tree { self.old.1 ≡ None → IfOk result (λ o. IfSome o (λ t. IsList t × (flat t ≡ self.old.0 ++ flat_tok tok ∷ []))) }
        ensures emptied { self.old.1 ≡ None → IfOk result (λ o. IfSome o (λ t. self.new ≡ ([], None))) }
        ensures inside { self.old.1 ≡ None → result ≡ Ok None → self.new ≡ (self.old.0 ++ flat_tok tok ∷ [], None) }
        // A list whose tokens are complete is given, with no want of memory.
        ensures complete { self.old.1 ≡ None → (at : ℕ) (ts : Sexps Atom) → flat (list at ts) ≡ self.old.0 ++ flat_tok tok ∷ [] →
            result ≡ Ok (Some (list at ts)) }

        // A fault comes where the token breaks a rule, at its byte, and only there.
        ensures fault { self.old.1 ≡ None → IfErr result (IsTreeError self.old.0 (flat_tok tok) tok.at) }
        ensures faulty { self.old.1 ≡ None → (rule : Rule) → TreeFault self.old.0 (flat_tok tok) rule →
            result ≡ Err (fault_at rule tok.at) }
        ensures kept { self.old.1 ≡ None → IfErr result (λ e. self.new ≡ (self.old.0, Some e)) }
    {
        if let Some(e) = self.failed {
            return Err(e);
        }
        let answer = step(self.alloc, &mut self.items, &mut self.starts, tok);
        if let Err(e) = &answer {
            self.failed = Some(*e);
        }
        answer
    }

    /// Judges the end of the input: `UnclosedList` exactly where a list is open, at the parenthesis that opens the
    /// outermost one. No call of `take` has answered an error.
    pub fn finish(&self) -> Result<(), Place>
        requires { self.now.1 ≡ None }
        ensures ok { IsOk result ↔ (self.now.0 ≡ []) }
        ensures unclosed { IfErr result (λ place. (place.code ≡ Code.UnclosedList) × IsUnclosed self.now.0 place.at) }
    {
        match self.items.first() {
            Some(item) => Err(Place {
                code: Code::UnclosedList,
                at: opening(item),
            }),
            None => Ok(()),
        }
    }
}

fn add_atom(items: &mut Vec<Item>, starts: &Vec<u32>, tok: Tok) -> Result<(), SexpError>
    ensures { (fs : List (OpenList Atom)) → Represents fs items.old.items starts.now.items →
        AddsAtom fs tok result items.new.items starts.now.items }
{
    if starts.is_empty() {
        return Err(fault(Code::AtomOutsideLists, tok.at));
    }
    match items.push(Item::Atom(tok)) {
        Ok(()) => Ok(()),
        Err(_) => Err(SexpError::NoMemory),
    }
}

fn begin_list(items: &mut Vec<Item>, starts: &mut Vec<u32>, at: u32) -> Result<(), SexpError>
    requires { vec_len items.old < 2 ^ 31 }
    ensures { (fs : List (OpenList Atom)) → Represents fs items.old.items starts.old.items →
        BeginsList fs at result items.new.items starts.new.items }
{
    if starts.len() == MAX_DEPTH {
        return Err(fault(Code::ListsTooDeep, at));
    }
    let place = items.len() as u32;
    if starts.push(place).is_err() {
        return Err(SexpError::NoMemory);
    }
    if items.push(Item::Open { skip: 0, at }).is_err() {
        let _ = starts.pop();
        return Err(SexpError::NoMemory);
    }
    Ok(())
}

fn end_list(items: &mut Vec<Item>, starts: &mut Vec<u32>, at: u32) -> Result<bool, SexpError>
    requires room { vec_len items.old < 2 ^ 31 }
    requires inside { AreOpenLists starts.old.items items.old.items }
    ensures { (fs : List (OpenList Atom)) → Represents fs items.old.items starts.old.items →
        EndsList fs at result items.new.items starts.new.items }
{
    let Some(start) = starts.pop() else {
        return Err(fault(Code::UnmatchedClose, at));
    };
    let skip = items.len() as u32;
    let opened = opening(&items[start as usize]);
    items[start as usize] = Item::Open { skip, at: opened };
    Ok(starts.is_empty())
}

fn fault(code: Code, at: u32) -> SexpError
    ensures { result ≡ fault_at code at }
{
    SexpError::Fault(Place { code, at })
}

fn opening(item: &Item) -> u32
    ensures { result ≡ opening_byte item.now }
{
    match item {
        Item::Open { at, .. } => *at,
        Item::Atom(_) => 0,
    }
}

fn step(
    alloc: Global,
    items: &mut Vec<Item>,
    starts: &mut Vec<u32>,
    tok: Tok,
) -> Result<Option<Tree>, SexpError>
    requires room { vec_len items.old < 2 ^ 31 }
    requires inside { AreOpenLists starts.old.items items.old.items }
    ensures { let before = open_tokens (open_lists starts.old.items items.old.items) in
        Takes before (flat_tok tok) tok.at result starts.new.items items.new.items }
{
    match tok.kind {
        TokKind::Open => match begin_list(items, starts, tok.at) {
            Ok(()) => Ok(None),
            Err(e) => Err(e),
        },
        TokKind::Close => match end_list(items, starts, tok.at) {
            Ok(true) => {
                let whole = mem::replace(items, Vec::new(alloc));
                Ok(Some(Tree { items: whole }))
            }
            Ok(false) => Ok(None),
            Err(e) => Err(e),
        },
        TokKind::Numeral
        | TokKind::Decimal
        | TokKind::Hexadecimal
        | TokKind::Binary
        | TokKind::Str
        | TokKind::Symbol
        | TokKind::Reserved
        | TokKind::Keyword => match add_atom(items, starts, tok) {
            Ok(()) => Ok(None),
            Err(e) => Err(e),
        },
    }
}
