//! Names that `:named` gives to terms.
ghost use Rattle.std.specs.Prelude.{◌≡◌, ◌+◌, ◌++◌, ◌∷◌, ◌↔◌, [], IfErr, IfOk, IsTrue, OnOk};
ghost use Rattle.term_store.specs.Interned.{IsNoteInterned};
ghost use Rattle.term_store.specs.NumberedNodes.{numbered_note};
ghost use Rattle.term_store.specs.Term.{tree};
ghost use Rattle.typer.specs.Answers.{Meets, note_answer};
ghost use Rattle.typer.specs.FunctionSymbols.{first_number, signature_of};
ghost use Rattle.typer.specs.Ready.{IsReady};
ghost use Rattle.typer.specs.TermRules.{MayBeNamed, judge_name};
ghost use Rattle.typer.specs.Typed.{HasElaborated};

use crate::free::{has_free_variable, is_one_of};
use crate::in_use::is_fun_in_use;
use crate::world::World;
use dt_rules::{TyError, fault};
use lex_core::{NameId, Tok};
use sig_table::Code;
use sort_store::DeclNo;
use term_store::{Note, TermRef};

// Whether the command may give the term this name.
fn may_be_named(world: &World, term: &TermRef, name: NameId) -> Result<bool, TyError>
    ensures ok { IfOk result (λ b. IsTrue b ↔ MayBeNamed (signature_of world.now) world.now.seen.items (tree term.now) name) }
    ensures err { IfErr result (λ e. e ≡ TyError.NoMemory) }
{
    if has_free_variable(world.alloc, term)? {
        return Ok(false);
    }
    if is_fun_in_use(world, name) {
        return Ok(false);
    }
    Ok(!is_one_of(&world.seen, name))
}

/// The number of the next name that the command declares, which is this one. The only error is that memory runs out, or that
/// the numbers do, which are below 2^32.
pub fn take_number(world: &mut World, name: NameId) -> Result<DeclNo, TyError>
    ensures number { IfOk result (λ d. d ≡ world.old.next) }
    ensures seen { OnOk result (world.new.seen.items ≡ world.old.seen.items ++ name ∷ []) }
    ensures next { OnOk result (world.new.next.0 ≡ world.old.next.0 + 1) }
    ensures first { first_number world.new ≡ first_number world.old }
    ensures others { world.new ≡ record world.old { seen = world.new.seen; next = world.new.next } }
    ensures ready { IsReady world.old → IsReady world.new }
    ensures err { IfErr result (λ e. e ≡ TyError.NoMemory) }
{
    let number = world.next;
    if number.0 == u32::MAX {
        return Err(TyError::NoMemory);
    }
    match world.seen.push(name) {
        Ok(()) => {}
        Err(_) => return Err(TyError::NoMemory),
    }
    world.next = DeclNo(number.0 + 1);
    Ok(number)
}

/// The attribute `:named` of a term.
pub(crate) fn name_term(world: &mut World, term: &TermRef, tok: Tok) -> Result<Note, TyError>
    requires ready { IsReady world.old }
    ensures answer { Meets (note_answer result) (judge_name (signature_of world.old) (tree term.now) tok) world.old.seen.items world.new.seen.items }
    ensures interned { IfOk result (λ n. IsNoteInterned world.new.terms (numbered_note n)) }
    ensures grown { HasElaborated world.old world.new }
    ensures ready { IsReady world.new }
{
    if !may_be_named(world, term, tok.name)? {
        return Err(fault(Code::WrongNamedTerm, tok.at));
    }
    let no = take_number(world, tok.name)?;
    Ok(Note::Named { no, name: tok.name })
}
