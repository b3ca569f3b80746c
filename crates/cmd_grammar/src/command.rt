//! Commands.
ghost use Rattle.std.specs.Prelude.{◌≡◌};
ghost use Rattle.term_grammar.specs.Reads.{made_of};
ghost use Rattle.cmd_grammar.specs.CommandViews.{command_from};
ghost use Rattle.cmd_grammar.specs.CommandReads.{command_by, declaration_by, read_command as reading};
ghost use Rattle.cmd_grammar.specs.CommandAnswers.{Answers, kind_read};

use crate::command_form::{CommandForm, DeclarationForm, command_form};
use crate::command_kind::RawCommandKind;
use crate::datatype_dec::{read_data_dec, read_data_decs};
use crate::fun_dec::{read_fun_decs, read_fun_def};
use lex_core::{Names, Place};
use sexp_core::{Part, Tree, Trees};
use sig_table::Code;
use std::alloc::Global;
use std::marker::Model;
use term_grammar::{read_sort, read_sorts, read_term, read_terms};
use thiserror::Error;

/// Why a tree reads as no command.
#[derive(Clone, Copy, Debug, PartialEq, Eq, Error)]
pub enum GrError {
    /// `UnknownCommand` where the tree does not begin with the name of a command, and then `WrongCommandForm` where it has
    /// another form than that command's, both at the first byte of the tree. Else `WrongTermForm`, at the first byte of the
    /// first tree in the position of a sort or a term that has the shape of no production, a tree before its parts.
    #[error("the tree is no command")]
    Fault(Place),
    /// Memory ran out.
    #[error("out of memory")]
    NoMemory,
}

/// A command (SMT-LIB 2.6, section 3.9): a tree that reads as one.
#[derive(Drop)]
pub struct RawCommand<'t> {
    tree: &'t Tree,
}

impl<'t> Model for RawCommand<'t> {
    ghost use Rattle.std.specs.Prelude.{IsOk};
    ghost use Rattle.std.specs.Coded.{codes};
    ghost use Rattle.term_grammar.specs.Codes.{attribute_code, sort_code, sorted_symbols_code, sorts_code, term_code, terms_code, tokens_code};
    ghost use Rattle.cmd_grammar.specs.Commands.{CommandAt};
    ghost use Rattle.cmd_grammar.specs.CommandReads.{read_command};
    ghost use Rattle.cmd_grammar.specs.CommandAnswers.{command_at};

    ghost Value = { CommandAt };

    ghost coded = { Prim.hlevel (codes, attribute_code, sort_code, sorted_symbols_code, sorts_code, term_code, terms_code, tokens_code) };

    ghost view = { λ r. command_at r.tree.now };

    ghost invariant = { λ r. IsOk (read_command r.tree.now) };
}

/// Reads a tree as a command. It takes no memory, and tells the words of the grammar by the numbers that they have in every
/// table of names. It recurses as deep as the tree nests.
pub fn read_command<'t>(
    _alloc: Global,
    _names: &Names,
    tree: &'t Tree,
) -> Result<RawCommand<'t>, GrError>
    ensures { Answers tree.now result }
{
    match read_kind(tree) {
        Ok(_) => Ok(RawCommand { tree }),
        Err(place) => Err(GrError::Fault(place)),
    }
}

// The production of the command that a tree is, or why it is none.
#[tactic(auto, unfolding(crate::specs::CommandReads::read_command))]
fn read_kind<'t>(tree: &'t Tree) -> Result<RawCommandKind<'t>, Place>
    ensures { kind_read result ≡ reading tree.now }
{
    let trees = Trees::of(tree);
    let Some((part, _)) = trees.split() else {
        unreachable!();
    };
    let form = command_form(&part)?;
    match read_form(form) {
        Ok(kind) => Ok(kind),
        Err(at) => Err(Place {
            code: Code::WrongTermForm,
            at,
        }),
    }
}

// Reads the sorts and terms of a form. The error is the first byte of the first tree, in pre-order, that has no shape.
fn read_form<'t>(form: CommandForm<'t>) -> Result<RawCommandKind<'t>, u32>
    ensures { made_of command_from result ≡ command_by form.entry }
{
    match form {
        CommandForm::Complete(kind) => Ok(kind),
        CommandForm::Declaration(form) => read_declaration(form),
        CommandForm::Assert { term } => {
            let term = read_term(term)?;
            Ok(RawCommandKind::Assert(term))
        }
        CommandForm::DefineFun(parts) => {
            let definition = read_fun_def(parts)?;
            Ok(RawCommandKind::DefineFun(definition))
        }
        CommandForm::DefineFunRec(parts) => {
            let definition = read_fun_def(parts)?;
            Ok(RawCommandKind::DefineFunRec(definition))
        }
        CommandForm::DefineFunsRec {
            declarations,
            bodies,
        } => {
            let declarations = read_fun_decs(declarations)?;
            let bodies = read_terms(bodies)?;
            Ok(RawCommandKind::DefineFunsRec {
                declarations,
                bodies,
            })
        }
        CommandForm::GetValue { terms } => {
            let terms = read_terms(terms)?;
            Ok(RawCommandKind::GetValue(terms))
        }
    }
}

fn read_declaration<'t>(form: DeclarationForm<'t>) -> Result<RawCommandKind<'t>, u32>
    ensures { made_of command_from result ≡ declaration_by form.entry }
{
    match form {
        DeclarationForm::Const { name, sort } => {
            let sort = read_sort(sort)?;
            Ok(RawCommandKind::DeclareConst { name, sort })
        }
        DeclarationForm::Datatype { name, declaration } => {
            let declaration = read_data_dec(declaration)?;
            Ok(RawCommandKind::DeclareDatatype { name, declaration })
        }
        DeclarationForm::Datatypes { sorts, datatypes } => {
            let datatypes = read_data_decs(datatypes)?;
            Ok(RawCommandKind::DeclareDatatypes { sorts, datatypes })
        }
        DeclarationForm::Fun { name, args, result } => {
            let args = read_sorts(args)?;
            let result = read_sort(result)?;
            Ok(RawCommandKind::DeclareFun { name, args, result })
        }
        DeclarationForm::Sort { name, params, sort } => {
            let sort = read_sort(sort)?;
            Ok(RawCommandKind::DefineSort { name, params, sort })
        }
    }
}

impl<'t> RawCommand<'t> {
    /// The first byte of the command, from 0.
    pub fn at(&self) -> u32
        ensures { result ≡ self.now.at }
    {
        let trees = Trees::of(self.tree);
        let Some((part, _)) = trees.split() else {
            unreachable!();
        };
        match part {
            Part::Atom(tok) => tok.at,
            Part::List { at, .. } => at,
        }
    }

    /// The command, by its production. It walks over the command's sorts and terms.
    pub fn kind(&self) -> RawCommandKind<'t>
        ensures { self.now.command ≡ command_from result }
    {
        match read_kind(self.tree) {
            Ok(kind) => kind,
            Err(_) => unreachable!(),
        }
    }
}
