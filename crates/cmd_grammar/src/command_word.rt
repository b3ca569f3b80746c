//! The words that begin commands, told by the numbers that they have in every table of names.
ghost use Rattle.std.specs.Prelude.{◌≡◌};
ghost use Rattle.cmd_grammar.specs.CommandWords.{command_begun_by, first_ten, second_ten, third_ten};

use lex_core::{Tok, TokKind};

/// The number of the reserved word `assert`.
pub const ASSERT: u32 = 9;
/// The number of the reserved word `check-sat`.
pub const CHECK_SAT: u32 = 10;
/// The number of the reserved word `check-sat-assuming`.
pub const CHECK_SAT_ASSUMING: u32 = 11;
/// The number of the reserved word `declare-const`.
pub const DECLARE_CONST: u32 = 12;
/// The number of the reserved word `declare-datatype`.
pub const DECLARE_DATATYPE: u32 = 13;
/// The number of the reserved word `declare-datatypes`.
pub const DECLARE_DATATYPES: u32 = 14;
/// The number of the reserved word `declare-fun`.
pub const DECLARE_FUN: u32 = 15;
/// The number of the reserved word `declare-sort`.
pub const DECLARE_SORT: u32 = 16;
/// The number of the reserved word `define-fun`.
pub const DEFINE_FUN: u32 = 17;
/// The number of the reserved word `define-fun-rec`.
pub const DEFINE_FUN_REC: u32 = 18;
/// The number of the reserved word `define-funs-rec`.
pub const DEFINE_FUNS_REC: u32 = 19;
/// The number of the reserved word `define-sort`.
pub const DEFINE_SORT: u32 = 20;
/// The number of the reserved word `echo`.
pub const ECHO: u32 = 21;
/// The number of the reserved word `exit`.
pub const EXIT: u32 = 23;
/// The number of the reserved word `get-assertions`.
pub const GET_ASSERTIONS: u32 = 25;
/// The number of the reserved word `get-assignment`.
pub const GET_ASSIGNMENT: u32 = 26;
/// The number of the reserved word `get-info`.
pub const GET_INFO: u32 = 27;
/// The number of the reserved word `get-model`.
pub const GET_MODEL: u32 = 28;
/// The number of the reserved word `get-option`.
pub const GET_OPTION: u32 = 29;
/// The number of the reserved word `get-proof`.
pub const GET_PROOF: u32 = 30;
/// The number of the reserved word `get-unsat-assumptions`.
pub const GET_UNSAT_ASSUMPTIONS: u32 = 31;
/// The number of the reserved word `get-unsat-core`.
pub const GET_UNSAT_CORE: u32 = 32;
/// The number of the reserved word `get-value`.
pub const GET_VALUE: u32 = 33;
/// The number of the reserved word `pop`.
pub const POP: u32 = 37;
/// The number of the reserved word `push`.
pub const PUSH: u32 = 38;
/// The number of the reserved word `reset`.
pub const RESET: u32 = 39;
/// The number of the reserved word `reset-assertions`.
pub const RESET_ASSERTIONS: u32 = 40;
/// The number of the reserved word `set-info`.
pub const SET_INFO: u32 = 41;
/// The number of the reserved word `set-logic`.
pub const SET_LOGIC: u32 = 42;
/// The number of the reserved word `set-option`.
pub const SET_OPTION: u32 = 43;

/// The command that a reserved word begins (SMT-LIB 2.6, section 3.9).
#[derive(Clone, Copy, Debug, PartialEq, Eq)]
pub(crate) enum CommandWord {
    /// `assert`
    Assert,
    /// `check-sat`
    CheckSat,
    /// `check-sat-assuming`
    CheckSatAssuming,
    /// `declare-const`
    DeclareConst,
    /// `declare-datatype`
    DeclareDatatype,
    /// `declare-datatypes`
    DeclareDatatypes,
    /// `declare-fun`
    DeclareFun,
    /// `declare-sort`
    DeclareSort,
    /// `define-fun`
    DefineFun,
    /// `define-fun-rec`
    DefineFunRec,
    /// `define-funs-rec`
    DefineFunsRec,
    /// `define-sort`
    DefineSort,
    /// `echo`
    Echo,
    /// `exit`
    Exit,
    /// `get-assertions`
    GetAssertions,
    /// `get-assignment`
    GetAssignment,
    /// `get-info`
    GetInfo,
    /// `get-model`
    GetModel,
    /// `get-option`
    GetOption,
    /// `get-proof`
    GetProof,
    /// `get-unsat-assumptions`
    GetUnsatAssumptions,
    /// `get-unsat-core`
    GetUnsatCore,
    /// `get-value`
    GetValue,
    /// `pop`
    Pop,
    /// `push`
    Push,
    /// `reset`
    Reset,
    /// `reset-assertions`
    ResetAssertions,
    /// `set-info`
    SetInfo,
    /// `set-logic`
    SetLogic,
    /// `set-option`
    SetOption,
    /// any other word
    Other,
}

/// The command that the token begins.
pub(crate) fn command_word(tok: &Tok) -> CommandWord
    ensures { result ≡ command_begun_by tok.now }
{
    match tok.kind {
        TokKind::Reserved => assert_to_define(tok.name.number()),
        _ => CommandWord::Other,
    }
}

fn assert_to_define(number: u32) -> CommandWord
    ensures { result ≡ first_ten number }
{
    if number == ASSERT {
        CommandWord::Assert
    } else if number == CHECK_SAT {
        CommandWord::CheckSat
    } else if number == CHECK_SAT_ASSUMING {
        CommandWord::CheckSatAssuming
    } else if number == DECLARE_CONST {
        CommandWord::DeclareConst
    } else if number == DECLARE_DATATYPE {
        CommandWord::DeclareDatatype
    } else if number == DECLARE_DATATYPES {
        CommandWord::DeclareDatatypes
    } else if number == DECLARE_FUN {
        CommandWord::DeclareFun
    } else if number == DECLARE_SORT {
        CommandWord::DeclareSort
    } else if number == DEFINE_FUN {
        CommandWord::DefineFun
    } else if number == DEFINE_FUN_REC {
        CommandWord::DefineFunRec
    } else {
        define_to_get(number)
    }
}

fn define_to_get(number: u32) -> CommandWord
    ensures { result ≡ second_ten number }
{
    if number == DEFINE_FUNS_REC {
        CommandWord::DefineFunsRec
    } else if number == DEFINE_SORT {
        CommandWord::DefineSort
    } else if number == ECHO {
        CommandWord::Echo
    } else if number == EXIT {
        CommandWord::Exit
    } else if number == GET_ASSERTIONS {
        CommandWord::GetAssertions
    } else if number == GET_ASSIGNMENT {
        CommandWord::GetAssignment
    } else if number == GET_INFO {
        CommandWord::GetInfo
    } else if number == GET_MODEL {
        CommandWord::GetModel
    } else if number == GET_OPTION {
        CommandWord::GetOption
    } else if number == GET_PROOF {
        CommandWord::GetProof
    } else {
        get_to_set(number)
    }
}

fn get_to_set(number: u32) -> CommandWord
    ensures { result ≡ third_ten number }
{
    if number == GET_UNSAT_ASSUMPTIONS {
        CommandWord::GetUnsatAssumptions
    } else if number == GET_UNSAT_CORE {
        CommandWord::GetUnsatCore
    } else if number == GET_VALUE {
        CommandWord::GetValue
    } else if number == POP {
        CommandWord::Pop
    } else if number == PUSH {
        CommandWord::Push
    } else if number == RESET {
        CommandWord::Reset
    } else if number == RESET_ASSERTIONS {
        CommandWord::ResetAssertions
    } else if number == SET_INFO {
        CommandWord::SetInfo
    } else if number == SET_LOGIC {
        CommandWord::SetLogic
    } else if number == SET_OPTION {
        CommandWord::SetOption
    } else {
        CommandWord::Other
    }
}
