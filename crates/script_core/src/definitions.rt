//! The commands that define functions (SMT-LIB 2.6, section 4.2.3).
ghost use Rattle.std.specs.Prelude.{◌≡◌, ◌<◌, ◌++◌, ◌∷◌, [], length, map, IfErr, IfOk, OnOk};
ghost use Rattle.std.specs.Option.{IsSome};
ghost use Rattle.std.specs.Prelude.{◌==◌};
ghost use Rattle.std.specs.List.{All, list_any};
ghost use Rattle.sort_store.specs.Interned.{Grows};
ghost use Rattle.typer.specs.Ready.{IsReadySchema};
ghost use Rattle.cmd_grammar.specs.Commands as command;
ghost use Rattle.cmd_grammar.specs.DeclarationViews.{fun_dec_seen, fun_def_seen, variable_seen};
ghost use Rattle.term_store.specs.Command.{plain_def};
ghost use Rattle.term_store.specs.Term.{plain_var, tree as term_tree};
ghost use Rattle.typer.specs.Typed.{AreBound};
ghost use Rattle.script_core.specs.Rules.{defined, judge_body, judge_header, judge_headers, judge_member, judge_members, judge_variable, judge_variables, with_header, with_headers};
ghost use Rattle.script_core.specs.Effects.{Answers, AreNamed, AreReadyVars, BeginsNames, DeclaresNoName, IsReadyHeader, IsSameTo, Meets, MeetsParts, OnlySortsGrow, first_of, plain_header, seen_by};
ghost use Rattle.script_core.specs.Checking.{IsReadyScope, environment_of};

use crate::effects::{add_function, broken, copy_of, sort_of, term_of};
use crate::keeping::copy_of_vars;
use crate::scope::{Scope, StepError};
use cmd_grammar::{RawFunDec, RawFunDecs, RawFunDef};
use lex_core::{NameId, Tok};
use sig_table::Code;
use sort_store::{DeclNo, SortRef, Sorts, same_tree};
use std::alloc::Global;
use term_grammar::{RawSort, RawTerm, RawTerms, RawVariable, RawVariables};
use term_store::{Def, ListOf, TermRef, TypedCommand};
use typer::{is_fun_in_use, take_number};

/// What a definition says before its body.
#[derive(Drop)]
pub struct FunHeader {
    pub no: DeclNo,
    pub name: NameId,
    pub params: ListOf<(NameId, SortRef)>,
    pub result: SortRef,
}

fn is_bound(vars: &[(NameId, SortRef)], name: NameId) -> bool
    ensures { result ≡ list_any (λ v. v.0 == name) vars.now }
{
    vars.iter().any(|var| var.0 == name)
}

// A parameter with its sort, where its name is none of those before it.
fn variable_of(
    scope: &mut Scope,
    before: &[(NameId, SortRef)],
    variable: RawVariable,
) -> Result<(NameId, SortRef), StepError>
    requires stands { IsReadyScope scope.old }
    ensures answer { let env = environment_of scope.old.world.names scope.old in
        Answers (judge_variable env (map (λ v. v.0) before.now) (variable_seen variable.entry)) plain_var result }
    ensures schema { IfOk result (λ v. IsReadySchema scope.new.world.names scope.new.world.sorts 0 v.1) }
    ensures grown { OnlySortsGrow scope.old scope.new }
    ensures stands { IsReadyScope scope.new }
{
    let name = variable.name;
    if is_bound(before, name.name) {
        return Err(broken(Code::RepeatedVariable, name.at));
    }
    let sort = sort_of(scope, &[], variable.sort)?;
    Ok((name.name, sort))
}

// The parameters of a function with their sorts, none of them repeated.
fn variables_of(
    scope: &mut Scope,
    params: &RawVariables,
) -> Result<ListOf<(NameId, SortRef)>, StepError>
    requires stands { IsReadyScope scope.old }
    ensures answer { Answers (judge_variables (environment_of scope.old.world.names scope.old) [] params.now) (λ vs. map plain_var vs) result }
    ensures schema { IfOk result (AreReadyVars scope.new) }
    ensures grown { OnlySortsGrow scope.old scope.new }
    ensures stands { IsReadyScope scope.new }
{
    let mut vars: ListOf<(NameId, SortRef)> = ListOf::new(scope.alloc);
    let mut next = params.split();
    while let Some((first, rest)) = next {
        let var = variable_of(scope, vars.as_slice(), first)?;
        match vars.push(var) {
            Ok(()) => {}
            Err(_) => return Err(StepError::NoMemory),
        }
        next = rest.split();
    }
    Ok(vars)
}

// What a definition says before its body. The function is not live yet.
fn header_of(
    scope: &mut Scope,
    name: &Tok,
    params: &RawVariables,
    sort: RawSort,
) -> Result<FunHeader, StepError>
    requires stands { IsReadyScope scope.old }
    ensures answer { let env = environment_of scope.old.world.names scope.old in
        Answers (judge_header env name.now params.now sort.entry) plain_header result }
    ensures named { IfOk result (λ h. h.name ≡ name.now.name) }
    ensures schema { IfOk result (IsReadyHeader scope.new) }
    ensures grown { OnlySortsGrow scope.old scope.new }
    ensures stands { IsReadyScope scope.new }
{
    if is_fun_in_use(&scope.world, name.name) {
        return Err(broken(Code::FunctionNameInUse, name.at));
    }
    let params = variables_of(scope, params)?;
    let result = sort_of(scope, &[], sort)?;
    Ok(FunHeader {
        no: DeclNo(scope.next),
        name: name.name,
        params,
        result,
    })
}

// The sorts of variables once more. The only error is that memory runs out.
fn sorts_of(alloc: Global, vars: &[(NameId, SortRef)]) -> Result<Sorts, StepError>
    ensures ok { IfOk result (λ list. list ≡ map (λ v. v.1) vars.now) }
    ensures err { IfErr result (λ e. e ≡ StepError.NoMemory) }
{
    let mut list = Sorts::new(alloc);
    for var in vars {
        let copy = copy_of(&var.1)?;
        match list.push(copy) {
            Ok(()) => {}
            Err(_) => return Err(StepError::NoMemory),
        }
    }
    Ok(list)
}

// Declares the function of a header. The only error is that memory runs out.
fn add_header(scope: &mut Scope, header: &FunHeader) -> Result<(), StepError>
    requires stands { IsReadyScope scope.old }
    requires logic { IsSome scope.old.logic }
    requires named { header.now.name < length scope.old.world.names }
    requires schema { IsReadyHeader scope.old header.now }
    ensures effect { let names = scope.old.world.names in
        OnOk result (environment_of names scope.new ≡ with_header (environment_of names scope.old) (plain_header header.now)) }
    ensures error { IfErr result (λ e. e ≡ StepError.NoMemory) }
    ensures names { scope.new.world.names ≡ scope.old.world.names }
    ensures sorts { scope.new.world.sorts ≡ scope.old.world.sorts }
    ensures script { scope.new.world.script ≡ scope.old.world.script }
    ensures unnamed { DeclaresNoName scope.old scope.new }
    ensures stands { IsReadyScope scope.new }
{
    let args = sorts_of(scope.alloc, header.params.as_slice())?;
    let result = copy_of(&header.result)?;
    match add_function(scope, header.name, args, result) {
        Ok(_) => Ok(()),
        Err(error) => Err(error),
    }
}

// Takes the name of a function as one that the command declares. The only error is that memory runs out.
fn declare_name(scope: &mut Scope, name: NameId) -> Result<(), StepError>
    requires stands { IsReadyScope scope.old }
    ensures seen { OnOk result (seen_by scope.new ≡ seen_by scope.old ++ name ∷ []) }
    ensures first { first_of scope.new ≡ first_of scope.old }
    ensures error { IfErr result (λ e. e ≡ StepError.NoMemory) }
    ensures same { IsSameTo scope.old scope.new }
    ensures names { scope.new.world.names ≡ scope.old.world.names }
    ensures sorts { scope.new.world.sorts ≡ scope.old.world.sorts }
    ensures script { scope.new.world.script ≡ scope.old.world.script }
    ensures logic { scope.new.logic ≡ scope.old.logic }
    ensures stands { IsReadyScope scope.new }
{
    match take_number(&mut scope.world, name) {
        Ok(_) => Ok(()),
        Err(_) => Err(StepError::NoMemory),
    }
}

// The same of functions that are declared together.
fn declare_names(scope: &mut Scope, headers: &[FunHeader]) -> Result<(), StepError>
    requires stands { IsReadyScope scope.old }
    ensures seen { OnOk result (seen_by scope.new ≡ seen_by scope.old ++ map (λ h. h.name) headers.now) }
    ensures first { first_of scope.new ≡ first_of scope.old }
    ensures error { IfErr result (λ e. e ≡ StepError.NoMemory) }
    ensures same { IsSameTo scope.old scope.new }
    ensures names { scope.new.world.names ≡ scope.old.world.names }
    ensures sorts { scope.new.world.sorts ≡ scope.old.world.sorts }
    ensures script { scope.new.world.script ≡ scope.old.world.script }
    ensures stands { IsReadyScope scope.new }
{
    for header in headers {
        declare_name(scope, header.name)?;
    }
    Ok(())
}

// The typed term of a body, which has the result sort.
fn body_of(scope: &mut Scope, header: &FunHeader, body: RawTerm) -> Result<TermRef, StepError>
    requires stands { IsReadyScope scope.old }
    requires vars { AreBound scope.old.world header.now.params }
    ensures answer { let env = environment_of scope.old.world.names scope.old in
        Meets (judge_body (first_of scope.old) env (plain_header header.now) body.entry) term_tree result (seen_by scope.old) (seen_by scope.new) }
    ensures first { first_of scope.new ≡ first_of scope.old }
    ensures same { IsSameTo scope.old scope.new }
    ensures grows { Grows scope.old.world.sorts scope.new.world.sorts }
    ensures script { scope.new.world.script ≡ scope.old.world.script }
    ensures stands { IsReadyScope scope.new }
{
    let at = body.at();
    let term = term_of(scope, header.params.as_slice(), body)?;
    if !same_tree(term.sort(), &header.result) {
        return Err(broken(Code::WrongTermSort, at));
    }
    Ok(term)
}

// The definition that a header and a body are.
fn definition(header: FunHeader, recursive: bool, body: TermRef) -> Def
    ensures { plain_def result ≡ defined (plain_header header) recursive (term_tree body) }
{
    let FunHeader {
        no,
        name,
        params,
        result,
    } = header;
    Def {
        no,
        name,
        params,
        result,
        body,
        recursive,
    }
}

/// Defines a function.
pub fn define_fun(scope: &mut Scope, at: u32, raw: RawFunDef) -> Result<TypedCommand, StepError>
    requires stands { IsReadyScope scope.old }
    requires begins { BeginsNames scope.old }
    requires logic { IsSome scope.old.logic }
    requires named { raw.name.name < length scope.old.world.names }
    ensures answer { let names = scope.old.world.names in
        MeetsParts (environment_of names scope.old) at (command.define_fun (fun_def_seen raw.entry)) result (environment_of names scope.new) (seen_by scope.new) }
    ensures names { scope.new.world.names ≡ scope.old.world.names }
    ensures script { scope.new.world.script ≡ scope.old.world.script }
    ensures stands { IsReadyScope scope.new }
{
    let RawFunDef {
        name,
        params,
        result,
        body,
    } = raw;
    let header = header_of(scope, &name, &params, result)?;
    declare_name(scope, header.name)?;
    let body = body_of(scope, &header, body)?;
    add_header(scope, &header)?;
    Ok(TypedCommand::DefineFun {
        def: definition(header, false, body),
    })
}

/// Defines a function that is live in its body.
pub fn define_fun_rec(scope: &mut Scope, at: u32, raw: RawFunDef) -> Result<TypedCommand, StepError>
    requires stands { IsReadyScope scope.old }
    requires begins { BeginsNames scope.old }
    requires logic { IsSome scope.old.logic }
    requires named { raw.name.name < length scope.old.world.names }
    ensures answer { let names = scope.old.world.names in
        MeetsParts (environment_of names scope.old) at (command.define_fun_rec (fun_def_seen raw.entry)) result (environment_of names scope.new) (seen_by scope.new) }
    ensures names { scope.new.world.names ≡ scope.old.world.names }
    ensures script { scope.new.world.script ≡ scope.old.world.script }
    ensures stands { IsReadyScope scope.new }
{
    let RawFunDef {
        name,
        params,
        result,
        body,
    } = raw;
    let header = header_of(scope, &name, &params, result)?;
    declare_name(scope, header.name)?;
    add_header(scope, &header)?;
    let body = body_of(scope, &header, body)?;
    Ok(TypedCommand::DefineFunRec {
        def: definition(header, true, body),
    })
}

// A function that is declared together with others. It is live from then on.
fn next_header(scope: &mut Scope, declaration: RawFunDec) -> Result<FunHeader, StepError>
    requires stands { IsReadyScope scope.old }
    requires logic { IsSome scope.old.logic }
    requires named { declaration.name.name < length scope.old.world.names }
    ensures answer { let env = environment_of scope.old.world.names scope.old in let f = fun_dec_seen declaration.entry in
        Answers (judge_header env f.name f.params f.result) plain_header result }
    ensures effect { let names = scope.old.world.names in
        IfOk result (λ h. environment_of names scope.new ≡ with_header (environment_of names scope.old) (plain_header h)) }
    ensures ready { IfOk result (IsReadyHeader scope.new) }
    ensures grows { Grows scope.old.world.sorts scope.new.world.sorts }
    ensures names { scope.new.world.names ≡ scope.old.world.names }
    ensures script { scope.new.world.script ≡ scope.old.world.script }
    ensures unnamed { DeclaresNoName scope.old scope.new }
    ensures stands { IsReadyScope scope.new }
{
    let RawFunDec {
        name,
        params,
        result,
        ..
    } = declaration;
    let header = header_of(scope, &name, &params, result)?;
    match add_header(scope, &header) {
        Ok(()) => Ok(header),
        Err(error) => Err(error),
    }
}

// The functions that are declared together. All are live from then on.
fn headers_of(scope: &mut Scope, declarations: &RawFunDecs) -> Result<ListOf<FunHeader>, StepError>
    requires stands { IsReadyScope scope.old }
    requires logic { IsSome scope.old.logic }
    requires named { AreNamed scope.old.world.names declarations.now }
    ensures answer { Answers (judge_headers (environment_of scope.old.world.names scope.old) declarations.now) (λ hs. map plain_header hs) result }
    ensures effect { let names = scope.old.world.names in
        IfOk result (λ hs. environment_of names scope.new ≡ with_headers (environment_of names scope.old) (map plain_header hs)) }
    ensures ready { IfOk result (λ hs. All (IsReadyHeader scope.new) hs) }
    ensures names { scope.new.world.names ≡ scope.old.world.names }
    ensures script { scope.new.world.script ≡ scope.old.world.script }
    ensures unnamed { DeclaresNoName scope.old scope.new }
    ensures stands { IsReadyScope scope.new }
{
    let mut headers: ListOf<FunHeader> = ListOf::new(scope.alloc);
    let mut next = declarations.split();
    while let Some((first, rest)) = next {
        let header = next_header(scope, first)?;
        match headers.push(header) {
            Ok(()) => {}
            Err(_) => return Err(StepError::NoMemory),
        }
        next = rest.split();
    }
    Ok(headers)
}

// The same header once more. The only error is that memory runs out.
fn copy_of_header(alloc: Global, header: &FunHeader) -> Result<FunHeader, StepError>
    ensures ok { IfOk result (λ h. h ≡ header.now) }
    ensures err { IfErr result (λ e. e ≡ StepError.NoMemory) }
{
    let params = copy_of_vars(alloc, header.params.as_slice())?;
    let result = copy_of(&header.result)?;
    Ok(FunHeader {
        no: header.no,
        name: header.name,
        params,
        result,
    })
}

// The definition of one of the functions that are declared together.
fn member_of(scope: &mut Scope, header: &FunHeader, body: RawTerm) -> Result<Def, StepError>
    requires stands { IsReadyScope scope.old }
    requires ready { IsReadyHeader scope.old header.now }
    ensures answer { let env = environment_of scope.old.world.names scope.old in
        Meets (judge_member (first_of scope.old) env (plain_header header.now) body.entry) plain_def result (seen_by scope.old) (seen_by scope.new) }
    ensures first { first_of scope.new ≡ first_of scope.old }
    ensures same { IsSameTo scope.old scope.new }
    ensures grows { Grows scope.old.world.sorts scope.new.world.sorts }
    ensures script { scope.new.world.script ≡ scope.old.world.script }
    ensures stands { IsReadyScope scope.new }
{
    let body = body_of(scope, header, body)?;
    let copy = copy_of_header(scope.alloc, header)?;
    Ok(definition(copy, true, body))
}

// The definitions of the functions that are declared together, one body for each.
fn members_of(
    scope: &mut Scope,
    at: u32,
    headers: &[FunHeader],
    bodies: &RawTerms,
) -> Result<ListOf<Def>, StepError>
    requires stands { IsReadyScope scope.old }
    requires ready { All (IsReadyHeader scope.old) headers.now }
    ensures answer { let env = environment_of scope.old.world.names scope.old in
        Meets (judge_members (first_of scope.old) env at (map plain_header headers.now) bodies.now) (λ ds. map plain_def ds) result (seen_by scope.old) (seen_by scope.new) }
    ensures same { IsSameTo scope.old scope.new }
    ensures script { scope.new.world.script ≡ scope.old.world.script }
    ensures stands { IsReadyScope scope.new }
{
    let mut defs: ListOf<Def> = ListOf::new(scope.alloc);
    let mut left = headers;
    let mut next = bodies.split();
    while let Some((header, others)) = left.split_first() {
        let Some((body, rest)) = next else {
            return Err(broken(Code::WrongCommandForm, at));
        };
        let def = member_of(scope, header, body)?;
        match defs.push(def) {
            Ok(()) => {}
            Err(_) => return Err(StepError::NoMemory),
        }
        left = others;
        next = rest.split();
    }
    Ok(defs)
}

/// Defines functions that are live in the bodies of all.
pub fn define_funs_rec(
    scope: &mut Scope,
    at: u32,
    declarations: &RawFunDecs,
    bodies: &RawTerms,
) -> Result<TypedCommand, StepError>
    requires stands { IsReadyScope scope.old }
    requires begins { BeginsNames scope.old }
    requires logic { IsSome scope.old.logic }
    requires named { AreNamed scope.old.world.names declarations.now }
    ensures answer { let names = scope.old.world.names in
        MeetsParts (environment_of names scope.old) at (command.define_funs_rec declarations.now bodies.now) result (environment_of names scope.new) (seen_by scope.new) }
    ensures names { scope.new.world.names ≡ scope.old.world.names }
    ensures script { scope.new.world.script ≡ scope.old.world.script }
    ensures stands { IsReadyScope scope.new }
{
    let headers = headers_of(scope, declarations)?;
    declare_names(scope, headers.as_slice())?;
    let defs = members_of(scope, at, headers.as_slice(), bodies)?;
    Ok(TypedCommand::DefineFunsRec { defs })
}
