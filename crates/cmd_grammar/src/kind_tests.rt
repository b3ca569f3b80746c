//! Each command by its production, with the bytes of its parts counted by hand.
ghost use Rattle.std.specs.Prelude.{◌≡◌};

use crate::tests::tree_of;
use crate::{
    RawCommandKind, RawConDecs, RawDataDec, RawDataDecKind, RawDataDecs, RawFunDecs, RawFunDef,
    RawLiteralKind, RawLiterals, RawSelectors, RawSortDecs, read_command,
};
use lex_core::Names;
use std::alloc::AllocError;
use std::test::Fail;
use term_grammar::{RawAttribute, RawAttributeKind, RawSorts, RawSymbols, RawTerms, RawVariables};

// The text of a command, the number of its production, and the bytes of its parts, in the order of the grammar.
static ROWS: [(&[u8], u32, &[u32]); 30] = [
    (b"(assert true)", 0, &[8]),
    (b"(check-sat)", 1, &[]),
    (
        b"(check-sat-assuming (p (not q)))",
        2,
        &[21, 21, 21, 23, 28],
    ),
    (b"(declare-const c (Array Int Int))", 3, &[15, 17]),
    (
        b"(declare-datatype L ((nil) (cons (head Int) (tail L))))",
        4,
        &[18, 20, 21, 22, 27, 28, 33, 34, 39, 44, 45, 50],
    ),
    (
        b"(declare-datatypes ((T 1) (U 0)) ((par (X Y) ((mk (x X)))) ((u))))",
        5,
        &[
            20, 21, 23, 26, 27, 29, 34, 40, 42, 46, 47, 50, 51, 53, 59, 60, 61,
        ],
    ),
    (
        b"(declare-fun f (Int (_ BitVec 8)) Bool)",
        6,
        &[13, 16, 20, 34],
    ),
    (b"(declare-sort S 0)", 7, &[14, 16]),
    (
        b"(define-fun g ((x Int) (y Int)) Int (+ x 1))",
        8,
        &[12, 15, 16, 18, 23, 24, 26, 32, 36],
    ),
    (
        b"(define-fun-rec h ((x Int)) Int (h x))",
        9,
        &[16, 19, 20, 22, 28, 32],
    ),
    (
        b"(define-funs-rec ((a () Int) (b ((x Int)) Int)) (1 2))",
        10,
        &[18, 19, 24, 29, 30, 33, 34, 36, 42, 49, 51],
    ),
    (b"(define-sort P (X Y) (Array X Y))", 11, &[13, 16, 18, 21]),
    (b"(echo \"a\")", 12, &[6]),
    (b"(exit)", 13, &[]),
    (b"(get-assertions)", 14, &[]),
    (b"(get-assignment)", 15, &[]),
    (b"(get-info :name)", 16, &[10]),
    (b"(get-model)", 17, &[]),
    (b"(get-option :print-success)", 18, &[12]),
    (b"(get-proof)", 19, &[]),
    (b"(get-unsat-assumptions)", 20, &[]),
    (b"(get-unsat-core)", 21, &[]),
    (b"(get-value (x (+ x 1)))", 22, &[12, 14]),
    (b"(pop 1)", 23, &[5]),
    (b"(push 0)", 24, &[6]),
    (b"(reset)", 25, &[]),
    (b"(reset-assertions)", 26, &[]),
    (b"(set-info :source |a b|)", 27, &[10, 18]),
    (b"(set-logic QF_UF)", 28, &[11]),
    (b"(set-option :x)", 29, &[12]),
];

fn production(kind: &RawCommandKind) -> u32 {
    match kind {
        RawCommandKind::Assert(_) => 0,
        RawCommandKind::CheckSat => 1,
        RawCommandKind::CheckSatAssuming(_) => 2,
        RawCommandKind::DeclareConst { .. } => 3,
        RawCommandKind::DeclareDatatype { .. } => 4,
        RawCommandKind::DeclareDatatypes { .. } => 5,
        RawCommandKind::DeclareFun { .. } => 6,
        RawCommandKind::DeclareSort { .. } => 7,
        RawCommandKind::DefineFun(_) => 8,
        RawCommandKind::DefineFunRec(_) => 9,
        RawCommandKind::DefineFunsRec { .. } => 10,
        RawCommandKind::DefineSort { .. } => 11,
        RawCommandKind::Echo(_) => 12,
        RawCommandKind::Exit => 13,
        RawCommandKind::GetAssertions => 14,
        RawCommandKind::GetAssignment => 15,
        RawCommandKind::GetInfo(_) => 16,
        RawCommandKind::GetModel => 17,
        RawCommandKind::GetOption(_) => 18,
        RawCommandKind::GetProof => 19,
        RawCommandKind::GetUnsatAssumptions => 20,
        RawCommandKind::GetUnsatCore => 21,
        RawCommandKind::GetValue(_) => 22,
        RawCommandKind::Pop(_) => 23,
        RawCommandKind::Push(_) => 24,
        RawCommandKind::Reset => 25,
        RawCommandKind::ResetAssertions => 26,
        RawCommandKind::SetInfo(_) => 27,
        RawCommandKind::SetLogic(_) => 28,
        RawCommandKind::SetOption(_) => 29,
    }
}

fn add(out: &mut Vec<u32>, at: u32) -> Result<(), AllocError> {
    out.push(at)?;
    Ok(())
}

fn add_terms(out: &mut Vec<u32>, terms: &RawTerms) -> Result<(), AllocError> {
    for i in 0..terms.len() {
        if let Some(term) = terms.get(i) {
            add(out, term.at())?;
        }
    }
    Ok(())
}

fn add_sorts(out: &mut Vec<u32>, sorts: &RawSorts) -> Result<(), AllocError> {
    for i in 0..sorts.len() {
        if let Some(sort) = sorts.get(i) {
            add(out, sort.at())?;
        }
    }
    Ok(())
}

fn add_symbols(out: &mut Vec<u32>, symbols: &RawSymbols) -> Result<(), AllocError> {
    for i in 0..symbols.len() {
        if let Some(symbol) = symbols.get(i) {
            add(out, symbol.at)?;
        }
    }
    Ok(())
}

fn add_variables(out: &mut Vec<u32>, variables: &RawVariables) -> Result<(), AllocError> {
    for i in 0..variables.len() {
        if let Some(variable) = variables.get(i) {
            add(out, variable.at())?;
            add(out, variable.name.at)?;
            add(out, variable.sort.at())?;
        }
    }
    Ok(())
}

fn add_literals(out: &mut Vec<u32>, literals: &RawLiterals) -> Result<(), AllocError> {
    for i in 0..literals.len() {
        if let Some(literal) = literals.get(i) {
            match literal.kind() {
                RawLiteralKind::Symbol(symbol) => {
                    add(out, literal.at())?;
                    add(out, literal.term().at())?;
                    add(out, symbol.at)?;
                }
                RawLiteralKind::Not(symbol) => {
                    add(out, literal.term().at())?;
                    add(out, symbol.at)?;
                }
            }
        }
    }
    Ok(())
}

fn add_sort_decs(out: &mut Vec<u32>, sorts: &RawSortDecs) -> Result<(), AllocError> {
    for i in 0..sorts.len() {
        if let Some(declaration) = sorts.get(i) {
            add(out, declaration.at())?;
            add(out, declaration.name.at)?;
            add(out, declaration.arity.at)?;
        }
    }
    Ok(())
}

fn add_selectors(out: &mut Vec<u32>, selectors: &RawSelectors) -> Result<(), AllocError> {
    for i in 0..selectors.len() {
        if let Some(selector) = selectors.get(i) {
            add(out, selector.at())?;
            add(out, selector.name.at)?;
            add(out, selector.sort.at())?;
        }
    }
    Ok(())
}

fn add_constructors(out: &mut Vec<u32>, constructors: &RawConDecs) -> Result<(), AllocError> {
    for i in 0..constructors.len() {
        if let Some(constructor) = constructors.get(i) {
            add(out, constructor.at())?;
            add(out, constructor.name.at)?;
            add_selectors(out, &constructor.selectors)?;
        }
    }
    Ok(())
}

fn add_data_dec(out: &mut Vec<u32>, declaration: &RawDataDec) -> Result<(), AllocError> {
    add(out, declaration.at())?;
    match declaration.kind() {
        RawDataDecKind::Plain { constructors } => add_constructors(out, &constructors),
        RawDataDecKind::Parametric {
            params,
            constructors,
        } => {
            add_symbols(out, &params)?;
            add_constructors(out, &constructors)
        }
    }
}

fn add_data_decs(out: &mut Vec<u32>, datatypes: &RawDataDecs) -> Result<(), AllocError> {
    for i in 0..datatypes.len() {
        if let Some(declaration) = datatypes.get(i) {
            add_data_dec(out, &declaration)?;
        }
    }
    Ok(())
}

fn add_fun_decs(out: &mut Vec<u32>, declarations: &RawFunDecs) -> Result<(), AllocError> {
    for i in 0..declarations.len() {
        if let Some(declaration) = declarations.get(i) {
            add(out, declaration.at())?;
            add(out, declaration.name.at)?;
            add_variables(out, &declaration.params)?;
            add(out, declaration.result.at())?;
        }
    }
    Ok(())
}

fn add_fun_def(out: &mut Vec<u32>, definition: &RawFunDef) -> Result<(), AllocError> {
    add(out, definition.name.at)?;
    add_variables(out, &definition.params)?;
    add(out, definition.result.at())?;
    add(out, definition.body.at())
}

fn add_attribute(out: &mut Vec<u32>, attribute: &RawAttribute) -> Result<(), AllocError> {
    match attribute.kind() {
        RawAttributeKind::Keyword(keyword) => add(out, keyword.at),
        RawAttributeKind::Valued { keyword, value } => {
            add(out, keyword.at)?;
            add(out, value.at())
        }
    }
}

// The bytes of the parts of a declaration.
fn add_declaration(out: &mut Vec<u32>, kind: &RawCommandKind) -> Result<(), AllocError> {
    match kind {
        RawCommandKind::DeclareConst { name, sort } => {
            add(out, name.at)?;
            add(out, sort.at())
        }
        RawCommandKind::DeclareDatatype { name, declaration } => {
            add(out, name.at)?;
            add_data_dec(out, declaration)
        }
        RawCommandKind::DeclareDatatypes { sorts, datatypes } => {
            add_sort_decs(out, sorts)?;
            add_data_decs(out, datatypes)
        }
        RawCommandKind::DeclareFun { name, args, result } => {
            add(out, name.at)?;
            add_sorts(out, args)?;
            add(out, result.at())
        }
        RawCommandKind::DeclareSort { name, arity } => {
            add(out, name.at)?;
            add(out, arity.at)
        }
        RawCommandKind::DefineSort { name, params, sort } => {
            add(out, name.at)?;
            add_symbols(out, params)?;
            add(out, sort.at())
        }
        _ => Ok(()),
    }
}

// The bytes of the parts of any command.
fn add_parts(out: &mut Vec<u32>, kind: &RawCommandKind) -> Result<(), AllocError> {
    match kind {
        RawCommandKind::Assert(term) => add(out, term.at()),
        RawCommandKind::CheckSatAssuming(literals) => add_literals(out, literals),
        RawCommandKind::DefineFun(definition) => add_fun_def(out, definition),
        RawCommandKind::DefineFunRec(definition) => add_fun_def(out, definition),
        RawCommandKind::DefineFunsRec {
            declarations,
            bodies,
        } => {
            add_fun_decs(out, declarations)?;
            add_terms(out, bodies)
        }
        RawCommandKind::Echo(tok) => add(out, tok.at),
        RawCommandKind::GetInfo(tok) => add(out, tok.at),
        RawCommandKind::GetOption(tok) => add(out, tok.at),
        RawCommandKind::GetValue(terms) => add_terms(out, terms),
        RawCommandKind::Pop(tok) => add(out, tok.at),
        RawCommandKind::Push(tok) => add(out, tok.at),
        RawCommandKind::SetInfo(attribute) => add_attribute(out, attribute),
        RawCommandKind::SetLogic(tok) => add(out, tok.at),
        RawCommandKind::SetOption(attribute) => add_attribute(out, attribute),
        _ => add_declaration(out, kind),
    }
}

#[test]
fn kind_rows(rt: HostRuntime) -> Result<(), Fail> {
    let alloc = rt.alloc();
    for (text, number, bytes) in &ROWS {
        let mut names = Names::new(alloc)?;
        assert!(rt; names.count() < 1000);
        assert!(rt; text.len() < 100);
        let tree = tree_of(alloc, &mut names, text).expect(&rt, "one tree");
        let raw = read_command(alloc, &names, &tree)
            .ok()
            .expect(&rt, "a command");
        let kind = raw.kind();
        assert_eq!(rt; production(&kind), *number, "{text:?}");
        let mut got = Vec::new(alloc);
        add_parts(&mut got, &kind)?;
        assert!(rt; got.as_slice() == *bytes, "{text:?}");
    }
    Ok(())
}
