//! Rows of the lexicon, read by hand from the standard.
use crate::{LexError, LexFault, Lexer, Names, Place, Tok, TokKind, is_simple, tokens_of_text};
use sig_table::Code;
use std::alloc::Global;
use std::test::Fail;

// The text of one token, with its kind, name and place; or a text that breaks the lexicon, with the
// code and place of its fault.
static ROWS: [(&[u8], Result<(TokKind, &[u8], u32), (Code, u32)>); 52] = [
    (b"(", Ok((TokKind::Open, b"", 0))),
    (b")", Ok((TokKind::Close, b"", 0))),
    (b"0", Ok((TokKind::Numeral, b"0", 0))),
    (b"120", Ok((TokKind::Numeral, b"120", 0))),
    (b"007", Err((Code::MalformedWord, 0))),
    (b"1a", Err((Code::MalformedWord, 0))),
    (b"0.0", Ok((TokKind::Decimal, b"0.0", 0))),
    (b"13.070", Ok((TokKind::Decimal, b"13.070", 0))),
    (b"1.", Err((Code::MalformedWord, 0))),
    (b"00.5", Err((Code::MalformedWord, 0))),
    (b"#x0aF9", Ok((TokKind::Hexadecimal, b"#x0aF9", 0))),
    (b"#x", Err((Code::MalformedWord, 0))),
    (b"#xg", Err((Code::MalformedWord, 0))),
    (b"#b01", Ok((TokKind::Binary, b"#b01", 0))),
    (b"#b2", Err((Code::MalformedWord, 0))),
    (b"#", Err((Code::MalformedWord, 0))),
    (b"\"\"", Ok((TokKind::Str, b"", 0))),
    (b"\"a b\"", Ok((TokKind::Str, b"a b", 0))),
    (b"\"a\"\"b\"", Ok((TokKind::Str, b"a\"b", 0))),
    (b"\"\"\"\"", Ok((TokKind::Str, b"\"", 0))),
    (b"\"a|;(\\\n\"", Ok((TokKind::Str, b"a|;(\\\n", 0))),
    (b"\"\x80\xff\"", Ok((TokKind::Str, b"\x80\xff", 0))),
    (b"\"a\x7f\"", Err((Code::UnexpectedByte, 2))),
    (b"\"\x01\"", Err((Code::UnexpectedByte, 1))),
    (b"  \"ab", Err((Code::UnclosedString, 2))),
    (b"\"a\"\"", Err((Code::UnclosedString, 0))),
    (
        b"x+-/*=%?!.$_~&^<>@9",
        Ok((TokKind::Symbol, b"x+-/*=%?!.$_~&^<>@9", 0)),
    ),
    (b"<=", Ok((TokKind::Symbol, b"<=", 0))),
    (b"true", Ok((TokKind::Symbol, b"true", 0))),
    (b"|a b|", Ok((TokKind::Symbol, b"a b", 0))),
    (b"||", Ok((TokKind::Symbol, b"", 0))),
    (b"|let|", Ok((TokKind::Symbol, b"let", 0))),
    (b"|\"(;\r\xff|", Ok((TokKind::Symbol, b"\"(;\r\xff", 0))),
    (b"|a\\b|", Err((Code::BackslashInQuotedSymbol, 2))),
    (b"|\x7f|", Err((Code::UnexpectedByte, 1))),
    (b" |ab", Err((Code::UnclosedQuotedSymbol, 1))),
    (b"let", Ok((TokKind::Reserved, b"let", 0))),
    (b"_", Ok((TokKind::Reserved, b"_", 0))),
    (
        b"check-sat-assuming",
        Ok((TokKind::Reserved, b"check-sat-assuming", 0)),
    ),
    (b"lets", Ok((TokKind::Symbol, b"lets", 0))),
    (b":named", Ok((TokKind::Keyword, b":named", 0))),
    (b":1.", Ok((TokKind::Keyword, b":1.", 0))),
    (b":", Err((Code::MalformedWord, 0))),
    (b"::a", Err((Code::MalformedWord, 0))),
    (b"a:b", Err((Code::MalformedWord, 0))),
    (b":a#", Err((Code::MalformedWord, 0))),
    (b"; \x7f\x00 \"\nx", Ok((TokKind::Symbol, b"x", 7))),
    (b";|\rx", Ok((TokKind::Symbol, b"x", 3))),
    (b"\t\n\r x;", Ok((TokKind::Symbol, b"x", 4))),
    (b" \x0c", Err((Code::UnexpectedByte, 1))),
    (b"#[", Err((Code::MalformedWord, 0))),
    (b"\x80", Err((Code::UnexpectedByte, 0))),
];

// The token, where there is just one.
fn sole(read: Result<Vec<Tok>, LexError>) -> Result<Option<Tok>, LexError> {
    match read {
        Ok(toks) if toks.len() == 1 => Ok(toks.first().copied()),
        Ok(_) => Ok(None),
        Err(error) => Err(error),
    }
}

#[test]
fn lexicon_rows(rt: HostRuntime) -> Result<(), Fail> {
    let alloc = rt.alloc();
    let mut names = Names::new(alloc)?;
    for (text, want) in &ROWS {
        assert!(rt; names.count() < 1000);
        assert!(rt; text.len() < 100);
        let got = sole(tokens_of_text(alloc, &mut names, text));
        assert!(rt; names.count() < 1000);
        let expected = match want {
            Ok((kind, name, at)) => Ok(Some(Tok {
                kind: *kind,
                name: names.intern(name)?,
                at: *at,
            })),
            Err((code, at)) => Err(fault(*code, *at, None)),
        };
        assert_eq!(rt; got, expected, "{text:?}");
    }
    Ok(())
}

fn fault(code: Code, at: u32, before: Option<Tok>) -> LexError {
    let place = Place { code, at };
    LexError::Fault(LexFault { place, before })
}

// The fixed texts that follow the reserved words.
static NAMES: [(u32, &[u8]); 19] = [
    (0, b""),
    (1, b"!"),
    (2, b"BINARY"),
    (7, b"_"),
    (8, b"as"),
    (43, b"set-option"),
    (44, b":named"),
    (45, b":pattern"),
    (46, b":global-declarations"),
    (47, b"true"),
    (48, b"false"),
    (49, b"not"),
    (50, b"=>"),
    (51, b"and"),
    (52, b"or"),
    (53, b"xor"),
    (54, b"="),
    (55, b"distinct"),
    (56, b"ite"),
];

#[test]
fn fixed_names(rt: HostRuntime) -> Result<(), Fail> {
    let mut names = Names::new(rt.alloc())?;
    assert_eq!(rt; names.count(), 57);
    for (number, text) in &NAMES {
        assert!(rt; names.count() == 57);
        assert_eq!(rt; names.intern(text)?.number(), *number, "{text:?}");
    }
    Ok(())
}

// A token that ends at a faulty byte comes with the fault, and the fault comes again without it.
#[test]
fn token_before_fault(rt: HostRuntime) -> Result<(), Fail> {
    let mut names = Names::new(rt.alloc())?;
    let mut lexer = Lexer::new(rt.alloc());
    lexer.feed(&mut names, b'a')?;
    assert!(rt; names.count() < 100);
    let name = names.intern(b"a")?;
    assert!(rt; names.count() < 100);
    let kind = TokKind::Symbol;
    let before = Some(Tok { kind, name, at: 0 });
    let first = lexer.feed(&mut names, b'[').err();
    assert_eq!(rt; first, Some(fault(Code::UnexpectedByte, 1, before)));
    assert!(rt; names.count() < 100);
    let last = lexer.finish(&mut names).err();
    assert_eq!(rt; last, Some(fault(Code::UnexpectedByte, 1, None)));
    assert!(rt; is_simple(b"a.b") && !is_simple(b"let") && !is_simple(b"1a") && !is_simple(b""));
    Ok(())
}
