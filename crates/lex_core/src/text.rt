//! The tokens of a text at hand.
ghost use Rattle.std.specs.Prelude.{◌≡◌, ◌<◌, ◌+◌, ◌^◌, ◌++◌, length, map, IfOk, OnOk, IfErr};
ghost use Rattle.lex_core.specs.Faults.{HasFaultAt};
ghost use Rattle.lex_core.specs.Lexeme.{Lexes};
ghost use Rattle.lex_core.specs.LexerCalls.{IfFault, ExtendsTable};
ghost use Rattle.lex_core.specs.Token.{token_of, option_items, AllInterned};

use crate::lexer::{LexError, Lexer};
use crate::names::Names;
use crate::token::Tok;
use std::alloc::Global;

/// The tokens of a whole text, or its fault: where and why it breaks the lexicon (SMT-LIB 2.6,
/// section 3.1).
pub fn tokens_of_text(alloc: Global, names: &mut Names, bytes: &[u8]) -> Result<Vec<Tok>, LexError>
    requires short { length bytes.now < 2 ^ 30 }
    requires few { length names.old + length bytes.now < 2 ^ 31 }
    ensures lexes { IfOk result (λ toks. Lexes bytes.now (map (token_of names.new) toks.items)) }
    ensures interned { IfOk result (λ toks. AllInterned names.new toks.items) }
    ensures names { ExtendsTable names.old names.new }
    ensures fault { IfErr result (λ e. IfFault e (λ fault.
        HasFaultAt bytes.now fault.place.at fault.place.code)) }
{
    let mut lexer = Lexer::new(alloc);
    let mut toks = Vec::new(alloc);
    for byte in bytes {
        let fed = lexer.feed(names, *byte)?;
        keep(&mut toks, fed.first)?;
        keep(&mut toks, fed.second)?;
    }
    let left = lexer.finish(names)?;
    keep(&mut toks, left)?;
    Ok(toks)
}

// Puts the token last, if there is one. The only error is that memory runs out.
fn keep(toks: &mut Vec<Tok>, tok: Option<Tok>) -> Result<(), LexError>
    ensures ok { OnOk result (toks.new.items ≡ toks.old.items ++ option_items tok) }
    ensures err { IfErr result (λ e. e ≡ LexError.NoMemory) }
{
    match tok {
        None => Ok(()),
        Some(tok) => match toks.push(tok) {
            Ok(()) => Ok(()),
            Err(_) => Err(LexError::NoMemory),
        },
    }
}
