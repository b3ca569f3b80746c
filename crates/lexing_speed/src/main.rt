//! Measures the lexer, for bench/lexing.sh. The program reads standard input to its end. With the word `lex` it lexes
//! the bytes and prints how many tokens they have, and with other words it prints the sum of the bytes.
#![tactic(auto)]

use lex_core::{Names, tokens_of_text};
use std::io::Read;
use std::{env, io};

// The most bytes that are lexed.
const LIMIT: usize = 1_000_000_000;

// Whether the first word after the program's name is `lex`.
fn is_to_lex(rt: &(impl std::rt::Env + AllocGlobal)) -> io::Result<bool> {
    for word in env::args(rt)?.skip(1) {
        return Ok(word.as_str() == "lex");
    }
    Ok(false)
}

fn main(rt: HostRuntime) -> io::Result<()> {
    let mut text = Vec::new(rt.alloc());
    rt.stdin().read_to_end(&mut text)?;
    if !is_to_lex(&rt)? {
        let mut sum = 0u64;
        for byte in &text {
            sum = sum.wrapping_add(u64::from(*byte));
        }
        println!(rt; "{sum}")?;
        return Ok(());
    }
    let Ok(mut names) = Names::new(rt.alloc()) else {
        return Err(io::Error::from(io::ErrorKind::OutOfMemory));
    };
    if names.count() < 1000 && text.len() < LIMIT {
        match tokens_of_text(rt.alloc(), &mut names, text.as_slice()) {
            Ok(toks) => {
                let count = toks.len();
                println!(rt; "{count}")
            }
            Err(_) => println!(rt; "the text does not lex"),
        }
    } else {
        println!(rt; "the text is too long")
    }
}
