//! Large sources, with ample memory.

use pal_asm::{AsmFault, assemble, assemble_all};
use pal_lex::Lexer;
use std::alloc::Global;
use word12::{Cell, Word};

/// The statements of a source, and the terms of the last one.
const MANY: usize = 20000;

/// A source of many lines with a word each, and at last a sum of many terms.
fn source(alloc: Global) -> Vec<u8> {
    let mut source = Vec::new(alloc);
    put_many(&mut source, b"A=0;", 1);
    put_many(&mut source, b"*300;A=A+1;A\r\n", MANY);
    put_many(&mut source, b"+1", MANY);
    put_many(&mut source, b"$", 1);
    source
}

fn put_many(source: &mut Vec<u8>, part: &[u8], count: usize) {
    for _ in 0..count {
        let _ = source.extend_from_slice(part);
    }
}

/// How many words there are, and the last one with its cell.
fn count_and_last_word(answer: Result<Vec<(Cell, Word)>, AsmFault>) -> (usize, usize, u16) {
    match answer {
        Ok(pairs) => match pairs.last() {
            Some((cell, word)) => (pairs.len(), cell.index(), word.get()),
            None => (0, 0, 0),
        },
        Err(_) => (0, 0, 0),
    }
}

/// How many tokens the last statement of a source has, as a lexer hands them out.
fn last_tokens(alloc: Global, source: &[u8]) -> usize {
    let mut lexer = Lexer::new(alloc);
    let mut tokens = 0;
    for byte in source {
        if let Ok(Some(statement)) = lexer.push(*byte) {
            tokens = statement.tokens.as_slice().len();
        }
    }
    tokens
}

#[test]
fn many_statements_and_terms(rt: HostRuntime) {
    let bytes = source(rt.alloc());
    // the last word is 20,000 modulo 4096, after one in 0300
    let sum = (MANY + 1, 0o301, 0o7040);
    assert_eq!(rt; last_tokens(rt.alloc(), &bytes), 2 * MANY);
    assert_eq!(rt; count_and_last_word(assemble(rt.alloc(), &bytes)), sum);
    assert_eq!(rt;
        count_and_last_word(assemble_all(rt.alloc(), &[&bytes])),
        sum
    );
}
