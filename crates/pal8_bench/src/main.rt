//! Reads a PAL8 source on standard input by the lexer, to measure it and to hold it to the plain model. It prints how many statements and
//! tokens there are, and a number that is made of all that the lexer says of them.
#![tactic(auto)]

use pal8_lex::{End, Kind, Lexer, Operator, Pool, Token};
use std::alloc::{AllocError, Global};
use std::io::Read;
use std::process::ExitCode;

const PRIME: u64 = 1_000_003;

/// What was read so far.
#[derive(Clone, Copy)]
struct Sums {
    statements: u64,
    tokens: u64,
    checksum: u64,
}

fn mix(sum: u64, value: u64) -> u64 {
    (sum % PRIME * 0o20001 + value % PRIME) % PRIME
}

fn operator_number(operator: Operator) -> u64 {
    match operator {
        Operator::Plus => 10,
        Operator::Minus => 11,
        Operator::Or => 12,
        Operator::And => 13,
        Operator::Times => 14,
        Operator::Divide => 15,
    }
}

fn pool_number(pool: Pool) -> u64 {
    match pool {
        Pool::Own => 0,
        Pool::Zero => 1,
    }
}

fn end_number(end: End) -> u64 {
    match end {
        End::Semicolon => 1,
        End::Line => 2,
        End::Open => 3,
        End::Close => 4,
        End::Dollar => 5,
    }
}

fn kind_sum(sum: u64, kind: Kind) -> u64 {
    match kind {
        Kind::Name(name) => mix(mix(sum, 1), name.number()),
        Kind::Number(number) => {
            let spelled = mix(mix(sum, 2), number.spelling.number());
            mix(
                mix(spelled, u64::from(number.octal)),
                u64::from(number.decimal),
            )
        }
        Kind::Character(character) => mix(mix(sum, 3), u64::from(character)),
        Kind::Here => mix(sum, 4),
        Kind::Operator(operator) => mix(sum, operator_number(operator)),
        Kind::Equals => mix(sum, 5),
        Kind::Comma => mix(sum, 6),
        Kind::Star => mix(sum, 7),
        Kind::Opening(pool) => mix(mix(sum, 16), pool_number(pool)),
        Kind::Closing(pool) => mix(mix(sum, 17), pool_number(pool)),
        Kind::String => mix(sum, 8),
        Kind::Bad => mix(sum, 9),
    }
}

fn token_sum(sum: u64, token: &Token) -> u64 {
    let spaced = mix(sum, u64::from(token.is_spaced));
    mix(mix(kind_sum(spaced, token.kind), token.start), token.end)
}

fn tokens_sum(sum: u64, tokens: &[Token]) -> u64 {
    let mut sum = sum;
    for token in tokens {
        sum = token_sum(sum, token);
    }
    sum
}

fn bytes_sum(sum: u64, bytes: &[u8]) -> u64 {
    let mut sum = sum;
    for byte in bytes {
        sum = mix(sum, u64::from(*byte));
    }
    sum
}

/// The sums with one statement more, the one that the lexer shows.
fn with_statement(sums: Sums, lexer: &Lexer) -> Sums {
    let end = match lexer.end() {
        Some(end) => end_number(end),
        None => 0,
    };
    let begun = mix(
        mix(mix(sums.checksum, lexer.line()), end),
        u64::from(lexer.is_cut()),
    );
    let tokens = lexer.tokens();
    Sums {
        statements: sums.statements.saturating_add(1),
        tokens: sums.tokens.saturating_add(tokens.len() as u64),
        checksum: bytes_sum(tokens_sum(begun, tokens), lexer.string()),
    }
}

fn sums_of(alloc: Global, text: &[u8]) -> Result<Sums, AllocError> {
    let mut lexer = Lexer::new(alloc);
    let mut sums = Sums {
        statements: 0,
        tokens: 0,
        checksum: 0,
    };
    for byte in text {
        if lexer.push(*byte)? {
            sums = with_statement(sums, &lexer);
        }
    }
    Ok(sums)
}

fn main(rt: HostRuntime) -> ExitCode {
    let mut text = Vec::new(rt.alloc());
    if rt.reader().read_to_end(&mut text).is_err() {
        return ExitCode::FAILURE;
    }
    let sums = match sums_of(rt.alloc(), &text) {
        Ok(sums) => sums,
        Err(_) => return ExitCode::FAILURE,
    };
    match println!(rt; "{} {} {}", sums.statements, sums.tokens, sums.checksum) {
        Ok(()) => ExitCode::SUCCESS,
        Err(_) => ExitCode::FAILURE,
    }
}
