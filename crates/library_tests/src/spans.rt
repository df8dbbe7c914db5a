//! The places of tokens in their sources, which no run of the program shows.

use pal_lex::{Kind, Lexer, Statement};
use std::alloc::Global;
use std::slice;

/// Sources, in which a bar stands for CR and LF, `^` for LF, and `~` stands between several sources that are one. Each of their
/// statements has its line, its source, and of each token the places of its first byte and after its last one. There an `x`
/// stands for a name, a number or `.`, and a point for another. A fault has no statement.
const ROWS: &str = "\
1;^ T^AD \t I 17/;| -> ;01/00x00-01;01/00x04-08.08-09x11-12.12-13x13-15
A, B = 1 - 2 + 3$ -> ;01/00x00-01.01-02x03-04.05-06x07-08.09-10x11-12.13-14x15-16
/ABC|* .\t+ABCDEFGH$ -> ;01/00;02/00.06-07x08-09.10-11x11-19
1;8;$ -> ;01/00x00-01
A=1|PAUSE|8!~A|~$ -> ;01/00x00-01.01-02x02-03;02/00x05-10;02/01x00-01
 A;/|B; PAUSE;8~ C ,|TAD\t1;PAUSE$8~$ -> ;01/00x01-02;01/00;02/00x06-07;02/00x09-14;02/01x01-02.03-04;03/01x06-09.09-10x10-11;03/01x12-17;03/02
1$|2~8!$~ -> ;01/00x00-01
";

/// The two halves of a line, which ` -> ` separates.
fn halves(line: &str) -> (&str, &str) {
    match line.split_once(" -> ") {
        Some(halves) => halves,
        None => (line, "a line with no arrow"),
    }
}

/// What a byte of a source stands for.
fn meaning(byte: &u8) -> &[u8] {
    match *byte {
        b'|' => b"\r\n",
        b'^' => b"\n",
        _ => slice::from_ref(byte),
    }
}

/// Puts down the bytes of a source, in which a bar stands for CR and LF, and `^` for LF.
fn put_source(bytes: &mut Vec<u8>, source: &str) {
    for byte in source.as_bytes() {
        let _ = bytes.extend_from_slice(meaning(byte));
    }
}

/// Puts down a mark and a number of two digits.
fn put_number(text: &mut Vec<u8>, mark: u8, number: u64) {
    let tens = b'0' + (number / 10 % 10) as u8;
    let ones = b'0' + (number % 10) as u8;
    let _ = text.extend_from_slice(&[mark, tens, ones]);
}

/// Puts down a statement's line, its source and its tokens.
fn put_statement(text: &mut Vec<u8>, statement: &Statement) {
    put_number(text, b';', statement.line);
    put_number(text, b'/', statement.source as u64);
    for token in statement.tokens.as_slice() {
        let mark = if matches!(token.kind, Kind::Term(_)) {
            b'x'
        } else {
            b'.'
        };
        put_number(text, mark, token.start as u64);
        put_number(text, b'-', token.end as u64);
    }
}

/// Puts down the statements of sources.
fn put_all(text: &mut Vec<u8>, lexer: &mut Lexer, bytes: &[u8]) {
    for (place, byte) in bytes.iter().enumerate() {
        if *byte == b'~' {
            let (_, others) = bytes.split_at(place.wrapping_add(1).min(bytes.len()));
            let _ = lexer.next_source(!others.contains(&b'~'));
        } else if let Ok(Some(statement)) = lexer.push(*byte) {
            put_statement(text, &statement);
        }
    }
}

/// Whether the statements and tokens of a line's source are those that it gives.
fn is_so(alloc: Global, line: &str) -> bool {
    let (source, wanted) = halves(line);
    let mut bytes = Vec::new(alloc);
    put_source(&mut bytes, source);
    let mut text = Vec::new(alloc);
    put_all(&mut text, &mut Lexer::several(alloc), &bytes);
    text.as_slice() == wanted.as_bytes()
}

#[test]
fn tokens(rt: HostRuntime) {
    for line in ROWS.lines() {
        assert!(rt; is_so(rt.alloc(), line), "at {line}");
    }
}
