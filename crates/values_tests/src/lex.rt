// The tokens of pieces, and the pieces of scripts.
use star_lex::{LexFault, TokenKind, Tokens, begins_name, is_name_byte, pieces, tokens};
use std::alloc::{AllocError, Global};
use std::test::Fail;

// Pieces, each with the kinds, the contents and the spans of its tokens, or with its first fault.
const TOKENS: [(&[u8], &str); 22] = [
    (b"", ""),
    (b" \t\r\n-- ' ;", ""),
    (b"_a1 B\r\n\tc--'\n;", "BadByte { at: 13 }"),
    (
        b"_a1 B\r\n\tc--'\nd",
        "name _a1 0-3 name b 4-5 name c 8-9 name d 13-14 ",
    ),
    (b"1a", "number 1 0-1 name a 1-2 "),
    (b"a--b", "name a 0-1 "),
    (b"00000000000000000001", "number 1 0-20 "),
    (b"999999999999999", "number 999999999999999 0-15 "),
    (b"1 1000000000000000", "LongNumber { at: 2 }"),
    (b"'it''s'", "text it's 0-7 "),
    (b"''''''", "text '' 0-6 "),
    (b"''a' '", "text  0-2 name a 2-3 text   3-6 "),
    (b"'\xc3\xa9 --;'", "text \u{e9} --; 0-8 "),
    (
        b"<=>=<>()",
        "LessEqual 0-2 GreaterEqual 2-4 Unequal 4-6 Left 6-7 Right 7-8 ",
    ),
    (
        b",.*+-=<>",
        "Comma 0-1 Dot 1-2 Star 2-3 Plus 3-4 Minus 4-5 Equal 5-6 Unequal 6-8 ",
    ),
    (b"< >", "Less 0-1 Greater 2-3 "),
    (b"a'", "OpenText { at: 1 }"),
    (b"'a''", "OpenText { at: 0 }"),
    (b"a != b", "BadByte { at: 2 }"),
    (b"a;", "BadByte { at: 1 }"),
    (b"a \xff", "BadByte { at: 2 }"),
    (b"a '\xff'", "BadByte { at: 2 }"),
];

// Pieces, each with its tokens one behind the other, or with its first fault: how many are left, the mark in front and
// the one behind the first, whether the word b stands in front, and what the first says.
const STEPS: [(&[u8], &str); 7] = [
    (b"", ""),
    (b" --\n--b", ""),
    (
        b"-- (\nB--,\n,b",
        "3 None Some(Comma) true name b; 2 Some(Comma) None false Comma; 1 None None true name b; ",
    ),
    (
        b"\tbb'b'<=- -1",
        "6 None None false name bb; 5 None Some(LessEqual) false text b; 4 Some(LessEqual) Some(Minus) false LessEqual; 3 Some(Minus) Some(Minus) false Minus; 2 Some(Minus) None false Minus; 1 None None false number 1; ",
    ),
    (b"b --", "1 None None true name b; "),
    (b"b 'b", "OpenText { at: 2 }"),
    (b"b 1000000000000000 ?", "LongNumber { at: 2 }"),
];

// Scripts, each with the spans of its pieces.
const PIECES: [(&[u8], &str); 1] = [(b"a';';--;\n;", "0-4 5-9 10-10 ")];

// Bytes, each with whether a name can begin with it and whether a name can go on with it.
const NAME_BYTES: [(u8, bool, bool); 4] = [
    (b'Z', true, true),
    (b'_', true, true),
    (b'0', false, true),
    (b'-', false, false),
];

fn kind_text(alloc: Global, kind: &TokenKind) -> Result<String, AllocError> {
    match kind {
        TokenKind::Name(word) => format!(in alloc; "name {}", word.as_str()),
        TokenKind::Number(number) => format!(in alloc; "number {number}"),
        TokenKind::Text(word) => format!(in alloc; "text {}", word.as_str()),
        TokenKind::Symbol(mark) => format!(in alloc; "{mark:?}"),
    }
}

// Each token as its kind, its content and its span, or the fault.
fn tokens_text(alloc: Global, piece: &[u8]) -> Result<String, AllocError> {
    let mut line = String::new(alloc);
    if piece.len() > 100 {
        return Ok(line);
    }
    let read = match tokens(alloc, piece) {
        Ok(read) => read,
        Err(fault) => return format!(in alloc; "{fault:?}"),
    };
    for token in read.as_slice() {
        let kind = kind_text(alloc, &token.kind)?;
        line.push_str(&format!(in alloc; "{} {}-{} ", kind, token.start, token.end)?)?;
    }
    Ok(line)
}

// The tokens as in STEPS.
fn steps_text(alloc: Global, read: Result<Tokens, LexFault>) -> Result<String, AllocError> {
    let mut left = match read {
        Ok(read) => read,
        Err(fault) => return format!(in alloc; "{fault:?}"),
    };
    let mut line = String::new(alloc);
    for _ in 0..100 {
        let Some((kind, behind)) = left.next(alloc)? else {
            break;
        };
        let says = kind_text(alloc, &kind)?;
        line.push_str(&format!(in alloc;
            "{} {:?} {:?} {} {}; ",
            left.len(),
            left.mark(),
            left.behind().mark(),
            left.is_word("b"),
            says
        )?)?;
        left = behind;
    }
    Ok(line)
}

// Each piece as its span.
fn pieces_text(alloc: Global, script: &[u8]) -> Result<String, AllocError> {
    let mut line = String::new(alloc);
    if script.len() > 100 {
        return Ok(line);
    }
    let spans = pieces(alloc, script)?;
    for span in spans.as_slice() {
        line.push_str(&format!(in alloc; "{}-{} ", span.start, span.end)?)?;
    }
    Ok(line)
}

#[test]
fn tokens_are_read(rt: HostRuntime) -> Result<(), Fail> {
    for (piece, want) in TOKENS {
        let line = tokens_text(rt.alloc(), piece)?;
        assert_eq!(rt; line.as_str(), want, "where {want} is wanted");
    }
    Ok(())
}

#[test]
fn tokens_are_cut(rt: HostRuntime) -> Result<(), Fail> {
    for (piece, want) in STEPS {
        assert!(rt; piece.len() < 100, "at {want}");
        let line = steps_text(rt.alloc(), Tokens::of_piece(rt.alloc(), piece))?;
        assert_eq!(rt; line.as_str(), want, "where {want} is wanted");
    }
    Ok(())
}

#[test]
fn cut_tokens_are_the_listed_ones(rt: HostRuntime) -> Result<(), Fail> {
    for (piece, want) in TOKENS {
        assert!(rt; piece.len() < 100, "at {want}");
        let read = tokens(rt.alloc(), piece);
        let listed = match &read {
            Ok(read) => Ok(Tokens::of_list(read.as_slice())),
            Err(fault) => Err(*fault),
        };
        let listed = steps_text(rt.alloc(), listed)?;
        let cut = steps_text(rt.alloc(), Tokens::of_piece(rt.alloc(), piece))?;
        assert_eq!(rt; cut.as_str(), listed.as_str(), "where {want} is wanted");
    }
    Ok(())
}

#[test]
fn pieces_are_found(rt: HostRuntime) -> Result<(), Fail> {
    for (script, want) in PIECES {
        let line = pieces_text(rt.alloc(), script)?;
        assert_eq!(rt; line.as_str(), want, "where {want} is wanted");
    }
    Ok(())
}

#[test]
fn name_bytes_are_known(rt: HostRuntime) {
    for (byte, begins, goes_on) in NAME_BYTES {
        let read = (begins_name(byte), is_name_byte(byte));
        assert_eq!(rt; read, (begins, goes_on), "at {byte}");
    }
}
