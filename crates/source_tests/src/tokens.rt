//! Tests the tokens of lines of sources.

use jasmin_lex::{LexFault, Lexeme, Token, tokens};
use std::alloc::Global;
use std::process::Abort;
use std::test::Fail;

/// Lines with their tokens, each after a bar. A word is shown as it is, and a text between angle brackets.
const LINES: [(&str, &str); 15] = [
    ("", ""),
    (" \t ; a comment", ""),
    (";", ""),
    ("Top:", "|Top|(:)"),
    ("a=b", "|a|(=)|b"),
    ("  iload_1 ; loads", "|iload_1"),
    ("a;b", "|a;b"),
    ("a: ;b", "|a|(:)"),
    ("a:;b", "|a|(:)|;b"),
    ("ldc \"a;b : \"x", "|ldc|<a;b : >|x"),
    ("\"a\"\"b\";c", "|<a>|<b>|;c"),
    ("\"\\u0041\\\\\\\"\\'\"", "|<A\\\"'>"),
    ("\"\\n\\r\\t\"", "|<\n\r\t>"),
    ("\"\\u00Ff\"", "|<\u{ff}>"),
    ("\u{a0}\u{1f600}", "|\u{a0}\u{1f600}"),
];

/// Lines with the places of their tokens, each after a bar.
const PLACES: [(&str, &str); 5] = [
    (" ; a comment", ""),
    ("  iload_1 ; loads", "|2..9"),
    ("Top:iinc 0\t1", "|0..3|3..4|4..8|9..10|11..12"),
    ("\"a;b\"= \"\\u0041\" ", "|0..5|5..6|7..15"),
    ("\u{a0}\u{1f600} x", "|0..3|4..5"),
];

/// Lines with a text that isn't closed, or with a malformed escape.
const BAD_LINES: [&str; 8] = [
    "\"",
    "a \"b",
    "\"\\\"",
    "\"\\x\"",
    "\"\\u12\"",
    "\"\\u12g4\"",
    "\"\\U0041\"",
    "\"\\N\"",
];

/// Returns a token as it is shown in `LINES`.
fn shown(alloc: Global, token: &Token) -> Result<String, Fail> {
    Ok(match &token.lexeme {
        Lexeme::Word(units) => String::from_utf16_lossy(alloc, units.as_slice())?,
        Lexeme::Text(units) => {
            let text = String::from_utf16_lossy(alloc, units.as_slice())?;
            format!(in alloc; "<{text}>")?
        }
        Lexeme::Colon => format!(in alloc; "(:)")?,
        Lexeme::Equals => format!(in alloc; "(=)")?,
    })
}

/// Returns the tokens of a line, each after a bar.
fn line(alloc: Global, text: &str) -> Result<String, Fail> {
    let mut all = String::new(alloc);
    for token in &tokens(alloc, text)? {
        all.push('|')?;
        all.push_str(shown(alloc, token)?.as_str())?;
    }
    Ok(all)
}

/// Returns the places of a line's tokens, each after a bar.
fn places(alloc: Global, text: &str) -> Result<String, Fail> {
    let mut all = String::new(alloc);
    for token in &tokens(alloc, text)? {
        let place = format!(in alloc; "|{}..{}", token.start, token.end)?;
        all.push_str(place.as_str())?;
    }
    Ok(all)
}

fn assert_lines(rt: &impl Abort, alloc: Global, lines: &[(&str, &str)]) -> Result<(), Fail> {
    for (text, wanted) in lines {
        let found = line(alloc, *text)?;
        assert!(rt; found.as_str() == *wanted, "{text} is {found}");
    }
    Ok(())
}

fn assert_places(rt: &impl Abort, alloc: Global, lines: &[(&str, &str)]) -> Result<(), Fail> {
    for (text, wanted) in lines {
        let found = places(alloc, *text)?;
        assert!(rt; found.as_str() == *wanted, "{text} has places {found}");
    }
    Ok(())
}

fn assert_bad(rt: &impl Abort, alloc: Global, lines: &[&str]) {
    for text in lines {
        let found = tokens(alloc, *text);
        assert!(rt; found == Err(LexFault::Lexeme), "{text}");
    }
}

#[test]
fn lines_are_tokens(rt: HostRuntime) -> Result<(), Fail> {
    assert_lines(&rt, rt.alloc(), &LINES)?;
    assert_places(&rt, rt.alloc(), &PLACES)?;
    assert_bad(&rt, rt.alloc(), &BAD_LINES);
    Ok(())
}
