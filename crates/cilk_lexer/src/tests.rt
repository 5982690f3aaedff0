use super::{lex, literal_value};
use cilk_ast::{FaultKind, TextFault, TextRefusal, TokenKind};
use std::alloc::{AllocError, Global};
use word_ops::Pos;

/// The lexical fault of a text; none where it has tokens.
fn fault_of(alloc: Global, text: &[u8]) -> Result<Option<TextFault>, AllocError> {
    if text.len() > 1_048_576 {
        return Ok(None);
    }
    match lex(alloc, text) {
        Ok(_) => Ok(None),
        Err(TextRefusal::Fault(fault)) => Ok(Some(fault)),
        Err(TextRefusal::OutOfMemory) => Err(AllocError),
    }
}

#[test]
fn the_first_lexical_fault_and_its_place(rt: HostRuntime) -> Result<(), AllocError> {
    for (text, line, column, kind) in [
        ("#include <cil0k.h>\n  #", 2, 3, FaultKind::BadByte),
        ("#includex <cilk.h>\n", 1, 1, FaultKind::BadByte),
        ("/* a\n*/ #pragma once\n", 2, 4, FaultKind::BadByte),
        ("volatile long #1;", 1, 15, FaultKind::BadByte),
        ("long a = 'x';", 1, 10, FaultKind::BadByte),
        ("printf(\"a\tb", 1, 10, FaultKind::BadByte),
        ("int main() { return 09; }", 1, 21, FaultKind::BadLiteral),
        ("x = 0x + 1LL;", 1, 5, FaultKind::BadLiteral),
        ("9223372036854775808", 1, 1, FaultKind::BadLiteral),
        ("int main() { /* }", 1, 14, FaultKind::OpenComment),
        ("a /*/ b", 1, 3, FaultKind::OpenComment),
        ("int main() { printf(\"%ld", 1, 21, FaultKind::OpenText),
        ("x\n \"\\\"\n", 2, 2, FaultKind::OpenText),
        ("\"a\n09 @ /*", 1, 1, FaultKind::OpenText),
    ] {
        let fault = fault_of(rt.alloc(), text.as_bytes())?;
        let pos = Pos { line, column };
        assert!(rt; fault == Some(TextFault { pos, kind }));
    }
    Ok(())
}

#[test]
fn a_text_and_its_tokens(rt: HostRuntime) -> Result<(), AllocError> {
    let text = "#pragma x /*\nconst long constx = 0x7fL; // \"\nx>>=y <<++ \"a\\\"\";";
    match lex(rt.alloc(), text.as_bytes()) {
        Ok(tokens) => {
            let wanted = [
                (TokenKind::Word, "long", 2, 7),
                (TokenKind::Name, "constx", 2, 12),
                (TokenKind::Mark, "=", 2, 19),
                (TokenKind::Literal, "0x7fL", 2, 21),
                (TokenKind::Mark, ";", 2, 26),
                (TokenKind::Name, "x", 3, 1),
                (TokenKind::Mark, ">>", 3, 2),
                (TokenKind::Mark, "=", 3, 4),
                (TokenKind::Name, "y", 3, 5),
                (TokenKind::Mark, "<<", 3, 7),
                (TokenKind::Mark, "++", 3, 9),
                (TokenKind::Text, "\"a\\\"\"", 3, 12),
                (TokenKind::Mark, ";", 3, 17),
                (TokenKind::Finish, "", 3, 18),
            ];
            assert_eq!(rt; tokens.len(), wanted.len());
            for (token, (kind, spelling, line, column)) in tokens.as_slice().iter().zip(wanted) {
                assert!(rt; token.kind == kind && token.pos == Pos { line, column });
                let bytes = text.as_bytes().get(token.start..token.stop);
                assert_eq!(rt; bytes, Some(spelling.as_bytes()));
            }
            Ok(())
        }
        Err(TextRefusal::OutOfMemory) => Err(AllocError),
        Err(TextRefusal::Fault(_)) => {
            assert!(rt; false);
            Ok(())
        }
    }
}

#[test]
fn the_value_of_a_literal(rt: HostRuntime) {
    assert_eq!(rt; literal_value(b"0XfFl"), Some(255));
    assert_eq!(rt;
        literal_value(b"9223372036854775807"),
        Some(9_223_372_036_854_775_807)
    );
    assert_eq!(rt; literal_value(b"0x8000000000000000"), None);
    assert_eq!(rt; literal_value(b"00"), None);
}
