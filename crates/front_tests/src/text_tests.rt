use cilk_ast::{FaultKind, TextFault, TextRefusal};
use cilk_lexer::lex;
use cilk_parser::parse;
use std::alloc::{AllocError, Global};
use word_ops::Pos;

/// The fault of a text; none where it spells a tree.
fn fault_of(alloc: Global, text: &[u8]) -> Result<Option<TextFault>, AllocError> {
    if text.len() > 1_048_576 {
        return Ok(None);
    }
    let tokens = match lex(alloc, text) {
        Ok(tokens) => tokens,
        Err(TextRefusal::Fault(fault)) => return Ok(Some(fault)),
        Err(TextRefusal::OutOfMemory) => return Err(AllocError),
    };
    match parse(alloc, text, &tokens) {
        Ok(_) => Ok(None),
        Err(TextRefusal::Fault(fault)) => Ok(Some(fault)),
        Err(TextRefusal::OutOfMemory) => Err(AllocError),
    }
}

#[test]
fn texts_without_a_fault(rt: HostRuntime) -> Result<(), AllocError> {
    for text in [
        "",
        "int main() { return 0; }",
        "long *a, b; replicated long c, *d; void f(void); long *g(long *x, long y) { ; }",
        "int main() { if (1) if (2) ; else ; else { } while (0) for (;;) break; }",
        "int main() { for (long *i = 0; i < 3; ++i) for (i = 0; ; i--) continue; }",
        "int main() { cilk_for (long i = 0; i < 1 + 2; i++) { } cilk_sync; return; }",
        "int main() { long x = cilk_spawn f(1, 2), *y; x = cilk_spawn_at(y) f(); cilk_spawn f(); }",
        "int main() { mw_replicated_init(&c, 1); mw_replicated_init(a + 1, -(long *)b[0][1]); }",
        "int main() { printf(\"%ld\\n\", REMOTE_ADD(a, 1), NODE_ID()); x += !~*p; --x; x++; }",
    ] {
        assert!(rt; fault_of(rt.alloc(), text.as_bytes())?.is_none());
    }
    Ok(())
}

#[test]
fn the_first_fault_and_its_place(rt: HostRuntime) -> Result<(), AllocError> {
    for (text, line, column) in [
        ("int", 1, 4),
        ("int main() { return 0 }", 1, 23),
        ("replicated long q1;\ninline long *", 2, 14),
        ("volatile long g1;\nlong * f2(long *a3, long a4", 2, 28),
        (
            "inline long * f1(long *a2, long a3) {\n  a)[(63L & 7)] += (a",
            2,
            4,
        ),
        ("long g1;\ncilk_sync long q2;", 2, 1),
        ("void f1(long *a2, long *a3, int a4) { }", 1, 29),
        ("int main() { else ; }", 1, 14),
        ("int main() { for (x = cilk_spawn f(); ; ) ; }", 1, 23),
        (
            "int main() { cilk_for (long i = 0; i < 1 < 2; i++) ; }",
            1,
            42,
        ),
        ("int main() { x = y = 1; }", 1, 20),
        ("int main() { printf(x); }", 1, 21),
        ("int main() { mw_replicated_init(1); }", 1, 34),
    ] {
        let fault = fault_of(rt.alloc(), text.as_bytes())?;
        let pos = Pos { line, column };
        let kind = FaultKind::Unexpected;
        assert!(rt; fault == Some(TextFault { pos, kind }));
    }
    Ok(())
}

/// Puts `times` copies of the bytes behind what there is.
fn repeat(all: &mut Vec<u8>, bytes: &[u8], times: usize) -> Result<(), AllocError> {
    for _ in 0..times {
        all.extend_from_slice(bytes)?;
    }
    Ok(())
}

#[test]
fn a_token_may_have_level_64_and_no_more(rt: HostRuntime) -> Result<(), AllocError> {
    for (depth, deep) in [(62, None), (63, Some(78))] {
        let mut text = Vec::new(rt.alloc());
        text.extend_from_slice(b"int main() { x")?;
        repeat(&mut text, b"-", 1)?;
        repeat(&mut text, b"(", depth)?;
        repeat(&mut text, b"1", 1)?;
        repeat(&mut text, b")", depth)?;
        text.extend_from_slice(b"; }")?;
        let fault = fault_of(rt.alloc(), &text)?;
        let wanted = match deep {
            Some(column) => Some(TextFault {
                pos: Pos { line: 1, column },
                kind: FaultKind::TooDeep,
            }),
            None => None,
        };
        assert!(rt; fault == wanted);
    }
    Ok(())
}

#[test]
fn long_texts(rt: HostRuntime) -> Result<(), AllocError> {
    for (part, times) in [
        ("x = 1 + 2;", 2000),
        ("f(1, 2, 3, 4, 5, 6, 7, 8, 9);", 1000),
        ("long a, b, c, d;", 1000),
        ("if (x) { ; } else { ; }", 1000),
    ] {
        let mut text = Vec::new(rt.alloc());
        text.extend_from_slice(b"int main() {")?;
        repeat(&mut text, part.as_bytes(), times)?;
        text.extend_from_slice(b"}")?;
        assert!(rt; fault_of(rt.alloc(), &text)?.is_none());
    }
    Ok(())
}
