use super::print;
use cilk_ast::{Item, Kind, TExpr, TStmt, Tree};
use std::alloc::{AllocError, Global};
use word_ops::{Box, List, Pos};

const NOWHERE: Pos = Pos { line: 1, column: 1 };

fn text_of(alloc: Global, text: &str) -> Result<List<u8>, AllocError> {
    let mut bytes = List::new(alloc);
    bytes.extend_from_slice(text.as_bytes())?;
    Ok(bytes)
}

fn number(value: i64) -> TExpr {
    TExpr::Number {
        pos: NOWHERE,
        value,
    }
}

/// `main` with these statements.
fn main_of(alloc: Global, body: List<TStmt>) -> Result<Tree, AllocError> {
    let mut items = List::new(alloc);
    items.add(Item::Function {
        pos: NOWHERE,
        result: Kind::Int,
        name_pos: NOWHERE,
        name: text_of(alloc, "main")?,
        params: List::new(alloc),
        body: TStmt::Block(body),
    })?;
    Ok(Tree {
        items,
        end: NOWHERE,
    })
}

#[test]
fn a_statement_has_a_line(rt: HostRuntime) -> Result<(), AllocError> {
    let alloc = rt.alloc();
    let mut body = List::new(alloc);
    body.add(TStmt::Return {
        pos: NOWHERE,
        value: Some(number(0)),
    })?;
    let text = print(alloc, &main_of(alloc, body)?)?;
    assert!(rt; text.as_slice() == b"int main () {\n  return 0;\n}\n".as_slice());
    Ok(())
}

#[test]
fn a_chain_of_indexes_is_printed_from_its_base_on(rt: HostRuntime) -> Result<(), AllocError> {
    let alloc = rt.alloc();
    let mut chain = TExpr::Var {
        pos: NOWHERE,
        name: text_of(alloc, "p")?,
    };
    for i in 0..3 {
        chain = TExpr::Index {
            pos: NOWHERE,
            base: Box::new(alloc, chain)?,
            index: Box::new(alloc, number(i))?,
        };
    }
    let mut body = List::new(alloc);
    body.add(TStmt::Up { left: chain })?;
    let text = print(alloc, &main_of(alloc, body)?)?;
    assert!(rt; text.as_slice() == b"int main () {\n  p [0] [1] [2]++;\n}\n".as_slice());
    Ok(())
}
