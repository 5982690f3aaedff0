use cilk_ast::{FaultKind, Item, Kind, TExpr, TStmt, TValue, TextFault, Tree};
use cilk_types::tree_fault;
use std::alloc::{AllocError, Global};
use std::mem::ManuallyDrop;
use word_ops::{Box, List, Pos};

fn at(column: u32) -> Pos {
    Pos { line: 1, column }
}

fn text(alloc: Global, bytes: &[u8]) -> Result<List<u8>, AllocError> {
    let mut text = List::new(alloc);
    text.extend_from_slice(bytes)?;
    Ok(text)
}

/// `int main() { .. }`
fn main_of(alloc: Global, body: List<TStmt>) -> Result<Item, AllocError> {
    Ok(Item::Function {
        pos: at(1),
        result: Kind::Int,
        name_pos: at(5),
        name: text(alloc, b"main")?,
        params: List::new(alloc),
        body: TStmt::Block(body),
    })
}

/// `int main() { .. }` with one statement, which ends at a column.
fn main_file(alloc: Global, statement: TStmt, end: u32) -> Result<Tree, AllocError> {
    let mut body = List::new(alloc);
    body.add(statement)?;
    let mut items = List::new(alloc);
    items.add(main_of(alloc, body)?)?;
    Ok(Tree {
        items,
        end: at(end),
    })
}

fn variable(alloc: Global, column: u32, name: &[u8]) -> Result<TExpr, AllocError> {
    Ok(TExpr::Var {
        pos: at(column),
        name: text(alloc, name)?,
    })
}

fn number(column: u32, value: i64) -> TExpr {
    TExpr::Number {
        pos: at(column),
        value,
    }
}

/// `long name = value;`
fn local(alloc: Global, column: u32, name: &[u8], value: i64) -> Result<TStmt, AllocError> {
    Ok(TStmt::Local {
        pos: at(column),
        kind: Kind::Long,
        name: text(alloc, name)?,
        value: Some(TValue::Plain(number(column, value))),
    })
}

/// `cilk_for (long name = 0; name < 2; name++) body`
fn each(alloc: Global, name: &[u8], body: TStmt) -> Result<TStmt, AllocError> {
    Ok(TStmt::CilkFor {
        pos: at(14),
        name: text(alloc, name)?,
        low: number(14, 0),
        second: (at(14), text(alloc, name)?),
        high: number(14, 2),
        third: (at(14), text(alloc, name)?),
        body: Box::new(alloc, body)?,
    })
}

/// `int main() { return e; }`
fn returns(alloc: Global, e: TExpr) -> Result<Tree, AllocError> {
    let statement = TStmt::Return {
        pos: at(14),
        value: Some(e),
    };
    main_file(alloc, statement, 25)
}

/// `left = 2;`
fn assignment(left: TExpr) -> TStmt {
    TStmt::Assign {
        pos: at(16),
        left,
        value: TValue::Plain(number(18, 2)),
    }
}

/// `int main() { left = 2; }`
fn assigns(alloc: Global, left: TExpr) -> Result<Tree, AllocError> {
    main_file(alloc, assignment(left), 22)
}

/// `x[0][0]..` with so many indexes.
fn chain(alloc: Global, levels: u32) -> Result<TExpr, AllocError> {
    let mut e = variable(alloc, 14, b"x")?;
    for _ in 0..levels {
        let index = number(16, 0);
        e = TExpr::Index {
            pos: at(15),
            base: Box::new(alloc, e)?,
            index: Box::new(alloc, index)?,
        };
    }
    Ok(e)
}

/// The first fault of a tree that was made, if there is memory.
fn found(alloc: Global, tree: Result<Tree, AllocError>) -> Result<Option<TextFault>, AllocError> {
    let tree = tree?;
    tree_fault(alloc, &tree)
}

fn is_fault(found: Result<Option<TextFault>, AllocError>, column: u32, kind: FaultKind) -> bool {
    match found {
        Ok(Some(fault)) => fault.pos == at(column) && fault.kind == kind,
        _ => false,
    }
}

#[test]
fn a_good_tree_has_no_fault(rt: HostRuntime) {
    let alloc = rt.alloc();
    let good = match found(alloc, returns(alloc, number(21, 0))) {
        Ok(None) => true,
        _ => false,
    };
    assert!(rt; good);
}

#[test]
fn first_faults_stand_where_the_language_says(rt: HostRuntime) {
    let alloc = rt.alloc();
    let empty = Tree {
        items: List::new(alloc),
        end: at(1),
    };
    assert!(rt; is_fault(found(alloc, Ok(empty)), 1, FaultKind::NoMain));
    let unknown = match variable(alloc, 21, b"x") {
        Ok(e) => found(alloc, returns(alloc, e)),
        Err(e) => Err(e),
    };
    assert!(rt; is_fault(unknown, 21, FaultKind::Unknown));
    let one = found(alloc, assigns(alloc, number(14, 1)));
    assert!(rt; is_fault(one, 14, FaultKind::NotAPlace));
}

#[test]
fn a_chain_of_a_text_of_a_megabyte_is_judged(rt: HostRuntime) {
    let alloc = rt.alloc();
    let judged = match chain(alloc, 349000) {
        Ok(e) => match main_file(alloc, TStmt::Eval(e), 30) {
            Ok(tree) => {
                let tree = ManuallyDrop::new(tree);
                is_fault(tree_fault(alloc, &tree), 14, FaultKind::Unknown)
            }
            Err(_) => false,
        },
        Err(_) => false,
    };
    assert!(rt; judged);
}

/// The first fault of `int main() { .. }` with one statement.
fn found_in_main(alloc: Global, statement: TStmt) -> Result<Option<TextFault>, AllocError> {
    found(alloc, main_file(alloc, statement, 40))
}

#[test]
fn rules_of_statements_are_broken_at_their_places(rt: HostRuntime) -> Result<(), AllocError> {
    let alloc = rt.alloc();
    let escapes = TStmt::Break { pos: at(14) };
    assert!(rt; is_fault(found_in_main(alloc, escapes), 14, FaultKind::Escapes));
    let no_value = TStmt::Return {
        pos: at(14),
        value: None,
    };
    assert!(rt; is_fault(found_in_main(alloc, no_value), 14, FaultKind::WrongType));
    let inner = each(alloc, b"i", assignment(variable(alloc, 30, b"i")?))?;
    assert!(rt; is_fault(found_in_main(alloc, inner), 30, FaultKind::AssignsOuter));
    Ok(())
}

#[test]
fn of_two_declarations_the_second_is_the_fault(rt: HostRuntime) -> Result<(), AllocError> {
    let alloc = rt.alloc();
    let mut both = List::new(alloc);
    both.add(local(alloc, 21, b"x", 0)?)?;
    both.add(local(alloc, 33, b"x", 0)?)?;
    let found = found_in_main(alloc, TStmt::Block(both));
    assert!(rt; is_fault(found, 33, FaultKind::Twice));
    Ok(())
}

#[test]
fn a_bad_format_is_a_fault_at_its_text(rt: HostRuntime) -> Result<(), AllocError> {
    let alloc = rt.alloc();
    let print = TExpr::Print {
        pos: at(14),
        text_pos: at(21),
        format: text(alloc, b"%")?,
        args: List::new(alloc),
    };
    let found = found_in_main(alloc, TStmt::Eval(print));
    assert!(rt; is_fault(found, 21, FaultKind::BadFormat));
    Ok(())
}
