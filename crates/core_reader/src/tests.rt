//! Core texts and their programs, worked out by hand.
use super::*;
use agent_core::{Constraint, Node};
use core_text::print_core;
use std::alloc::Global;
use std::test::Fail;
use tdcc_reader::ReadFault;
use token_system::Token;

/// The refusal of the text.
fn refusal(alloc: Global, text: &[u8]) -> Option<ReadFault> {
    read_core(alloc, text).err()
}

/// The constraint of a node that tells or asks one.
fn constraint(node: Option<&Node>) -> Option<&Constraint> {
    match node {
        Some(Node::Tell(told)) => Some(told),
        Some(Node::Then { ask, .. } | Node::Else { ask, .. }) => Some(ask),
        _ => None,
    }
}

#[test]
fn a_default_is_asked_now_and_later(rt: HostRuntime) -> Result<(), Fail> {
    let made = read_core(
        rt.alloc(),
        b"signal a;\nsignal b;\nif a else b || hence if a else b\n",
    )?;
    assert_eq!(rt; made.declared(), 2);
    assert_eq!(rt; made.cells().len(), 2);
    assert_eq!(rt; made.nodes().len(), 6);
    assert!(rt; matches!(made.nodes().get(0), Some(Node::Par { left: 1, right: 3 })));
    assert!(rt; matches!(made.nodes().get(1), Some(Node::Else { body: 2, .. })));
    assert!(rt; matches!(made.nodes().get(3), Some(Node::Hence { body: 4 })));
    assert!(rt; matches!(made.nodes().get(4), Some(Node::Else { body: 5, .. })));
    assert_eq!(rt;
        constraint(made.nodes().get(4)).map(|ask| ask.list()),
        Some([(0, Token::On)].as_slice())
    );
    assert_eq!(rt;
        constraint(made.nodes().get(5)).map(|told| told.list()),
        Some([(1, Token::On)].as_slice())
    );
    Ok(())
}

#[test]
fn a_local_number_is_a_name_with_a_cell(rt: HostRuntime) -> Result<(), Fail> {
    let made = read_core(
        rt.alloc(),
        b"signal a;\nsignal b;\nnew signal $2 in { if a then { if $2 else b || hence $2 } || b }\n",
    )?;
    assert_eq!(rt; made.declared(), 2);
    assert_eq!(rt; made.cells().len(), 3);
    if let Some(local) = made.cells().get(2) {
        assert_eq!(rt; local.name.bytes(), b"$2".as_slice());
    }
    assert_eq!(rt; made.nodes().len(), 9);
    assert!(rt; matches!(made.nodes().get(0), Some(Node::New { cell: 2, body: 1 })));
    assert!(rt; matches!(made.nodes().get(1), Some(Node::Par { left: 2, right: 8 })));
    assert!(rt; matches!(made.nodes().get(2), Some(Node::Then { body: 3, .. })));
    assert!(rt; matches!(made.nodes().get(3), Some(Node::Par { left: 4, right: 6 })));
    assert!(rt; matches!(made.nodes().get(4), Some(Node::Else { body: 5, .. })));
    assert!(rt; matches!(made.nodes().get(6), Some(Node::Hence { body: 7 })));
    assert_eq!(rt;
        constraint(made.nodes().get(4)).map(|ask| ask.list()),
        Some([(2, Token::On)].as_slice())
    );
    Ok(())
}

#[test]
fn what_is_read_is_printed_as_it_was(rt: HostRuntime) -> Result<(), Fail> {
    let alloc = rt.alloc();
    let text =
        b"signal a;\nint x in -5..9;\nnew signal $2 in { if #a & x>=-5 then $2 || hence next !a }\n";
    let made = read_core(alloc, text)?;
    let mut printed = Vec::new(alloc);
    print_core(&made, &mut printed)?;
    assert_eq!(rt; printed.as_slice(), text.as_slice());
    Ok(())
}

#[test]
fn the_words_of_derived_forms_are_no_core(rt: HostRuntime) {
    let alloc = rt.alloc();
    assert_eq!(rt;
        refusal(alloc, b"signal a; always a"),
        Some(ReadFault::Syntax { lexeme: 3 })
    );
    assert_eq!(rt; refusal(alloc, b"new signal $123456789 in skip"), None);
    assert_eq!(rt;
        refusal(alloc, b"new signal $1234567890 in skip"),
        Some(ReadFault::Syntax { lexeme: 3 })
    );
}

/// A text that begins so and ends so, with so many such parts between.
fn repeated(
    alloc: Global,
    front: &[u8],
    count: usize,
    part: &[u8],
    back: &[u8],
) -> Result<Vec<u8>, Fail> {
    let mut text = front.to_vec(alloc)?;
    for _ in 0..count {
        text.extend_from_slice(part)?;
    }
    text.extend_from_slice(back)?;
    Ok(text)
}

#[test]
fn an_equation_is_two_of_sixteen_tokens(rt: HostRuntime) -> Result<(), Fail> {
    let alloc = rt.alloc();
    let head = b"int x in 0..9; ";
    assert_eq!(rt;
        refusal(alloc, &repeated(alloc, head, 15, b"x>=1 & ", b"x<=8")?),
        None
    );
    assert_eq!(rt;
        refusal(alloc, &repeated(alloc, head, 16, b"x>=1 & ", b"x<=8")?),
        Some(ReadFault::TooManyTokens { lexeme: 71 })
    );
    assert_eq!(rt;
        refusal(alloc, &repeated(alloc, head, 14, b"x>=1 & ", b"x=1")?),
        None
    );
    assert_eq!(rt;
        refusal(alloc, &repeated(alloc, head, 15, b"x>=1 & ", b"x=1")?),
        Some(ReadFault::TooManyTokens { lexeme: 67 })
    );
    Ok(())
}

#[test]
fn units_nest_8192_deep(rt: HostRuntime) -> Result<(), Fail> {
    let alloc = rt.alloc();
    let deepest = repeated(alloc, b"", 8_191, b"next ", b"skip")?;
    assert_eq!(rt; refusal(alloc, &deepest), Some(ReadFault::TooManyNodes));
    let deeper = repeated(alloc, b"", 8_192, b"next ", b"skip")?;
    assert_eq!(rt;
        refusal(alloc, &deeper),
        Some(ReadFault::TooDeep { lexeme: 8_192 })
    );
    Ok(())
}

#[test]
fn a_program_nests_4096_nodes_deep(rt: HostRuntime) -> Result<(), Fail> {
    let alloc = rt.alloc();
    let deepest = repeated(alloc, b"", 4_095, b"next ", b"skip")?;
    let made = read_core(alloc, &deepest)?;
    assert_eq!(rt; made.nodes().len(), 4_096);
    assert!(rt; matches!(made.nodes().get(4_094), Some(Node::Next { body: 4_095 })));
    assert!(rt; matches!(made.nodes().get(4_095), Some(Node::Skip)));
    let deeper = repeated(alloc, b"", 4_096, b"next ", b"skip")?;
    assert_eq!(rt; refusal(alloc, &deeper), Some(ReadFault::TooManyNodes));
    Ok(())
}

#[test]
fn nodes_are_told_before_cells(rt: HostRuntime) -> Result<(), Fail> {
    let alloc = rt.alloc();
    let most = repeated(alloc, b"", 2_047, b"skip || ", b"hence skip")?;
    assert_eq!(rt; read_core(alloc, &most)?.nodes().len(), 4_096);
    let more = repeated(alloc, b"", 2_048, b"skip || ", b"skip")?;
    assert_eq!(rt; refusal(alloc, &more), Some(ReadFault::TooManyNodes));
    let local = b"new signal $1 in skip || ";
    let most = repeated(alloc, b"", 1_024, local, b"skip")?;
    assert_eq!(rt; read_core(alloc, &most)?.cells().len(), 1_024);
    let more = repeated(alloc, b"", 1_025, local, b"skip")?;
    assert_eq!(rt; refusal(alloc, &more), Some(ReadFault::TooManyCells));
    let both = repeated(alloc, b"", 1_400, local, b"skip")?;
    assert_eq!(rt; refusal(alloc, &both), Some(ReadFault::TooManyNodes));
    Ok(())
}
