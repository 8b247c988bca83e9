//! Core programs, worked out by hand; their agents are shown as core texts.
use super::*;
use agent_core::{Node, Program};
use core_text::print_core;
use std::alloc::Global;
use std::test::Fail;
use tdcc_reader::read_program;

/// The core program of the text.
fn program(alloc: Global, text: &[u8]) -> Result<Program, Fail> {
    let surface = read_program(alloc, text)?;
    Ok(expand(alloc, &surface)?)
}

/// The core text of the program of the text.
fn core(alloc: Global, text: &[u8]) -> Result<Vec<u8>, Fail> {
    let made = program(alloc, text)?;
    let mut written = Vec::new(alloc);
    print_core(&made, &mut written)?;
    Ok(written)
}

/// Why the text has no core program.
fn refusal(alloc: Global, text: &[u8]) -> Result<Option<ExpandFault>, Fail> {
    let surface = read_program(alloc, text)?;
    Ok(expand(alloc, &surface).err())
}

/// The text with so many words `always` between its declarations and its agent.
fn nested(alloc: Global, declared: &[u8], count: usize, agent: &[u8]) -> Result<Vec<u8>, Fail> {
    let mut text = declared.to_vec(alloc)?;
    for _ in 0..count {
        text.extend_from_slice(b"always ")?;
    }
    text.extend_from_slice(agent)?;
    Ok(text)
}

#[test]
fn an_agent_for_always_is_one_for_now_and_for_later(rt: HostRuntime) -> Result<(), Fail> {
    let written = core(rt.alloc(), b"signal a, b; always if a else b")?;
    assert_eq!(rt;
        written.as_slice(),
        b"signal a;\nsignal b;\nif a else b || hence if a else b\n".as_slice()
    );
    Ok(())
}

#[test]
fn a_when_starts_its_agent_where_its_hidden_signal_is_not_on(rt: HostRuntime) -> Result<(), Fail> {
    let written = core(rt.alloc(), b"signal a, b; when a do b")?;
    assert_eq!(rt;
        written.as_slice(),
        b"signal a;\nsignal b;\nnew signal $2 in { if a then { if $2 else b || hence $2 } || hence if a then { if $2 else b || hence $2 } }\n".as_slice()
    );
    Ok(())
}

#[test]
fn each_tell_in_a_watching_waits_for_its_hidden_signal(rt: HostRuntime) -> Result<(), Fail> {
    let written = core(
        rt.alloc(),
        b"signal a, b; do new signal x in {x || next b} watching a",
    )?;
    assert_eq!(rt;
        written.as_slice(),
        b"signal a;\nsignal b;\nnew signal $2 in { { if a then { $2 || hence $2 } || hence if a then { $2 || hence $2 } } || new signal x in { if $2 else x || next if $2 else b } }\n".as_slice()
    );
    Ok(())
}

#[test]
fn a_hence_on_a_clock_asks_for_it_again(rt: HostRuntime) -> Result<(), Fail> {
    let written = core(rt.alloc(), b"signal a, b; time hence b on a")?;
    assert_eq!(rt;
        written.as_slice(),
        b"signal a;\nsignal b;\nnew signal $2 in { if a then { if $2 else hence if a then b || hence $2 } || hence if a then { if $2 else hence if a then b || hence $2 } }\n".as_slice()
    );
    Ok(())
}

#[test]
fn a_next_on_a_clock_waits_for_it_under_a_signal_of_its_own(rt: HostRuntime) -> Result<(), Fail> {
    let written = core(rt.alloc(), b"signal a, b; time next b on a")?;
    assert_eq!(rt;
        written.as_slice(),
        b"signal a;\nsignal b;\nnew signal $2 in { if a then { if $2 else next new signal $3 in { if a then { if $3 else b || hence $3 } || hence if a then { if $3 else b || hence $3 } } || hence $2 } || hence if a then { if $2 else next new signal $4 in { if a then { if $4 else b || hence $4 } || hence if a then { if $4 else b || hence $4 } } || hence $2 } }\n".as_slice()
    );
    Ok(())
}

#[test]
fn each_copy_of_a_new_has_a_cell_of_its_own(rt: HostRuntime) -> Result<(), Fail> {
    let made = program(rt.alloc(), b"signal a; always new signal s in {s || a}")?;
    assert_eq!(rt; made.cells().len(), 3);
    assert_eq!(rt; made.nodes().len(), 10);
    assert!(rt; matches!(made.nodes().get(0), Some(Node::Par { left: 1, right: 5 })));
    assert!(rt; matches!(made.nodes().get(1), Some(Node::New { cell: 1, body: 2 })));
    assert!(rt; matches!(made.nodes().get(5), Some(Node::Hence { body: 6 })));
    assert!(rt; matches!(made.nodes().get(6), Some(Node::New { cell: 2, body: 7 })));
    if let Some(Node::Tell(told)) = made.nodes().get(8) {
        assert_eq!(rt; told.list().first().map(|pair| pair.0), Some(2));
    }
    Ok(())
}

#[test]
fn eleven_nested_always_are_too_many_nodes(rt: HostRuntime) -> Result<(), Fail> {
    let alloc = rt.alloc();
    let ten = nested(alloc, b"signal a; ", 10, b"a")?;
    assert_eq!(rt; program(alloc, &ten)?.nodes().len(), 3070);
    let eleven = nested(alloc, b"signal a; ", 11, b"a")?;
    assert_eq!(rt; refusal(alloc, &eleven)?, Some(ExpandFault::TooManyNodes));
    Ok(())
}

#[test]
fn a_declared_cell_beside_1024_local_ones_is_one_too_many(rt: HostRuntime) -> Result<(), Fail> {
    let alloc = rt.alloc();
    let agent = b"new signal s in s";
    let most = program(alloc, &nested(alloc, b"", 10, agent)?)?;
    assert_eq!(rt; most.nodes().len(), 4094);
    assert_eq!(rt; most.cells().len(), 1024);
    let more = nested(alloc, b"signal a; ", 10, agent)?;
    assert_eq!(rt; refusal(alloc, &more)?, Some(ExpandFault::TooManyCells));
    Ok(())
}

#[test]
fn the_feeder_of_a_copier_has_784_nodes_and_40_cells(rt: HostRuntime) -> Result<(), Fail> {
    let text = b"signal start, jam, tick, motor, idle, done;
        int left in 0..3;
        always if motor else idle ||
        when start do do {
          always motor ||
          time { left=3 || next { left=2 || next { left=1 || next { left=0 || done }}}} on tick
        } watching jam";
    let made = program(rt.alloc(), text)?;
    assert_eq!(rt; made.nodes().len(), 784);
    assert_eq!(rt; made.cells().len(), 40);
    Ok(())
}

#[test]
fn a_chain_of_2000_agents_side_by_side_is_expanded(rt: HostRuntime) -> Result<(), Fail> {
    let alloc = rt.alloc();
    let mut text = b"skip".to_vec(alloc)?;
    for _ in 1..2000 {
        text.extend_from_slice(b" || skip")?;
    }
    assert_eq!(rt; program(alloc, &text)?.nodes().len(), 3999);
    Ok(())
}

#[test]
fn a_refusal_is_shown_by_its_reason(rt: HostRuntime) -> Result<(), Fail> {
    let alloc = rt.alloc();
    let nodes = format!(in alloc; "{}", ExpandFault::TooManyNodes)?;
    assert_eq!(rt; nodes.as_str(), "over 4096 nodes");
    let cells = format!(in alloc; "{}", ExpandFault::TooManyCells)?;
    assert_eq!(rt; cells.as_str(), "over 1024 cells");
    let memory = format!(in alloc; "{}", ExpandFault::Memory)?;
    assert_eq!(rt; memory.as_str(), "out of memory");
    Ok(())
}
