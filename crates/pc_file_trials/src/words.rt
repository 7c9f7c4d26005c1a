use pc_run_words::{Command, read_command};
use std::alloc::Global;
use std::test::Fail;

// The words of a call, one blank between two of them, and the number of nodes that they say. No report tells it: which
// words are a command, and what they name, is among the trials of command lines.
static NODES: [(&str, u32); 16] = [
    ("bound s r c q", 10_000),
    ("bound --nodes 1 s r c q", 1),
    ("bound --nodes 100000 s r c q", 100_000),
    ("bound --nodes=00005 s r c q", 5),
    (
        "bound --nodes 00000000000000000000000000000000000000000000000007 s r c q",
        7,
    ),
    ("bound s r --nodes=5 c q", 5),
    ("prove s r c q p", 10_000),
    ("prove s r c q p --nodes 00005", 5),
    ("prove --nodes 100000 s r c q", 100_000),
    ("conflict s c", 10_000),
    ("conflict s c --nodes 100000", 100_000),
    ("quantile s r c q", 10_000),
    ("quantile s r --nodes=00005 c q", 5),
    ("quantile s r c q --nodes 100000", 100_000),
    ("session s r c t", 10_000),
    ("session s r c t --nodes 1", 1),
];

fn nodes_of(command: &Command<'_>) -> Option<u32> {
    match command {
        Command::Bound(command) => Some(command.nodes),
        Command::Prove(command) => Some(command.nodes),
        Command::Conflict(command) => Some(command.nodes),
        Command::Quantile(command) => Some(command.nodes),
        Command::Session(command) => Some(command.nodes),
        _ => None,
    }
}

fn words_of(alloc: Global, call: &str) -> Result<Vec<String>, Fail> {
    let mut words = Vec::new(alloc);
    for word in call.split(' ') {
        words.push(String::from_str(alloc, word)?)?;
    }
    Ok(words)
}

fn has_nodes(alloc: Global, call: &str, want: u32) -> Result<bool, Fail> {
    let words = words_of(alloc, call)?;
    match read_command(alloc, words.as_slice())? {
        Some(command) => Ok(nodes_of(&command) == Some(want)),
        None => Ok(false),
    }
}

#[test]
fn numbers_of_nodes(rt: HostRuntime) -> Result<(), Fail> {
    for (call, want) in NODES.iter() {
        assert!(rt; has_nodes(rt.alloc(), call, *want)?, "{call}");
    }
    Ok(())
}
