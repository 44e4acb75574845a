//! Holds worked conversations with the broker, which are read from standard input, and compares each
//! reply byte for byte.
//!
//! The text has groups of conversations (`conversations`), and each request is a connection of its own. The
//! program prints a line for each group. On standard error it says which replies, states and orders are
//! others than those of the text, and it ends with status 1 then.
#![tactic(auto)]

use std::io;
use std::process::ExitCode;
use std::test::Fail;
use tests_worked::conversations::{Conversation, Group, read};
use tests_worked::held::hold;

/// Holds a conversation, and prints what differs. Says whether nothing does.
fn goes_as_written(
    rt: &HostRuntime,
    group: &str,
    conversation: &Conversation,
) -> Result<bool, Fail> {
    let name = conversation.name.as_str();
    match hold(rt.alloc(), conversation) {
        Ok(differences) => {
            for difference in &differences {
                eprintln!(rt; "{group}/{name}: {difference}")?;
            }
            Ok(differences.is_empty())
        }
        Err(fault) => {
            // If this can't be written, the fault is still said.
            let _ = eprintln!(rt; "{group}/{name} can't be held:");
            Err(fault)
        }
    }
}

/// The same of all conversations of a group.
fn go_as_written(rt: &HostRuntime, group: &Group) -> Result<bool, Fail> {
    let mut are_right = true;
    for conversation in &group.conversations {
        let is_right = goes_as_written(rt, group.name.as_str(), conversation)?;
        are_right = are_right && is_right;
    }
    Ok(are_right)
}

fn main(rt: HostRuntime) -> Result<ExitCode, Fail> {
    let text = io::read_to_string(rt.alloc(), rt.stdin())?;
    let groups = read(rt.alloc(), text.as_str())?;
    let mut are_right = true;
    for group in &groups {
        let is_right = go_as_written(&rt, group)?;
        are_right = are_right && is_right;
        let how = if is_right { "as written" } else { "otherwise" };
        println!(rt; "{}: {how}", group.name)?;
    }
    Ok(if are_right {
        ExitCode::SUCCESS
    } else {
        ExitCode::FAILURE
    })
}
