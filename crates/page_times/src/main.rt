//! Makes so many calls on pages of one kind: `fetch FRAMES CALLS` or `push SNAPSHOTS CALLS`. `bench/pages` times it.
#![tactic(auto)]

mod blank;
mod fetches;
mod pages;
mod pushes;
mod words;

use std::process::ExitCode;
use words::{number, words_of};

fn main(rt: HostRuntime) -> ExitCode {
    let alloc = rt.alloc();
    let Ok(words) = words_of(&rt, alloc) else {
        return ExitCode::from(4);
    };
    let [what, over, calls] = words.as_slice() else {
        return ExitCode::from(2);
    };
    let (over, calls) = (number(over), number(calls));
    let done = match what.as_slice() {
        b"fetch" => fetches::fetches(alloc, over, calls),
        b"push" => pushes::pushes(alloc, over, calls),
        _ => return ExitCode::from(2),
    };
    let Some(count) = done else {
        return ExitCode::from(4);
    };
    match println!(rt; "{count}") {
        Ok(()) => ExitCode::from(0),
        Err(_) => ExitCode::from(3),
    }
}
