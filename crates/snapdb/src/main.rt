//! Database snapshots on sparse files: plays a script of SQL and prints the history of what happened.
#![tactic(auto)]

mod adapters;
mod stream;
#[cfg(test)]
mod tests;
mod text;
mod top;
mod words;

use adapters::{InSource, OutSink};
use mem_dev::MemVolume;
use std::alloc::{AllocError, Global};
use std::process::ExitCode;
use std::rt::Env;

// The words after the program's own name. Words that can't be had are no command.
fn words_of(rt: &(impl Env + Alloc), alloc: Global) -> Result<Vec<Vec<u8>>, AllocError> {
    let mut words = Vec::new(alloc);
    if let Ok(args) = std::env::args(rt) {
        for word in args.skip(1) {
            words.push(word.as_bytes().to_vec(alloc)?)?;
        }
    }
    Ok(words)
}

fn main(rt: HostRuntime) -> ExitCode {
    let alloc = rt.alloc();
    let Ok(words) = words_of(&rt, alloc) else {
        return ExitCode::from(4);
    };
    let Ok(volume) = MemVolume::new(alloc) else {
        return ExitCode::from(4);
    };
    let mut input = InSource::new(rt.stdin());
    let mut out = OutSink::new(rt.stdout());
    let ended = top::still(alloc, &words, volume, &mut input, &mut out);
    ExitCode::from(ended.status)
}
