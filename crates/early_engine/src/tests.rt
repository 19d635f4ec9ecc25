//! An engine that is made with memory enough. Whose steps come in which order is in the program's books.

use crate::Engine;
use mem_dev::MemVolume;
use page_base::{Name, NoMemory};
use plain_model::{Scripts, Stmt, StmtList};
use std::alloc::Global;
use std::test::Fail;

// One session that enters the source.
fn one_session(alloc: Global, source: &Name) -> Result<Scripts, NoMemory> {
    let mut stmts = StmtList::new(alloc);
    stmts.push(Stmt::UseDb(*source))?;
    let mut scripts = Scripts::new(alloc);
    scripts.push(stmts)?;
    Ok(scripts)
}

// An engine for that session.
fn engine(alloc: Global) -> Result<Engine<MemVolume>, Fail> {
    let shop = Name::read(b"shop").ok().ok_or("no name")?;
    let scripts = one_session(alloc, &shop)?;
    let volume = MemVolume::new(alloc)?;
    let engine = Engine::fresh(alloc, volume, &shop, &shop, 8, scripts);
    Ok(engine.ok().ok_or("no engine")?)
}

#[test]
fn a_session_says_its_statement_and_leaves(rt: HostRuntime) -> Result<(), Fail> {
    let mut engine = engine(rt.alloc())?;
    engine.finish(rt.alloc());
    assert_eq!(rt; engine.book().len(), 2);
    Ok(())
}
