//! One script, read with memory enough. Which scripts are read or refused is a table of the repository's tests.

use crate::read_script;
use plain_model::{Kind, Pick, Until};
use std::test::Fail;

const LAST_PICK: Pick = Pick {
    who: 1,
    until: Until::At(Kind::Say),
};

#[test]
fn sessions_and_picks_are_read(rt: HostRuntime) -> Result<(), Fail> {
    let script = b":session 1\nUSE a USE b\n:session 2\n:schedule\n2! 0 1@say\n";
    let work = read_script(rt.alloc(), script)?;
    assert_eq!(rt; work.scripts.len(), 2);
    assert_eq!(rt; work.scripts.at(0).len(), 2);
    assert_eq!(rt; work.picks.len(), 3);
    assert_eq!(rt; work.picks.as_slice().last(), Some(&LAST_PICK));
    Ok(())
}
