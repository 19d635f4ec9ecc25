//! Calls with ample memory, chosen failures, and that nothing fails over the family that never does.

ghost use Rattle.page_dev.specs.Faults.{HasCause};

use crate::{MemSink, MemSource, SureSink, SureSource};
use page_base::Failed;
use page_dev::{Sink, SinkRefusal, Source};
use std::test::Fail;

fn piece_of<S: Source>(source: &mut S, into: &mut [u8]) -> Result<usize, Failed>
    ensures { HasCause (S.failures source.old) (S.failures source.new) result }
{
    source.read(into)
}

// That no read fails follows from the count alone, which is always 0.
fn sure_piece(source: &mut SureSource, into: &mut [u8]) -> usize {
    piece_of(source, into).unwrap()
}

#[test]
fn reads_fail_by_number(rt: HostRuntime) -> Result<(), Fail> {
    let mut source = MemSource::new(rt.alloc(), b"abcdef", &[2, 4, 4, 0])?;
    let mut piece = [0u8; 4];
    let wanted = [
        (Ok(4), 0),
        (Err(Failed), 1),
        (Ok(2), 1),
        (Err(Failed), 2),
        (Ok(0), 2),
    ];
    for (answer, faults) in wanted {
        assert_eq!(rt; piece_of(&mut source, &mut piece), answer);
        assert_eq!(rt; source.faults(), faults);
    }
    assert_eq!(rt; piece.as_slice(), b"efcd".as_slice());
    Ok(())
}

#[test]
fn writes_fail_by_number(rt: HostRuntime) -> Result<(), Fail> {
    let mut sink = MemSink::new(rt.alloc(), &[1, 3])?;
    let wanted = [
        (Err(SinkRefusal::Failed), 1),
        (Ok(3), 1),
        (Err(SinkRefusal::Failed), 2),
        (Ok(3), 2),
    ];
    for (answer, faults) in wanted {
        assert_eq!(rt; sink.write(b"abc"), answer);
        assert_eq!(rt; sink.faults(), faults);
    }
    assert_eq!(rt; sink.bytes(), b"abcabc".as_slice());
    Ok(())
}

#[test]
fn sure_streams_give_and_take(rt: HostRuntime) -> Result<(), Fail> {
    let mut source = SureSource::new(rt.alloc(), b"abc")?;
    let mut sink = SureSink::new(rt.alloc())?;
    let mut piece = [0u8; 2];
    for count in [2, 1, 0] {
        assert_eq!(rt; sure_piece(&mut source, &mut piece), count);
        assert_eq!(rt; sink.write(&piece), Ok(2));
    }
    assert_eq!(rt; sink.bytes(), b"abcbcb".as_slice());
    assert_eq!(rt; source.faults() + sink.faults(), 0);
    Ok(())
}
