//! What a failing source, sink, volume or sparse file does to a call. Calls that meet no failure are in the books.

use crate::top::{Ended, still};
use mem_dev::{MemSink, MemSource, MemVolume, SureSink, SureSource};
use page_base::FileName;
use page_dev::{Sink, Source, Volume};
use std::alloc::Global;
use std::test::Fail;

const FIRST: &[u8] =
    b":session 1\nUSE shop\nCREATE TABLE t (id INT PRIMARY KEY, v INT)\nINSERT t VALUES (1, 10)\n";

// The status of a call with one word.
fn status_of<S: Source, K: Sink>(
    alloc: Global,
    word: &[u8],
    input: &mut S,
    out: &mut K,
) -> Result<u8, Fail> {
    let mut words = Vec::new(alloc);
    words.push(word.to_vec(alloc)?)?;
    Ok(still(alloc, &words, MemVolume::new(alloc)?, input, out).status)
}

#[test]
fn a_failing_source_writes_nothing(rt: HostRuntime) -> Result<(), Fail> {
    for read in [1, 2] {
        let mut input = MemSource::new(rt.alloc(), FIRST, &[read])?;
        let mut out = MemSink::new(rt.alloc(), &[])?;
        let status = status_of(rt.alloc(), b"play", &mut input, &mut out)?;
        assert_eq!(rt; status, 5);
        assert_eq!(rt; input.faults(), 1);
        assert_eq!(rt; out.bytes(), b"".as_slice());
    }
    Ok(())
}

#[test]
fn a_failing_sink_is_told_by_the_status(rt: HostRuntime) -> Result<(), Fail> {
    for word in [b"play".as_slice(), b"plya"] {
        let mut input = MemSource::new(rt.alloc(), FIRST, &[])?;
        let mut out = MemSink::new(rt.alloc(), &[1])?;
        let status = status_of(rt.alloc(), word, &mut input, &mut out)?;
        assert_eq!(rt; status, 3);
        assert_eq!(rt; out.faults(), 1);
        assert_eq!(rt; out.bytes(), b"".as_slice());
    }
    Ok(())
}

// How a script ends, and what is written, where these calls of the volume and of the files `s1.ss` fail, counted from
// 1; 0 is no call.
fn failed(
    alloc: Global,
    script: &[u8],
    of_volume: [u64; 2],
    of_file: u64,
) -> Result<(Ended<MemVolume>, Vec<u8>), Fail> {
    let mut volume = MemVolume::new(alloc)?;
    volume.fail(&FileName::read(b"s1.ss")?, of_file)?;
    volume.fail_volume(of_volume[0])?;
    volume.fail_volume(of_volume[1])?;
    let mut words = Vec::new(alloc);
    words.push(b"play".to_vec(alloc)?)?;
    let mut input = SureSource::new(alloc, script)?;
    let mut out = SureSink::new(alloc)?;
    let ended = still(alloc, &words, volume, &mut input, &mut out);
    Ok((ended, out.bytes().to_vec(alloc)?))
}

const ONE_UPDATE: &[u8] =
    b":session 1\nUSE shop\nCREATE TABLE t (id INT PRIMARY KEY, v INT)\nINSERT t VALUES (1, 10)\n\
CREATE DATABASE s1 ON (NAME = shop_data, FILENAME = 's1.ss') AS SNAPSHOT OF shop\nUPDATE t SET v = 20\nUSE s1\n\
SELECT * FROM t\n";

const ONE_UPDATE_FRONT: &[u8] =
    b"1 said 1 0 ok\n1 lock * X\n1 said 2 1 ok\n1 lock * S\n1 lock t X\n1 said 3 3 count 1\n1 cut s1\n\
1 said 4 6 ok\n1 lock * S\n1 lock t X\n";

const TWO_UPDATES: &[u8] =
    b":session 1\nUSE shop\nCREATE TABLE t (id INT PRIMARY KEY, v INT)\nINSERT t VALUES (1, 10)\n\
CREATE DATABASE s1 ON (NAME = shop_data, FILENAME = 's1.ss') AS SNAPSHOT OF shop\nUPDATE t SET v = 10\n\
UPDATE t SET v = 20\n";

// The page of `t` is copied at the UPDATE by the first call of the sparse file, and read by the second. An UPDATE to the
// values that are there copies nothing.
#[test]
fn a_failing_sparse_file_turns_its_snapshot(rt: HostRuntime) -> Result<(), Fail> {
    let cases = [
        (
            ONE_UPDATE,
            0,
            0,
            b"1 said 5 8 count 1\n1 said 6 11 ok\n1 said 7 12 rows 1\n (1,10)\n1 left\n".as_slice(),
        ),
        (
            ONE_UPDATE,
            1,
            1,
            b"turned s1\n1 said 5 8 count 1\n1 said 6 12 msg 926\n1 lock * S\n1 lock t S\n1 said 7 13 rows 1\n (1,20)\n1 left\n",
        ),
        (
            ONE_UPDATE,
            2,
            1,
            b"1 said 5 8 count 1\n1 said 6 11 ok\nturned s1\n1 said 7 12 msg 926\n1 left\n",
        ),
        (
            TWO_UPDATES,
            1,
            1,
            b"1 said 5 8 count 1\n1 lock * S\n1 lock t X\nturned s1\n1 said 6 11 count 1\n1 left\n",
        ),
    ];
    for (script, call, faults, rest) in cases {
        let (ended, written) = failed(rt.alloc(), script, [0, 0], call)?;
        assert_eq!(rt; ended.status, 0);
        assert_eq!(rt; ended.volume.faults(), 0);
        assert_eq!(rt; ended.volume.file_faults(), faults);
        assert_eq!(rt; written.strip_prefix(ONE_UPDATE_FRONT), Some(rest));
    }
    Ok(())
}

// The volume's first call asks whether the name is there, and the second makes the file.
#[test]
fn a_failing_volume_makes_no_snapshot(rt: HostRuntime) -> Result<(), Fail> {
    let script = b":session 1\n\
CREATE DATABASE s1 ON (NAME = shop_data, FILENAME = 's1.ss') AS SNAPSHOT OF shop\nUSE s1\n\
CREATE DATABASE s1 ON (NAME = shop_data, FILENAME = 's1.ss') AS SNAPSHOT OF shop\nUSE s1\n";
    let book =
        b"1 said 1 0 msg 60021\n1 said 2 1 msg 911\n1 cut s1\n1 said 3 2 ok\n1 said 4 4 ok\n1 left\n";
    for call in [1, 2] {
        let (ended, written) = failed(rt.alloc(), script, [call, 0], 0)?;
        assert_eq!(rt; ended.status, 0);
        assert_eq!(rt; ended.volume.faults(), 1);
        assert_eq!(rt; written.as_slice(), book.as_slice());
    }
    Ok(())
}

// Each snapshot takes two calls of the volume, and putting the files back the fifth and the sixth.
#[test]
fn a_file_that_is_not_put_back_is_named(rt: HostRuntime) -> Result<(), Fail> {
    let script = b":session 1\n\
CREATE DATABASE s1 ON (NAME = shop_data, FILENAME = 's1.ss') AS SNAPSHOT OF shop\n\
CREATE DATABASE s2 ON (NAME = shop_data, FILENAME = 's2.ss') AS SNAPSHOT OF shop\n";
    let book = b"1 cut s1\n1 said 1 0 ok\n1 cut s2\n1 said 2 2 ok\n1 left\n";
    let cases = [
        ([0, 0], 0, 0, b"".as_slice()),
        ([5, 0], 7, 1, b"refused: close s1.ss\n"),
        ([6, 0], 7, 1, b"refused: close s2.ss\n"),
        ([5, 6], 7, 2, b"refused: close s1.ss\n"),
    ];
    for (calls, status, faults, line) in cases {
        let (mut ended, written) = failed(rt.alloc(), script, calls, 0)?;
        assert_eq!(rt; ended.status, status);
        assert_eq!(rt; ended.volume.faults(), faults);
        assert_eq!(rt; written.strip_prefix(book.as_slice()), Some(line));
        assert_eq!(rt; ended.volume.has(&FileName::read(b"s1.ss")?), Ok(true));
        assert_eq!(rt; ended.volume.has(&FileName::read(b"s2.ss")?), Ok(true));
    }
    Ok(())
}
