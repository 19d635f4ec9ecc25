//! Volumes and their files in memory: each call once with ample memory, which calls fail, names that are taken, and lengths.

ghost use Rattle.std.specs.Prelude.{◌≡◌, OnOk, true};
ghost use Rattle.std.specs.FinMap as map;
ghost use Rattle.std.specs.FinSet as set;
ghost use Rattle.mem_dev.specs.Out.{out_of};
ghost use Rattle.mem_dev.specs.Shelf.{lies};

use crate::{MemVolume, SureVolume};
use page_base::{FileName, Image, NoMemory};
use page_dev::{LogFile, LogRefusal, PageFile, VolRefusal, Volume};
use std::alloc::Global;
use std::process::Abort;
use std::test::Fail;

fn named(text: &[u8]) -> Result<FileName, Fail> {
    Ok(FileName::read(text)?)
}

fn image_of(alloc: Global, byte: u8) -> Result<Image, NoMemory> {
    let mut image = Image::blank(alloc)?;
    image.set_bytes(&[byte; 8192]);
    Ok(image)
}

// A read or write of a page, with the byte that the page has or gets.
#[derive(Clone, Copy, Debug)]
enum Call {
    Read(u32, u8),
    Write(u32, u8),
}

// Whether the page is there, is read, and has the byte at its end.
fn reads<F: PageFile>(file: &mut F, n: u32, byte: u8, image: &mut Image) -> bool {
    n < file.pages() && file.read_page(n, image).is_ok() && image.bytes()[8191] == byte
}

// Whether the page is there, and is written.
fn writes<F: PageFile>(file: &mut F, n: u32, from: &Image) -> bool {
    n < file.pages() && file.write_page(n, from).is_ok()
}

// Whether the call succeeds, and finds what it is to find.
fn succeeds<F: PageFile>(alloc: Global, file: &mut F, call: Call) -> Result<bool, NoMemory> {
    match call {
        Call::Read(n, byte) => Ok(reads(file, n, byte, &mut image_of(alloc, 255)?)),
        Call::Write(n, byte) => Ok(writes(file, n, &image_of(alloc, byte)?)),
    }
}

// Makes the calls, of which those marked are to succeed; how many did as marked before the first that didn't.
fn play<F: PageFile>(
    alloc: Global,
    file: &mut F,
    calls: &[(Call, bool)],
) -> Result<usize, NoMemory> {
    for (i, (call, done)) in calls.iter().enumerate() {
        if succeeds(alloc, file, *call)? != *done {
            return Ok(i);
        }
    }
    Ok(calls.len())
}

// Takes a file of so many pages, and puts it back after these calls; how many went as marked.
#[tactic(auto, using(page_dev::proofs::OutLemmas::taken_out, page_dev::proofs::OutLemmas::put_back, crate::proofs::CallerLemmas::none_is_out))]
fn visit<V: Volume>(
    alloc: Global,
    volume: &mut V,
    name: &FileName,
    pages: u32,
    calls: &[(Call, bool)],
) -> Result<usize, VolRefusal>
    requires { V.out volume.old ≡ set.empty }
    ensures { V.out volume.new ≡ set.empty }
{
    let mut file = volume.take_pages(name, pages)?;
    let count = play(alloc, &mut file, calls);
    match volume.put_pages(name, file) {
        Ok(()) => Ok(count?),
        Err(_) => Err(VolRefusal::Failed),
    }
}

// Makes a file of so many pages, and puts it back.
#[tactic(auto, using(page_dev::proofs::OutLemmas::taken_out, page_dev::proofs::OutLemmas::put_back, crate::proofs::CallerLemmas::none_is_out))]
fn make<V: Volume>(volume: &mut V, name: &FileName, pages: u32) -> Result<bool, VolRefusal>
    requires { V.out volume.old ≡ set.empty }
    ensures { V.out volume.new ≡ set.empty }
{
    let file = volume.create_pages(name, pages)?;
    match volume.put_pages(name, file) {
        Ok(()) => Ok(true),
        Err(_) => Err(VolRefusal::Failed),
    }
}

// Makes a log, and puts it back.
#[tactic(auto, using(page_dev::proofs::OutLemmas::taken_out, page_dev::proofs::OutLemmas::put_back, crate::proofs::CallerLemmas::none_is_out))]
fn make_log<V: Volume>(volume: &mut V, name: &FileName) -> Result<bool, VolRefusal>
    requires { V.out volume.old ≡ set.empty }
    ensures { V.out volume.new ≡ set.empty }
{
    let log = volume.create_log(name)?;
    match volume.put_log(name, log) {
        Ok(()) => Ok(true),
        Err(_) => Err(VolRefusal::Failed),
    }
}

// A read of four bytes from a place, or three equal bytes put in place of all.
#[derive(Clone, Copy, Debug)]
enum LogCall {
    Read(u64),
    Put(u8),
}

fn log_read<L: LogFile>(log: &mut L, at: u64) -> Result<(usize, u8), LogRefusal> {
    let mut piece = [0u8; 4];
    match log.read_at(at, &mut piece) {
        Ok(count) => Ok((count, piece[0])),
        Err(_) => Err(LogRefusal::Failed),
    }
}

fn log_put<L: LogFile>(log: &mut L, byte: u8) -> Result<(usize, u8), LogRefusal> {
    log.append_at(0, &[byte; 3])?;
    Ok((3, byte))
}

// How many bytes the call read or put there, and the first of these.
fn log_answer<L: LogFile>(log: &mut L, call: LogCall) -> Result<(usize, u8), LogRefusal> {
    match call {
        LogCall::Read(at) => log_read(log, at),
        LogCall::Put(byte) => log_put(log, byte),
    }
}

// What a call of a log answers.
type LogAnswer = Result<(usize, u8), LogRefusal>;

// How many calls answered as told before the first that didn't.
fn play_log<L: LogFile>(log: &mut L, calls: &[(LogCall, LogAnswer)]) -> usize {
    for (i, (call, wanted)) in calls.iter().enumerate() {
        if log_answer(log, *call) != *wanted {
            return i;
        }
    }
    calls.len()
}

// Takes a log, and puts it back after these calls; how many answered as told.
#[tactic(auto, using(page_dev::proofs::OutLemmas::taken_out, page_dev::proofs::OutLemmas::put_back, crate::proofs::CallerLemmas::none_is_out))]
fn visit_log<V: Volume>(
    volume: &mut V,
    name: &FileName,
    calls: &[(LogCall, LogAnswer)],
) -> Result<usize, VolRefusal>
    requires { V.out volume.old ≡ set.empty }
    ensures { V.out volume.new ≡ set.empty }
{
    let mut log = volume.take_log(name)?;
    let count = play_log(&mut log, calls);
    match volume.put_log(name, log) {
        Ok(()) => Ok(count),
        Err(_) => Err(VolRefusal::Failed),
    }
}

fn has<V: Volume>(volume: &mut V, name: &FileName) -> Result<bool, VolRefusal>
    ensures { V.out volume.new ≡ V.out volume.old }
{
    match volume.has(name) {
        Ok(there) => Ok(there),
        Err(_) => Err(VolRefusal::Failed),
    }
}

#[tactic(auto, using(crate::proofs::CallerLemmas::none_is_out))]
fn removed<V: Volume>(volume: &mut V, name: &FileName) -> Result<bool, VolRefusal>
    requires { V.out volume.old ≡ set.empty }
    ensures { V.out volume.new ≡ set.empty }
{
    match volume.remove(name) {
        Ok(()) => Ok(true),
        Err(_) => Err(VolRefusal::Failed),
    }
}

// What is asked of a volume about the file of one name.
#[derive(Clone, Copy, Debug)]
enum Ask {
    Has,
    Make(u32),
    Take(u32),
    MakeLog,
    TakeLog,
    Remove,
}

fn answer<V: Volume>(
    alloc: Global,
    volume: &mut V,
    name: &FileName,
    ask: Ask,
) -> Result<bool, VolRefusal>
    requires { V.out volume.old ≡ set.empty }
    ensures { V.out volume.new ≡ set.empty }
{
    match ask {
        Ask::Has => has(volume, name),
        Ask::Make(pages) => make(volume, name, pages),
        Ask::Take(pages) => Ok(visit(alloc, volume, name, pages, &[])? == 0),
        Ask::MakeLog => make_log(volume, name),
        Ask::TakeLog => Ok(visit_log(volume, name, &[])? == 0),
        Ask::Remove => removed(volume, name),
    }
}

// What a volume answers.
type Answer = Result<bool, VolRefusal>;

// How many answers were as told before the first that wasn't.
fn ask_all<V: Volume>(
    alloc: Global,
    volume: &mut V,
    name: &FileName,
    asks: &[(Ask, Answer)],
) -> usize
    requires { V.out volume.old ≡ set.empty }
    ensures { V.out volume.new ≡ set.empty }
{
    for (i, (ask, wanted)) in asks.iter().enumerate() {
        if answer(alloc, volume, name, *ask) != *wanted {
            return i;
        }
    }
    asks.len()
}

// A name is held until it is removed; the calls 3, 6 and 20 fail, and a log that is put back by such a call is back.
const ASKS: [(Ask, Answer); 16] = [
    (Ask::Has, Ok(false)),
    (Ask::Take(1), Err(VolRefusal::Absent)),
    (Ask::Make(2), Err(VolRefusal::Failed)),
    (Ask::Make(2), Ok(true)),
    (Ask::Has, Err(VolRefusal::Failed)),
    (Ask::Has, Ok(true)),
    (Ask::Make(1), Err(VolRefusal::Exists)),
    (Ask::MakeLog, Err(VolRefusal::Exists)),
    (Ask::Take(1), Err(VolRefusal::Length { found: 16_384 })),
    (Ask::Take(2), Ok(true)),
    (Ask::TakeLog, Ok(true)),
    (Ask::Remove, Ok(true)),
    (Ask::TakeLog, Err(VolRefusal::Absent)),
    (Ask::MakeLog, Ok(true)),
    (Ask::TakeLog, Err(VolRefusal::Failed)),
    (Ask::Has, Ok(true)),
];

#[test]
fn a_volume_answers_by_its_plan(rt: HostRuntime) -> Result<(), Fail> {
    let name = named(b"a.ss")?;
    let mut volume = MemVolume::new(rt.alloc())?;
    for call in [3, 6, 20] {
        volume.fail_volume(call)?;
    }
    assert_eq!(rt; ask_all(rt.alloc(), &mut volume, &name, &ASKS), 16);
    assert_eq!(rt; (volume.file_faults(), volume.faults()), (0, 3));
    Ok(())
}

// Whether a name that is out is there, and whether it is free.
fn held<V: Volume>(volume: &mut V, name: &FileName) -> Result<(bool, bool), VolRefusal> {
    let _file = volume.create_pages(name, 2)?;
    let there = has(volume, name)?;
    Ok((there, volume.create_log(name).is_ok()))
}

#[test]
fn a_name_that_is_out_is_held(rt: HostRuntime) -> Result<(), Fail> {
    let mut volume = MemVolume::new(rt.alloc())?;
    assert_eq!(rt; held(&mut volume, &named(b"a.ss")?)?, (true, false));
    Ok(())
}

// Plans that a call of the name's files fails.
#[tactic(auto, using(crate::proofs::CallerLemmas::none_is_out))]
fn fail(volume: &mut MemVolume, name: &FileName, call: u64) -> Result<(), NoMemory>
    requires { out_of volume.old.folder ≡ set.empty }
    ensures { out_of volume.new.folder ≡ set.empty }
{
    volume.fail(name, call)
}

#[tactic(auto, using(crate::proofs::CallerLemmas::none_is_out))]
fn limit(volume: &mut MemVolume, name: &FileName, pages: u32) -> Result<(), NoMemory>
    requires { out_of volume.old.folder ≡ set.empty }
    ensures { out_of volume.new.folder ≡ set.empty }
{
    volume.page_limit(name, pages)
}

const FIRST: [(Call, bool); 3] = [
    (Call::Write(0, 7), true),
    (Call::Write(0, 8), false),
    (Call::Read(0, 7), true),
];

const LATER: [(Call, bool); 5] = [
    (Call::Read(0, 7), false),
    (Call::Read(1, 0), true),
    (Call::Write(1, 9), false),
    (Call::Write(0, 6), true),
    (Call::Read(0, 6), true),
];

// The calls 2 and 4 of the files of the name fail, and a second written page is one too many.
#[test]
fn files_answer_by_the_plan_of_their_name(rt: HostRuntime) -> Result<(), Fail> {
    let alloc = rt.alloc();
    let name = named(b"a.ss")?;
    let mut volume = MemVolume::new(alloc)?;
    fail(&mut volume, &name, 2)?;
    fail(&mut volume, &name, 4)?;
    limit(&mut volume, &name, 1)?;
    assert_eq!(rt; make(&mut volume, &name, 2), Ok(true));
    assert_eq!(rt; visit(alloc, &mut volume, &name, 2, &FIRST), Ok(3));
    assert_eq!(rt; visit(alloc, &mut volume, &name, 2, &LATER), Ok(5));
    assert_eq!(rt; volume.file_faults(), 3);
    Ok(())
}

// The calls 3 and 5 fail.
const LOG_CALLS: [(LogCall, LogAnswer); 6] = [
    (LogCall::Put(7), Ok((3, 7))),
    (LogCall::Put(8), Ok((3, 8))),
    (LogCall::Put(9), Err(LogRefusal::Failed)),
    (LogCall::Read(1), Ok((2, 8))),
    (LogCall::Read(0), Err(LogRefusal::Failed)),
    (LogCall::Read(u64::MAX), Ok((0, 0))),
];

#[test]
fn logs_answer_by_the_plan_of_their_name(rt: HostRuntime) -> Result<(), Fail> {
    let name = named(b"a.log")?;
    let mut volume = MemVolume::new(rt.alloc())?;
    fail(&mut volume, &name, 3)?;
    fail(&mut volume, &name, 5)?;
    assert_eq!(rt; make_log(&mut volume, &name), Ok(true));
    assert_eq!(rt; visit_log(&mut volume, &name, &LOG_CALLS), Ok(6));
    assert_eq!(rt; volume.file_faults(), 2);
    Ok(())
}

// Makes a log that lies at a name.
#[tactic(auto, using(page_dev::proofs::OutLemmas::taken_out, page_dev::proofs::OutLemmas::put_back, crate::proofs::CallerLemmas::none_is_out, crate::proofs::CallerLemmas::lies_where_put))]
fn lay(volume: &mut MemVolume, name: &FileName) -> Result<(), Fail>
    requires { out_of volume.old.folder ≡ set.empty }
    ensures out { OnOk result (out_of volume.new.folder ≡ set.empty) }
    ensures lies { OnOk result (lies (map.get volume.new.folder name.now) ≡ true) }
{
    let log = volume.create_log(name)?;
    volume.put_log(name, log)?;
    Ok(())
}

fn cut(volume: &mut MemVolume, name: &FileName, bytes: u64) -> Result<(), NoMemory>
    requires { lies (map.get volume.old.folder name.now) ≡ true }
    ensures { out_of volume.new.folder ≡ out_of volume.old.folder }
{
    volume.set_length(name, bytes)
}

// A file that grew has zeros, and is as many pages as its length says.
#[test]
fn lengths_are_set(rt: HostRuntime) -> Result<(), Fail> {
    let alloc = rt.alloc();
    let name = named(b"a.ss")?;
    let mut volume = MemVolume::new(alloc)?;
    lay(&mut volume, &name)?;
    cut(&mut volume, &name, 8_193)?;
    let odd = Err(VolRefusal::Length { found: 8_193 });
    assert_eq!(rt; visit(alloc, &mut volume, &name, 2, &[]), odd);
    assert_eq!(rt;
        visit_log(&mut volume, &name, &[(LogCall::Read(8_192), Ok((1, 0)))]),
        Ok(1)
    );
    Ok(())
}

// Each call of a volume and of its files once.
const WRITTEN: [(Call, bool); 2] = [(Call::Write(1, 6), true), (Call::Read(1, 6), true)];

const PUT: [(LogCall, LogAnswer); 2] = [
    (LogCall::Put(7), Ok((3, 7))),
    (LogCall::Read(1), Ok((2, 7))),
];

const REMOVED: [(Ask, Answer); 3] = [
    (Ask::Has, Ok(true)),
    (Ask::Remove, Ok(true)),
    (Ask::MakeLog, Ok(true)),
];

fn all_calls<V: Volume>(rt: &impl Abort, alloc: Global, volume: &mut V) -> Result<(), Fail>
    requires { V.out volume.old ≡ set.empty }
{
    let name = named(b"a.ss")?;
    assert_eq!(rt; make(volume, &name, 2), Ok(true));
    assert_eq!(rt; visit(alloc, volume, &name, 2, &WRITTEN), Ok(2));
    assert_eq!(rt; ask_all(alloc, volume, &name, &REMOVED), 3);
    assert_eq!(rt; visit_log(volume, &name, &PUT), Ok(2));
    Ok(())
}

#[test]
fn memory_suffices(rt: HostRuntime) -> Result<(), Fail> {
    let alloc = rt.alloc();
    let mut volume = MemVolume::new(alloc)?;
    all_calls(&rt, alloc, &mut volume)?;
    let mut sure = SureVolume::new(alloc)?;
    all_calls(&rt, alloc, &mut sure)
}
