//! The call that does all that the program does, over any volume, source and sink.

ghost use Rattle.std.specs.Prelude.{All, length, ◌≡◌, ◌⊎◌, ◌≤◌, ◌++◌, true, false, [], List, ℕ, map, codes, IsTrue, IfOk, IfErr};
ghost use Rattle.std.specs.List.{list_any};
ghost use Rattle.std.specs.FinSet as finset;
ghost use Rattle.std.specs.Io.KnownBytes.{Appends, Keeps};
ghost use Rattle.page_dev.specs.Faults.{Rose};
ghost use Rattle.page_dev.specs.Sink.{AppendsFront};
ghost use Rattle.plain_model.specs.Complete.{Complete, AreKnown};
ghost use Rattle.plain_model.specs.Legal.{Legal};
ghost use Rattle.plain_model.specs.Order.{IsInOrder};
ghost use Rattle.plain_model.specs.declared.pick.Pick.{Pick};
ghost use Rattle.plain_model.specs.Printed.{printed};
ghost use Rattle.early_engine.specs.declared.closing.CloseEnd.{CloseEnd};
ghost use Rattle.early_engine.specs.declared.closing.CloseEnd.TheVariants.{Done, Fault};
ghost use Rattle.early_engine.specs.Closing.{IsFault};
ghost use Rattle.early_engine.specs.Disks.{disk_of};
ghost use Rattle.early_engine.specs.Opened.{names_of};
ghost use Rattle.early_engine.specs.Safe.{is_turn};
ghost use Rattle.early_engine.specs.Causes.{is_failure};
ghost use Rattle.snapdb.specs.Closed.{told_text, status_of, IsDue};
ghost use Rattle.snapdb.specs.declared.stream.TheConstants.{LIMIT};
ghost use Rattle.snapdb.specs.Refusing.{Answers, HasReason, WritesLine};
ghost use Rattle.snapdb.specs.Runs.{HaveRun, Runs};
ghost use Rattle.script_read.specs.declared.refusal.Why.{Why};
ghost use Rattle.script_read.specs.Script.{IsScript};
ghost use Rattle.snapdb.specs.Headline.{IsPlay, Reads, Tells, Refuses, close_line, script_line, fresh};

use crate::stream::{ReadRefusal, read_all, write_all};
use crate::text::script_line;
use crate::words::is_play;
use early_engine::{CloseEnd, Closed, Engine, OpenRefused};
use page_base::{FileName, Name, NoMemory};
use page_dev::{Sink, SinkRefusal, Source, Volume};
use plain_model::Book;
use reply_text::print_book;
use script_read::{ScriptRefusal, Why, Work2, read_script};
use std::alloc::{AllocError, Global};

/// How a call ended: its status, the volume with all files back, and the history.
#[derive(Drop)]
pub struct Ended<V: Volume> {
    pub status: u8,
    pub volume: V,
    pub book: Book,
}

// Why no history was made.
#[derive(Clone, Copy, Debug, PartialEq, Eq)]
enum PlayRefusal {
    Source,
    Memory,
    Long,
    Script { line: u32, why: Why },
}

// A volume on which nothing was played, as it was handed in, and why.
#[derive(Drop)]
struct Unplayed<V: Volume> {
    volume: V,
    why: PlayRefusal,
}

// Reads a script.
fn read_input<S: Source>(alloc: Global, input: &mut S) -> Result<Work2, PlayRefusal>
    ensures script { IfOk result (λ work. (bytes : List ℕ) × Reads (S.left input.old) (S.left input.new) bytes × (length bytes ≤ LIMIT) × IsScript bytes work.scripts work.picks) }
    ensures players { IfOk result (λ work. All (λ (pick : Pick). pick.who ≤ length work.scripts) work.picks) }
    ensures why { IfErr result (λ why. HasReason why (S.left input.old) (S.left input.new) (S.failures input.old) (S.failures input.new)) }
    ensures later { S.failures input.old ≤ S.failures input.new }
{
    let bytes = match read_all(alloc, input) {
        Ok(bytes) => bytes,
        Err(ReadRefusal::Failed) => return Err(PlayRefusal::Source),
        Err(ReadRefusal::Memory) => return Err(PlayRefusal::Memory),
        Err(ReadRefusal::Long) => return Err(PlayRefusal::Long),
    };
    match read_script(alloc, &bytes) {
        Ok(work) => Ok(work),
        Err(ScriptRefusal::Memory) => Err(PlayRefusal::Memory),
        Err(ScriptRefusal::Refused { line, why }) => Err(PlayRefusal::Script { line, why }),
    }
}

// The source's name.
fn source() -> Name
    ensures { result ≡ codes "shop" }
{
    Name::read(b"shop").unwrap()
}

// The name of the source's one data file.
fn data_file() -> Name
    ensures { result ≡ codes "shop_data" }
{
    Name::read(b"shop_data").unwrap()
}

// Runs scripts over a new source of 256 pages, by their schedule and then to the end.
fn run_scripts<V: Volume>(
    alloc: Global,
    volume: V,
    work: Work2,
) -> Result<Closed<V>, OpenRefused<V>>
    requires out { (n : List ℕ) → finset.contains (V.out volume) n ≡ false }
    requires players { All (λ (pick : Pick). pick.who ≤ length work.scripts) work.picks }
    ensures legal { IfOk result (λ c. IsTrue (V.tells volume) → Legal (fresh (names_of (V.folder volume))) work.scripts c.book) }
    ensures complete { IfOk result (λ c. Complete work.scripts c.book) }
    ensures known { IfOk result (λ c. AreKnown work.scripts c.book) }
    ensures order { IfOk result (λ c. IsInOrder work.scripts work.picks c.book) }
    ensures run { IfOk result (λ c. HaveRun work.scripts work.picks (disk_of V.tells V.folder V.out V.failures V.file_failures volume) (disk_of V.tells V.folder V.out V.failures V.file_failures c.volume) c.book c.end) }
    ensures out { IfOk result (λ c. (n : List ℕ) → finset.contains (V.out c.volume) n ≡ false) }
    ensures tells { IfOk result (λ c. V.tells c.volume ≡ V.tells volume) }
    ensures later { IfOk result (λ c. V.failures volume ≤ V.failures c.volume) }
    ensures file_later { IfOk result (λ c. V.file_failures volume ≤ V.file_failures c.volume) }
    ensures fault { IfOk result (λ c. IsFault c.end → Rose (V.failures volume) (V.failures c.volume)) }
    ensures blame { IfOk result (λ c. list_any is_turn c.book ≡ true → Rose (V.file_failures volume) (V.file_failures c.volume)) }
    ensures failed { IfOk result (λ c. list_any is_failure c.book ≡ true → Rose (V.failures volume) (V.failures c.volume)) }
    ensures refused { IfErr result (λ r. r.volume ≡ volume) }
{
    let Work2 { scripts, picks } = work;
    match Engine::fresh(alloc, volume, &source(), &data_file(), 256, scripts) {
        Ok(mut engine) => {
            engine.run(alloc, picks.as_slice());
            engine.finish(alloc);
            Ok(engine.close())
        }
        Err(refused) => Err(refused),
    }
}

// Reads a script and runs it. A refusal hands the volume back.
fn play<V: Volume, S: Source>(
    alloc: Global,
    volume: V,
    input: &mut S,
) -> Result<Closed<V>, Unplayed<V>>
    requires out { (n : List ℕ) → finset.contains (V.out volume) n ≡ false }
    ensures tells { IfOk result (λ c. Tells (V.tells volume) (names_of (V.folder volume)) (S.left input.old) (S.left input.new) c.book) }
    ensures runs { IfOk result (λ c. Runs (disk_of V.tells V.folder V.out V.failures V.file_failures volume) (disk_of V.tells V.folder V.out V.failures V.file_failures c.volume) (S.left input.old) (S.left input.new) c.book c.end) }
    ensures out { IfOk result (λ c. (n : List ℕ) → finset.contains (V.out c.volume) n ≡ false) }
    ensures told { IfOk result (λ c. V.tells c.volume ≡ V.tells volume) }
    ensures volume_later { IfOk result (λ c. V.failures volume ≤ V.failures c.volume) }
    ensures file_later { IfOk result (λ c. V.file_failures volume ≤ V.file_failures c.volume) }
    ensures fault { IfOk result (λ c. IsFault c.end → Rose (V.failures volume) (V.failures c.volume)) }
    ensures blame { IfOk result (λ c. list_any is_turn c.book ≡ true → Rose (V.file_failures volume) (V.file_failures c.volume)) }
    ensures failed { IfOk result (λ c. list_any is_failure c.book ≡ true → Rose (V.failures volume) (V.failures c.volume)) }
    ensures kept { IfErr result (λ r. r.volume ≡ volume) }
    ensures why { IfErr result (λ r. HasReason r.why (S.left input.old) (S.left input.new) (S.failures input.old) (S.failures input.new)) }
    ensures later { S.failures input.old ≤ S.failures input.new }
{
    match read_input(alloc, input) {
        Ok(work) => match run_scripts(alloc, volume, work) {
            Ok(closed) => Ok(closed),
            Err(OpenRefused { volume }) => Err(Unplayed {
                volume,
                why: PlayRefusal::Memory,
            }),
        },
        Err(why) => Err(Unplayed { volume, why }),
    }
}

// Writes a text, and answers the status that is given, or that of the sink's refusal.
fn written<K: Sink>(out: &mut K, text: &[u8], status: u8) -> u8
    requires { (status ≡ 0) ⊎ ((status ≡ 2) ⊎ (status ≡ 7)) }
    ensures known { (result ≡ status) ⊎ ((result ≡ 3) ⊎ (result ≡ 4)) }
    ensures all { result ≡ status → Appends (K.taken out.old) (K.taken out.new) text.now }
    ensures front { AppendsFront (K.taken out.old) (K.taken out.new) text.now }
    ensures failed { result ≡ 3 → Rose (K.failures out.old) (K.failures out.new) }
    ensures later { K.failures out.old ≤ K.failures out.new }
{
    match write_all(out, text) {
        Ok(()) => status,
        Err(SinkRefusal::Failed) => 3,
        Err(SinkRefusal::Memory) => 4,
    }
}

// A text, and behind it the line of a file that wasn't put back.
fn with_close_line(mut text: Vec<u8>, name: &FileName) -> Result<Vec<u8>, AllocError>
    ensures { IfOk result (λ longer. longer.items ≡ text.items ++ close_line name.now) }
{
    text.extend_from_slice(b"refused: close ")?;
    text.extend_from_slice(name.bytes())?;
    text.extend_from_slice(b"\n")?;
    Ok(text)
}

// The text of a history, and the line of the file that wasn't put back, if there is one.
fn told_text(alloc: Global, book: &Book, end: &CloseEnd) -> Result<Vec<u8>, NoMemory>
    ensures { IfOk result (λ text. text.items ≡ told_text book.now end.now) }
{
    let text = print_book(alloc, book)?.into_vec();
    match end {
        CloseEnd::Done => Ok(text),
        CloseEnd::Fault(name) => Ok(with_close_line(text, name)?),
    }
}

fn status_of(end: &CloseEnd) -> u8
    ensures is { result ≡ status_of end.now }
    ensures known { (result ≡ 0) ⊎ (result ≡ 7) }
{
    match end {
        CloseEnd::Done => 0,
        CloseEnd::Fault(_) => 7,
    }
}

// Writes what a closed run tells, and answers the status.
fn told_status<K: Sink>(alloc: Global, out: &mut K, book: &Book, end: &CloseEnd) -> u8
    ensures known { (result ≡ status_of end.now) ⊎ ((result ≡ 3) ⊎ (result ≡ 4)) }
    ensures all { result ≡ status_of end.now → Appends (K.taken out.old) (K.taken out.new) (told_text book.now end.now) }
    ensures front { AppendsFront (K.taken out.old) (K.taken out.new) (told_text book.now end.now) }
    ensures failed { result ≡ 3 → Rose (K.failures out.old) (K.failures out.new) }
    ensures later { K.failures out.old ≤ K.failures out.new }
{
    let status = status_of(end);
    match told_text(alloc, book, end) {
        Ok(text) => written(out, &text, status),
        Err(_) => 4,
    }
}

// Writes the line that names a refused line of a script, and answers the status.
fn script_status<K: Sink>(alloc: Global, out: &mut K, line: u32, why: Why) -> u8
    ensures { WritesLine (script_line line why) result (K.taken out.old) (K.taken out.new) (K.failures out.old) (K.failures out.new) }
{
    match script_line(alloc, line, why) {
        Ok(text) => written(out, &text, 2),
        Err(_) => 4,
    }
}

// Writes the line of a refusal, if it has one, and answers the status.
fn refused_status<K: Sink>(alloc: Global, out: &mut K, refusal: PlayRefusal) -> u8
    ensures { Answers refusal result (K.taken out.old) (K.taken out.new) (K.failures out.old) (K.failures out.new) }
{
    match refusal {
        PlayRefusal::Source => 5,
        PlayRefusal::Memory => 4,
        PlayRefusal::Long => written(out, b"refused: script long\n", 2),
        PlayRefusal::Script { line, why } => script_status(alloc, out, line, why),
    }
}

/// Serves a command, and always returns. The one command is `play`: it reads a script to the end of the input, runs it
/// by its schedule over a new source `shop` with sparse files on the volume, puts the files back, and writes the history. No file of
/// the volume may be out, and none is afterwards. The status is 0 where all was done and written; 2 where the words are
/// no command or the bytes are no script, with one line that says so; 3 where the sink failed; 4 for want of memory; 5
/// where the source failed; 7 where the volume failed to put a file back, with a line behind the history that names it.
pub fn still<V: Volume, S: Source, K: Sink>(
    alloc: Global,
    words: &[Vec<u8>],
    volume: V,
    input: &mut S,
    out: &mut K,
) -> Ended<V>
    requires out { (n : List ℕ) → finset.contains (V.out volume) n ≡ false }

    // There is no other status.
    ensures status { (result.status ≡ 0) ⊎ ((result.status ≡ 2) ⊎ ((result.status ≡ 3) ⊎ ((result.status ≡ 4) ⊎ ((result.status ≡ 5) ⊎ (result.status ≡ 7))))) }

    // The book is empty and the volume as before, or the book is one complete history of the script that was read, in
    // the order of its schedule, and a legal one where the volume tells.
    ensures history { ((result.book ≡ []) × (result.volume ≡ volume))
        ⊎ Tells (V.tells volume) (names_of (V.folder volume)) (S.left input.old) (S.left input.new) result.book }

    // Where there is a history it is that of one run, from the volume as it was handed in to the volume as it is left.
    ensures run { ((result.book ≡ []) × (result.volume ≡ volume))
        ⊎ ((end : CloseEnd) × Runs (disk_of V.tells V.folder V.out V.failures V.file_failures volume) (disk_of V.tells V.folder V.out V.failures V.file_failures result.volume) (S.left input.old) (S.left input.new) result.book end) }

    // At status 0 a whole script was read and run, all its files are back, and the text of its history was written.
    ensures done { result.status ≡ 0 → IsPlay (map (λ w. w.items) words.now)
        × Tells (V.tells volume) (names_of (V.folder volume)) (S.left input.old) (S.left input.new) result.book
        × Runs (disk_of V.tells V.folder V.out V.failures V.file_failures volume) (disk_of V.tells V.folder V.out V.failures V.file_failures result.volume) (S.left input.old) (S.left input.new) result.book Done
        × Appends (K.taken out.old) (K.taken out.new) (printed result.book) }

    // At status 7 the volume failed as a file was put back, and the line of the first such file was written behind the history.
    ensures closed { result.status ≡ 7 → IsPlay (map (λ w. w.items) words.now)
        × Tells (V.tells volume) (names_of (V.folder volume)) (S.left input.old) (S.left input.new) result.book
        × ((name : List ℕ) × Rose (V.failures volume) (V.failures result.volume)
        × Runs (disk_of V.tells V.folder V.out V.failures V.file_failures volume) (disk_of V.tells V.folder V.out V.failures V.file_failures result.volume) (S.left input.old) (S.left input.new) result.book (Fault name)
        × Appends (K.taken out.old) (K.taken out.new) (printed result.book ++ close_line name)) }

    // At status 2 the line that was written says why.
    ensures refused { result.status ≡ 2 → ((line : List ℕ) × Refuses (map (λ w. w.items) words.now) (S.left input.old) (S.left input.new) line
        × Appends (K.taken out.old) (K.taken out.new) line) × (result.book ≡ []) × (result.volume ≡ volume) }

    // Status 3 comes only where the sink failed.
    ensures sink { result.status ≡ 3 → Rose (K.failures out.old) (K.failures out.new) }

    // Status 5 comes only where the source failed, and then nothing was written.
    ensures source { result.status ≡ 5 → IsPlay (map (λ w. w.items) words.now)
        × (Rose (S.failures input.old) (S.failures input.new) × Keeps (K.taken out.old) (K.taken out.new))
        × (result.book ≡ []) × (result.volume ≡ volume) }

    // What was written is a front of the text that was due, or nothing.
    ensures front { Keeps (K.taken out.old) (K.taken out.new) ⊎ ((text : List ℕ)
        × IsDue (V.tells volume) (names_of (V.folder volume)) (disk_of V.tells V.folder V.out V.failures V.file_failures volume) (disk_of V.tells V.folder V.out V.failures V.file_failures result.volume) (map (λ w. w.items) words.now) (S.left input.old) (S.left input.new) result.book text
        × AppendsFront (K.taken out.old) (K.taken out.new) text) }

    // Words that are no command leave the input unread and the volume as it is.
    ensures unread { (IsPlay (map (λ w. w.items) words.now) → ⊥) → (input.new ≡ input.old) × (result.volume ≡ volume) }

    // A snapshot turned suspect only where a file of the volume failed.
    ensures suspects { list_any is_turn result.book ≡ true → Rose (V.file_failures volume) (V.file_failures result.volume) }

    // A reply says that the volume failed only where it did.
    ensures failures { list_any is_failure result.book ≡ true → Rose (V.failures volume) (V.failures result.volume) }

    // All files are back, and the volume tells as before.
    ensures out { (n : List ℕ) → finset.contains (V.out result.volume) n ≡ false }
    ensures tells { V.tells result.volume ≡ V.tells volume }

    // The counts of faults never fall.
    ensures later { (S.failures input.old ≤ S.failures input.new) × (K.failures out.old ≤ K.failures out.new) }
    ensures volume_later { (V.failures volume ≤ V.failures result.volume) × (V.file_failures volume ≤ V.file_failures result.volume) }
{
    if !is_play(words) {
        return Ended {
            status: written(out, b"refused: usage\n", 2),
            volume,
            book: Book::new(alloc),
        };
    }
    match play(alloc, volume, input) {
        Ok(Closed { volume, book, end }) => Ended {
            status: told_status(alloc, out, &book, &end),
            volume,
            book,
        },
        Err(Unplayed { volume, why }) => Ended {
            status: refused_status(alloc, out, why),
            volume,
            book: Book::new(alloc),
        },
    }
}
