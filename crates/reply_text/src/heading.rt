//! Events read from lines, word by word.

ghost use Rattle.std.specs.Prelude.{◌≡◌, Option, option_and_then};
ghost use Rattle.std.specs.Option.{option_map};
ghost use Rattle.byte_fields.specs.Names.{low_name};
ghost use Rattle.reply_text.specs.Headings.{session_on, name_in, large_in, lock_on, mode_on, locked_in, carried_in, message_in, done_in, answer_in, said_in, left_in, deed_by, session_in, turned_in, heading_in, heading_on, said_as, carried_of, large_on};
ghost use Rattle.plain_model.specs.declared.event.Event.TheVariants.{CutAt, RestoreAt};
ghost use Rattle.plain_model.specs.declared.reply.Reply.TheVariants.{Count};
ghost use Rattle.reply_text.specs.declared.heading.Answer.TheVariants as answer;

use crate::number::{large_number, small_number};
use crate::pieces::{Pieces, before};
use page_base::{Mode, Name, SessNo};
use plain_model::{Carried, Event, LockName, Message, Reply};

const TURNED: &[u8] = b"turned";

const SAID: &[u8] = b"said";

const LOCK: &[u8] = b"lock";

const CUT: &[u8] = b"cut";

const RESTORE: &[u8] = b"restore";

const LEFT: &[u8] = b"left";

const OK: &[u8] = b"ok";

const COUNT: &[u8] = b"count";

const ROWS: &[u8] = b"rows";

const MSG: &[u8] = b"msg";

const ALL: &[u8] = b"*";

const SHARED: &[u8] = b"S";

const EXCLUSIVE: &[u8] = b"X";

const LINE_END: &[u8] = b"\n";

// What a reply's line tells: the reply, or how many rows follow.
#[derive(Debug, Drop)]
pub(crate) enum Answer {
    Whole(Reply),
    Rows(u64),
}

// What an event's first line tells: the event, or that of a reply whose rows follow.
#[derive(Debug, Drop)]
pub(crate) enum Heading {
    Whole(Event),
    Rows {
        who: SessNo,
        number: u32,
        began: u32,
        count: u64,
    },
}

fn session_on(word: &[u8]) -> Option<SessNo>
    ensures { result ≡ session_on word.now }
{
    let number = large_number(word)?;
    if 1 <= number && number <= 64 {
        Some(SessNo(number as u8))
    } else {
        None
    }
}

// The name that these bytes are as they stand.
fn low_name(word: &[u8]) -> Option<Name>
    ensures { result ≡ low_name word.now }
{
    Name::kept(word)
}

// The name that is the only word.
fn name_in(words: &mut Pieces) -> Option<Name>
    ensures { result ≡ name_in words.old }
{
    low_name(words.alone()?)
}

// The number that is the only word.
fn large_in(words: &mut Pieces) -> Option<u64>
    ensures { result ≡ large_in words.old }
{
    large_number(words.alone()?)
}

fn lock_on(word: &[u8]) -> Option<LockName>
    ensures { result ≡ lock_on word.now }
{
    match low_name(word) {
        Some(name) => Some(LockName::Table(name)),
        None if word == ALL => Some(LockName::All),
        None => None,
    }
}

fn mode_on(word: &[u8]) -> Option<Mode>
    ensures { result ≡ mode_on word.now }
{
    if word == SHARED {
        Some(Mode::S)
    } else if word == EXCLUSIVE {
        Some(Mode::X)
    } else {
        None
    }
}

fn locked_in(who: SessNo, words: &mut Pieces) -> Option<Event>
    ensures { result ≡ locked_in who words.old }
{
    let table = lock_on(words.next()?)?;
    let mode = mode_on(words.alone()?)?;
    Some(Event::Locked { who, table, mode })
}

fn carried_on(word: &[u8]) -> Option<Carried>
    ensures { result ≡ carried_of word.now (large_on word.now) }
{
    match large_number(word) {
        Some(number) => Some(Carried::Number(number)),
        None => Some(Carried::Named(low_name(word)?)),
    }
}

// What a message carries, if anything.
fn carried_in(words: &mut Pieces) -> Option<Carried>
    ensures { result ≡ carried_in words.old }
{
    if words.is_over() {
        return Some(Carried::Nothing);
    }
    carried_on(words.alone()?)
}

fn message_in(words: &mut Pieces) -> Option<Answer>
    ensures { result ≡ message_in words.old }
{
    let number = small_number(words.next()?)?;
    let carried = carried_in(words)?;
    Some(Answer::Whole(Reply::Msg(Message { number, carried })))
}

fn done_in(words: &Pieces) -> Option<Answer>
    ensures { result ≡ done_in words.now }
{
    if words.is_over() {
        Some(Answer::Whole(Reply::Ok))
    } else {
        None
    }
}

fn count_in(words: &mut Pieces) -> Option<Answer>
    ensures { result ≡ option_map (λ n. answer.Whole (Count n)) (large_in words.old) }
{
    Some(Answer::Whole(Reply::Count(large_in(words)?)))
}

fn rows_in(words: &mut Pieces) -> Option<Answer>
    ensures { result ≡ option_map (λ n. answer.Rows n) (large_in words.old) }
{
    Some(Answer::Rows(large_in(words)?))
}

// A reply, or how many rows follow.
fn answer_in(words: &mut Pieces) -> Option<Answer>
    ensures { result ≡ answer_in words.old }
{
    let word = words.next()?;
    if word == OK {
        done_in(words)
    } else if word == COUNT {
        count_in(words)
    } else if word == ROWS {
        rows_in(words)
    } else if word == MSG {
        message_in(words)
    } else {
        None
    }
}

// A reply as an event, or as the line before its rows.
fn said_as(who: SessNo, number: u32, began: u32, answer: Answer) -> Heading
    ensures { result ≡ said_as who number began answer }
{
    match answer {
        Answer::Whole(reply) => Heading::Whole(Event::Said {
            who,
            number,
            began,
            reply,
        }),
        Answer::Rows(count) => Heading::Rows {
            who,
            number,
            began,
            count,
        },
    }
}

fn said_in(who: SessNo, words: &mut Pieces) -> Option<Heading>
    ensures { result ≡ said_in who words.old }
{
    let number = words.next()?;
    let began = words.next()?;
    let number = small_number(number)?;
    let began = small_number(began)?;
    Some(said_as(who, number, began, answer_in(words)?))
}

fn left_in(who: SessNo, words: &Pieces) -> Option<Event>
    ensures { result ≡ left_in who words.now }
{
    if words.is_over() {
        Some(Event::Left { who })
    } else {
        None
    }
}

fn cut_in(who: SessNo, words: &mut Pieces) -> Option<Event>
    ensures { result ≡ option_map (λ n. CutAt who n) (name_in words.old) }
{
    let snap = name_in(words)?;
    Some(Event::CutAt { who, snap })
}

fn restore_in(who: SessNo, words: &mut Pieces) -> Option<Event>
    ensures { result ≡ option_map (λ n. RestoreAt who n) (name_in words.old) }
{
    let snap = name_in(words)?;
    Some(Event::RestoreAt { who, snap })
}

// What a session did, but for a reply.
fn deed_by(who: SessNo, word: &[u8], words: &mut Pieces) -> Option<Event>
    ensures { result ≡ deed_by who word.now words.old }
{
    if word == LOCK {
        locked_in(who, words)
    } else if word == CUT {
        cut_in(who, words)
    } else if word == RESTORE {
        restore_in(who, words)
    } else if word == LEFT {
        left_in(who, words)
    } else {
        None
    }
}

fn session_in(who: SessNo, words: &mut Pieces) -> Option<Heading>
    ensures { result ≡ session_in who words.old }
{
    let word = words.next()?;
    if word == SAID {
        said_in(who, words)
    } else {
        Some(Heading::Whole(deed_by(who, word, words)?))
    }
}

fn turned_in(word: &[u8], words: &mut Pieces) -> Option<Heading>
    ensures { result ≡ turned_in word.now words.old }
{
    if word != TURNED {
        return None;
    }
    let snap = name_in(words)?;
    Some(Heading::Whole(Event::Turned { snap }))
}

fn heading_in(words: &mut Pieces) -> Option<Heading>
    ensures { result ≡ heading_in words.old }
{
    let word = words.next()?;
    match session_on(word) {
        Some(who) => session_in(who, words),
        None => turned_in(word, words),
    }
}

// What a line with its end tells.
pub(crate) fn heading_on(line: &[u8]) -> Option<Heading>
    ensures { result ≡ heading_on line.now }
{
    heading_in(&mut Pieces::words(before(line, LINE_END)?))
}
