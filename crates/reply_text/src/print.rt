//! Events as lines of text.

ghost use Rattle.std.specs.Prelude.{◌≡◌, ◌++◌, ◌∷◌, [], OnOk, IfOk, codes};
ghost use Rattle.std.specs.Fmt.{decimal};
ghost use Rattle.plain_model.specs.declared.event.Event.TheVariants.{Locked, Turned, Said, Left};
ghost use Rattle.plain_model.specs.Printed.{printed, event_text, reply_text, lock_text, mode_text, carried_text};

use crate::value_text::{push_number, push_rows};
use page_base::{Bytes, Mode, Name, NoMemory, SessNo};
use plain_model::{Book, Carried, Event, LockName, Reply};
use std::alloc::{AllocError, Global};

fn push_carried(alloc: Global, text: &mut Vec<u8>, carried: &Carried) -> Result<(), AllocError>
    ensures { OnOk result (text.new.items ≡ text.old.items ++ carried_text carried.now) }
{
    match carried {
        Carried::Nothing => Ok(()),
        Carried::Number(number) => {
            text.extend_from_slice(b" ")?;
            push_number(alloc, text, *number)
        }
        Carried::Named(name) => {
            text.extend_from_slice(b" ")?;
            text.extend_from_slice(name.bytes())
        }
    }
}

fn push_reply(alloc: Global, text: &mut Vec<u8>, reply: &Reply) -> Result<(), AllocError>
    ensures { OnOk result (text.new.items ≡ text.old.items ++ reply_text reply.now) }
{
    match reply {
        Reply::Ok => text.extend_from_slice(b"ok\n"),
        Reply::Count(count) => {
            text.extend_from_slice(b"count ")?;
            push_number(alloc, text, *count)?;
            text.extend_from_slice(b"\n")
        }
        Reply::Rows(rows) => {
            text.extend_from_slice(b"rows ")?;
            push_number(alloc, text, rows.len() as u64)?;
            text.extend_from_slice(b"\n")?;
            push_rows(alloc, text, rows.as_slice())
        }
        Reply::Msg(message) => {
            text.extend_from_slice(b"msg ")?;
            push_number(alloc, text, u64::from(message.number))?;
            push_carried(alloc, text, &message.carried)?;
            text.extend_from_slice(b"\n")
        }
    }
}

fn push_lock(text: &mut Vec<u8>, table: &LockName) -> Result<(), AllocError>
    ensures { OnOk result (text.new.items ≡ text.old.items ++ lock_text table.now) }
{
    match table {
        LockName::All => text.extend_from_slice(b"*"),
        LockName::Table(name) => text.extend_from_slice(name.bytes()),
    }
}

fn push_mode(text: &mut Vec<u8>, mode: Mode) -> Result<(), AllocError>
    ensures { OnOk result (text.new.items ≡ text.old.items ++ mode_text mode) }
{
    match mode {
        Mode::S => text.extend_from_slice(b"S"),
        Mode::X => text.extend_from_slice(b"X"),
    }
}

fn push_locked(
    alloc: Global,
    text: &mut Vec<u8>,
    who: SessNo,
    table: &LockName,
    mode: Mode,
) -> Result<(), AllocError>
    ensures { OnOk result (text.new.items ≡ text.old.items ++ event_text (Locked who table.now mode)) }
{
    push_number(alloc, text, u64::from(who.0))?;
    text.extend_from_slice(b" lock ")?;
    push_lock(text, table)?;
    text.extend_from_slice(b" ")?;
    push_mode(text, mode)?;
    text.extend_from_slice(b"\n")
}

// What a session does with a snapshot.
fn push_deed(
    alloc: Global,
    text: &mut Vec<u8>,
    who: SessNo,
    deed: &[u8],
    snap: &Name,
) -> Result<(), AllocError>
    ensures { OnOk result (text.new.items ≡ text.old.items ++ (decimal who.0 ++ deed.now ++ snap.now ++ codes "\n")) }
{
    push_number(alloc, text, u64::from(who.0))?;
    text.extend_from_slice(deed)?;
    text.extend_from_slice(snap.bytes())?;
    text.extend_from_slice(b"\n")
}

fn push_turned(text: &mut Vec<u8>, snap: &Name) -> Result<(), AllocError>
    ensures { OnOk result (text.new.items ≡ text.old.items ++ event_text (Turned snap.now)) }
{
    text.extend_from_slice(b"turned ")?;
    text.extend_from_slice(snap.bytes())?;
    text.extend_from_slice(b"\n")
}

fn push_said(
    alloc: Global,
    text: &mut Vec<u8>,
    who: SessNo,
    number: u32,
    began: u32,
    reply: &Reply,
) -> Result<(), AllocError>
    ensures { OnOk result (text.new.items ≡ text.old.items ++ event_text (Said who number began reply.now)) }
{
    push_number(alloc, text, u64::from(who.0))?;
    text.extend_from_slice(b" said ")?;
    push_number(alloc, text, u64::from(number))?;
    text.extend_from_slice(b" ")?;
    push_number(alloc, text, u64::from(began))?;
    text.extend_from_slice(b" ")?;
    push_reply(alloc, text, reply)
}

fn push_left(alloc: Global, text: &mut Vec<u8>, who: SessNo) -> Result<(), AllocError>
    ensures { OnOk result (text.new.items ≡ text.old.items ++ event_text (Left who)) }
{
    push_number(alloc, text, u64::from(who.0))?;
    text.extend_from_slice(b" left\n")
}

fn push_event(alloc: Global, text: &mut Vec<u8>, event: &Event) -> Result<(), AllocError>
    ensures { OnOk result (text.new.items ≡ text.old.items ++ event_text event.now) }
{
    match event {
        Event::Locked { who, table, mode } => push_locked(alloc, text, *who, table, *mode),
        Event::CutAt { who, snap } => push_deed(alloc, text, *who, b" cut ", snap),
        Event::RestoreAt { who, snap } => push_deed(alloc, text, *who, b" restore ", snap),
        Event::Turned { snap } => push_turned(text, snap),
        Event::Said {
            who,
            number,
            began,
            reply,
        } => push_said(alloc, text, *who, *number, *began, reply),
        Event::Left { who } => push_left(alloc, text, *who),
    }
}

/// The text of an event.
pub fn print_event(alloc: Global, event: &Event) -> Result<Bytes, NoMemory>
    ensures { IfOk result (λ text. text ≡ event_text event.now) }
{
    let mut text = Vec::new(alloc);
    push_event(alloc, &mut text, event)?;
    Ok(Bytes::from(text))
}

/// The text of a history: those of its events, one behind the other.
pub fn print_book(alloc: Global, book: &Book) -> Result<Bytes, NoMemory>
    ensures { IfOk result (λ text. text ≡ printed book.now) }
{
    let mut text = Vec::new(alloc);
    for event in book.as_slice() {
        push_event(alloc, &mut text, event)?;
    }
    Ok(Bytes::from(text))
}
