//! What a history comes to, in one line.

ghost use Rattle.std.specs.Prelude.{◌≡◌, ◌++◌, OnOk, IfOk, count_by};
ghost use Rattle.load_gen.specs.Summary.{is_ok, is_count, is_rows, is_message, part_text, replies_text, summary_text};

use crate::writing::push_number;
use page_base::{Bytes, NoMemory};
use plain_model::{Book, Event, Reply};
use std::alloc::{AllocError, Global};

fn is_ok(event: &Event) -> bool
    ensures { result ≡ is_ok event.now }
{
    match event {
        Event::Said {
            reply: Reply::Ok,
            ..
        } => true,
        _ => false,
    }
}

fn is_count(event: &Event) -> bool
    ensures { result ≡ is_count event.now }
{
    match event {
        Event::Said {
            reply: Reply::Count(_),
            ..
        } => true,
        _ => false,
    }
}

fn is_rows(event: &Event) -> bool
    ensures { result ≡ is_rows event.now }
{
    match event {
        Event::Said {
            reply: Reply::Rows(_),
            ..
        } => true,
        _ => false,
    }
}

fn is_message(event: &Event) -> bool
    ensures { result ≡ is_message event.now }
{
    match event {
        Event::Said {
            reply: Reply::Msg(_),
            ..
        } => true,
        _ => false,
    }
}

// A word and a number.
fn push_part(
    alloc: Global,
    text: &mut Vec<u8>,
    word: &[u8],
    number: usize,
) -> Result<(), AllocError>
    ensures { OnOk result (text.new.items ≡ text.old.items ++ part_text word.now number) }
{
    text.extend_from_slice(word)?;
    push_number(alloc, text, number as u64)
}

fn ok_count(events: &[Event]) -> usize
    ensures { result ≡ count_by is_ok events.now }
{
    events.iter().filter(|event| is_ok(event)).count()
}

fn count_count(events: &[Event]) -> usize
    ensures { result ≡ count_by is_count events.now }
{
    events.iter().filter(|event| is_count(event)).count()
}

fn rows_count(events: &[Event]) -> usize
    ensures { result ≡ count_by is_rows events.now }
{
    events.iter().filter(|event| is_rows(event)).count()
}

fn message_count(events: &[Event]) -> usize
    ensures { result ≡ count_by is_message events.now }
{
    events.iter().filter(|event| is_message(event)).count()
}

// How many replies of each kind there are.
fn push_replies(alloc: Global, text: &mut Vec<u8>, events: &[Event]) -> Result<(), AllocError>
    ensures { OnOk result (text.new.items ≡ text.old.items ++ replies_text events.now) }
{
    push_part(alloc, text, b" ok ", ok_count(events))?;
    push_part(alloc, text, b" counts ", count_count(events))?;
    push_part(alloc, text, b" rows ", rows_count(events))?;
    push_part(alloc, text, b" messages ", message_count(events))
}

/// The line `events E ok A counts B rows C messages D`: how many events a history has, and how many replies of each kind.
pub fn summary(alloc: Global, book: &Book) -> Result<Bytes, NoMemory>
    ensures { IfOk result (λ text. text ≡ summary_text book.now) }
{
    let mut text = Vec::new(alloc);
    push_part(alloc, &mut text, b"events ", book.len())?;
    push_replies(alloc, &mut text, book.as_slice())?;
    text.extend_from_slice(b"\n")?;
    Ok(Bytes::from(text))
}
