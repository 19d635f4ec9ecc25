//! A history read from its text, event by event.

ghost use Rattle.std.specs.Prelude.{◌≡◌, ◌+◌, ◌<◌, [], List, length, IfOk, IfErr, MatchOption};
ghost use Rattle.page_base.specs.declared.value.Value.{Value};
ghost use Rattle.plain_model.specs.declared.event.Event.{Event};
ghost use Rattle.reply_text.specs.Left.{left};
ghost use Rattle.reply_text.specs.Steps.{event_lines, event_of, count_of, TakesRow, LacksFirst, TakesRows, LacksAt, TakesEvent, StopsAt};
ghost use Rattle.reply_text.specs.Books.{IsBookOf, Refuses, GivesBook};

use crate::BookRefusal;
use crate::heading::{Heading, heading_on};
use crate::lines::Lines;
use crate::value::read_row;
use page_base::{Row, RowList};
use plain_model::{Book, Event, Reply};
use std::alloc::Global;

// The row on the next line.
fn next_row(alloc: Global, lines: &mut Lines) -> Result<Row, BookRefusal>
    ensures row { IfOk result (λ row. TakesRow (left lines.old) row (left lines.new)) }
    ensures number { IfOk result (λ _. lines.new.number ≡ lines.old.number + 1) }
    ensures refused { IfErr result (LacksFirst (left lines.old) lines.old.number) }
{
    let number = lines.number;
    let Some(line) = lines.next() else {
        return Err(BookRefusal::Line(number));
    };
    match read_row(alloc, line)? {
        Some(row) => Ok(row),
        None => Err(BookRefusal::Line(number)),
    }
}

// The rows on the next lines, of which so many are to come.
fn next_rows(alloc: Global, lines: &mut Lines, count: u64) -> Result<RowList, BookRefusal>
    ensures rows { IfOk result (λ rows. TakesRows count (left lines.old) rows (left lines.new)) }
    ensures number { IfOk result (λ rows. lines.new.number ≡ lines.old.number + length rows) }
    ensures refused { IfErr result (LacksAt count (left lines.old) lines.old.number) }
{
    let mut rows = RowList::new(alloc);
    while (rows.len() as u64) < count {
        let row = next_row(alloc, lines)?;
        rows.push(row)?;
    }
    Ok(rows)
}

// The event of a heading, with the rows on the next lines.
fn whole_event(alloc: Global, heading: Heading, lines: &mut Lines) -> Result<Event, BookRefusal>
    ensures event { IfOk result (λ event. (rows : List (List Value)) × TakesRows (count_of heading) (left lines.old) rows (left lines.new) × (lines.new.number ≡ lines.old.number + length rows) × (event ≡ event_of heading rows)) }
    ensures refused { IfErr result (LacksAt (count_of heading) (left lines.old) lines.old.number) }
{
    match heading {
        Heading::Whole(event) => Ok(event),
        Heading::Rows {
            who,
            number,
            began,
            count,
        } => {
            let reply = Reply::Rows(next_rows(alloc, lines, count)?);
            Ok(Event::Said {
                who,
                number,
                began,
                reply,
            })
        }
    }
}

// The event on the next lines, if a line is left.
fn next_event(alloc: Global, lines: &mut Lines) -> Result<Option<Event>, BookRefusal>
    ensures event { IfOk result (λ event. MatchOption event (left lines.old ≡ []) (λ e. TakesEvent (left lines.old) e (left lines.new))) }
    ensures number { IfOk result (λ event. MatchOption event (lines.new.number ≡ lines.old.number) (λ e. lines.new.number ≡ lines.old.number + length (event_lines e))) }
    ensures refused { IfErr result (StopsAt (left lines.old) lines.old.number) }
{
    let number = lines.number;
    let Some(line) = lines.next() else {
        return Ok(None);
    };
    match heading_on(line) {
        Some(heading) => Ok(Some(whole_event(alloc, heading, lines)?)),
        None => Err(BookRefusal::Line(number)),
    }
}

/// Reads a history. `Line` names the first line that can't stand where the bytes are the text of no history that can be
/// told.
pub fn read_book(alloc: Global, bytes: &[u8]) -> Result<Book, BookRefusal>
    requires { length bytes.now < 4294967295 }
    ensures book { IfOk result (IsBookOf bytes.now) }
    ensures only { (book : List Event) → IsBookOf bytes.now book → GivesBook book result }
    ensures refused { IfErr result (Refuses bytes.now) }
{
    let mut lines = Lines::new(bytes);
    let mut book = Book::new(alloc);
    while let Some(event) = next_event(alloc, &mut lines)? {
        book.push(event)?;
    }
    Ok(book)
}
