//! Reading the schedule.

ghost use Rattle.std.specs.Prelude.{◌≡◌, ◌≤◌, ◌<◌, ◌+◌, ◌∷◌, [], List, ℕ, Some, None, length, drop, take, filter, IfOk, IfErr, Option};
ghost use Rattle.std.specs.List.{prefix_len};
ghost use Rattle.script_read.specs.Picks.{is_inside_word, is_word, words, picks_of};
ghost use Rattle.script_read.specs.Faults.{Scheduled, picks_fault};
ghost use Rattle.script_read.specs.Left.{left};
ghost use Rattle.script_read.specs.Refusal.{Refuses};
ghost use Rattle.script_read.specs.Steps.{Adds, AddsLine, ReadsPicks};

use crate::class::{begins_with_colon, is_blank, is_text};
use crate::pick::pick_of;
use crate::reader::Reader;
use crate::{ScriptRefusal, Why};
use page_base::NoMemory;
use plain_model::PickList;
use std::alloc::Global;

// No schedule has more picks.
const MOST_PICKS: usize = 1_000_000;

// How many bytes stand before the first space.
fn word_len(words: &[u8]) -> usize
    ensures value { result ≡ prefix_len is_inside_word words.now }
    ensures within { result ≤ length words.now }
{
    words.iter().take_while(|byte| **byte != b' ').count()
}

// What stands behind the first space.
fn behind_word(words: &[u8]) -> &[u8]
    ensures value { result.now ≡ drop (prefix_len is_inside_word words.now + 1) words.now }
    ensures shorter { 0 < length words.now → length result.now < length words.now }
{
    match words.get(word_len(words) + 1..) {
        Some(rest) => rest,
        None => &[],
    }
}

// Adds the pick that a word is, if it isn't empty.
fn add_word(sessions: usize, word: &[u8], picks: &mut PickList) -> Result<bool, NoMemory>
    requires { sessions ≤ 64 }
    ensures { IfOk result (λ all. Adds all picks.old picks.new (picks_of sessions (filter is_word (word.now ∷ [])))) }
{
    if word.is_empty() {
        return Ok(true);
    }
    let Some(pick) = pick_of(sessions, word) else {
        return Ok(false);
    };
    picks.push(pick)?;
    Ok(true)
}

// Adds the picks that words are, as long as all are.
fn add_picks(sessions: usize, line: &[u8], picks: &mut PickList) -> Result<bool, NoMemory>
    requires { sessions ≤ 64 }
    ensures { IfOk result (λ all. Adds all picks.old picks.new (picks_of sessions (words line.now))) }
{
    let mut rest = line;
    while !rest.is_empty() {
        if !add_word(sessions, &rest[..word_len(rest)], picks)? {
            return Ok(false);
        }
        rest = behind_word(rest);
    }
    Ok(true)
}

// Why a line of the schedule can't stand there, if it can't; else its picks are added.
fn add_line(sessions: usize, line: &[u8], picks: &mut PickList) -> Result<Option<Why>, NoMemory>
    requires sessions { sessions ≤ 64 }
    requires few { length picks.old ≤ 1000000 }
    ensures { IfOk result (λ fault. AddsLine fault sessions line.now picks.old picks.new) }
{
    if !is_text(line) {
        return Ok(Some(Why::Byte));
    }
    if is_blank(line) {
        return Ok(None);
    }
    if !add_picks(sessions, line, picks)? {
        return Ok(Some(wrong_line(line)));
    }
    Ok((picks.len() > MOST_PICKS).then_some(Why::Many))
}

// Why a line that isn't picks can't stand in the schedule.
fn wrong_line(line: &[u8]) -> Why
    ensures { Some result ≡ picks_fault 0 line.now None }
{
    if begins_with_colon(line) {
        Why::Directive
    } else {
        Why::Pick
    }
}

// The picks of the lines that are left.
pub(crate) fn read_schedule(
    alloc: Global,
    reader: &mut Reader,
    sessions: usize,
) -> Result<PickList, ScriptRefusal>
    requires { sessions ≤ 64 }
    ensures ok { IfOk result (ReadsPicks sessions reader.old.line (left reader.old)) }
    ensures refused { IfErr result (Refuses (Scheduled sessions 0) 0 reader.old.line (left reader.old)) }
{
    let mut picks = PickList::new(alloc);
    while let Some(line) = reader.peek() {
        if let Some(why) = add_line(sessions, line, &mut picks)? {
            return Err(reader.refused(why));
        }
        reader.advance();
    }
    Ok(picks)
}
