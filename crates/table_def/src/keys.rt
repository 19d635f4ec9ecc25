//! The PRIMARY KEYs of a definition, written behind a column's type or as a part of their own.

ghost use Rattle.std.specs.Prelude.{◌≡◌, ◌<◌, ◌≤◌, length, IfSome};
ghost use Rattle.std.specs.List.{position};
ghost use Rattle.std.specs.Str.{bytes_eq};
ghost use Rattle.table_def.specs.Keys.{keys_in, lacks_one_key, key_of, place_in};

use crate::options::own_keys;
use crate::{TablePart, TableParts};
use page_base::Name;
use std::slice;

// How many PRIMARY KEYs a part has.
fn keys_in(part: &TablePart) -> usize
    ensures { result ≡ length (keys_in part.now) }
{
    match part {
        TablePart::Column(column) => own_keys(column),
        TablePart::Key(_) => 1,
    }
}

/// Whether there is no PRIMARY KEY, or more than one.
pub(crate) fn lacks_one_key(parts: &TableParts) -> bool
    ensures { result ≡ lacks_one_key parts.now }
{
    let mut keys: usize = 0;
    for part in parts.as_slice() {
        keys = keys.saturating_add(keys_in(part));
    }
    keys != 1
}

/// The names of the key's columns, in the key's order: those of the first PRIMARY KEY.
pub(crate) fn key_of(parts: &TableParts) -> &[Name]
    ensures { result.now ≡ key_of parts.now }
{
    for part in parts.as_slice() {
        match part {
            TablePart::Column(column) if own_keys(column) > 0 => {
                return slice::from_ref(&column.name);
            }
            TablePart::Column(_) => {}
            TablePart::Key(names) => return names.as_slice(),
        }
    }
    &[]
}

// The index of a name in the key.
fn index_in(key: &[Name], name: &Name) -> Option<usize>
    ensures found { result ≡ position (bytes_eq name.now) key.now }
    ensures within { IfSome result (λ i. i < length key.now) }
{
    key.iter().position(|other| name.is_same(other))
}

/// The place of a name in the key, from 1; 0 where it isn't there.
pub(crate) fn place_in(key: &[Name], name: &Name) -> u8
    requires { length key.now ≤ 16 }
    ensures { result ≡ place_in key.now name.now }
{
    match index_in(key, name) {
        Some(index) => index as u8 + 1,
        None => 0,
    }
}
