//! Which columns may be the first ones of a table definition, and which are a whole one.

ghost use Rattle.std.specs.Prelude.{◌≡◌, ◌<◌, ◌≤◌, map, length};
ghost use Rattle.std.specs.List.{list_any, list_all};
ghost use Rattle.std.specs.Str.{bytes_eq};
ghost use Rattle.plain_model.specs.Sound.{is_type, is_column, are_distinct};
ghost use Rattle.sys_cat.specs.Growing.{count_at, key_size, top, span, are_once, names_fit, places_fit, can_grow, is_whole};

use page_base::{ColType, Column, Name};

fn is_type(kind: ColType) -> bool
    ensures { result ≡ is_type kind }
{
    match kind {
        ColType::Int | ColType::Big => true,
        ColType::Text { max } => 1 <= max && max <= 8000,
    }
}

fn is_column(column: &Column) -> bool
    ensures { result ≡ is_column column.now }
{
    is_type(column.kind) && (!column.nullable || column.key == 0)
}

fn has_name(cols: &[Column], name: &Name) -> bool
    ensures { result ≡ list_any (bytes_eq name.now) (map (λ c. c.name) cols.now) }
{
    match cols {
        [] => false,
        [column, cols @ ..] => name.is_same(&column.name) || has_name(cols, name),
    }
}

fn are_distinct(cols: &[Column]) -> bool
    ensures { result ≡ are_distinct (map (λ c. c.name) cols.now) }
{
    match cols {
        [] => true,
        [column, cols @ ..] => !has_name(cols, &column.name) && are_distinct(cols),
    }
}

fn count_at(cols: &[Column], place: u8) -> usize
    ensures { result ≡ count_at cols.now place }
{
    cols.iter().filter(|column| column.key == place).count()
}

fn key_size(cols: &[Column]) -> usize
    ensures size { result ≡ key_size cols.now }
    ensures few { result ≤ length cols.now }
{
    cols.iter().filter(|column| 1 <= column.key).count()
}

fn top(cols: &[Column]) -> u8
    ensures { result ≡ top cols.now }
{
    match cols {
        [] => 0,
        [column, cols @ ..] => column.key.max(top(cols)),
    }
}

fn span(cols: &[Column]) -> u8
    ensures { result ≡ span cols.now }
{
    top(cols).max(1)
}

fn are_once(cols: &[Column], n: u8) -> bool
    requires { n < 255 }
    ensures { result ≡ are_once cols.now n }
{
    for i in 0..n {
        if count_at(cols, i + 1) > 1 {
            return false;
        }
    }
    true
}

fn are_columns(cols: &[Column]) -> bool
    ensures { result ≡ list_all is_column cols.now }
{
    cols.iter().all(|column| is_column(column))
}

fn names_fit(cols: &[Column]) -> bool
    ensures { result ≡ names_fit cols.now }
{
    are_distinct(cols) && are_columns(cols)
}

fn places_fit(cols: &[Column]) -> bool
    requires { length cols.now ≤ 65 }
    ensures { result ≡ places_fit cols.now }
{
    let span = span(cols);
    if span > 16 || !are_once(cols, span) {
        return false;
    }
    cols.len() + span as usize <= 64 + key_size(cols)
}

// Whether columns, few of them, may be the first ones of a table definition.
pub(crate) fn can_grow(cols: &[Column]) -> bool
    requires { length cols.now ≤ 65 }
    ensures { result ≡ can_grow cols.now }
{
    names_fit(cols) && places_fit(cols)
}

// Whether no place of the key is missing.
pub(crate) fn is_whole(cols: &[Column]) -> bool
    ensures { result ≡ is_whole cols.now }
{
    key_size(cols) == span(cols) as usize
}
