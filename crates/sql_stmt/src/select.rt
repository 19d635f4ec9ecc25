//! SELECT: what it shows, and its order.

ghost use Rattle.std.specs.Prelude.{◌≡◌, true, refl};
ghost use Rattle.sql_lex.specs.Ahead.{first_of};
ghost use Rattle.sql_form.specs.Form.{Form, Value, May};
ghost use Rattle.sql_form.specs.Grammar.{first};
ghost use Rattle.sql_form.specs.Read.{read};
ghost use Rattle.sql_form.specs.Rules.{strict};
ghost use Rattle.sql_stmt.specs.Answers.{Gives};
ghost use Rattle.sql_stmt.specs.Saying.{SaysList};
ghost use Rattle.sql_stmt.specs.Selecting.{SaysCountAll, SaysSumOf, SaysSum, SaysShown, SaysDown, SaysOrderItem, SaysOrder, SaysSelectSums, SaysSelectRows, SaysSelect};
ghost use Rattle.sql_stmt.specs.SelectForms.{count_all, sum_of, aggregate, shown, direction, order_item, order_by, select_sums, select_rows, select};

use crate::pieces::{AnyValue, MOST_PARTS, from_table};
use crate::production::{Production, list, optional};
use crate::take::{is_key, is_mark, key, mark, name, name_ahead};
use plain_model::{Items, OrderItem, OrderList, SelectStmt, Sum};
use sql_lex::{Keyword, Mark, ParseRefusal, Tokens};
use std::alloc::Global;

/// COUNT ( * ) | SUM ( e )
pub(crate) struct Aggregate;

impl Production for Aggregate {
    type Said = Sum;

    ghost form = { aggregate };

    ghost says = { SaysSum };

    ghost plain = { refl };

    ghost solid = { refl };

    fn is_ahead(tokens: &Tokens<'_>) -> bool {
        is_key(tokens, Keyword::Count) || is_key(tokens, Keyword::Sum)
    }

    fn read(alloc: Global, tokens: &mut Tokens<'_>) -> Result<Sum, ParseRefusal> {
        if is_key(tokens, Keyword::Count) {
            return count_all(tokens);
        }
        sum_of(alloc, tokens)
    }
}

// COUNT ( * )
fn count_all(tokens: &mut Tokens<'_>) -> Result<Sum, ParseRefusal>
    ensures { Gives SaysCountAll result (read strict count_all tokens.old) tokens.new }
{
    key(tokens, Keyword::Count)?;
    mark(tokens, Mark::Open)?;
    mark(tokens, Mark::Star)?;
    mark(tokens, Mark::Close)?;
    Ok(Sum::CountAll)
}

// SUM ( e )
fn sum_of(alloc: Global, tokens: &mut Tokens<'_>) -> Result<Sum, ParseRefusal>
    ensures { Gives SaysSumOf result (read strict sum_of tokens.old) tokens.new }
{
    key(tokens, Keyword::Sum)?;
    mark(tokens, Mark::Open)?;
    let e = AnyValue::read(alloc, tokens)?;
    mark(tokens, Mark::Close)?;
    Ok(Sum::SumOf(e))
}

// * | e { , e }
fn shown(alloc: Global, tokens: &mut Tokens<'_>) -> Result<Items, ParseRefusal>
    ensures { Gives SaysShown result (read strict shown tokens.old) tokens.new }
{
    if is_mark(tokens, Mark::Star) {
        tokens.advance();
        return Ok(Items::Star);
    }
    let list = list::<AnyValue>(alloc, tokens, MOST_PARTS, true)?;
    Ok(Items::Exprs(list))
}

// Takes ASC or DESC where it stands; whether it was DESC.
fn down(tokens: &mut Tokens<'_>) -> Result<bool, ParseRefusal>
    ensures { Gives SaysDown result (read strict (May direction) tokens.old) tokens.new }
{
    if is_key(tokens, Keyword::Asc) {
        tokens.advance();
        return Ok(false);
    }
    if is_key(tokens, Keyword::Desc) {
        tokens.advance();
        return Ok(true);
    }
    Ok(false)
}

/// name [ASC | DESC]
pub(crate) struct OrderColumn;

impl Production for OrderColumn {
    type Said = OrderItem;

    ghost form = { order_item };

    ghost says = { SaysOrderItem };

    ghost plain = { refl };

    ghost solid = { refl };

    fn is_ahead(tokens: &Tokens<'_>) -> bool {
        name_ahead(tokens).is_some()
    }

    fn read(_alloc: Global, tokens: &mut Tokens<'_>) -> Result<OrderItem, ParseRefusal> {
        let col = name(tokens)?;
        let down = down(tokens)?;
        Ok(OrderItem { col, down })
    }
}

/// ORDER BY name [ASC | DESC] { , name [ASC | DESC] }
pub(crate) struct OrderBy;

impl Production for OrderBy {
    type Said = OrderList;

    ghost form = { order_by };

    ghost says = { SaysOrder };

    ghost plain = { refl };

    ghost solid = { refl };

    fn is_ahead(tokens: &Tokens<'_>) -> bool {
        is_key(tokens, Keyword::Order)
    }

    fn read(alloc: Global, tokens: &mut Tokens<'_>) -> Result<OrderList, ParseRefusal> {
        key(tokens, Keyword::Order)?;
        key(tokens, Keyword::By)?;
        list::<OrderColumn>(alloc, tokens, MOST_PARTS, true)
    }
}

// The order that is written, or none.
fn order(alloc: Global, tokens: &mut Tokens<'_>) -> Result<OrderList, ParseRefusal>
    ensures { Gives (SaysList SaysOrder) result (read strict (May order_by) tokens.old) tokens.new }
{
    match optional::<OrderBy>(alloc, tokens)? {
        Some(order) => Ok(order),
        None => Ok(OrderList::new(alloc)),
    }
}

// Behind SELECT: agg { , agg } FROM table [WHERE e]
fn select_sums(alloc: Global, tokens: &mut Tokens<'_>) -> Result<SelectStmt, ParseRefusal>
    ensures { Gives SaysSelectSums result (read strict select_sums tokens.old) tokens.new }
{
    let sums = list::<Aggregate>(alloc, tokens, MOST_PARTS, true)?;
    let (table, filter) = from_table(alloc, tokens)?;
    Ok(SelectStmt {
        table,
        items: Items::Sums(sums),
        filter,
        order: OrderList::new(alloc),
    })
}

// Behind SELECT: what is shown of each row, FROM table [WHERE e] [ORDER BY ..]
fn select_rows(alloc: Global, tokens: &mut Tokens<'_>) -> Result<SelectStmt, ParseRefusal>
    ensures { Gives SaysSelectRows result (read strict select_rows tokens.old) tokens.new }
{
    let items = shown(alloc, tokens)?;
    let (table, filter) = from_table(alloc, tokens)?;
    let order = order(alloc, tokens)?;
    Ok(SelectStmt {
        table,
        items,
        filter,
        order,
    })
}

// SELECT ..
pub(crate) fn select(alloc: Global, tokens: &mut Tokens<'_>) -> Result<SelectStmt, ParseRefusal>
    ensures { Gives SaysSelect result (read strict select tokens.old) tokens.new }
{
    key(tokens, Keyword::Select)?;
    if Aggregate::is_ahead(tokens) {
        return select_sums(alloc, tokens);
    }
    select_rows(alloc, tokens)
}
