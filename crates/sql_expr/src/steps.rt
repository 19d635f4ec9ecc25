//! The steps of reading an expression that take no more than two tokens.

ghost use Rattle.std.specs.Prelude.{◌≡◌, ◌∷◌, ◌≢◌, ◌≤◌, ◌+◌, [], true, false, Bool, ℕ, List, length, IfOk, IfSome};
ghost use Rattle.plain_model.specs.Tree.{Tree, tree_of};
ghost use Rattle.sql_lex.specs.Ahead.{first_of};
ghost use Rattle.sql_expr.specs.declared.role.Level.TheVariants as levels;
ghost use Rattle.sql_expr.specs.Grammar.{inner};
ghost use Rattle.sql_expr.specs.Roles.{role_of};
ghost use Rattle.sql_expr.specs.Rules.{strict};
ghost use Rattle.sql_expr.specs.Symbols.{Part, part, Frame, framed, Symbol, Want, May, Judge, Shut, Nullness, NullAfterNot, AfterNot, Low, Opens, Entry, Bounding, null_test};
ghost use Rattle.sql_expr.specs.Read.{run};
ghost use Rattle.sql_expr.specs.Steps.{IsJoined, Uses, is_part, begins, part_of, Passes, operated, found, compared, started, noted, listed};

use crate::ahead::{
    compares, has_truth, joins, joins_truths, leaf, place, refused, role_ahead, take, use_one,
};
use crate::tree::Read;
use crate::{Level, Role};
use plain_model::{CompareOp, Expr, MathOp};
use sql_lex::{ParseRefusal, Tokens};
use std::alloc::Global;

// How an expression begins.
#[derive(Clone, Copy)]
pub(crate) enum Beginning {
    Bracket,
    Minus,
    Leaf,
}

// The first token of an expression: a bracket or a minus sign, and the levels that may open under it, or the whole.
#[derive(Drop)]
pub(crate) enum Start {
    Bracket { n: u32, at: u32 },
    Minus { n: u32, at: u32 },
    Atom { tree: Expr, at: u32 },
}

// An operator, and how many may come behind it.
#[derive(Clone, Copy)]
pub(crate) struct Joint {
    pub operator: Role,
    pub spare: u32,
}

// A NOT: the levels that may open under it, its place, and how many operators may come behind it.
#[derive(Clone, Copy)]
pub(crate) struct Opened {
    pub n: u32,
    pub at: u32,
    pub spare: u32,
}

// What makes a truth of a value.
#[derive(Clone, Copy)]
pub(crate) enum Comparison {
    Nothing,
    Relation(CompareOp),
    Null { negative: bool },
    Between { negative: bool },
    In { negative: bool },
}

// That, and how many operators may come behind its words.
#[derive(Clone, Copy)]
pub(crate) struct Found {
    pub comparison: Comparison,
    pub spare: u32,
}

fn begins(role: Role) -> Beginning
    ensures { result ≡ begins role }
{
    match role {
        Role::Open => Beginning::Bracket,
        Role::Math(MathOp::Sub) => Beginning::Minus,
        _ => Beginning::Leaf,
    }
}

// An expression of the level begins with one of the next.
pub(crate) fn enter(tokens: &Tokens<'_>, level: Level)
    requires { IsJoined level }
    ensures { (names : Bool) (n : ℕ) (now : Part) (spare : ℕ) (stack : List Symbol) → run names strict (Want n level ∷ stack) now spare tokens.now ≡ run names strict (Want n (inner level) ∷ May n level ∷ stack) now spare tokens.now }
{
    let _role = role_ahead(tokens);
}

// A part that was read has the wanted kind, or it is refused where it begins.
pub(crate) fn judge(tokens: &Tokens<'_>, read: &Read, truth: bool) -> Result<(), ParseRefusal>
    ensures { (names : Bool) (frame : Frame) (stack : List Symbol) → Passes result (run names strict (Judge truth frame ∷ stack) (part_of read.now) read.now.spare tokens.now) (λ u. run names strict stack (framed frame (part_of read.now)) read.now.spare tokens.now) }
{
    let _role = role_ahead(tokens);
    if has_truth(&read.tree) == truth {
        Ok(())
    } else {
        Err(ParseRefusal::Syntax { at: read.at })
    }
}

// Takes the bracket that closes.
pub(crate) fn shut(tokens: &mut Tokens<'_>) -> Result<(), ParseRefusal>
    ensures passes { (names : Bool) (at : ℕ) (now : Part) (spare : ℕ) (stack : List Symbol) → Passes result (run names strict (Shut at ∷ stack) now spare tokens.old) (λ u. run names strict stack (part now.tree at) spare tokens.new) }
    ensures shorter { length tokens.new ≤ length tokens.old }
{
    match role_ahead(tokens) {
        Role::Close => {
            take(tokens);
            Ok(())
        }
        _ => Err(refused(tokens)),
    }
}

// Takes an operator, where one more may come; says how many may come behind it.
pub(crate) fn take_operator(tokens: &mut Tokens<'_>, spare: u32) -> Result<u32, ParseRefusal>
    requires { is_part (role_of (first_of tokens.old)) ≡ true }
    ensures uses { Uses result spare tokens.old }
    ensures taken { IfOk result (λ m. tokens.old ≡ first_of tokens.old ∷ tokens.new) }
    ensures shorter { length tokens.new ≤ length tokens.old }
{
    let spare = use_one(tokens, spare)?;
    take(tokens);
    Ok(spare)
}

// The operator of the level behind an operand, if one stands there.
pub(crate) fn operator(
    tokens: &mut Tokens<'_>,
    level: Level,
    left: &Read,
) -> Result<Option<Joint>, ParseRefusal>
    requires { level ≢ levels.Comps }
    ensures passes { (names : Bool) (n : ℕ) (stack : List Symbol) → Passes result (run names strict (May n level ∷ stack) (part_of left.now) left.now.spare tokens.old) (operated names n level stack left.now tokens.new) }
    ensures shorter { length tokens.new ≤ length tokens.old }
    ensures taken { IfOk result (λ o. IfSome o (λ j. length tokens.new + 1 ≤ length tokens.old)) }
{
    let operator = role_ahead(tokens);
    if !joins(level, operator) {
        return Ok(None);
    }
    if has_truth(&left.tree) != joins_truths(operator) {
        return Err(ParseRefusal::Syntax { at: left.at });
    }
    let spare = take_operator(tokens, left.spare)?;
    Ok(Some(Joint { operator, spare }))
}

// Behind IS: [NOT] NULL. Says whether NOT stands there, and how many operators may come behind.
fn nullness(tokens: &mut Tokens<'_>, left: &Read, spare: u32) -> Result<Found, ParseRefusal>
    ensures passes { (names : Bool) (n : ℕ) (stack : List Symbol) → Passes result (run names strict (Nullness (part_of left.now) ∷ stack) (part_of left.now) spare tokens.old) (compared names n stack (part_of left.now) tokens.new) }
    ensures shorter { length tokens.new ≤ length tokens.old }
{
    match role_ahead(tokens) {
        Role::Null => {
            take(tokens);
            let comparison = Comparison::Null { negative: false };
            Ok(Found { comparison, spare })
        }
        Role::Not => {
            let spare = take_operator(tokens, spare)?;
            null_after_not(tokens, left, spare)
        }
        _ => Err(refused(tokens)),
    }
}

// Behind IS NOT: NULL.
fn null_after_not(tokens: &mut Tokens<'_>, left: &Read, spare: u32) -> Result<Found, ParseRefusal>
    ensures passes { (names : Bool) (n : ℕ) (stack : List Symbol) → Passes result (run names strict (NullAfterNot (part_of left.now) ∷ stack) (part_of left.now) spare tokens.old) (compared names n stack (part_of left.now) tokens.new) }
    ensures shorter { length tokens.new ≤ length tokens.old }
{
    match role_ahead(tokens) {
        Role::Null => {
            take(tokens);
            let comparison = Comparison::Null { negative: true };
            Ok(Found { comparison, spare })
        }
        _ => Err(refused(tokens)),
    }
}

// Behind NOT: BETWEEN or IN.
fn after_not(tokens: &mut Tokens<'_>, left: &Read, spare: u32) -> Result<Found, ParseRefusal>
    ensures passes { (names : Bool) (n : ℕ) (stack : List Symbol) → Passes result (run names strict (AfterNot n (part_of left.now) ∷ stack) (part_of left.now) spare tokens.old) (compared names n stack (part_of left.now) tokens.new) }
    ensures shorter { length tokens.new ≤ length tokens.old }
{
    match role_ahead(tokens) {
        Role::Between => {
            let spare = take_operator(tokens, spare)?;
            let comparison = Comparison::Between { negative: true };
            Ok(Found { comparison, spare })
        }
        Role::In => {
            let spare = take_operator(tokens, spare)?;
            let comparison = Comparison::In { negative: true };
            Ok(Found { comparison, spare })
        }
        _ => Err(refused(tokens)),
    }
}

// The words that make a truth of a value, as far as the next operand, if they stand there.
pub(crate) fn comparing(tokens: &mut Tokens<'_>, left: &Read) -> Result<Found, ParseRefusal>
    ensures passes { (names : Bool) (n : ℕ) (stack : List Symbol) → Passes result (run names strict (May n levels.Comps ∷ stack) (part_of left.now) left.now.spare tokens.old) (compared names n stack (part_of left.now) tokens.new) }
    ensures shorter { length tokens.new ≤ length tokens.old }
{
    let role = role_ahead(tokens);
    if !compares(role) {
        let comparison = Comparison::Nothing;
        return Ok(Found {
            comparison,
            spare: left.spare,
        });
    }
    if has_truth(&left.tree) {
        return Err(ParseRefusal::Syntax { at: left.at });
    }
    let spare = take_operator(tokens, left.spare)?;
    match role {
        Role::Compare(op) => Ok(Found {
            comparison: Comparison::Relation(op),
            spare,
        }),
        Role::Is => nullness(tokens, left, spare),
        Role::Not => after_not(tokens, left, spare),
        Role::Between => Ok(Found {
            comparison: Comparison::Between { negative: false },
            spare,
        }),
        Role::In => Ok(Found {
            comparison: Comparison::In { negative: false },
            spare,
        }),
        _ => Ok(Found {
            comparison: Comparison::Nothing,
            spare,
        }),
    }
}

// The AND behind a lower bound.
pub(crate) fn and(tokens: &mut Tokens<'_>, low: &Read) -> Result<(), ParseRefusal>
    ensures passes { (names : Bool) (n : ℕ) (negative : Bool) (left : Part) (stack : List Symbol) → Passes result (run names strict (Low n negative left ∷ stack) (part_of low.now) low.now.spare tokens.old)
        (λ u. run names strict (Want n levels.Sums ∷ Judge false (Bounding negative left (tree_of low.now.tree)) ∷ stack) (part_of low.now) low.now.spare tokens.new) }
    ensures shorter { length tokens.new ≤ length tokens.old }
{
    let role = role_ahead(tokens);
    if has_truth(&low.tree) {
        return Err(ParseRefusal::Syntax { at: low.at });
    }
    match role {
        Role::And => {
            take(tokens);
            Ok(())
        }
        _ => Err(refused(tokens)),
    }
}

// The first token of an expression of the innermost level.
pub(crate) fn unary_start(
    alloc: Global,
    tokens: &mut Tokens<'_>,
    names: bool,
    n: u32,
) -> Result<Start, ParseRefusal>
    ensures passes { (now : Part) (spare : ℕ) (stack : List Symbol) → Passes result (run names strict (Want n levels.Unaries ∷ stack) now spare tokens.old) (started names stack now spare tokens.new) }
    ensures shorter { length tokens.new ≤ length tokens.old }
    ensures taken { IfOk result (λ x. length tokens.new + 1 ≤ length tokens.old) }
{
    let at = place(tokens);
    match begins(role_ahead(tokens)) {
        Beginning::Bracket => {
            let n = use_one(tokens, n)?;
            take(tokens);
            Ok(Start::Bracket { n, at })
        }
        Beginning::Minus => {
            let n = use_one(tokens, n)?;
            take(tokens);
            Ok(Start::Minus { n, at })
        }
        Beginning::Leaf => match leaf(alloc, tokens, names)? {
            Some(tree) => {
                take(tokens);
                Ok(Start::Atom { tree, at })
            }
            None => Err(refused(tokens)),
        },
    }
}

// NOT, if it stands here.
pub(crate) fn not_start(
    tokens: &mut Tokens<'_>,
    n: u32,
    spare: u32,
) -> Result<Option<Opened>, ParseRefusal>
    ensures passes { (names : Bool) (now : Part) (stack : List Symbol) → Passes result (run names strict (Want n levels.Nots ∷ stack) now spare tokens.old) (noted names n stack now spare tokens.new) }
    ensures shorter { length tokens.new ≤ length tokens.old }
    ensures taken { IfOk result (λ o. IfSome o (λ x. length tokens.new + 1 ≤ length tokens.old)) }
{
    let at = place(tokens);
    match role_ahead(tokens) {
        Role::Not => {
            let n = use_one(tokens, n)?;
            let spare = take_operator(tokens, spare)?;
            Ok(Some(Opened { n, at, spare }))
        }
        _ => Ok(None),
    }
}

// The bracket that opens a list.
pub(crate) fn list_start(tokens: &mut Tokens<'_>, n: u32) -> Result<u32, ParseRefusal>
    ensures passes { (names negative : Bool) (left now : Part) (spare : ℕ) (stack : List Symbol) → Passes result (run names strict (Opens n negative left ∷ stack) now spare tokens.old) (λ m. run names strict (Want m levels.Ors ∷ Entry m negative left [] ∷ stack) now spare tokens.new) }
    ensures shorter { length tokens.new ≤ length tokens.old }
    ensures taken { IfOk result (λ m. length tokens.new + 1 ≤ length tokens.old) }
{
    match role_ahead(tokens) {
        Role::Open => {
            let n = use_one(tokens, n)?;
            take(tokens);
            Ok(n)
        }
        _ => Err(refused(tokens)),
    }
}

// Behind an entry of a list: how many operators may come behind the comma, or none where the list is closed.
pub(crate) fn entry_end(tokens: &mut Tokens<'_>, entry: &Read) -> Result<Option<u32>, ParseRefusal>
    ensures passes { (names : Bool) (n : ℕ) (negative : Bool) (left : Part) (before : List Tree) (stack : List Symbol) → Passes result (run names strict (Entry n negative left before ∷ stack) (part_of entry.now) entry.now.spare tokens.old) (listed names n negative left before stack entry.now tokens.new) }
    ensures shorter { length tokens.new ≤ length tokens.old }
    ensures taken { IfOk result (λ more. length tokens.new + 1 ≤ length tokens.old) }
{
    let role = role_ahead(tokens);
    if has_truth(&entry.tree) {
        return Err(ParseRefusal::Syntax { at: entry.at });
    }
    match role {
        Role::Comma => {
            let spare = take_operator(tokens, entry.spare)?;
            Ok(Some(spare))
        }
        Role::Close => {
            take(tokens);
            Ok(None)
        }
        _ => Err(refused(tokens)),
    }
}
