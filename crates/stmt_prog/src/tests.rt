//! Statements run to their end over pages in memory: eight pages of one file, with no table but table 0.

ghost use Rattle.std.specs.Prelude.{◌≡◌, true, IfOk, IfSome};
ghost use Rattle.plain_model.specs.Free.{is_of_tables};
ghost use Rattle.plain_model.specs.Sound.{is_entry, is_sound};
ghost use Rattle.step_words.specs.declared.stage.Stage.TheVariants as stages;
ghost use Rattle.stmt_prog.specs.Feeding.{reads};
ghost use Rattle.stmt_prog.specs.Heads.{defines_well};

use crate::{Need, Prog, Refusal};
use alloc_pages::first_free;
use page_base::{Bytes, ColType, Column, Columns, Image, Name, PageId};
use page_fmt::{check, edit, slots};
use plain_model::{
    DeleteStmt, Expr, ExprList, ExprRows, InsertStmt, Items, Names, OrderList, Reply, SelectStmt,
    SetItem, SetList, Stmt, UpdateStmt,
};
use std::alloc::Global;
use std::process::Abort;
use std::test::Fail;
use step_words::DbKind;

// The owners of the pages: an allocation page, and the root of table 0; the others are free.
const OWNERS: [&[u8]; 8] = [
    b"\xff\xff\xff\xff",
    b"\x01\0\0\0",
    b"\0\0\0\0",
    b"\0\0\0\0",
    b"\0\0\0\0",
    b"\0\0\0\0",
    b"\0\0\0\0",
    b"\0\0\0\0",
];

// The root of table 0, which names no leaf.
const ROOT: [&[u8]; 1] = [b"\0\0\0\0\0"];

// Pages in memory, and the message of a statement that didn't come to its end.
#[derive(Drop)]
struct Disk {
    pages: Vec<Image>,
    said: u32,
}

fn page(alloc: Global, slots: &[&[u8]]) -> Result<Image, Fail> {
    let mut image = Image::blank(alloc)?;
    for (i, bytes) in slots.iter().enumerate() {
        check(&image)?;
        if i < 100 && bytes.len() < 100 {
            edit(&mut image, i as u16, bytes)?;
        }
    }
    Ok(image)
}

fn new_disk(alloc: Global) -> Result<Disk, Fail> {
    let mut pages = Vec::new(alloc);
    pages.push(page(alloc, &OWNERS)?)?;
    pages.push(page(alloc, &ROOT)?)?;
    for _ in 0..6 {
        pages.push(Image::blank(alloc)?)?;
    }
    Ok(Disk { pages, said: 0 })
}

impl Disk {
    // The page of this number, once more.
    fn copy(&self, alloc: Global, page: PageId) -> Result<Image, Fail> {
        let mut image = Image::blank(alloc)?;
        match self.pages.get(page.page as usize) {
            Some(found) => image.set(found),
            None => {}
        }
        Ok(image)
    }

    fn set(&mut self, page: PageId, image: &Image) {
        match self.pages.get_mut(page.page as usize) {
            Some(found) => found.set(image),
            None => {}
        }
    }

    // How many pages aren't blank.
    fn used(&self) -> usize {
        let mut used = 0;
        for image in self.pages.as_slice() {
            if slots(image) > 0 && used < 100 {
                used += 1;
            }
        }
        used
    }

    fn visit(
        &mut self,
        alloc: Global,
        stmt: &Stmt,
        page: PageId,
        prog: Prog,
    ) -> Result<Option<Prog>, Fail>
        requires lent { stmt.now ≡ prog.stmt }
        requires reads { reads prog.stage ≡ true }
        ensures { IfOk result (λ o. IfSome o (λ p. p.stmt ≡ prog.stmt)) }
    {
        let image = self.copy(alloc, page)?;
        check(&image)?;
        match prog.take(alloc, stmt, &image) {
            Ok(prog) => Ok(Some(prog)),
            Err(Refusal::Refused(message)) => {
                self.said = message.number;
                Ok(None)
            }
            Err(Refusal::Memory) => Ok(None),
        }
    }

    fn change(&mut self, alloc: Global, page: PageId, slot: u16, bytes: &[u8]) -> Result<(), Fail> {
        let mut image = self.copy(alloc, page)?;
        check(&image)?;
        if slot < 4048 && bytes.len() <= 8094 {
            edit(&mut image, slot, bytes)?;
            self.set(page, &image);
        }
        Ok(())
    }

    fn claim(&mut self, alloc: Global, owner: u32, prog: Prog) -> Result<Option<Prog>, Fail>
        requires { prog.stage ≡ stages.Claim }
        ensures { IfOk result (λ o. IfSome o (λ p. p.stmt ≡ prog.stmt)) }
    {
        let first = PageId { file: 0, page: 0 };
        let Some(page) = first_free(&self.copy(alloc, first)?) else {
            self.said = 1105;
            return Ok(None);
        };
        self.change(alloc, first, page, &owner.to_le_bytes())?;
        let page = PageId {
            file: 0,
            page: u32::from(page),
        };
        Ok(Some(prog.claimed(page)?))
    }

    fn edit(&mut self, alloc: Global, prog: Prog) -> Result<Option<Prog>, Fail>
        requires { prog.stage ≡ stages.Edit }
        ensures { IfOk result (λ o. IfSome o (λ p. p.stmt ≡ prog.stmt)) }
    {
        let next = prog.edit(alloc)?;
        self.change(alloc, next.page, next.slot, next.bytes.as_slice())?;
        Ok(Some(prog.edited()))
    }

    fn step(&mut self, alloc: Global, stmt: &Stmt, prog: Prog) -> Result<Option<Prog>, Fail>
        requires { stmt.now ≡ prog.stmt }
        ensures { IfOk result (λ o. IfSome o (λ p. p.stmt ≡ prog.stmt)) }
    {
        match prog.need() {
            Need::Lock {
                table: _,
                number: _,
                mode: _,
            } => Ok(Some(prog.locked())),
            Need::Visit { page, rows: _ } => self.visit(alloc, stmt, page, prog),
            Need::Plan => Ok(Some(prog.plan(alloc, stmt)?)),
            Need::Claim { owner } => self.claim(alloc, owner, prog),
            Need::Edit { page: _ } => self.edit(alloc, prog),
            Need::Finish => Ok(Some(prog)),
        }
    }

    // What the statement is answered: how many rows, 0 where it isn't about rows, or the number of a message.
    fn run(&mut self, alloc: Global, stmt: &Stmt) -> Result<u64, Fail>
        requires tables { is_of_tables stmt.now ≡ true }
        requires sound { is_sound stmt.now ≡ true }
        requires well { defines_well stmt.now ≡ true }
    {
        let mut prog = Prog::begin(alloc, stmt, DbKind::Source)?;
        for _ in 0..100 {
            match prog.need() {
                Need::Finish => return Ok(told(&prog.reply())),
                _ => {}
            }
            let Some(next) = self.step(alloc, stmt, prog)? else {
                return Ok(u64::from(self.said));
            };
            prog = next;
        }
        Ok(99)
    }
}

fn told(reply: &Reply) -> u64 {
    match reply {
        Reply::Ok => 0,
        Reply::Count(count) => *count,
        Reply::Rows(rows) => rows.len() as u64,
        Reply::Msg(message) => u64::from(message.number),
    }
}

// A text of so many letters.
fn text(alloc: Global, size: usize) -> Result<Expr, Fail>
    ensures { IfOk result (λ e. is_entry e ≡ true) }
{
    Ok(Expr::Text(Bytes::from(vec![in alloc; b'x'; size]?)))
}

// INSERT name VALUES (id, 'x..', 'x..')
fn insert(alloc: Global, name: Name, id: i64, first: usize, last: usize) -> Result<Stmt, Fail>
    ensures tables { IfOk result (λ s. is_of_tables s ≡ true) }
    ensures sound { IfOk result (λ s. is_sound s ≡ true) }
    ensures well { IfOk result (λ s. defines_well s ≡ true) }
{
    let row = vec![in alloc; Expr::Number(id), text(alloc, first)?, text(alloc, last)?]?;
    let rows = vec![in alloc; ExprList::from(row)]?;
    Ok(Stmt::Insert(InsertStmt {
        table: name,
        cols: Names::new(alloc),
        rows: ExprRows::from(rows),
    }))
}

// UPDATE name SET b = 'x..'
fn update(alloc: Global, name: Name, size: usize) -> Result<Stmt, Fail>
    ensures tables { IfOk result (λ s. is_of_tables s ≡ true) }
    ensures sound { IfOk result (λ s. is_sound s ≡ true) }
    ensures well { IfOk result (λ s. defines_well s ≡ true) }
{
    let sets = vec![in alloc;
        SetItem {
            col: Name::read(b"b")?,
            to: text(alloc, size)?
        },
    ]?;
    Ok(Stmt::Update(UpdateStmt {
        table: name,
        sets: SetList::from(sets),
        filter: None,
    }))
}

// SELECT * FROM name
fn select(alloc: Global, name: Name) -> Stmt
    ensures tables { is_of_tables result ≡ true }
    ensures sound { is_sound result ≡ true }
    ensures well { defines_well result ≡ true }
{
    Stmt::Select(SelectStmt {
        table: name,
        items: Items::Star,
        filter: None,
        order: OrderList::new(alloc),
    })
}

// CREATE TABLE name (id INT PRIMARY KEY, a VARCHAR(8000), b VARCHAR(100))
fn create(alloc: Global, name: Name) -> Result<Stmt, Fail>
    ensures tables { IfOk result (λ s. is_of_tables s ≡ true) }
    ensures sound { IfOk result (λ s. is_sound s ≡ true) }
    ensures well { IfOk result (λ s. defines_well s ≡ true) }
{
    let cols = vec![in alloc;
        Column {
            name: Name::read(b"id")?,
            kind: ColType::Int,
            nullable: false,
            key: 1
        },
        Column {
            name: Name::read(b"a")?,
            kind: ColType::Text { max: 8000 },
            nullable: true,
            key: 0
        },
        Column {
            name: Name::read(b"b")?,
            kind: ColType::Text { max: 100 },
            nullable: true,
            key: 0
        },
    ]?;
    Ok(Stmt::CreateTable(name, Columns::from(cols)))
}

#[test]
fn tables_come_and_go(rt: HostRuntime) -> Result<(), Fail> {
    let alloc = rt.alloc();
    let mut disk = new_disk(alloc)?;
    let (a, b) = (Name::read(b"a")?, Name::read(b"b")?);
    assert_eq!(rt; disk.run(alloc, &Stmt::DropTable(a))?, 208);
    assert_eq!(rt; disk.run(alloc, &create(alloc, a)?)?, 0);
    assert_eq!(rt; disk.run(alloc, &create(alloc, a)?)?, 2714);
    assert_eq!(rt; disk.run(alloc, &create(alloc, b)?)?, 0);
    assert_eq!(rt; disk.used(), 5);
    for id in 1..4 {
        assert_eq!(rt; disk.run(alloc, &insert(alloc, a, id, 5000, 0)?)?, 1);
    }
    assert_eq!(rt; disk.used(), 8);
    assert_eq!(rt; disk.run(alloc, &insert(alloc, b, 1, 5000, 0)?)?, 1105);
    assert_eq!(rt; disk.run(alloc, &Stmt::DropTable(a))?, 0);
    assert_eq!(rt; disk.used(), 4);
    assert_eq!(rt; disk.run(alloc, &insert(alloc, b, 1, 5000, 0)?)?, 1);
    assert_eq!(rt; disk.run(alloc, &select(alloc, b))?, 1);
    assert_eq!(rt; disk.run(alloc, &select(alloc, a))?, 208);
    Ok(())
}

#[test]
fn rows_grow_and_move(rt: HostRuntime) -> Result<(), Fail> {
    let alloc = rt.alloc();
    let mut disk = new_disk(alloc)?;
    let w = Name::read(b"w")?;
    assert_eq!(rt; disk.run(alloc, &create(alloc, w)?)?, 0);
    assert_eq!(rt; disk.run(alloc, &insert(alloc, w, 1, 8000, 51)?)?, 1);
    assert_eq!(rt; disk.run(alloc, &insert(alloc, w, 2, 8000, 52)?)?, 60015);
    assert_eq!(rt; disk.run(alloc, &insert(alloc, w, 1, 1, 1)?)?, 2627);
    assert_eq!(rt;
        disk.run(
            alloc,
            &Stmt::Delete(DeleteStmt {
                table: w,
                filter: None
            })
        )?,
        1
    );
    assert_eq!(rt; disk.run(alloc, &insert(alloc, w, 1, 4000, 10)?)?, 1);
    assert_eq!(rt; disk.run(alloc, &insert(alloc, w, 2, 4000, 10)?)?, 1);
    assert_eq!(rt; disk.used(), 5);
    assert_eq!(rt; disk.run(alloc, &update(alloc, w, 100)?)?, 2);
    assert_eq!(rt; disk.used(), 6);
    assert_eq!(rt; disk.run(alloc, &select(alloc, w))?, 2);
    Ok(())
}
