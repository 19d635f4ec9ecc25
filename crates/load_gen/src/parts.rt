//! The parts of the script that are the same for every number.

ghost use Rattle.std.specs.Prelude.{◌≡◌};
ghost use Rattle.load_gen.specs.Script.{tables_text, snapshot_text, sales_front, update_front, loss_text, reading_text, revert_text};

#[tactic(auto, unfolding(crate::specs::Script::tables_text))]
pub(crate) fn tables_text() -> &'static [u8]
    ensures { result.now ≡ tables_text }
{
    b":session 1\nUSE shop\nCREATE TABLE item (id INT PRIMARY KEY, name VARCHAR(40) NOT NULL, stock INT NOT NULL)\nCREATE TABLE sale (id INT PRIMARY KEY, item INT NOT NULL, qty BIGINT)\n"
}

#[tactic(auto, unfolding(crate::specs::Script::snapshot_text))]
pub(crate) fn snapshot_text() -> &'static [u8]
    ensures { result.now ≡ snapshot_text }
{
    b":session 2\nCREATE DATABASE shop_h1 ON (NAME = shop_data, FILENAME = 'shop_h1.ss') AS SNAPSHOT OF shop\n"
}

#[tactic(auto, unfolding(crate::specs::Script::sales_front))]
pub(crate) fn sales_front() -> &'static [u8]
    ensures { result.now ≡ sales_front }
{
    b":session 3\nUSE shop\n"
}

#[tactic(auto, unfolding(crate::specs::Script::update_front))]
pub(crate) fn update_front() -> &'static [u8]
    ensures { result.now ≡ update_front }
{
    b"UPDATE item SET stock = stock - 1 WHERE id = "
}

#[tactic(auto, unfolding(crate::specs::Script::loss_text))]
pub(crate) fn loss_text() -> &'static [u8]
    ensures { result.now ≡ loss_text }
{
    b":session 4\nUSE shop\nDELETE FROM sale\nSELECT COUNT(*) FROM sale\n"
}

#[tactic(auto, unfolding(crate::specs::Script::reading_text))]
pub(crate) fn reading_text() -> &'static [u8]
    ensures { result.now ≡ reading_text }
{
    b":session 5\nUSE shop_h1\nSELECT COUNT(*), SUM(stock) FROM item\nSELECT COUNT(*) FROM sale\n"
}

#[tactic(auto, unfolding(crate::specs::Script::revert_text))]
pub(crate) fn revert_text() -> &'static [u8]
    ensures { result.now ≡ revert_text }
{
    b":session 6\nRESTORE DATABASE shop FROM DATABASE_SNAPSHOT = 'shop_h1'\nUSE shop\nSELECT COUNT(*) FROM sale\n"
}
