//! Things laid in parts, each of which takes as many as have room.

ghost use Rattle.std.specs.Prelude.{◌≡◌, IfOk};
ghost use Rattle.tree_laws.specs.Parts.{fill};

use page_base::{ListOf, NoMemory};
use std::alloc::Global;

/// A thing that takes room.
pub trait Takes {
    ghost use Rattle.std.specs.Prelude.{ℕ, ◌≡◌};

    ghost size: { Self → ℕ };

    /// How much room it takes. Takes no memory.
    fn size(&self) -> usize
        ensures { result ≡ size self.now };
}

/// Things in parts, in order: each part takes as many as have room.
pub fn filled<T: Takes + Drop>(
    alloc: Global,
    all: usize,
    items: Vec<T>,
) -> Result<Vec<ListOf<T>>, NoMemory>
    ensures { IfOk result (λ parts. parts.items ≡ fill T.size all all items.items) }
{
    let mut parts = Vec::new(alloc);
    let mut part = ListOf::new(alloc);
    let mut left = all;
    for item in items {
        let size = item.size();
        if size <= left {
            left -= size;
            part.push(item)?;
            continue;
        }
        parts.push(part)?;
        part = ListOf::new(alloc);
        part.push(item)?;
        left = all.saturating_sub(size);
    }
    parts.push(part)?;
    Ok(parts)
}
