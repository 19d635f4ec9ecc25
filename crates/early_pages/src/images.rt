//! The images of new files: pages of zeros.

ghost use Rattle.std.specs.Prelude.{IfOk, ◌≡◌, replicate};
ghost use Rattle.page_base.specs.Pages.{blank, filled};

use page_base::{Image, NoMemory, Table};
use std::alloc::Global;

// So many pages of zeros.
fn blank_file(alloc: Global, pages: u32) -> Result<Vec<Image>, NoMemory>
    ensures { IfOk result (λ file. file.items ≡ replicate pages blank) }
{
    let mut file = Vec::new(alloc);
    for _ in 0..pages {
        file.push(Image::blank(alloc)?)?;
    }
    Ok(file)
}

/// Pages of zeros for files of so many pages.
pub(crate) fn blank_images(alloc: Global, counts: &[u32]) -> Result<Table<Image>, NoMemory>
    ensures { IfOk result (λ images. images ≡ filled counts.now blank) }
{
    let mut files = Vec::new(alloc);
    for count in counts {
        files.push(blank_file(alloc, *count)?)?;
    }
    Ok(Table::from(files))
}
