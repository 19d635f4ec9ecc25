//! The bytes of one page.

ghost use Rattle.std.specs.Prelude.{◌≡◌, IfOk, length};
ghost use Rattle.std.specs.Borrow.{Lends, Array, sem, u8 as byte};
ghost use Rattle.page_base.specs.Pages.{blank};
ghost use Rattle.page_base.specs.contracts.image.Image.{the_row};

use crate::NoMemory;
use std::alloc::Global;
use std::marker::Model;

/// How many bytes a page has; the page size of SQL Server.
pub const PAGE: usize = 8192;

/// The 8,192 bytes of a page.
#[derive(Debug, Drop)]
pub struct Image {
    bytes: Box<[u8; 8192]>,
}

impl Model for Image {
    ghost use Rattle.std.specs.Prelude.{List, ℕ};

    ghost Value = { List ℕ };

    ghost view = { λ a. a.bytes.value };
}

impl Image {
    /// A page of zeros.
    #[tactic(auto, unfolding(crate::specs::Pages::blank))]
    pub fn blank(alloc: Global) -> Result<Image, NoMemory>
        ensures { IfOk result (λ image. image ≡ blank) }
    {
        let bytes = Box::new(alloc, [0u8; PAGE])?;
        Ok(Image { bytes })
    }

    /// The bytes.
    pub fn bytes(&self) -> &[u8]
        ensures value { result.now ≡ self.now }
        ensures len { length self.now ≡ 8192 }
    {
        &*self.bytes
    }

    /// The bytes, to be changed in place.
    pub fn bytes_mut(&mut self) -> &mut [u8; 8192]
        ensures* lends { sem 𝓛 (Lends the_row (Array byte 8192) self.entry result (λ w. w)) }
        ensures value { result.now ≡ self.entry.now }
    {
        &mut *self.bytes
    }

    /// Makes all bytes zero.
    #[tactic(auto, unfolding(crate::specs::Pages::blank))]
    pub fn clear(&mut self)
        ensures { self.new ≡ blank }
    {
        *self.bytes = [0u8; PAGE];
    }

    /// Takes over the bytes of another page.
    pub fn set(&mut self, from: &Image)
        ensures { self.new ≡ from.now }
    {
        self.bytes.copy_from_slice(from.bytes());
    }

    /// Takes over a page's bytes from a slice.
    pub fn set_bytes(&mut self, from: &[u8])
        requires { length from.now ≡ 8192 }
        ensures { self.new ≡ from.now }
    {
        self.bytes.copy_from_slice(from);
    }
}
