//! How often a page is pinned is counted in its frame.

ghost use Rattle.std.specs.Prelude.{◌≡◌, ◌<◌, ◌^◌};
ghost use Rattle.page_fmt.specs.Content.{IsPage};
ghost use Rattle.buf_pool.specs.Pool.{img, pins, with_pin, without_pin, IsPooled, IsPinned};
ghost use Rattle.buf_pool.specs.Steps.{SameShown};

use crate::Pool;
use page_base::PageId;
use page_dev::PageFile;

impl<P: PageFile> Pool<P> {
    // Pins a page in memory once more.
    pub(crate) fn add_pin(&mut self, p: PageId)
        requires pooled { IsPooled self.old p }
        requires few { pins self.old p < 2 ^ 100 }
        ensures pins { pins self.new ≡ with_pin (pins self.old) p }
        ensures shown { SameShown self.old self.new }
        ensures pooled { IsPooled self.new p }
        ensures page { IsPage (img self.new p) }
    {
        let frame = self.frames.peek_mut(&p).unwrap();
        frame.pins += 1;
    }

    /// Pins a pinned page once more.
    #[tactic(auto, using(crate::proofs::FrameLemmas::pinned_there))]
    pub fn pin(&mut self, p: PageId)
        requires pinned { IsPinned self.old p }
        requires few { pins self.old p < 2 ^ 100 }
        ensures pins { pins self.new ≡ with_pin (pins self.old) p }
        ensures shown { SameShown self.old self.new }
    {
        self.add_pin(p);
    }

    /// Takes a pin from a page.
    pub fn unpin(&mut self, p: PageId)
        requires { IsPinned self.old p }
        ensures pins { pins self.new ≡ without_pin (pins self.old) p }
        ensures shown { SameShown self.old self.new }
    {
        let frame = self.frames.peek_mut(&p).unwrap();
        frame.pins -= 1;
    }
}
