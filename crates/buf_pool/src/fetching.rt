//! A page that isn't in memory is read into a frame that is free or made so.

ghost use Rattle.std.specs.Prelude.{◌≡◌, ◌<◌, ◌^◌, ◌∷◌, None, IsTrue, IfOk, IfErr, OnOk, OnErr, length, slice_index};
ghost use Rattle.page_base.specs.Pages.{image_at};
ghost use Rattle.page_base.specs.declared.numbers.PageId.{PageId};
ghost use Rattle.page_fmt.specs.Content.{IsPage};
ghost use Rattle.page_dev.specs.Files.{called};
ghost use Rattle.buf_pool.specs.Pool.{frame_of, img, pins, with_pin, IsPooled};
ghost use Rattle.buf_pool.specs.Order.{order, without, room_made, order_used};
ghost use Rattle.buf_pool.specs.Steps.{Stays, PinsOnce};
ghost use Rattle.buf_pool.specs.Refusing.{Refuses, IsReading, IsStuck};
ghost use Rattle.buf_pool.specs.Calls.{read_calls, ReadingCalls, RefusedCalls};

use crate::{FetchRefusal, Frame, Pool};
use page_base::{Image, PageId};
use page_dev::PageFile;
use page_fmt::{BadPage, check};
use std::alloc::Global;

impl<P: PageFile> Pool<P> {
    // Reads a page of a file.
    fn read(&mut self, alloc: Global, p: PageId) -> Result<Image, FetchRefusal>
        requires there { p.page < slice_index self.old.files.counts p.file }
        requires absent { frame_of self.old p ≡ None }
        ensures stays { Stays self.old self.new }
        ensures entries { self.new.entries ≡ self.old.entries }
        ensures bytes { IfOk result (λ image. IsTrue self.new.files.tells → image ≡ image_at self.new.files.content p) }
        ensures page { IfOk result (λ image. IsPage image) }
        ensures called { OnOk result (self.new.files.calls ≡ called self.old.files.calls p.file) }
        ensures calls { IfErr result (ReadingCalls self.old self.new p) }
        ensures refused { IfErr result (IsReading self.old self.new p) }
    {
        let mut image = Image::blank(alloc)?;
        if self.files.read_page(p, &mut image).is_err() {
            return Err(FetchRefusal::DataFault {
                count: self.files.all_faults(),
            });
        }
        match check(&image) {
            Ok(()) => Ok(image),
            Err(BadPage { at }) => Err(FetchRefusal::Damaged { at }),
        }
    }

    // Brings in a page, pinned once, where a frame is free.
    fn insert(&mut self, p: PageId, image: Image) -> Result<(), FetchRefusal>
        requires there { p.page < slice_index self.old.files.counts p.file }
        requires absent { frame_of self.old p ≡ None }
        requires room { length self.old.entries < self.old.frames }
        requires bytes { IsTrue self.old.files.tells → image ≡ image_at self.old.files.content p }
        requires page { IsPage image }
        ensures once { OnOk result (PinsOnce p self.old self.new) }
        ensures order { OnOk result (order self.new ≡ p ∷ order self.old) }
        ensures files { self.new.files ≡ self.old.files }
        ensures same { OnErr result (self.new ≡ self.old) }
        ensures memory { IfErr result (λ refusal. refusal ≡ FetchRefusal.Memory) }
    {
        self.frames.put(
            p,
            Frame {
                image,
                dirty: false,
                pins: 1,
            },
        )?;
        Ok(())
    }

    // Makes a page in memory the most recently used, and pins it once more.
    #[tactic(auto, using(crate::proofs::StepLemmas::pinned_once))]
    fn use_again(&mut self, p: PageId)
        requires pooled { IsPooled self.old p }
        requires few { pins self.old p < 2 ^ 100 }
        ensures once { PinsOnce p self.old self.new }
        ensures order { order self.new ≡ p ∷ without p (order self.old) }
        ensures files { self.new.files ≡ self.old.files }
    {
        self.promote(p);
        self.add_pin(p);
    }

    // Makes a page in memory the most recently used.
    fn promote(&mut self, p: PageId)
        requires { IsPooled self.old p }
        ensures stays { Stays self.old self.new }
        ensures pooled { IsPooled self.new p }
        ensures order { order self.new ≡ p ∷ without p (order self.old) }
        ensures files { self.new.files ≡ self.old.files }
    {
        self.frames.promote(&p);
    }

    // Reads a page that isn't in memory into a frame that is free or made so, and pins it once.
    #[tactic(auto, using(crate::proofs::StepLemmas::stays_trans, crate::proofs::StepLemmas::once_trans, crate::proofs::StepLemmas::refused_reading, crate::proofs::StepLemmas::refused_room))]
    fn bring_in(&mut self, alloc: Global, p: PageId) -> Result<(), FetchRefusal>
        requires there { p.page < slice_index self.old.files.counts p.file }
        requires absent { frame_of self.old p ≡ None }
        ensures once { OnOk result (PinsOnce p self.old self.new) }
        ensures stays { OnErr result (Stays self.old self.new) }
        ensures free { OnOk result (¬ IsStuck self.old p) }
        ensures order { OnOk result (order self.new ≡ p ∷ room_made self.old) }
        ensures called { OnOk result (self.new.files.calls ≡ read_calls self.old p) }
        ensures calls { IfErr result (RefusedCalls self.old self.new p) }
        ensures refused { IfErr result (Refuses self.old self.new p) }
    {
        self.make_room()?;
        match self.read(alloc, p) {
            Ok(image) => self.insert(p, image),
            Err(refusal) => Err(refusal),
        }
    }

    /// Brings in a page, pins it once and makes it the most recently used. What every page shows is as before, and so
    /// are all pins after a refusal, which comes exactly by its cause. A page in memory needs no call on a file; another
    /// one is read once, and the page that gives way to it is written once where it is dirty. No call is tried again, and
    /// no other page gives way, refused or not.
    pub fn fetch(&mut self, alloc: Global, p: PageId) -> Result<(), FetchRefusal>
        requires there { p.page < slice_index self.old.files.counts p.file }
        requires few { pins self.old p < 2 ^ 100 }
        ensures once { OnOk result (PinsOnce p self.old self.new) }
        ensures stays { OnErr result (Stays self.old self.new) }
        ensures free { OnOk result (¬ IsStuck self.old p) }
        ensures first { OnOk result (order self.new ≡ order_used self.old p) }
        ensures no_calls { IsPooled self.old p → self.new.files ≡ self.old.files }
        ensures called { frame_of self.old p ≡ None → OnOk result (self.new.files.calls ≡ read_calls self.old p) }
        ensures calls { IfErr result (RefusedCalls self.old self.new p) }
        ensures refused { IfErr result (Refuses self.old self.new p) }
    {
        if self.is_pooled(p) {
            self.use_again(p);
            return Ok(());
        }
        self.bring_in(alloc, p)
    }
}
