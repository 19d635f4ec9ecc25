//! What was gathered takes the source's place at one moment, which is the only one; or it is let go.

ghost use Rattle.std.specs.Prelude.{◌≡◌};
ghost use Rattle.snap_pages.specs.Shown.{img, pins};
ghost use Rattle.revert_pass.specs.Got.{AreGotPushed, AreHeld, LeavesRest, swapped, ungathered};

use crate::Gathered;
use page_dev::PageFile;
use snap_pages::SnapPages;

/// Makes each image that is kept its page's, and takes back the pin that `gather` gave. No snapshot lacks such a page.
/// Takes no memory.
pub fn swap<P: PageFile>(pages: &mut SnapPages<P>, got: Gathered)
    requires held { AreHeld got pages.old }
    requires pushed { AreGotPushed got pages.old }
    ensures img { img pages.new ≡ swapped got (img pages.old) }
    ensures pins { pins pages.new ≡ ungathered got (pins pages.old) }
    ensures rest { LeavesRest pages.old pages.new }
{
    let Gathered { mut kept } = got;
    while let Some((page, image)) = kept.pop() {
        pages.set_image(page, &image);
        pages.unpin(page);
    }
}

/// Takes back the pins that `gather` gave, and changes no page. Takes no memory.
pub fn let_go<P: PageFile>(pages: &mut SnapPages<P>, got: Gathered)
    requires held { AreHeld got pages.old }
    ensures img { img pages.new ≡ img pages.old }
    ensures pins { pins pages.new ≡ ungathered got (pins pages.old) }
    ensures rest { LeavesRest pages.old pages.new }
{
    let Gathered { mut kept } = got;
    while let Some((page, _image)) = kept.pop() {
        pages.unpin(page);
    }
}
