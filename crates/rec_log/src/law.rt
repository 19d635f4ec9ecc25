//! What taking records back means, as a function whose contract says it.

ghost use Rattle.std.specs.Prelude.{◌≡◌, List};
ghost use Rattle.page_fmt.specs.Bridge.{slots_in, AreFull};
ghost use Rattle.page_fmt.specs.Seen.{SlotsAt};
ghost use Rattle.rec_log.specs.Records.{Record};
ghost use Rattle.rec_log.specs.Undone.{undone};
ghost use Rattle.rec_log.specs.UndonePages.{undone_at};

/// Records taken back from lists of slots and from the slots' bytes lead to the same pages.
pub fn undone_pages_are_undone_slots()
    ensures slots { (records : List Record) (at : SlotsAt) → slots_in (undone_at records at) ≡ undone records (slots_in at) }
    ensures full { (records : List Record) (at : SlotsAt) → AreFull at → AreFull (undone_at records at) }
{}
