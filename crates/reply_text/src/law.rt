//! What the text of histories promises of itself, as functions whose contracts say it.

ghost use Rattle.std.specs.Prelude.{ℕ, List};
ghost use Rattle.plain_model.specs.declared.event.Event.{Event};
ghost use Rattle.reply_text.specs.Laws.{HasOneReading, HasOneRefusal, IsReadBack};

/// The bytes of a history's text are that of no other history that can be told.
pub fn printed_histories_have_one_reading()
    ensures { (bytes : List ℕ) → HasOneReading bytes }
{}

/// Of bytes that are no history's text one line alone is the first that can't stand.
pub fn histories_have_one_refusal()
    ensures { (bytes : List ℕ) → HasOneRefusal bytes }
{}

/// What is printed of a history that can be told is its text, and so is read back as it.
pub fn what_is_printed_is_read_back()
    ensures { (book : List Event) → IsReadBack book }
{}
