//! Refusals by their numbers.

ghost use Rattle.std.specs.Prelude.{◌≡◌};
ghost use Rattle.plain_model.specs.declared.reply.Reply.TheVariants.{Msg};
ghost use Rattle.plain_model.specs.Messages.{plain, at_place};

use plain_model::{Carried, Message, Reply};

/// A refusal that carries nothing.
pub(crate) fn refused(number: u32) -> Reply
    ensures { result ≡ Msg (plain number) }
{
    Reply::Msg(Message {
        number,
        carried: Carried::Nothing,
    })
}

/// A refusal that carries a place.
pub(crate) fn refused_at(number: u32, place: u64) -> Reply
    ensures { result ≡ Msg (at_place number place) }
{
    Reply::Msg(Message {
        number,
        carried: Carried::Number(place),
    })
}
