//! What the spelling and the reading of fields promise together, as a function whose contract says it.

ghost use Rattle.std.specs.Prelude.{ℕ, ◌<◌, ◌^◌, List, [], ◌∷◌, length, Option};
ghost use Rattle.page_base.specs.declared.numbers.PageId.{PageId};
ghost use Rattle.page_base.specs.Name.{IsLowName};
ghost use Rattle.byte_fields.specs.Numbers.{number};
ghost use Rattle.byte_fields.specs.Fields.{sized, short, address};
ghost use Rattle.byte_fields.specs.Reading.{byte_at, number_at, address_at, sized_at, short_at, name_at};
ghost use Rattle.byte_fields.specs.Laws.{IsSpelled};

/// Each field is read again whatever follows it, what is read is spelled so, and a wrong field is left as it stands.
pub fn fields_are_read()
    ensures byte { IsSpelled (λ b. b < 256) (λ b. b ∷ []) byte_at }
    ensures number { (size : ℕ) → IsSpelled (λ n. n < 256 ^ size) (number size) (number_at size) }
    ensures address { IsSpelled (λ p. p.page < 2 ^ 32) address address_at }
    ensures text { IsSpelled (λ text. length text < 2 ^ 16) sized sized_at }
    ensures short_text { IsSpelled (λ text. length text < 256) short short_at }
    ensures name { IsSpelled IsLowName short name_at }
{}
