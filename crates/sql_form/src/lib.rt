//! Forms of statements as data: what is of a form, what is read of it, and the laws between the two.
#![tactic(auto)]

mod law;

pub use law::{
    batches_have_an_end, tokens_of_a_form_say_one_thing, what_is_of_a_form_is_read,
    what_is_read_is_of_the_form, what_is_read_whole_is_of_the_form, what_is_refused_is_of_no_form,
    what_is_refused_whole_is_of_no_form, what_passes_the_test_is_plain,
};
