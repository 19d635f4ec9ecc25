//! What reading a form promises in words of the grammar, as functions whose contracts say it.

ghost use Rattle.std.specs.Prelude.{◌≡◌, ◌∷◌, ◌++◌, true, false, ℕ, List};
ghost use Rattle.sql_lex.specs.declared.token.Token.{Token};
ghost use Rattle.sql_lex.specs.Tokens.{Lexes, is_end};
ghost use Rattle.sql_expr.specs.Got.{Done, Refused};
ghost use Rattle.sql_form.specs.Form.{Form, Value};
ghost use Rattle.sql_form.specs.Grammar.{IsPlain, IsForm, continues};
ghost use Rattle.sql_form.specs.Laws.{has_end, IsFront, IsRefused, IsAll};
ghost use Rattle.sql_form.specs.Plain.{is_plain};
ghost use Rattle.sql_form.specs.Read.{read, read_whole};
ghost use Rattle.sql_form.specs.Rules.{Rules, Breach, strict};

/// What is read of a form stands in front and is of the form.
pub fn what_is_read_is_of_the_form()
    ensures { (f : Form) → IsPlain f → (ts rest : List Token) (x : Value f) → has_end ts ≡ true → read strict f ts ≡ Done x rest → IsFront f ts x rest }
{}

/// What is of a form is read, by the rules that it keeps, whatever stands behind it that doesn't go on with it.
pub fn what_is_of_a_form_is_read()
    ensures { (r : Rules) (f : Form) → IsPlain f → (x : Value f) (front rest : List Token) (next : Token) → IsForm r f x front → continues f next.kind ≡ false → read r f (front ++ next ∷ rest) ≡ Done x (next ∷ rest) }
{}

/// What is refused is refused behind a front that could stand, limits and kinds left aside, and where the grammar, or one of its
/// rules, leaves nothing of the form.
pub fn what_is_refused_is_of_no_form()
    ensures { (f : Form) → IsPlain f → (ts : List Token) (at : ℕ) → has_end ts ≡ true → read strict f ts ≡ Refused at → (why : Breach) × IsRefused f ts why at }
{}

/// A form that passes the test is one of which one token tells how to go on.
pub fn what_passes_the_test_is_plain()
    ensures { (f : Form) → is_plain f ≡ true → IsPlain f }
{}

/// Tokens of a form say one thing, by all rules and by fewer.
pub fn tokens_of_a_form_say_one_thing()
    ensures { (r : Rules) (f : Form) → IsPlain f → (x y : Value f) (ts : List Token) → IsForm r f x ts → IsForm r f y ts → x ≡ y }
{}

/// All tokens before the end are read exactly where they are of the form.
pub fn what_is_read_whole_is_of_the_form()
    ensures sound { (f : Form) → IsPlain f → (ts rest : List Token) (x : Value f) → has_end ts ≡ true → read_whole f ts ≡ Done x rest → IsAll f ts x }
    ensures complete { (f : Form) → IsPlain f → (x : Value f) (front rest : List Token) (last : Token) → IsForm strict f x front → is_end last.kind ≡ true → read_whole f (front ++ last ∷ rest) ≡ Done x (last ∷ rest) }
{}

/// Where they are refused, something of the form begins with the tokens before the wrong one, limits and kinds left aside, and
/// nothing with those up to it that keeps the broken rule.
pub fn what_is_refused_whole_is_of_no_form()
    ensures { (f : Form) → IsPlain f → (ts : List Token) (at : ℕ) → has_end ts ≡ true → read_whole f ts ≡ Refused at → (why : Breach) × IsRefused f ts why at }
{}

/// The tokens of a batch have an end, as reading asks of them.
pub fn batches_have_an_end()
    ensures { (batch : List ℕ) (ts : List Token) → Lexes 0 batch ts → has_end ts ≡ true }
{}
