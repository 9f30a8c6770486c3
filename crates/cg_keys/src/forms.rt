//! The forms that a value may have, and the rule that it breaks without them.

ghost use Rattle.std.specs.Prelude.{◌≡◌, ◌≤◌, false, IfSome};
ghost use Rattle.std.specs.List.{list_any};
ghost use Rattle.std.specs.Option.{option_map_or};
ghost use Rattle.cg_keys.specs.Forms.{boolean_in, fits, fits_one, is_name, is_name_form, is_number_form, is_one_of, number_in, number_within, rule_broken, takes, truth};
ghost use Rattle.cg_keys.specs.Values.{text_in};

use crate::names::is_name;
use crate::values::{array, bool_of, int, object, text};
use crate::words::{Words, is_one_of};
use cg_base::parse_int;
use cg_hjson::Tree;

/// A form of a value.
#[derive(Clone, Copy, Debug, PartialEq, Eq)]
pub enum Form {
    /// Any string.
    Text,
    /// A name of at most 40 characters.
    Name,
    /// A name of at most 80 characters, which may be a parameter's.
    ParameterName,
    /// A number, an integer or a string of one, from the first bound to the second.
    Number(u64, u64),
    /// A boolean, or a string of one.
    Boolean,
    /// A list.
    Items,
    /// An object.
    Object,
    /// A word of a list.
    Word(Words),
}

/// The number that a value is, an integer or a string of one, where it is from `least` to `most`.
#[tactic(auto, unfolding(crate::specs::Forms::number_within, crate::specs::Forms::number_in))]
pub fn number_within(least: u64, most: u64, tree: &Tree) -> Option<u64>
    ensures value { result ≡ number_within least most tree.now }
    ensures within { IfSome result (λ number. number ≤ most) }
{
    let number = match int(tree) {
        Some(number) => u128::try_from(number).ok()?,
        None => parse_int(text(tree)?).ok()?,
    };
    if number >= u128::from(least) && number <= u128::from(most) {
        Some(number as u64)
    } else {
        None
    }
}

fn truth(word: &str) -> Option<bool>
    ensures { result ≡ truth word.now }
{
    if word == "true" {
        Some(true)
    } else if word == "false" {
        Some(false)
    } else {
        None
    }
}

/// The boolean that a value is: `true` or `false`, or one of these as a string.
#[tactic(auto, unfolding(crate::specs::Forms::boolean_in))]
pub fn boolean(tree: &Tree) -> Option<bool>
    ensures { result ≡ boolean_in tree.now }
{
    match bool_of(tree) {
        Some(truth) => Some(truth),
        None => truth(text(tree)?),
    }
}

fn is_name_in(most: usize, tree: &Tree) -> bool
    ensures { result ≡ option_map_or (is_name most) (text_in tree.now) false }
{
    match text(tree) {
        Some(name) => is_name(most, name),
        None => false,
    }
}

fn is_word_in(words: Words, tree: &Tree) -> bool
    ensures { result ≡ option_map_or (is_one_of words) (text_in tree.now) false }
{
    match text(tree) {
        Some(word) => is_one_of(words, word),
        None => false,
    }
}

/// Whether a value has a form.
#[tactic(auto, unfolding(crate::specs::Forms::fits))]
pub fn fits(form: Form, tree: &Tree) -> bool
    ensures { result ≡ fits form tree.now }
{
    match form {
        Form::Text => text(tree).is_some(),
        Form::Name => is_name_in(40, tree),
        Form::ParameterName => is_name_in(80, tree),
        Form::Number(least, most) => number_within(least, most, tree).is_some(),
        Form::Boolean => boolean(tree).is_some(),
        Form::Items => array(tree).is_some(),
        Form::Object => object(tree).is_some(),
        Form::Word(words) => is_word_in(words, tree),
    }
}

/// Whether a value is of a kind that has values of the form.
#[tactic(auto, unfolding(crate::specs::Forms::takes))]
fn takes(form: Form, tree: &Tree) -> bool
    ensures { result ≡ takes form tree.now }
{
    match form {
        Form::Text | Form::Name | Form::ParameterName | Form::Word(_) => text(tree).is_some(),
        Form::Number(_, _) => text(tree).is_some() || int(tree).is_some(),
        Form::Boolean => text(tree).is_some() || bool_of(tree).is_some(),
        Form::Items => array(tree).is_some(),
        Form::Object => object(tree).is_some(),
    }
}

fn is_number_form(form: Form) -> bool
    ensures { result ≡ is_number_form form }
{
    matches!(form, Form::Number(_, _))
}

fn is_name_form(form: Form) -> bool
    ensures { result ≡ is_name_form form }
{
    matches!(form, Form::Name | Form::ParameterName)
}

/// Whether a value has one of the forms.
pub fn fits_one(forms: &[Form], tree: &Tree) -> bool
    ensures { result ≡ fits_one forms.now tree.now }
{
    forms.iter().any(|form| fits(*form, tree))
}

fn takes_one(forms: &[Form], tree: &Tree) -> bool
    ensures { result ≡ list_any (λ f. takes f tree.now) forms.now }
{
    forms.iter().any(|form| takes(*form, tree))
}

fn has_number(forms: &[Form]) -> bool
    ensures { result ≡ list_any is_number_form forms.now }
{
    forms.iter().any(|form| is_number_form(*form))
}

fn has_name(forms: &[Form]) -> bool
    ensures { result ≡ list_any is_name_form forms.now }
{
    forms.iter().any(|form| is_name_form(*form))
}

/// The rule that a value breaks that has none of the forms: 22, 24 or 25.
#[tactic(auto, unfolding(crate::specs::Forms::rule_broken))]
pub fn rule_broken(forms: &[Form], tree: &Tree) -> u8
    ensures { result ≡ rule_broken forms.now tree.now }
{
    if !takes_one(forms, tree) {
        22
    } else if has_number(forms) {
        24
    } else if has_name(forms) {
        25
    } else {
        22
    }
}
