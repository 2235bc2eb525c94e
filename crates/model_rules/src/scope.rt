//! What names stand for while an expression is expanded.

ghost use Rattle.std.specs.Prelude.{◌≡◌, IfSome, IsNone, true, false, map, string_bytes, slice_get, Some, None};
ghost use Rattle.std.specs.Str.{bytes_eq};
ghost use Rattle.rule_check.specs.Value.{place};
ghost use Rattle.rule_check.specs.WellFormed.{is_among};
ghost use Rattle.model_rules.specs.Refusals.{let_for};
ghost use Rattle.model_text.specs.View.{name_of};
ghost use Rattle.model_rules.specs.Models.{bare};
ghost use Rattle.model_rules.specs.ScopeView.{known_of, knowns_of, IsLet};

use crate::term::Term;
use model_text::Name;

/// A constant that the caller sets.
#[derive(Drop)]
pub struct Given {
    /// Its name.
    pub name: String,
    /// Its value.
    pub value: u32,
}

/// A let, a constant or a state whose term is known.
#[derive(Drop)]
pub struct Known {
    /// Its name.
    pub name: String,
    /// Whether it is a let, which alone may stand after `n.`.
    pub is_let: bool,
    /// How many parameters it has.
    pub count: usize,
    /// What it is worth.
    pub term: Term,
}

/// What names stand for while an expression is expanded.
#[derive(Drop)]
pub struct Scope {
    /// The places of all draws in the text, in its order.
    pub draws: Vec<u32>,
    /// The names of the fields.
    pub fields: Vec<String>,
    /// The constants, states and lets so far.
    pub lets: Vec<Known>,
    /// The names of all constants, states and lets, also of those that are not known yet.
    pub later: Vec<String>,
    /// The parameters of the let that is expanded.
    pub parameters: Vec<String>,
}

/// Whether both are the same name.
fn same_name(left: &String, right: &str) -> bool
    ensures exact { result ≡ bytes_eq (string_bytes left.now) right.now }
{
    left.as_str() == right
}

/// The place of a name among names, where it is one of them.
pub fn place_of(names: &[String], name: &str) -> Option<usize>
    ensures found { IfSome result (λ k. k ≡ place (map string_bytes names.now) name.now) }
    ensures among { IfSome result (λ k. is_among (map string_bytes names.now) name.now ≡ true) }
    ensures missing { IsNone result → is_among (map string_bytes names.now) name.now ≡ false }
{
    for (k, other) in names.iter().enumerate() {
        if same_name(other, name) {
            return Some(k);
        }
    }
    None
}

/// The place of a name among names that have places in a text, where it is one of them.
pub fn place_among(names: &[Name], name: &str) -> Option<usize>
    ensures found { IfSome result (λ k. k ≡ place (bare (map name_of names.now)) name.now) }
    ensures among { IfSome result (λ k. is_among (bare (map name_of names.now)) name.now ≡ true) }
    ensures missing { IsNone result → is_among (bare (map name_of names.now)) name.now ≡ false }
{
    for (k, other) in names.iter().enumerate() {
        if other.name.as_str() == name {
            return Some(k);
        }
    }
    None
}

/// The let of a name, where it is known.
pub fn let_of<'a>(lets: &'a [Known], name: &str) -> Option<&'a Known>
    ensures among { IfSome result (λ known. IsLet (knowns_of lets.now) (known_of known.now)) }
    ensures named { IfSome result (λ known. string_bytes known.now.name ≡ name.now) }
    ensures found { IfSome result (λ known. let_for (knowns_of lets.now) name.now ≡ Some (known_of known.now)) }
    ensures missing { IsNone result → let_for (knowns_of lets.now) name.now ≡ None }
{
    for known in lets {
        if same_name(&known.name, name) {
            return Some(known);
        }
    }
    None
}
