//! What is asked for, looked at before anything is made.
ghost use Rattle.std.specs.Prelude.{◌≡◌, not, nat_lt, nat_le, length};
ghost use Rattle.std.specs.List.{list_any, list_all};
ghost use Rattle.rule_lang.specs.Tokens.{is_word_byte};
ghost use Rattle.net_initial.specs.Texts.{is_word, is_field_name, misses_node, pass_nodes, is_bad_phase, asking_fault};

use crate::{Chosen, OpenFault, Opening, Values};
use link_net::Name;
use rule_lang::reserved_word;

/// Whether the bytes are letters, digits and `_`.
fn are_word_bytes(bytes: &[u8]) -> bool
    ensures { result ≡ list_all is_word_byte bytes.now }
{
    bytes
        .iter()
        .all(|byte| byte.is_ascii_alphanumeric() || *byte == b'_')
}

/// Whether the bytes are a letter and then letters, digits and `_`.
fn is_word(bytes: &[u8]) -> bool
    ensures { result ≡ is_word bytes.now }
{
    let Some((first, rest)) = bytes.split_first() else {
        return false;
    };
    first.is_ascii_alphabetic() && are_word_bytes(rest)
}

/// Whether a program can declare a field of this name.
fn is_field_name(name: &str) -> bool
    ensures { result ≡ is_field_name name.now }
{
    is_word(name.as_bytes()) && reserved_word(name).is_none()
}

/// Whether a node is none of the network.
fn has_no_node(nodes: u32, chosen: &[u32]) -> bool
    ensures { result ≡ list_any (λ w. nat_le nodes w) chosen.now }
{
    chosen.iter().any(|node| *node >= nodes)
}

/// Whether a choice names a node that the network does not have.
fn misses_node(nodes: u32, chosen: &Chosen) -> bool
    ensures { result ≡ misses_node nodes chosen.now }
{
    match chosen {
        Chosen::Every => false,
        Chosen::One(node) => *node >= nodes,
        Chosen::Range { first, last } => *first <= *last && *last >= nodes,
        Chosen::These(chosen) => has_no_node(nodes, chosen.as_slice()),
    }
}

/// Whether values are for a node that the network does not have.
fn pass_nodes(nodes: u32, values: &Values) -> bool
    ensures { result ≡ pass_nodes nodes values.now }
{
    match values {
        Values::Same { nodes: chosen, .. } => misses_node(nodes, chosen),
        Values::Each(values) => values.len() > nodes as usize,
    }
}

/// Whether the phase that is asked for is none.
fn is_bad_phase(phase: Option<u8>) -> bool
    ensures { result ≡ is_bad_phase phase }
{
    match phase {
        Some(phase) => phase > 2,
        None => false,
    }
}

/// Whether the name of a field is none that a program can declare.
fn has_bad_name(openings: &[Opening]) -> bool
    ensures { result ≡ list_any (λ o. not (is_field_name o.field)) openings.now }
{
    openings
        .iter()
        .any(|opening| !is_field_name(opening.field.as_str()))
}

/// Whether the name of a field that is to be cleared is none that a program can declare.
fn has_bad_clear(cleared: &[Name]) -> bool
    ensures { result ≡ list_any (λ f. not (is_field_name f)) cleared.now }
{
    cleared.iter().any(|field| !is_field_name(field.as_str()))
}

/// Whether an opening has a value for a node that the network does not have.
fn has_missing_node(nodes: u32, openings: &[Opening]) -> bool
    ensures { result ≡ list_any (λ o. pass_nodes nodes o.values) openings.now }
{
    openings
        .iter()
        .any(|opening| pass_nodes(nodes, &opening.values))
}

/// The first fault of what is asked for.
pub(crate) fn asking_fault(
    nodes: u32,
    cleared: &[Name],
    openings: &[Opening],
    phase: Option<u8>,
) -> Option<OpenFault>
    ensures { result ≡ asking_fault nodes cleared.now openings.now phase }
{
    if is_bad_phase(phase) {
        return Some(OpenFault::BadPhase);
    }
    if has_bad_name(openings) {
        return Some(OpenFault::BadName);
    }
    if has_bad_clear(cleared) {
        return Some(OpenFault::BadClear);
    }
    if has_missing_node(nodes, openings) {
        return Some(OpenFault::NoNode);
    }
    None
}
