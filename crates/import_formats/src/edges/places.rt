//! The places between the commas of a line.
ghost use Rattle.std.specs.Prelude.{◌≡◌, ◌∷◌, [], ◌<◌, length, IfSome};
ghost use Rattle.std.specs.List.{slice_split};
ghost use Rattle.std.specs.Option.{option_map_or};
ghost use Rattle.import_lines.specs.Texts.{words_of};
ghost use Rattle.import_formats.specs.edges.Places.{is_comma, has_word, has_gap};

use import_lines::next_word;

/// The first place, and what stands after its comma, where there is one.
fn next_place(text: &str) -> (&str, Option<&str>)
    ensures places { slice_split is_comma text.now ≡ result.0.now ∷ option_map_or (λ rest. slice_split is_comma rest.now) result.1 [] }
    ensures shorter { IfSome result.1 (λ rest. length rest.now < length text.now) }
{
    match text.split_once(',') {
        Some((place, rest)) => (place, Some(rest)),
        None => (text, None),
    }
}

/// Whether a word stands in a place.
fn has_word(place: &str) -> bool
    ensures { result ≡ has_word place.now }
{
    next_word(place).is_some()
}

/// Whether a place without a word stands before one that has a word.
pub(crate) fn has_gap(line: &str) -> bool
    ensures { result ≡ has_gap (slice_split is_comma line.now) }
{
    let mut is_behind_gap = false;
    let mut rest = Some(line);
    while let Some(places) = rest {
        let (place, behind) = next_place(places);
        if !has_word(place) {
            is_behind_gap = true;
        } else if is_behind_gap {
            return true;
        }
        rest = behind;
    }
    false
}
