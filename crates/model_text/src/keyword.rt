//! The reserved words.

ghost use Rattle.model_text.specs.Keywords.{first_reserved, keyword_of};
ghost use Rattle.std.specs.Prelude.{◌≡◌, map};

use crate::tree::Function;

/// A reserved word.
#[derive(Clone, Copy)]
pub enum Keyword {
    Const,
    States,
    Field,
    Let,
    Next,
    Or,
    And,
    Not,
    If,
    Then,
    Else,
    Cases,
    Nothing,
    Id,
    Degree,
    Round,
    Weight,
    Chance,
    ChanceOf,
    /// The word of a function.
    Function(Function),
}

/// Each reserved word.
const RESERVED: [(&str, Keyword); 31] = [
    ("const", Keyword::Const),
    ("states", Keyword::States),
    ("field", Keyword::Field),
    ("let", Keyword::Let),
    ("next", Keyword::Next),
    ("or", Keyword::Or),
    ("and", Keyword::And),
    ("not", Keyword::Not),
    ("if", Keyword::If),
    ("then", Keyword::Then),
    ("else", Keyword::Else),
    ("cases", Keyword::Cases),
    ("none", Keyword::Nothing),
    ("id", Keyword::Id),
    ("degree", Keyword::Degree),
    ("round", Keyword::Round),
    ("weight", Keyword::Weight),
    ("chance", Keyword::Chance),
    ("chance_of", Keyword::ChanceOf),
    ("total", Keyword::Function(Function::Total)),
    ("sum", Keyword::Function(Function::Sum)),
    ("least", Keyword::Function(Function::Least)),
    ("most", Keyword::Function(Function::Most)),
    ("count", Keyword::Function(Function::Count)),
    ("any", Keyword::Function(Function::Any)),
    ("all", Keyword::Function(Function::All)),
    ("min", Keyword::Function(Function::Min)),
    ("max", Keyword::Function(Function::Max)),
    ("difference", Keyword::Function(Function::Difference)),
    ("random", Keyword::Function(Function::Random)),
    ("link_random", Keyword::Function(Function::LinkRandom)),
];

/// What the first of these words means that is this one.
fn first_reserved(words: &[(&str, Keyword)], word: &str) -> Option<Keyword>
    ensures { result ≡ first_reserved word.now (map (λ k. (k.0.now, k.1)) words.now) }
{
    for (text, keyword) in words {
        if word == *text {
            return Some(*keyword);
        }
    }
    None
}

/// The reserved word that this is, or none where it is a name.
pub fn reserved_word(word: &str) -> Option<Keyword>
    ensures { result ≡ keyword_of word.now }
{
    first_reserved(&RESERVED, word)
}
