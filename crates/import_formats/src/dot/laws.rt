//! Laws of texts.
ghost use Rattle.import_formats.specs.dot.Lexing.{OneLexing, OneTokens};

/// A law, which does nothing when it runs: a text consists of lexemes in one way at most.
pub fn one_lexing()
    ensures once { OneLexing }
{}

/// A law, which does nothing when it runs: each text has tokens, and no others.
pub fn one_list_of_tokens()
    ensures once { OneTokens }
{}
