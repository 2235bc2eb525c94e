//! What is told of invalid arguments.

/// What stands before and after the advice to pass a word such as `--x` after `--`, where the text of invalid arguments has
/// it: such a word is meant as an option, and no argument here is a text that begins so.
pub(crate) fn around_advice(text: &str) -> Option<(&str, &str)> {
    let (front, advised) = text.split_once("\n\n  tip: to pass '")?;
    let (_, back) = advised.split_once("\n\n")?;
    Some((front, back))
}
