//! Where rounds on the lists of a network begin.

use crate::large::lists::Lists;
use rule_check::Program;

/// Where rounds begin: the text of a program, the lists of a network, and the number of the round, the start.
#[derive(Clone, Copy)]
pub struct ListsStart<'a> {
    pub program: &'a [u8],
    pub lists: Lists<'a>,
    pub start: u32,
}

/// The same, where the program is read.
#[derive(Clone, Copy)]
pub(crate) struct ReadStart<'a> {
    pub(crate) program: &'a Program,
    pub(crate) lists: Lists<'a>,
    pub(crate) start: u32,
}
