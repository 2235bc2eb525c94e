//! Runs postfix code.

ghost use Rattle.std.specs.Prelude.{◌≡◌, ◌<◌, min, ◌≤◌, ◌-◌, ◌+◌, ◌∷◌, [], drop, length};
ghost use Rattle.rule_check.specs.Machine.{step as step_lem, exec, Allows, height_after, Runs};
ghost use Rattle.rule_check.specs.Table.{M};
ghost use Rattle.rule_check.specs.Frames.{seen};

use crate::code::Instr;
use crate::state::{Near, State, Sums};
use crate::table::{apply, choose};

/// How many values a stack holds.
pub const DEPTH: usize = 127;

/// A node in the step from a round.
#[derive(Clone, Copy)]
pub struct Node<'a> {
    pub id: u32,
    pub degree: u32,
    pub round: u32,
    pub own: &'a State,
}

/// What code is run on: a node, one neighbour, and the aggregates' values.
#[derive(Clone, Copy)]
pub struct Frame<'a> {
    pub node: &'a Node<'a>,
    pub near: &'a Near,
    pub sums: &'a Sums,
}

/// The place of the top after one instruction. What lies on the stack are its words from `top` on,
/// the last value first.
fn act(instr: Instr, frame: &Frame, stack: &mut [u32; DEPTH], top: usize) -> usize
    requires top { top ≤ 127 }
    requires allows { Allows instr (127 - top) }
    ensures top { result + height_after instr (127 - top) ≡ 127 }
    ensures after { drop result stack.new ≡ step_lem (seen frame.now) instr (drop top stack.old) }
{
    match instr {
        Instr::Push(n) => put(stack, top, n),
        Instr::OwnWord(k) => put(stack, top, frame.node.own.words[k as usize]),
        Instr::NodeId => put(stack, top, frame.node.id),
        Instr::NodeDegree => put(stack, top, frame.node.degree),
        Instr::NodeRound => put(stack, top, round_of(frame.node)),
        Instr::NearWord(k) => put(stack, top, frame.near.state.words[k as usize]),
        Instr::NearId => put(stack, top, frame.near.id),
        Instr::NearWeight => put(stack, top, frame.near.weight),
        Instr::SumWord(k) => put(stack, top, frame.sums.words[k as usize]),
        Instr::Apply(op) => {
            let value = apply(op, stack[top + 1], stack[top]);
            stack[top + 1] = value;
            top + 1
        }
        Instr::Negate => {
            let value = u32::from(stack[top] == 0);
            stack[top] = value;
            top
        }
        Instr::Pick => {
            let value = choose(stack[top + 2], stack[top + 1], stack[top]);
            stack[top + 2] = value;
            top + 2
        }
    }
}

/// The round, which a word holds.
fn round_of(node: &Node) -> u32
    ensures exact { result ≡ min node.now.round M }
{
    node.round
}

/// The place of the top with one value more.
fn put(stack: &mut [u32; DEPTH], top: usize, value: u32) -> usize
    requires top { top ≤ 127 }
    requires room { 0 < top }
    ensures top { result + 1 ≡ top }
    ensures after { drop result stack.new ≡ value ∷ drop top stack.old }
{
    stack[top - 1] = value;
    top - 1
}

/// The value that code leaves, on a stack of any values.
pub fn run(stack: &mut [u32; DEPTH], code: &[Instr], frame: &Frame) -> u32
    requires runs { Runs code.now 0 }
    ensures exact { exec (seen frame.now) code.now [] ≡ result ∷ [] }
{
    let mut top = DEPTH;
    for instr in code {
        top = act(*instr, frame, stack, top);
    }
    stack[top]
}
