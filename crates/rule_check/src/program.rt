//! A checked program.

ghost use Rattle.std.specs.Prelude.{◌≡◌, ◌≤◌, ◌<◌, ℕ, All, List, [], ◌∷◌, ◌++◌, length, ◌≢◌, IfOk, IfErr, IsTrue, ◌↔◌, Option, slice_get, slice_index, if◌then◌else◌};
ghost use Rattle.std.specs.Option.{option_map};
ghost use Rattle.rule_check.specs.declared.state.State.{State};
ghost use Rattle.rule_check.specs.declared.state.Near.{Near};
ghost use Rattle.rule_check.specs.Value.{here_at, next_state, names_of, place, opening_of};
ghost use Rattle.rule_check.specs.Gathering.{sums_at, taken, finished};
ghost use Rattle.rule_check.specs.WellFormed.{first_fault, is_among, IsFieldName};
ghost use Rattle.rule_check.specs.Items.{rules_of};
ghost use Rattle.rule_check.specs.Rounds.{reads_round};
ghost use Rattle.rule_check.specs.Frames.{standing};

mod codes;

use crate::emit::{collect_fields, collect_parts, collect_rules};
use crate::fault::CheckFault;
use crate::parts::{Field, Gatherer, Rule};
use crate::round::{parts_read_round, rules_read_round};
use crate::run::{DEPTH, Frame, Node};
use crate::same::{same_fields, same_parts, same_rules};
use crate::state::{Near, State, Sums};
use crate::well_formed::{
    assigns_twice, count_all, count_fields, index_of, repeats, some_nest, some_outside,
    some_unknown,
};
use crate::words::{clear_words, finish_words, opening_words, start_words, take_words};
use rule_lang::Source;
use std::alloc::Global;
use std::marker::Model;

/// What stands for the aggregates' values in the code of an aggregate, which reads none.
static NO_SUMS: Sums = Sums { words: [0; 16] };

/// A well-formed program: its `field` items and its `next` items, each in the text's order.
#[derive(Drop)]
pub struct Program {
    fields: Vec<Field>,
    gatherers: Vec<Gatherer>,
    rules: Vec<Rule>,
}

impl Model for Program {
    ghost use Rattle.std.specs.Coded.{codes};
    ghost use Rattle.rule_lang.specs.TreeCode.{coded_tree};
    ghost use Rattle.rule_check.specs.Value.{Rules};

    ghost Value = { Rules };

    ghost coded = { Prim.hlevel (codes, coded_tree) };

    ghost use Rattle.rule_check.specs.Compiled.{decoded, IsCompiled};

    ghost view = { decoded };

    ghost invariant = { IsCompiled };
}

/// The checked program of a text's items, or the first fault that they have.
///
/// `Memory` comes only where memory ran out, and in place of any other answer but `TooManyFields`.
pub fn check(alloc: Global, source: &Source) -> Result<Program, CheckFault>
    ensures ok { IfOk result (λ p. (first_fault (rules_of source.now) ≡ None) × (p ≡ rules_of source.now)) }
    ensures err { IfErr result (λ fault. fault ≢ CheckFault.Memory → first_fault (rules_of source.now) ≡ Some fault) }
    ensures many { 8 < length (rules_of source.now).fields → result ≡ Err CheckFault.TooManyFields }
{
    let items = source.items();
    if count_fields(items) > 8 {
        return Err(CheckFault::TooManyFields);
    }
    let fields = collect_fields(alloc, items)?;
    if repeats(&fields) {
        return Err(CheckFault::FieldTwice);
    }
    let twice = assigns_twice(alloc, items)?;
    if twice {
        return Err(CheckFault::NextTwice);
    }
    if some_unknown(&fields, items) {
        return Err(CheckFault::UnknownName);
    }
    if some_outside(items) {
        return Err(CheckFault::NeighbourOutside);
    }
    if some_nest(items) {
        return Err(CheckFault::NestedAggregate);
    }
    if count_all(items) > 16 {
        return Err(CheckFault::TooManyAggregates);
    }
    let gatherers = collect_parts(alloc, &fields, items)?;
    let rules = collect_rules(alloc, &fields, items)?;
    Ok(Program {
        fields,
        gatherers,
        rules,
    })
}

impl Program {
    /// How many fields there are, of a program that has no fault, and whose fields' names are words.
    pub fn field_count(&self) -> u32
        ensures count { result ≡ length self.now.fields }
        ensures few { result ≤ 8 }
        ensures well_formed { first_fault self.now ≡ None }
        ensures names { All IsFieldName (names_of self.now) }
    {
        self.fields.len() as u32
    }

    /// The name of the field at a place, or none past the last.
    pub fn field_name(&self, i: u32) -> Option<&str>
        ensures name { option_map (λ name. name.now) result ≡ slice_get (names_of self.now) i }
    {
        let field = self.fields.get(i as usize)?;
        Some(field.name.as_str())
    }

    /// The place of the field of this name, or none where it is no field's.
    pub fn field_index(&self, name: &str) -> Option<u32>
        ensures index { result ≡ (if is_among (names_of self.now) name.now then Some (place (names_of self.now) name.now) else None) }
    {
        index_of(&self.fields, name)
    }

    /// Whether the programs are equal: equal lists of `field` items and of `next` items, each in order.
    pub fn same(&self, other: &Program) -> bool
        ensures exact { IsTrue result ↔ (self.now ≡ other.now) }
    {
        same_fields(&self.fields, &other.fields)
            && same_parts(&self.gatherers, &other.gatherers)
            && same_rules(&self.rules, &other.rules)
    }

    /// Whether a `next` item's expression has the word `round`, in an aggregate or outside.
    ///
    /// Where it has not, the next state is the same whatever round the step starts from.
    pub fn uses_round(&self) -> bool
        ensures exact { result ≡ reads_round self.now }
    {
        rules_read_round(&self.rules) || parts_read_round(&self.gatherers)
    }

    /// The state that each node has at first.
    pub fn opening(&self) -> State
        ensures exact { result ≡ opening_of self.now }
        ensures rest_is_zero { (k : ℕ) → length self.now.fields ≤ k → slice_index result.words k ≡ 0 }
    {
        let mut words = [0; 8];
        opening_words(&self.fields, &mut words);
        State { words }
    }

    /// The next state of the node `id` with the state `own`, in the step from `round`.
    ///
    /// There may be no neighbour, and at most 4,096. Their number is the degree, and their order
    /// plays no part.
    pub fn next(&self, id: u32, own: State, round: u32, neighbours: &[Near]) -> State
        requires few { length neighbours.now ≤ 4294967295 }
        ensures exact { next_state self.now round id own neighbours.now ≡ result }
        ensures rest_is_zero { (k : ℕ) → length self.now.fields ≤ k → slice_index result.words k ≡ 0 }
    {
        let node = Node {
            id,
            degree: neighbours.len() as u32,
            round,
            own: &own,
        };
        let mut stack = [0; DEPTH];
        let mut sums = self.start();
        for near in neighbours {
            self.take_on(&mut stack, &mut sums, &node, near);
        }
        self.finish_on(&mut stack, &node, &sums)
    }

    /// The aggregates' values over no neighbour, and 0 for those that the program doesn't have.
    pub fn start(&self) -> Sums
        ensures none { (round id degree : ℕ) (own : State) → result ≡ sums_at self.now (here_at self.now round id degree own []) }
    {
        let mut words = [0; 16];
        start_words(&self.gatherers, &mut words);
        Sums { words }
    }

    /// Takes one neighbour more into the aggregates' values of the node `id`.
    ///
    /// Up to 4,096 neighbours may be taken, in any order, each once and all with the same `id`,
    /// `degree`, `own` and `round`; `degree` is the number of all neighbours.
    pub fn take(&self, sums: &mut Sums, id: u32, degree: u32, own: State, round: u32, near: &Near)
        ensures step { (nears : List Near) → sums.new ≡ taken self.now (here_at self.now round id degree own nears) near.now sums.old }
        ensures anywhere { (front back : List Near) → length (front ++ back) < 4294967295
            → sums.old ≡ sums_at self.now (here_at self.now round id degree own (front ++ back))
            → sums.new ≡ sums_at self.now (here_at self.now round id degree own (front ++ near.now ∷ back)) }
    {
        let node = Node {
            id,
            degree,
            round,
            own: &own,
        };
        let mut stack = [0; DEPTH];
        self.take_on(&mut stack, sums, &node, near);
    }

    /// The next state of the node `id` by the aggregates' values over all its `degree` neighbours:
    /// what `next` gives for the list of those taken.
    pub fn finish(&self, id: u32, degree: u32, own: State, round: u32, sums: &Sums) -> State
        ensures exact { result ≡ finished self.now round id degree own sums.now }
        ensures completes { (nears : List Near) → length nears ≡ degree
            → sums.now ≡ sums_at self.now (here_at self.now round id degree own nears)
            → result ≡ next_state self.now round id own nears }
        ensures rest_is_zero { (k : ℕ) → length self.now.fields ≤ k → slice_index result.words k ≡ 0 }
    {
        let node = Node {
            id,
            degree,
            round,
            own: &own,
        };
        let mut stack = [0; DEPTH];
        self.finish_on(&mut stack, &node, sums)
    }

    /// `take`, on a stack that is lent.
    fn take_on(&self, stack: &mut [u32; DEPTH], sums: &mut Sums, node: &Node, near: &Near)
        ensures step { (nears : List Near) → sums.new ≡ taken self.now (standing self.now node.now nears) near.now sums.old }
        ensures anywhere { (front back : List Near) → length (front ++ back) < 4294967295
            → sums.old ≡ sums_at self.now (standing self.now node.now (front ++ back))
            → sums.new ≡ sums_at self.now (standing self.now node.now (front ++ near.now ∷ back)) }
    {
        let frame = Frame {
            node,
            near,
            sums: &NO_SUMS,
        };
        take_words(stack, &self.gatherers, &frame, &mut sums.words);
    }

    /// `finish`, on a stack that is lent.
    fn finish_on(&self, stack: &mut [u32; DEPTH], node: &Node, sums: &Sums) -> State
        ensures exact { result ≡ finished self.now node.now.round node.now.id node.now.degree node.now.own.now sums.now }
        ensures completes { (nears : List Near) → length nears ≡ node.now.degree
            → sums.now ≡ sums_at self.now (standing self.now node.now nears)
            → result ≡ next_state self.now node.now.round node.now.id node.now.own.now nears }
        ensures rest_is_zero { (k : ℕ) → length self.now.fields ≤ k → slice_index result.words k ≡ 0 }
    {
        let near = Near {
            id: node.id,
            weight: 0,
            state: *node.own,
        };
        let frame = Frame {
            node,
            near: &near,
            sums,
        };
        let mut words = node.own.words;
        clear_words(self.fields.len(), &mut words);
        finish_words(stack, &self.rules, &frame, &mut words);
        State { words }
    }
}
