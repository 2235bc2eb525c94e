//! Rounds of a program on a network, one after the other.
ghost use Rattle.std.specs.Prelude.{◌≡◌, ◌≢◌, ◌↔◌, ◌<◌, ℕ, All, IfOk, IsTrue, false, true, length, map, slice_index_or};
ghost use denote.Param.Send.{IsSync};
ghost use Rattle.rule_check.specs.declared.state.State.{State};
ghost use Rattle.rule_check.specs.Rounds.{reads_round};
ghost use Rattle.link_net.specs.Neighbours.{numbers_below};
ghost use Rattle.rounds_blocks.specs.Rounds.{IsPlain, round_from};
ghost use Rattle.rounds_blocks.specs.Walks.{state_by};

use crate::activity::{Activity, all_due};
use crate::batch::Batch;
use crate::columns::{are_same, columns_of, states_of};
use crate::layout::Layout;
use crate::narrow::{blank_bytes, columns_by, narrow_where};
use crate::packed::PackedStates;
use crate::round::step_due;
use crate::share::Shares;
use crate::shared_round::step_shared;
use crate::sharing::{Costs, all_shares, saved_by, time_of_all};
use crate::spans::spans_of;
use crate::task::Task;
use link_net::NetRows;
use rounds_code::{Block, RowCode};
use rule_check::{Program, State};
use std::alloc::{AllocError, Global};
use std::marker::Model;
use std::mem;
use std::thread::Threads;

/// The states of all nodes of a network, which rounds of a program move on. A contract sees the program, the network
/// and the words of all nodes by fields.
///
/// A round computes a batch of nodes only where the program reads the number of the round, or where a node of the batch
/// or a neighbour of one changed in the round before. What stands in `to` for another batch is two rounds old, which is what
/// the next round would write, since its nodes did not change.
#[derive(Drop)]
pub struct Walk<'a> {
    network: &'a NetRows<'a>,
    batches: &'a [Batch],
    block: Block<'a>,
    costs: Costs,
    shares: Shares<'a>,
    activity: Activity<'a>,
    from: Vec<Vec<u32>>,
    to: Vec<Vec<u32>>,
    /// Room for the columns of `from` in bytes; none where that does not pay, or a word did not fit.
    bytes: Vec<Vec<u8>>,
}

impl<'a> Model for Walk<'a> {
    ghost use Rattle.std.specs.Coded.{codes};
    ghost use Rattle.rule_lang.specs.TreeCode.{coded_tree};
    ghost use Rattle.rounds_code.specs.Block.{column_words};
    ghost use Rattle.rounds_blocks.specs.Walks.{Walked, IsWalk};

    ghost Value = { Walked };

    ghost coded = { Prim.hlevel (codes, coded_tree) };

    ghost view = { λ walk. record { rules = walk.block.rules; network = walk.network.now; words = column_words walk.from.items } };

    ghost invariant = { λ walk. IsWalk walk.block.rules walk.network.now walk.batches.now walk.activity walk.shares walk.from.items walk.to.items };
}

impl<'a> Walk<'a> {
    /// The states of all nodes of a network, for a program and its code, before any round.
    pub fn new(
        alloc: Global,
        program: &Program,
        code: &'a RowCode<'a>,
        layout: &'a Layout<'a>,
        states: &[State],
    ) -> Result<Walk<'a>, AllocError>
        requires code { code.now ≡ program.now }
        requires nodes { length states.now ≡ length layout.now }
        requires plain { All (IsPlain (length program.now.fields)) states.now }
        ensures rules { IfOk result (λ walk. walk.rules ≡ program.now) }
        ensures network { IfOk result (λ walk. walk.network ≡ layout.now) }
        ensures states { IfOk result (λ walk. (u : ℕ) (d : State) → u < length layout.now → state_by walk.words u ≡ slice_index_or states.now u d) }
    {
        let fields = program.field_count() as usize;
        let block = Block::new(alloc, code)?;
        let from = columns_of(alloc, fields, states)?;
        let to = columns_of(alloc, fields, states)?;
        let bytes = blank_bytes(alloc, fields, states.len(), &layout.batches)?;
        let activity = all_due(alloc, &layout.nears, !program.uses_round())?;
        // For the proof: what holds of every network.
        let _nodes = layout.network.nodes();
        Ok(Walk {
            network: &layout.network,
            batches: &layout.batches,
            block,
            costs: Costs {
                node: 0,
                end: 0,
                least_saving: 0,
            },
            shares: Shares {
                all: Vec::new(alloc),
                in_ranges: false,
                spans: Vec::new(alloc),
            },
            activity,
            from,
            to,
            bytes,
        })
    }

    /// Gives each of so many threads a share of the batches of a round, which takes about as long by these costs: a hub
    /// counts by its neighbours.
    pub fn share(
        &mut self,
        alloc: Global,
        code: &'a RowCode<'a>,
        threads: usize,
        costs: Costs,
    ) -> Result<(), AllocError>
        requires code { code.now ≡ self.old.rules }
        ensures same { self.new ≡ self.old }
    {
        let all = time_of_all(self.batches, &costs);
        let time = (all / (threads.max(1) as u64)).saturating_add(1);
        let nodes = self.network.nodes() as usize;
        let spans = spans_of(alloc, nodes, self.batches)?;
        self.shares = all_shares(
            alloc,
            code,
            &self.from,
            nodes,
            self.batches,
            spans,
            &costs,
            time,
        )?;
        self.costs = costs;
        Ok(())
    }

    /// Moves all nodes one round on, in the step from a round, sequentially. Answers whether a state changed, where the
    /// program doesn't read the number of the round, and else true.
    pub fn round(&mut self, round: u32) -> bool
        ensures rules { self.new.rules ≡ self.old.rules }
        ensures network { self.new.network ≡ self.old.network }
        ensures next { (u : ℕ) → u < length self.old.network → state_by self.new.words u ≡ round_from self.old.rules self.old.network round (state_by self.old.words) u }
        ensures rests { result ≡ false → (u : ℕ) → u < length self.old.network → state_by self.new.words u ≡ state_by self.old.words u }
        ensures unread { result ≡ false → reads_round self.old.rules ≡ false }
        ensures moves { result ≡ true → reads_round self.old.rules ≡ false → (u : ℕ) × (u < length self.old.network) × (state_by self.new.words u ≢ state_by self.old.words u) }
    {
        let are_narrow = narrow_where(&self.from, &mut self.bytes, &self.activity.due);
        let from = columns_by(are_narrow, &self.from, &self.bytes);
        let task = Task {
            network: self.network,
            batches: self.batches,
            due: &self.activity.due,
            round,
            from: &from,
        };
        step_due(&task, 0, self.batches.len(), &mut self.block, &mut self.to);
        let moved = self.activity.look(self.batches, &self.from, &self.to);
        mem::swap(&mut self.from, &mut self.to);
        moved
    }

    /// What `round` does, each share in a thread; sequentially where no shares were given, or where threads save too
    /// little of what has to be computed.
    pub fn round_shared(&mut self, rt: &(impl Threads + Sync), round: u32) -> bool
        ensures rules { self.new.rules ≡ self.old.rules }
        ensures network { self.new.network ≡ self.old.network }
        ensures next { (u : ℕ) → u < length self.old.network → state_by self.new.words u ≡ round_from self.old.rules self.old.network round (state_by self.old.words) u }
        ensures rests { result ≡ false → (u : ℕ) → u < length self.old.network → state_by self.new.words u ≡ state_by self.old.words u }
        ensures unread { result ≡ false → reads_round self.old.rules ≡ false }
        ensures moves { result ≡ true → reads_round self.old.rules ≡ false → (u : ℕ) × (u < length self.old.network) × (state_by self.new.words u ≢ state_by self.old.words u) }
    {
        let saved = saved_by(
            self.batches,
            &self.activity.due,
            &self.shares.all,
            &self.costs,
        );
        if self.shares.all.is_empty() || saved < self.costs.least_saving {
            return self.round(round);
        }
        let are_narrow = narrow_where(&self.from, &mut self.bytes, &self.activity.due);
        let from = columns_by(are_narrow, &self.from, &self.bytes);
        let task = Task {
            network: self.network,
            batches: self.batches,
            due: &self.activity.due,
            round,
            from: &from,
        };
        step_shared(rt, &task, &mut self.shares, &mut self.to);
        let moved = self.activity.look(self.batches, &self.from, &self.to);
        mem::swap(&mut self.from, &mut self.to);
        moved
    }

    /// The states of all nodes by rising number.
    pub fn states(&self, alloc: Global) -> Result<Vec<State>, AllocError>
        ensures exact { IfOk result (λ states. states.items ≡ map (state_by self.now.words) (numbers_below (length self.now.network))) }
        ensures plain { IfOk result (λ states. All (IsPlain (length self.now.rules.fields)) states.items) }
    {
        states_of(alloc, self.network.nodes() as usize, &self.from)
    }

    /// The states of all nodes by rising number, packed. What else rounds need is dropped, so that a list of the states can be made
    /// where neither the columns of the next round nor those of shares stand, nor the layout, if the caller drops that.
    pub fn into_packed(self) -> PackedStates
        ensures exact { result ≡ map (state_by self.entry.words) (numbers_below (length self.entry.network)) }
    {
        let nodes = self.network.nodes() as usize;
        let Walk { from, .. } = self;
        PackedStates {
            nodes,
            columns: from,
        }
    }

    /// Whether all nodes have the states that they have in another walk of the same program on the same network.
    pub fn is_like(&self, other: &Walk<'_>) -> bool
        requires rules { other.now.rules ≡ self.now.rules }
        requires network { other.now.network ≡ self.now.network }
        ensures exact { IsTrue result ↔ ((u : ℕ) → u < length self.now.network → state_by self.now.words u ≡ state_by other.now.words u) }
    {
        are_same(&self.from, &other.from)
    }
}
