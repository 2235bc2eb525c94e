//! What a round is made of.

use crate::batch::Batch;
use link_net::NetRows;
use rounds_code::NearColumns;

/// A round: the network in batches, which of the batches have to be computed, the number of the round, and the states
/// before it by columns.
#[derive(Drop)]
pub struct Task<'a> {
    pub network: &'a NetRows<'a>,
    pub batches: &'a [Batch],
    pub due: &'a [bool],
    pub round: u32,
    pub from: &'a NearColumns<'a>,
}
