//! Laws of pairs of nodes.
ghost use Rattle.net_random.specs.Pairs.{EachPairHasOnePlace};

/// A law, which does nothing when it runs: the places by which pairs of nodes are drawn are one to one with the pairs of
/// different nodes. There are as many as pairs, each is that of one pair, two are those of different pairs, and no pair is
/// left out.
pub fn each_pair_has_one_place()
    ensures places { EachPairHasOnePlace }
{}
