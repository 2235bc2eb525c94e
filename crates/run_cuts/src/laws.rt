//! What a cut is.
ghost use Rattle.std.specs.Prelude.{◌≡◌, ◌≢◌, ◌↔◌, ◌+◌, ◌*◌, true, map, sum};
ghost use Rattle.rule_lang.specs.Tree.{Tree, InfixTree, OverTree};
ghost use Rattle.rule_lang.specs.declared.tree.Op.TheVariants.{Plus, Minus, Times};
ghost use Rattle.rule_lang.specs.declared.tree.Agg.TheVariants.{Total};
ghost use Rattle.rule_check.specs.declared.state.Near.{Near};
ghost use Rattle.rule_check.specs.Value.{Here, value};
ghost use Rattle.run_cuts.specs.Operators.{SumTree, DifferenceTree, ProductTree, TotalTree};
ghost use Rattle.run_cuts.specs.Cuts.{is_outside};
ghost use Rattle.run_cuts.specs.Symbols.{StandInOrder};

/// A law, which does nothing when it runs: an operator is cut exactly where the value that it has in the program is not
/// the plain number that is made of its operands' values; of a difference, where it does not lead back to the first
/// operand by adding the second.
pub fn cut_where_values_differ()
    ensures sum { (here : Here) (a b : Tree) (near : Near)
        → (is_outside here (SumTree a b) near ≡ true) ↔ (value here (InfixTree Plus a b) near ≢ value here a near + value here b near) }
    ensures difference { (here : Here) (a b : Tree) (near : Near)
        → (is_outside here (DifferenceTree a b) near ≡ true) ↔ (value here (InfixTree Minus a b) near + value here b near ≢ value here a near) }
    ensures product { (here : Here) (a b : Tree) (near : Near)
        → (is_outside here (ProductTree a b) near ≡ true) ↔ (value here (InfixTree Times a b) near ≢ value here a near * value here b near) }
    ensures total { (here : Here) (e : Tree) (near : Near)
        → (is_outside here (TotalTree e) near ≡ true) ↔ (value here (OverTree Total e) near ≢ sum (map (value here e) here.nears)) }
{}

/// A law, which does nothing when it runs: the `+`, `-`, `*` and `total` among the tokens of a program's text are the
/// operators of its rules, one by one.
pub fn operators_stand_in_order()
    ensures order { StandInOrder }
{}
