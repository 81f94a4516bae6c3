ghost use Rattle.tree_cuts.specs.Class.{HoldsDifferences};
ghost use Rattle.tree_cuts.specs.Cuts.{ConvertedAreCutSums, ConvertedRefutes};

// Each of these does nothing: its contract is a law over the definitions.

/// A read of the difference class is in the stride class.
pub fn differences_are_strides()
    ensures { HoldsDifferences }
{}

/// A Sum that refutes rows which come from a system, as its own rows or by Cuts, refutes that system as the Cuts and then
/// the Sum with the rows' numbers.
pub fn converted_sums_refute()
    ensures { ConvertedRefutes }
{}

/// A converted Sum is at most 65,536 Cuts and one Sum, where its Cuts are that few, none takes an order row, and the rows that
/// they add and its multipliers are small.
pub fn converted_sums_are_cut_sums()
    ensures { ConvertedAreCutSums }
{}
