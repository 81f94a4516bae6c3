ghost use Rattle.source_tree.specs.Checked.{IsChecked};
ghost use Rattle.source_tree.specs.Exact.{IsExact};

use sanlp::Nest;
use source_tree::Tree;

/// A checked tree is exact, whatever the size of the nest. It does nothing: its contract is a law over the definitions.
pub fn checked_is_exact(nest: &Nest, statement: u32, read: u32, tree: &Tree)
    ensures { IsChecked nest.now statement read tree.now
        → IsExact nest.now statement read tree.now }
{}
