ghost use Rattle.std.specs.Prelude.{◌≡◌};
ghost use Rattle.sanlp.specs.Bounds.{IsBoundedAbove};
ghost use Rattle.sanlp.specs.Laws.{FollowsTrace, HoldsLastWriters, IsLastWriter, IsValue, SinksGiveArrays, SinksReadCells, sink_values};
ghost use Rattle.sanlp.specs.Meaning.{arrays};
ghost use Rattle.sanlp.specs.Order.{EnumeratesDomains};
ghost use Rattle.sanlp.specs.Text.{IsContiguous, OrdersCompose};
ghost use Rattle.sanlp.specs.Trace.{trace};

use crate::nest::{Inputs, Nest};

// Each of these does nothing: its contract is a law over the definitions.

/// The sequential meaning executes the points of the trace, in order (Feautrier 1991).
pub fn follows_trace(nest: &Nest, inputs: &Inputs)
    ensures { FollowsTrace nest.now inputs.now }
{}

/// The last writer of a cell before an entry is the greatest earlier entry that writes the cell (Feautrier 1991).
pub fn is_last_writer(nest: &Nest)
    ensures { IsLastWriter nest.now (trace nest.now) }
{}

/// The value of an entry is its expression, where each read has the value of its last writer, or 0 where there is none.
pub fn is_value(nest: &Nest, inputs: &Inputs)
    ensures { IsValue nest.now inputs.now (trace nest.now) }
{}

/// Along the trace, a cell holds the value of its last writer, and nothing where it has none.
pub fn holds_last_writers(nest: &Nest, inputs: &Inputs)
    ensures { HoldsLastWriters nest.now inputs.now (trace nest.now) }
{}

/// The values of each sink's points, in order, are the cells of its array after the nest, and so the arrays after the
/// nest are the values of the sinks' points.
pub fn sinks_give_arrays(nest: &Nest, inputs: &Inputs)
    ensures cells { SinksReadCells nest.now inputs.now }
    ensures lists { SinksGiveArrays nest.now inputs.now }
    ensures whole { arrays nest.now inputs.now ≡ sink_values nest.now inputs.now }
{}

/// The entries of the trace are exactly the points of the statements' iteration domains, each once, in the order that
/// `before` tells (Feautrier 1991).
pub fn enumerates_domains(nest: &Nest)
    ensures { EnumeratesDomains nest.now (trace nest.now) }
{}

/// The text of a loop is one stretch: of three statements in the order of the text, the outer two have as many loops in
/// common as the less of what each has with the middle one.
pub fn text_is_contiguous(nest: &Nest)
    ensures { IsContiguous nest.now }
{}

/// Orders of statements by the text compose: of three statements, an order by the text between two neighbours with fewer
/// loops in common than the other two, or with as many where these are in order too, orders the outer two.
pub fn orders_compose(nest: &Nest)
    ensures { OrdersCompose nest.now }
{}

/// Each loop round a statement is bounded above by one of the statement's rows, in which no loop inside it stands.
pub fn loops_are_bounded_above(nest: &Nest)
    ensures { IsBoundedAbove nest.now }
{}
