ghost use Rattle.std.specs.Prelude.{◌≡◌, List, ℕ, [], ◌++◌};
ghost use Rattle.std.specs.Borrow.{ftrue};

use crate::waiting::Waiting;
use std::marker::{Model, PhantomData};

/// What proofs alone read of a writer: the sink as it was at first, `start`, and the text that was handed over since,
/// `text`. It takes no memory, and its calls do nothing.
///
/// By itself it says nothing of any sink. The fact that ties it to one is the field `reaches` of `Writer`.
#[derive(Drop)]
pub(crate) struct Past<K> {
    of: PhantomData<K>,
    pub(crate) ghost start: { K } by { K.code },
    pub(crate) ghost text: { List ℕ },
}

impl<K> Model for Past<K> {
    ghost also_owns = { λ _. ftrue };
}

impl<K> Past<K> {
    /// The past of a sink to which nothing was handed.
    pub(crate) fn new(sink: &K) -> Past<K>
        ensures { result ≡ record { of = record {}; start = sink.now; text = [] } }
    {
        Past { of: PhantomData }
    }

    /// The past with these bytes behind it.
    pub(crate) fn and(&self, bytes: &Waiting) -> Past<K>
        ensures { result ≡ record self.now { text = self.now.text ++ bytes.now } }
    {
        Past { of: PhantomData }
    }
}
