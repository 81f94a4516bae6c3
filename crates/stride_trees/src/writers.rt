use crate::divisions::Division;
use crate::strides::Strides;
use plain_data::Items;

/// The place of a test that says no by its form alone and isn't asked. Those that are asked have lower places.
pub const NO_PLACE: u32 = 6;

/// A write of the read's array that stands before the read at some level of order. `divisions` are its tests of
/// divisibility, in the order of its subscripts, and `places` tells which of the tests that are asked each of them is, or
/// `NO_PLACE`.
#[derive(Drop)]
pub struct Writer<'a> {
    pub strides: Strides<'a>,
    pub divisions: Items<Division>,
    pub places: Items<u32>,
}
