use plain_data::Items;
use sanlp::Tag;

/// Where each fire of each read has its value from: one list for each read, in the order of reader and read, with one
/// entry for each fire of the reader, which is the tag of a write, or `None` where there is none (Feautrier 1991).
#[derive(Drop)]
pub struct SourceTable {
    pub of: Items<Items<Option<Tag>>>,
}
