use sanlp::{Access, Statement};

/// A read or a write of an array: a statement's number, the statement, and the access.
#[derive(Clone, Copy)]
pub struct Reference<'a> {
    pub number: u32,
    pub statement: &'a Statement,
    pub access: &'a Access,
}
