use affine_core::KeptForm;

/// The tests on the way from the root of a tree to a part of it, with what they answered, the last one at the end of the
/// chain. A Divides has the number of the variable that is its quotient. Each test stands in a frame of the check, so that
/// a path takes no memory.
#[derive(Clone, Copy)]
pub enum Path<'a> {
    Root,
    Test(&'a Path<'a>, &'a KeptForm, bool),
    Divides(&'a Path<'a>, &'a KeptForm, i128, u32, bool),
}
