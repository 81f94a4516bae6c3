use script_blocks::Script;

/// Where the entries of a schedule stand: in a list, or in a script that is kept folded.
#[derive(Clone, Copy)]
pub(crate) enum Schedule<'a> {
    Listed(&'a [u32]),
    Folded(&'a Script<u32>),
}
