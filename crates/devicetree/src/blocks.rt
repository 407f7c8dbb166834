// The blocks that the walk through the nodes reads.

#[derive(Clone, Copy)]
pub struct Blocks<'a> {
    // The data up to the structure block's end, so that places stay the data's own.
    pub structure: &'a [u8],
    pub strings: &'a [u8],
}
