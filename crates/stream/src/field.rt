// A field of a stream: its offset, which is that of its tag; the number of its tag, which may stand for none; and the value,
// which is the part of the input after the length.
#[derive(Clone, Copy, Debug, PartialEq, Eq)]
pub struct Field<'a> {
    pub offset: usize,
    pub tag: u8,
    pub value: &'a [u8],
}
