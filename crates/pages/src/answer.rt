// What a page shows: how many records, the bytes of the buffer that it uses, and whether none is left over.
#[derive(Clone, Copy, Debug, PartialEq, Eq)]
pub struct PageAnswer {
    pub count: u16,
    pub used: u16,
    pub end: bool,
}
