// What reading keeps of a telegram that is accepted.
use layout::cursor::Cursor;
use layout::records::Parts;
use telegram::row::Row;

// The input up to the body's end, the row, where the body begins, where the items begin, and the optional parts.
#[derive(Clone, Copy)]
pub struct Head<'b> {
    pub text: &'b [u8],
    pub row: Row,
    pub from: usize,
    pub start: Cursor,
    pub parts: Parts<'b>,
}
