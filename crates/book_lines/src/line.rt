// A line of the book, taken apart.
use crate::{entry, numbers, scan};
use book_page::page;

// The whole line, which is read by its bytes, since it may be no UTF-8; the bytes that it spells in front of `>`; and the number behind
// `>`. The bytes lie at the start of a room: behind them are noughts, or what a run left that didn't fit.
#[derive(Clone, Copy)]
pub struct Line<'a> {
    pub text: &'a [u8],
    pub room: &'a [u8; page::ROOM],
    pub bytes: &'a [u8],
    pub mark: Option<usize>,
}

impl<'a> Line<'a> {
    pub fn read(text: &'a [u8], room: &'a mut [u8; page::ROOM]) -> Line<'a> {
        let (front, behind) = scan::cut(text, b'>');
        let count = entry::bytes(front, room).len();
        let mark = if behind.is_empty() {
            None
        } else {
            Some(numbers::whole(behind, 0) as usize)
        };
        Line {
            text,
            room,
            bytes: &room[..count],
            mark,
        }
    }

    // The letter at a place. A word is known by one or two of them, and not compared whole: a line that spells the rest of it otherwise
    // must be answered as ever.
    pub fn letter(&self, place: usize) -> Option<u8> {
        self.text.get(place).copied()
    }
}
