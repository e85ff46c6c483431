// SoupTCP as it comes off the wire: a stream is fed piece by piece, and what it hands out is told.
#![tactic(auto)]

use book_lines::line::Line;
use book_lines::{entry, numbers, scan};
use book_packets::soup_packets;
use book_page::page;
use soup::line;
use soup_pieces::{Pieces, Taken};
use std::io;
use wire::kinds::Sequence;

// The room for a stream's buffer: the longest packet, and what is looked at behind it.
pub const ROOM: usize = 4200;

// How a stream stands, the buffer that lies ready for it, and how many bytes of that are lent.
#[derive(Clone, Copy)]
pub struct Stream {
    pieces: Pieces,
    buffer: [u8; ROOM],
    size: usize,
}

// What a call did: how many bytes were put at the buffer's start, and where to go on in the piece, if it isn't used up.
#[derive(Clone, Copy)]
struct Step {
    put: usize,
    place: Option<usize>,
}

// Tells what a call hands out.
fn told(rt: &impl Print, taken: Taken, buffer: &[u8], pieces: &mut Pieces) -> io::Result<Step> {
    match taken {
        Taken::UsedUp { after } => {
            *pieces = after;
            Ok(Step {
                put: after.kept,
                place: None,
            })
        }
        Taken::Packet {
            packet,
            number,
            bytes,
            place,
            after,
        } => {
            *pieces = after;
            soup_packets::tell(rt, packet, buffer.get(..bytes).unwrap_or(&[]))?;
            if let Some(number) = number {
                print!(rt; ", number {}", number.0)?;
            }
            Ok(Step {
                put: bytes,
                place: Some(place),
            })
        }
        Taken::Unfit {
            why,
            bytes,
            place,
            after,
        } => {
            *pieces = after;
            page::refused(rt, why)?;
            print!(rt; ", bytes {bytes}")?;
            page::written(rt, buffer, bytes)?;
            Ok(Step {
                put: bytes,
                place: Some(place),
            })
        }
    }
}

// A refused packet has bytes, and a refused call has none.
fn call(
    rt: &impl Print,
    pieces: &mut Pieces,
    buffer: &mut [u8],
    piece: &[u8],
    place: usize,
) -> io::Result<Step> {
    match soup_pieces::take(*pieces, buffer, piece, place) {
        Ok(taken) => told(rt, taken, buffer, pieces),
        Err(why) => {
            page::refused(rt, why)?;
            Ok(Step {
                put: 0,
                place: None,
            })
        }
    }
}

// Behind what was put at its start a call leaves the buffer as it was.
fn untouched(
    rt: &impl Print,
    before: &[u8; ROOM],
    buffer: &[u8; ROOM],
    put: usize,
) -> io::Result<()> {
    if before
        .iter()
        .zip(buffer)
        .skip(put)
        .any(|(was, is)| was != is)
    {
        return print!(rt; "\n= touched");
    }
    Ok(())
}

impl Stream {
    pub fn fresh() -> Stream {
        Stream {
            pieces: Pieces {
                kept: 0,
                dropping: false,
                next: Sequence(0),
            },
            buffer: [page::UNTOUCHED; ROOM],
            size: line::LONGEST,
        }
    }

    fn tell(&self, rt: &impl Print) -> io::Result<()> {
        let dropping = if self.pieces.dropping { "yes" } else { "no" };
        let kept = self.pieces.kept;
        let next = self.pieces.next.0;
        print!(rt; "\n= kept {kept}, dropping {dropping}, next {next}")
    }

    // A stream as the line says: its numbers, behind a colon the bytes at the buffer's start, and behind `>` how long the buffer is.
    fn open(&mut self, line: &Line<'_>) {
        let (said, _) = scan::cut(line.text, b'>');
        let (front, bytes) = scan::cut(said, b':');
        *self = Stream {
            pieces: Pieces {
                kept: numbers::whole(front, 0) as usize,
                dropping: numbers::whole(front, 1) == 1,
                next: Sequence(numbers::whole(front, 2)),
            },
            buffer: [page::UNTOUCHED; ROOM],
            size: line.mark.unwrap_or(line::LONGEST),
        };
        entry::bytes(bytes, &mut self.buffer);
    }

    // What one call does with the part of the buffer that is lent, and where to go on in the piece. All of the buffer is looked at.
    fn step(&mut self, rt: &impl Print, piece: &[u8], place: usize) -> io::Result<Option<usize>> {
        let before = self.buffer;
        let Some(lent) = self.buffer.get_mut(..self.size) else {
            return Ok(None);
        };
        let step = call(rt, &mut self.pieces, lent, piece, place)?;
        untouched(rt, &before, &self.buffer, step.put)?;
        Ok(step.place)
    }

    // A piece from a place on. No piece hands out more often than it has bytes.
    fn feed(&mut self, rt: &impl Print, piece: &[u8], place: usize) -> io::Result<()> {
        let mut at = place;
        for _ in 0..=piece.len() {
            match self.step(rt, piece, at)? {
                Some(next) => at = next,
                None => break,
            }
        }
        Ok(())
    }

    // The stream after a line: `stream`, `feed`, or `feed singly`, where each byte is a piece of its own.
    pub fn answer(&mut self, rt: &impl Print, line: &Line<'_>) -> io::Result<()> {
        if line.letter(0) == Some(b's') {
            self.open(line);
            return Ok(());
        }
        if line.letter(5) == Some(b's') {
            for piece in line.bytes.chunks(1) {
                self.feed(rt, piece, 0)?;
            }
        } else {
            self.feed(rt, line.bytes, line.mark.unwrap_or(0))?;
        }
        self.tell(rt)
    }
}
