// The specimen book is read from standard input and run on the desk. A line that begins with a small letter is for the desk: the
// letter says for whom, and the line's hexadecimal digits, in capitals, are bytes, or, where the words ask for numbers, decimal ones.
// Every line is copied, and an answer follows its own.
#![tactic(auto)]

ghost use Rattle.std.specs.Prelude.{◌≡◌, ◌≤◌, IfOk, length};

use book_lines::line::Line;
use book_logs::Shelf;
use book_packets::{memx_packets, soup_packets, tcp_packets, ufo_packets, visiting};
use book_page::page;
use book_streams::Stream;
use book_tapes::tape::Tape;
use std::io;
use std::io::Read;

// The room for the book.
const BOOK: usize = 131072;

// What is handed from line to line.
#[derive(Drop)]
struct Desk {
    tape: Tape,
    shelf: Shelf,
    stream: Stream,
}

impl Desk {
    // `tcp` and `take` have the first letter in common, and so have `stream` and `soup`, `feed` and `find`.
    fn answer(&mut self, rt: &impl Print, line: &Line<'_>) -> io::Result<()> {
        let [letter, second, ..] = line.text else {
            return Ok(());
        };
        let d = line.bytes;
        match (*letter, *second) {
            (b't', b'c') => tcp_packets::tcp(rt, d),
            (b's', b't') | (b'f', b'e') => self.stream.answer(rt, line),
            (b'd', _) => ufo_packets::down(rt, d),
            (b'u', _) => ufo_packets::up(rt, d),
            (b'f', _) => ufo_packets::find(rt, d, line.mark.unwrap_or(page::ROOM)),
            (b'b', _) => visiting::visit(rt, d, line.mark.unwrap_or(page::ROOM)),
            (b'm', _) => memx_packets::memx(rt, d),
            (b's', _) => soup_packets::soup(rt, d),
            (b'p', _) => book_writers::put(rt, line),
            (b'c', _) => book_clock::clock(rt, d),
            (b'w', _) => book_clock::wait(rt, line),
            (b'g', _) => book_clock::gauge(rt, line),
            (b'n', _) => book_clock::now(rt, line),
            (b'o' | b'h' | b't' | b'a' | b'r', _) => self.tape.answer(rt, line),
            (b'l', _) => self.shelf.answer(rt, line),
            _ => Ok(()),
        }
    }

    // A function of its own, whose first statement is the room, since the room is then cleared once: in `line` it was cleared twice.
    fn question(&mut self, rt: &impl Print, text: &[u8]) -> io::Result<()> {
        let mut room = [0u8; page::ROOM];
        self.answer(rt, &Line::read(text, &mut room))
    }

    fn line(&mut self, rt: &impl Print, text: &[u8]) -> io::Result<()> {
        rt.write_all(text)?;
        if text
            .first()
            .is_some_and(|letter| letter.is_ascii_lowercase())
        {
            self.question(rt, text)?;
        }
        print!(rt; "\n")
    }
}

fn run(rt: &impl Print, book: &[u8]) -> io::Result<()> {
    let mut desk = Desk {
        tape: Tape::fresh(),
        shelf: Shelf::empty(),
        stream: Stream::fresh(),
    };
    for line in book.split_inclusive(|b| *b == b'\n') {
        desk.line(rt, line.strip_suffix(b"\n").unwrap_or(line))?;
    }
    Ok(())
}

// The book's room, whose length its reader must know.
fn blank_book() -> [u8; BOOK]
    ensures { 131072 ≡ length result }
{
    [0; BOOK]
}

// Reads until the room is full or the input ends, and answers how many bytes stand at the room's start. What std has for it takes the
// heap.
fn read_full(from: &mut impl Read, room: &mut [u8]) -> io::Result<usize>
    ensures { IfOk result (λ n. n ≤ length room.new) }
{
    let mut done = 0;
    while done < room.len() {
        let n = from.read(&mut room[done..])?;
        if n == 0 {
            return Ok(done);
        }
        done += n;
    }
    Ok(done)
}

fn main(rt: HostRuntime) -> io::Result<()> {
    let mut room = blank_book();
    let n = read_full(&mut rt.stdin(), &mut room)?;
    run(&rt, &room[..n])
}
