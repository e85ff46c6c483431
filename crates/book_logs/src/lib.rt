// The lending end: a log over lent bytes, and what goes out when its messages are asked for.
#![tactic(auto)]

use book_lines::line::Line;
use book_lines::{entry, numbers, scan};
use book_page::page;
use lent_log::Log;
use std::io;
use wire::kinds::Sequence;
use wire::refusal::Refusal;

const EMPTY: Log = Log {
    count: 0,
    used: 0,
    ended: false,
};

// A log, the bytes that lie ready for it, and how many of those are lent.
#[derive(Clone, Copy)]
pub struct Shelf {
    log: Log,
    lent: [u8; page::ROOM],
    size: usize,
}

fn tell(rt: &impl Print, log: Log) -> io::Result<()> {
    print!(rt; "\n= messages {}, bytes {}", log.count, log.used)?;
    if log.ended {
        print!(rt; ", ended yes")
    } else {
        print!(rt; ", ended no")
    }
}

// The packet that a line asks for: what `give` says, a `beat`, or the end.
fn packet(line: &Line<'_>, log: Log, bytes: &[u8], out: &mut [u8]) -> Result<usize, Refusal> {
    match line.letter(4) {
        Some(b'g') => {
            let first = Sequence(numbers::whole(line.text, 0));
            let count = (numbers::whole(line.text, 1) % 65536) as u16;
            lend::answer(log, bytes, first, count, out)
        }
        Some(b'b') => lend::heartbeat(log, bytes, out),
        _ => lend::end_packet(log, bytes, out),
    }
}

fn send(rt: &impl Print, line: &Line<'_>, log: Log, bytes: &[u8]) -> io::Result<()> {
    let mut out = [page::UNTOUCHED; page::ROOM];
    if let Some(lent) = out.get_mut(..line.mark.unwrap_or(page::ROOM)) {
        let said = packet(line, log, bytes, lent);
        page::wrote(rt, "\n= sent, bytes ", said, &out)?;
    }
    Ok(())
}

// A message, and one that says HI.
fn two(bytes: &mut [u8], message: &[u8]) -> Result<Log, Refusal> {
    let log = lent_log::add(EMPTY, bytes, message)?;
    lent_log::add(log, bytes, b"HI")
}

impl Shelf {
    pub fn empty() -> Shelf {
        Shelf {
            log: EMPTY,
            lent: [0; page::ROOM],
            size: 0,
        }
    }

    // A log as the line says: its numbers, and behind the word `bytes` what is lent.
    fn given(&mut self, rt: &impl Print, text: &[u8]) -> io::Result<()> {
        let log = Log {
            count: numbers::whole(text, 0),
            used: numbers::whole(text, 1) as usize,
            ended: numbers::whole(text, 2) == 1,
        };
        let (_, said) = scan::cut(text, b'b');
        let bytes = entry::bytes(said, &mut self.lent);
        tell(rt, log)?;
        if !lent_log::hangs_together(log, bytes) {
            print!(rt; ", refused {}", Refusal::Broken.number())?;
        }
        self.size = bytes.len();
        self.log = log;
        Ok(())
    }

    // After a refusal the log is the one before.
    fn entered(&mut self, rt: &impl Print, said: Result<Log, Refusal>) -> io::Result<()> {
        match said {
            Err(why) => page::refused(rt, why),
            Ok(log) => {
                self.log = log;
                tell(rt, log)
            }
        }
    }

    // What a line does with a log over the bytes that are lent: `add`, `many` and `end` change it.
    fn used(&mut self, rt: &impl Print, line: &Line<'_>) -> io::Result<()> {
        let log = self.log;
        let Some(bytes) = self.lent.get_mut(..self.size) else {
            return Ok(());
        };
        let said = match line.letter(4) {
            Some(b'a') => lent_log::add(log, bytes, line.bytes),
            Some(b'm') => lent_log::add_many(log, bytes, line.bytes),
            Some(b'e') => lent_log::declare_end(log, bytes),
            _ => return send(rt, line, log, bytes),
        };
        self.entered(rt, said)
    }

    // A message of some length and one that says HI are added, and both are asked for. Two bytes say how long it is; it is all zeros.
    fn both(&mut self, rt: &impl Print, line: &Line<'_>) -> io::Result<()> {
        let zeros = [0u8; 2000];
        let Some((length, _)) = line.bytes.split_first_chunk() else {
            return Ok(());
        };
        let Some(message) = zeros.get(..usize::from(u16::from_be_bytes(*length))) else {
            return Ok(());
        };
        match two(&mut self.lent, message) {
            Err(why) => page::refused(rt, why),
            Ok(log) => {
                let both = Line {
                    text: b"log give from 1 count 2",
                    mark: None,
                    ..*line
                };
                send(rt, &both, log, &self.lent)
            }
        }
    }

    // The log after a line: `lend`, or `log` and a second word, which says what is done.
    pub fn answer(&mut self, rt: &impl Print, line: &Line<'_>) -> io::Result<()> {
        match (line.letter(1), line.letter(4)) {
            (Some(b'e'), _) => self.both(rt, line),
            (_, None) => Ok(()),
            (_, Some(b'o')) => {
                self.log = EMPTY;
                self.size = numbers::whole(line.text, 0) as usize;
                tell(rt, EMPTY)
            }
            (_, Some(b'i')) => self.given(rt, line.text),
            _ => self.used(rt, line),
        }
    }
}
