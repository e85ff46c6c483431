// MEMX packets, as their reader takes them.
use book_page::page;
use memx::reading::{Memx, Says};
use memx::{layout, reading};
use std::io;
use wire::kinds::SessionId;

// What else a header says. Session 1 goes without saying, and so do extra bytes where there are none.
fn header(rt: &impl Print, d: &[u8], packet: Memx) -> io::Result<()> {
    if packet.session != SessionId(1) {
        print!(rt; ", session {}", packet.session.0)?;
    }
    match d.get(layout::HEADER..layout::HEADER + usize::from(packet.extra)) {
        Some(extra) if !extra.is_empty() => page::raw(rt, ", extra", extra),
        _ => Ok(()),
    }
}

fn tell(rt: &impl Print, d: &[u8], packet: Memx) -> io::Result<()> {
    match packet.says {
        Says::Heartbeat(highest) => print!(rt; "\n= heartbeat, highest {}", highest.0)?,
        Says::Shutdown(highest) => print!(rt; "\n= shutdown, highest {}", highest.0)?,
        Says::Messages { first, count } => {
            let place = layout::BLOCKS + usize::from(packet.extra);
            page::packet(rt, d, place, first, count)?;
        }
    }
    header(rt, d, packet)
}

pub fn memx(rt: &impl Print, d: &[u8]) -> io::Result<()> {
    match reading::read(d) {
        Err(why) => page::refused(rt, why),
        Ok(packet) => tell(rt, d, packet),
    }
}
