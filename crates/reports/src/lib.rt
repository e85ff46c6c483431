// Reports: what a datagram reports to a record of a session, in either style.
#![tactic(auto)]

ghost use Rattle.std.specs.Prelude.{◌≡◌};
ghost use Rattle.wire.specs.Checks.{◌into◌, ◌told_by◌};
ghost use Rattle.ufo.specs.Down as ufo;
ghost use Rattle.memx.specs.Read as memx_read;
ghost use Rattle.reports.specs.Reports.{of_ufo, of_memx, report_of, blocks_at, reported_of};

use memx::reading::Says;
use memx::{layout, reading};
use record::Session;
use ufo::down;
use ufo::down::Down;
use wire::kinds::{Sequence, SessionId};
use wire::refusal::Refusal;

// Where the blocks of UFO messages begin.
const UFO_BLOCKS: usize = 7;

#[derive(Clone, Copy, Debug, PartialEq, Eq)]
pub enum Reported {
    // Their blocks stand from the place to the datagram's end.
    Messages {
        first: Sequence,
        count: u16,
        place: usize,
    },
    News {
        highest: Sequence,
    },
    End {
        total: Sequence,
    },
}

// An `S` or an `E` names no session: it is taken for the record's.
fn ufo_report(datagram: &[u8]) -> Result<Reported, Refusal>
    ensures { result ≡ ufo.read datagram.now into of_ufo told_by reported_of 7 }
{
    match down::read_down(datagram)? {
        Down::Messages { first, count } => Ok(Reported::Messages {
            first,
            count,
            place: UFO_BLOCKS,
        }),
        Down::End { total } => Ok(Reported::End { total }),
        Down::Accept { .. } | Down::Reject { .. } => Err(Refusal::NotForRecord),
    }
}

// A MEMX packet names its session, and only the record's own is reported.
fn memx_report(own: SessionId, datagram: &[u8]) -> Result<Reported, Refusal>
    ensures { result ≡ memx_read.read datagram.now into of_memx own.0
        told_by reported_of (memx_read.blocks_at datagram.now) }
{
    let packet = reading::read(datagram)?;
    if packet.session != own {
        return Err(Refusal::OtherSession);
    }
    Ok(match packet.says {
        Says::Heartbeat(highest) => Reported::News { highest },
        Says::Shutdown(highest) => Reported::End { total: highest },
        Says::Messages { first, count } => Reported::Messages {
            first,
            count,
            place: layout::BLOCKS + packet.extra as usize,
        },
    })
}

pub fn report_of(session: Session, datagram: &[u8]) -> Result<Reported, Refusal>
    ensures { result ≡ report_of session datagram.now told_by reported_of (blocks_at session datagram.now) }
{
    match session {
        Session::Ufo(_) => ufo_report(datagram),
        Session::Memx(own) => memx_report(own, datagram),
    }
}
