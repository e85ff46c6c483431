// Asking for what is missing.
ghost use Rattle.std.specs.Prelude.{◌≡◌};
ghost use Rattle.wire.specs.Checks.{◌told_by◌};
ghost use Rattle.asking.specs.Asking.{asked_of};
ghost use Rattle.flat_record.specs.Asking.{flat_asked, ask_verdict, ask_answer};

use crate::keeping;
use crate::keeping::FlatRecord;
use asking::Asked;
use flat_clock::{FlatPatience, FlatSheet};
use wire::refusal::Refusal;

// what: 0 nothing, 1 wait, 2 request.
#[repr(C)]
#[derive(Clone, Copy)]
pub struct FlatAsked {
    pub refusal: u64,
    pub what: u8,
    pub first: u64,
    pub count: u64,
    pub after: FlatRecord,
}

fn flat_asked(given: FlatRecord, answer: Result<Asked, Refusal>) -> FlatAsked
    ensures { result ≡ flat_asked given answer }
{
    let nothing = FlatAsked {
        refusal: 0,
        what: 0,
        first: 0,
        count: 0,
        after: given,
    };
    match answer {
        Err(why) => FlatAsked {
            refusal: why.number() as u64,
            ..nothing
        },
        Ok(Asked::Nothing) => nothing,
        Ok(Asked::Wait) => FlatAsked { what: 1, ..nothing },
        Ok(
            Asked::Request {
                first,
                count,
                after,
            },
        ) => FlatAsked {
            refusal: 0,
            what: 2,
            first: first.0,
            count: count as u64,
            after: keeping::flat_record(given, after),
        },
    }
}

// What the room answers, where the record and the sheet are such.
fn asked(
    given: FlatRecord,
    sheet: FlatSheet,
    patience: FlatPatience,
    elapsed: f64,
) -> Result<Asked, Refusal>
    ensures { result ≡ ask_verdict given sheet patience elapsed told_by asked_of }
{
    let kept = keeping::known_record(given)?;
    let sheet = flat_clock::known_sheet(sheet)?;
    asking::ask(kept, sheet, flat_clock::rule_of(patience), elapsed)
}

pub fn ask(given: FlatRecord, sheet: FlatSheet, patience: FlatPatience, elapsed: f64) -> FlatAsked
    ensures { result ≡ ask_answer given sheet patience elapsed }
{
    flat_asked(given, asked(given, sheet, patience, elapsed))
}
