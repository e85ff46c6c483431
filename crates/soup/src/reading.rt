// Reading a packet.
ghost use Rattle.std.specs.Prelude.{◌≡◌, length};
ghost use Rattle.wire.specs.Checks.{checked, taken, ◌told_by◌};
ghost use Rattle.decimal.specs.Decimal.{value_of};
ghost use Rattle.soup.specs.Read.{line_checks, sized_checks, reject_of, accept_of, login_of, read_reject, read_accept, read_login, read};
ghost use Rattle.soup.specs.Reading.{packet_of, number_checks};

use crate::line;
use decimal::Fault;
use wire::kinds::{Name, Password, Sequence, User};
use wire::refusal::Refusal;

// What a packet says. A payload is told by its place in the packet.
#[derive(Clone, Copy)]
pub enum Reading {
    Debug {
        start: usize,
        length: usize,
    },
    Accept {
        session: Name,
        number: Sequence,
    },
    Reject {
        reason: u8,
    },
    Sequenced {
        start: usize,
        length: usize,
    },
    ServerHeartbeat,
    EndOfSession,
    Login {
        user: User,
        password: Password,
        session: Name,
        number: Sequence,
    },
    Unsequenced {
        start: usize,
        length: usize,
    },
    ClientHeartbeat,
    Logout,
}

// A packet with a payload.
fn read_payload(d: &[u8], packet: Reading) -> Result<Reading, Refusal>
    ensures { result ≡ checked (line_checks d.now) (taken packet) }
{
    line::check(d)?;
    Ok(packet)
}

// A packet that holds nothing.
fn read_bare(d: &[u8], packet: Reading) -> Result<Reading, Refusal>
    ensures { result ≡ checked (sized_checks 2 d.now) (taken packet) }
{
    line::check_sized(d, 2)?;
    Ok(packet)
}

fn reject_of(reason: u8) -> Result<Reading, Refusal>
    ensures { result ≡ reject_of reason told_by packet_of }
{
    if (reason == b'A') | (reason == b'S') {
        Ok(Reading::Reject { reason })
    } else {
        Err(Refusal::Form)
    }
}

// The number beside a text that must be there: where either is absent that is told, and only then a number over the bound.
fn number_of(digits: &[u8], absent: bool) -> Result<u64, Refusal>
    requires { length digits.now ≡ 20 }
    ensures { result ≡ checked (number_checks absent digits.now) (taken (value_of digits.now)) }
{
    match decimal::read(digits) {
        Err(Fault::Misshapen) => Err(Refusal::Form),
        Err(Fault::Blank) => Err(Refusal::Absent),
        Err(Fault::Over) if absent => Err(Refusal::Absent),
        Err(Fault::Over) => Err(Refusal::Bound),
        Ok(_) if absent => Err(Refusal::Absent),
        Ok(n) => Ok(n),
    }
}

fn accept_of(session: &[u8], digits: &[u8]) -> Result<Reading, Refusal>
    requires { (length session.now ≡ 10) × (length digits.now ≡ 20) }
    ensures { result ≡ accept_of session.now digits.now told_by packet_of }
{
    if !text::is_spaces_then_text(session) {
        return Err(Refusal::Form);
    }
    let number = number_of(digits, text::is_blank(session))?;
    if number == 0 {
        return Err(Refusal::Absent);
    }
    Ok(Reading::Accept {
        session: names::get_name(session, 0),
        number: Sequence(number),
    })
}

fn login_of(user: &[u8], password: &[u8], session: &[u8], digits: &[u8]) -> Result<Reading, Refusal>
    requires { (length user.now ≡ 6) × (length password.now ≡ 10) × (length session.now ≡ 10) × (length digits.now ≡ 20) }
    ensures { result ≡ login_of user.now password.now session.now digits.now told_by packet_of }
{
    let padded = text::is_text_then_spaces(user)
        & text::is_text_then_spaces(password)
        & text::is_spaces_then_text(session);
    if !padded {
        return Err(Refusal::Form);
    }
    let number = number_of(digits, text::is_blank(user))?;
    Ok(Reading::Login {
        user: names::get_user(user, 0),
        password: Password(names::get_name(password, 0)),
        session: names::get_name(session, 0),
        number: Sequence(number),
    })
}

fn read_reject(d: &[u8]) -> Result<Reading, Refusal>
    ensures { result ≡ read_reject d.now told_by packet_of }
{
    line::check_sized(d, 3)?;
    reject_of(d[1])
}

fn read_accept(d: &[u8]) -> Result<Reading, Refusal>
    ensures { result ≡ read_accept d.now told_by packet_of }
{
    line::check_sized(d, 32)?;
    accept_of(&d[1..11], &d[11..31])
}

fn read_login(d: &[u8]) -> Result<Reading, Refusal>
    ensures { result ≡ read_login d.now told_by packet_of }
{
    line::check_sized(d, 48)?;
    login_of(&d[1..7], &d[7..17], &d[17..27], &d[27..47])
}

pub fn read(d: &[u8]) -> Result<Reading, Refusal>
    ensures { result ≡ read d.now told_by packet_of }
{
    if d.len() == 0 {
        return Err(Refusal::Empty);
    }
    if line::LONGEST < d.len() {
        return Err(Refusal::Overlong);
    }
    let start = 1;
    let length = line::payload_length(d);
    match d[0] {
        b'+' => read_payload(d, Reading::Debug { start, length }),
        b'A' => read_accept(d),
        b'J' => read_reject(d),
        b'S' => read_payload(d, Reading::Sequenced { start, length }),
        b'H' => read_bare(d, Reading::ServerHeartbeat),
        b'Z' => read_bare(d, Reading::EndOfSession),
        b'L' => read_login(d),
        b'U' => read_payload(d, Reading::Unsequenced { start, length }),
        b'R' => read_bare(d, Reading::ClientHeartbeat),
        b'O' => read_bare(d, Reading::Logout),
        _ => Err(Refusal::UnknownType),
    }
}
