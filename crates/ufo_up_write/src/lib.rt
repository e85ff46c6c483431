// UFO, client to server: one message written as a block at the output's start. A packet of several is composed by
// ufo_compose, which keeps it within the limit.
#![tactic(auto)]

ghost use Rattle.std.specs.Prelude.{◌≡◌, [], ◌∷◌, ◌++◌, ◌≤◌, length};
ghost use Rattle.std.proofs.lemmas.List.Edits.{sets};
ghost use Rattle.wire.specs.Fields.{bytes_of};
ghost use Rattle.names.specs.Names.{name_bytes, user_bytes};
ghost use Rattle.wire.specs.Reply.{Settled, within};
ghost use Rattle.blocks.specs.Blocks.{frame};
ghost use Rattle.ufo_up.specs.Up.{login, request, unsequenced, heartbeat, logout};
ghost use Rattle.ufo_up_write.specs.WriteUp.{reply};

use ufo::down::HIGHEST;
use wire::kinds::{Name, Password, Sequence, User};
use wire::refusal::Refusal;
use wire::{fields, output};

// The most data that a packet holds.
const DATA: usize = 1469;

// The length of a block, and its message's type byte.
fn put_head(out: &mut [u8], size: u16, kind: u8)
    requires { 3 ≤ length out.old }
    ensures { out.new ≡ sets out.old 0 (bytes_of 2 size ++ (kind ∷ [])) }
{
    fields::put2(out, 0, size);
    out[2] = kind;
}

pub fn write_login(
    user: User,
    password: Password,
    session: Name,
    out: &mut [u8],
) -> Result<usize, Refusal>
    ensures { Settled (reply (login (user_bytes user) (name_bytes password.0) (name_bytes session)) (length out.old))
        out.old result out.new }
{
    if !text::is_user_then_spaces(user) {
        return Err(Refusal::Form);
    }
    if !text::is_name_then_spaces(password.0) {
        return Err(Refusal::Form);
    }
    if !text::is_name_then_spaces(session) {
        return Err(Refusal::Form);
    }
    if text::is_blank_user(user) {
        return Err(Refusal::Absent);
    }
    if out.len() < 29 {
        return Err(Refusal::Room);
    }
    put_head(out, 27, b'L');
    names::put_user(out, 3, user);
    names::put_name(out, 9, password.0);
    names::put_name(out, 19, session);
    Ok(29)
}

pub fn write_request(first: Sequence, count: u16, out: &mut [u8]) -> Result<usize, Refusal>
    ensures { Settled (reply (request first.0 count) (length out.old)) out.old result out.new }
{
    let number = first.0;
    if number == 0 {
        return Err(Refusal::Absent);
    }
    if count == 0 {
        return Err(Refusal::Absent);
    }
    if HIGHEST < number {
        return Err(Refusal::Bound);
    }
    if out.len() < 9 {
        return Err(Refusal::Room);
    }
    put_head(out, 7, b'T');
    fields::put4(out, 3, number as u32);
    fields::put2(out, 7, count);
    Ok(9)
}

pub fn write_unsequenced(data: &[u8], out: &mut [u8]) -> Result<usize, Refusal>
    ensures { Settled (reply (unsequenced «data».now) (length out.old))
        out.old result out.new }
{
    let size = data.len();
    if DATA < size {
        return Err(Refusal::Overlong);
    }
    if out.len() < 3 + size {
        return Err(Refusal::Room);
    }
    put_head(out, (1 + size) as u16, b'U');
    output::copy(out, 3, data, 0, size);
    Ok(3 + size)
}

// A message that is its type byte alone.
fn write_alone(kind: u8, out: &mut [u8]) -> Result<usize, Refusal>
    ensures { Settled (within (length out.old) (frame (kind ∷ []))) out.old result out.new }
{
    if out.len() < 3 {
        return Err(Refusal::Room);
    }
    put_head(out, 1, kind);
    Ok(3)
}

pub fn write_heartbeat(out: &mut [u8]) -> Result<usize, Refusal>
    ensures { Settled (reply heartbeat (length out.old)) out.old result out.new }
{
    write_alone(b'R', out)
}

pub fn write_logout(out: &mut [u8]) -> Result<usize, Refusal>
    ensures { Settled (reply logout (length out.old)) out.old result out.new }
{
    write_alone(b'O', out)
}
