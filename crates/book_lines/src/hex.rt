// Bytes in a text, as hexadecimal digits in capitals.
ghost use Rattle.std.specs.Prelude.{◌≡◌, ◌<◌, IfSome, length, take};
ghost use Rattle.book_lines.specs.Hex as Hex;

#[tactic(auto, unfolding(crate::specs::Hex::digit))]
fn digit(b: u8) -> Option<u8>
    ensures value { result ≡ Hex.digit b }
    ensures bound { IfSome result (λ d. d < 16) }
{
    match b {
        b'0'..=b'9' => Some(b - b'0'),
        b'A'..=b'F' => Some(b - b'A' + 10),
        _ => None,
    }
}

// Puts the bytes that the text spells at the start of out, and answers how many there are.
pub(crate) fn decode(text: &[u8], out: &mut [u8]) -> usize
    ensures counts { Hex.Counts result out.new }
    ensures out_after { take result out.new ≡ Hex.within (length out.old) text.now }
{
    if out.len() < text.len() {
        return 0;
    }
    let mut count = 0;
    let mut waits = None;
    for b in text {
        match (waits, digit(*b)) {
            (_, None) => {}
            (None, Some(low)) => waits = Some(low),
            (Some(high), Some(low)) => {
                out[count] = high * 16 + low;
                count += 1;
                waits = None;
            }
        }
    }
    count
}
