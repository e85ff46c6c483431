// Where a text is cut.
ghost use Rattle.std.specs.Option.{unwrap_or};
ghost use Rattle.std.specs.Prelude.{◌≡◌, ◌==◌, ◌<◌, IfSome, length, take, drop, position};

// The first place where a byte stands, if it stands anywhere.
fn place(text: &[u8], b: u8) -> Option<usize>
    ensures bound { IfSome result (λ i. i < length text.now) }
    ensures first { result ≡ position (λ c. c == b) text.now }
{
    text.iter().position(|c| *c == b)
}

// What stands in front of the first byte of a text that ends it, and the text from there on: nothing, if no byte ends it.
pub fn cut(text: &[u8], ends: u8) -> (&[u8], &[u8])
    ensures { let place = unwrap_or (position (λ b. b == ends) text.now) (length text.now) in
        (result.0.now ≡ take place text.now) × (result.1.now ≡ drop place text.now) }
{
    text.split_at(place(text, ends).unwrap_or(text.len()))
}
