// A packet and a body that don't go together.
ghost use Rattle.std.specs.Prelude.{◌≡◌, ◌+◌, length};
ghost use Rattle.wire.specs.Checks.{◌told_by◌};
ghost use Rattle.flat_packet.specs.Fitting.{unfit_by};

use wire::told::Tells;

// The packet has `size` bytes without the body.
pub fn unfit<W: Tells>(limit: usize, size: usize, body: &[u8], why: W) -> Result<usize, W>
    ensures { result ≡ unfit_by W.overlong limit (size + length body.now) why told_by length }
{
    if limit < size || limit - size < body.len() {
        return Err(W::overlong());
    }
    Err(why)
}
