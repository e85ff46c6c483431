// What every writer answers: the refusal, or how many bytes it wrote.
ghost use Rattle.std.specs.Prelude.{◌≡◌};
ghost use Rattle.flat.specs.Wrote.{wrote_by};

use wire::told::Tells;

#[repr(C)]
#[derive(Clone, Copy)]
pub struct Wrote {
    pub refusal: u64,
    pub bytes: u64,
}

pub fn wrote_of<W: Tells>(written: Result<usize, W>) -> Wrote
    ensures { result ≡ wrote_by W.told written }
{
    match written {
        Err(why) => Wrote {
            refusal: why.told() as u64,
            bytes: 0,
        },
        Ok(bytes) => Wrote {
            refusal: 0,
            bytes: bytes as u64,
        },
    }
}
