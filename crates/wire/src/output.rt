// Lent output: copying into a place of it.
ghost use Rattle.std.specs.Prelude.{◌≡◌, ◌+◌, ◌≤◌, length, take, drop};
ghost use Rattle.std.proofs.lemmas.List.Edits.{sets};

// Copies len bytes of src, from its place `from` on, into out at its place `at`.
pub fn copy(out: &mut [u8], at: usize, src: &[u8], from: usize, len: usize)
    requires { (at + len ≤ length out.old) × (from + len ≤ length src.now) }
    ensures { out.new ≡ sets out.old at (take len (drop from src.now)) }
{
    out[at..at + len].copy_from_slice(&src[from..from + len]);
}
