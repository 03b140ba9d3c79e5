// A part of a descriptor, stored in the output.
ghost use Rattle.std.specs.Prelude.{◌≡◌, length, ◌+◌, ◌≤◌};
ghost use Rattle.std.proofs.lemmas.List.Edits.{sets};

// Stores a part from index `at` on.
#[tactic(auto, using(lists::proofs::Copies::copied))]
pub(crate) fn put(part: &[u8], at: usize, out: &mut [u8])
    requires { at + length part.now ≤ length out.old }
    ensures { out.new ≡ sets out.old at part.now }
{
    out[at..at + part.len()].copy_from_slice(part);
}
