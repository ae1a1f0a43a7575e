// Words copied between borrowed slices.
#![tactic(auto)]

ghost use Rattle.std.specs.Prelude.{◌≡◌, ◌+◌, ◌≤◌, length};
ghost use Rattle.std.proofs.Math.Seq.{paste};

// Copies a into a borrowed list, from an offset on; all else is as it was. A loop, since `copy_from_slice` calls memmove: a
// host without memmove can link the archive, which needs memcpy and memset alone.
pub fn copy_to(a: &[u64], list: &mut [u64], at: usize)
    requires { at + length a.now ≤ length list.old }
    ensures { list.new ≡ paste list.old at a.now (length a.now) }
{
    for i in 0..a.len() {
        list[at + i] = a[i];
    }
}
