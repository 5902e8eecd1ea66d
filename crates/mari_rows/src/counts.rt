//! Counts of lines by a number of theirs.
ghost use Rattle.std.specs.Prelude.{◌≡◌, ◌<◌, ◌+◌, true, false, length, slice_index, slice_set, nat_lt};

/// Counts one more line of a number, and says whether there was room for it.
pub fn count_one(counts: &mut [u32], number: u32, most: u32) -> bool
    requires { number < length counts.old }
    ensures room { result ≡ nat_lt (slice_index counts.old number) most }
    ensures counted { result ≡ true → counts.new ≡ slice_set counts.old number (slice_index counts.old number + 1) }
    ensures full { result ≡ false → counts.new ≡ counts.old }
{
    let count = &mut counts[number as usize];
    if *count >= most {
        return false;
    }
    *count += 1;
    true
}
