//! The parts of a line.

ghost use Rattle.std.specs.Prelude.{◌≡◌, ◌<◌, ◌≤◌, ℕ, true, false, option_map, slice_index, length, take};
ghost use Rattle.pd_log.specs.Parts.{is_gap, next, parts};

/// Whether a byte stands between parts.
fn is_gap(byte: u8) -> bool
    ensures { result ≡ is_gap byte }
{
    byte == b' ' || byte == b',' || byte == b'\t' || byte == b'\r'
}

fn without_gaps(line: &[u8]) -> &[u8]
    ensures same { parts result.now ≡ parts line.now }
    ensures front { 0 < length result.now → is_gap (slice_index result.now 0) ≡ false }
{
    let mut rest = line;
    while let [byte, others @ ..] = rest {
        if !is_gap(*byte) {
            return rest;
        }
        rest = others;
    }
    rest
}

/// How many bytes stand before the first gap.
fn part_len(line: &[u8]) -> usize
    ensures within { result ≤ length line.now }
    ensures before { (k : ℕ) → k < result → is_gap (slice_index line.now k) ≡ false }
    ensures found { result < length line.now → is_gap (slice_index line.now result) ≡ true }
{
    for (i, byte) in line.iter().enumerate() {
        if is_gap(*byte) {
            return i;
        }
    }
    line.len()
}

/// So many bytes at the front, or all where there are fewer.
#[tactic(auto, using(std::proofs::lemmas::List::take_all))]
pub(crate) fn front(count: usize, bytes: &[u8]) -> &[u8]
    ensures { result.now ≡ take count bytes.now }
{
    if bytes.len() < count {
        return bytes;
    }
    bytes.split_at(count).0
}

/// The first part of a line, and what stands after it; `None` where no part is left.
pub(crate) fn next(line: &[u8]) -> Option<(&[u8], &[u8])>
    ensures { option_map (λ x. (x.0.now, parts x.1.now)) result ≡ next (parts line.now) }
{
    let rest = without_gaps(line);
    if rest.is_empty() {
        return None;
    }
    Some(rest.split_at(part_len(rest)))
}
