//! Lines of a source.
ghost use Rattle.std.specs.Prelude.{◌≡◌, ◌+◌, ◌-◌, ◌<◌, ◌≤◌, ◌^◌, length, count_by};
ghost use Rattle.std.specs.List.{prefix_len};
ghost use Rattle.trop_text.specs.Bytes as bytes;
ghost use Rattle.trop_text.specs.Lines as spec;

/// The number of lines of a source.
pub fn line_count(source: &[u8]) -> u32
    requires { length source.now ≤ 2 ^ 31 }
    ensures count { result ≡ spec.line_count source.now }
    ensures within { result ≤ 1 + length source.now }
{
    let feeds = source.iter().filter(|b| **b == b'\n').count() as u32;
    match source.last() {
        Some(b) if *b != b'\n' => feeds + 1,
        _ => feeds,
    }
}

/// One more than the number of bytes of a line.
pub fn line_end(source: &[u8], line: u32) -> u32
    requires { length source.now ≤ 2 ^ 31 }
    ensures { result ≡ spec.end_column source.now line }
{
    let rest = past_lines(source, line.saturating_sub(1));
    1 + line_len(rest) as u32
}

/// How many bytes stand before the next line feed.
pub fn line_len(rest: &[u8]) -> usize
    ensures value { result ≡ prefix_len bytes.is_in_line rest.now }
    ensures within { result ≤ length rest.now }
{
    rest.iter().take_while(|b| **b != b'\n').count()
}

// What follows the first k line feeds.
#[tactic(auto, unfolding(crate::specs::Lines::past_lines))]
fn past_lines(source: &[u8], k: u32) -> &[u8]
    ensures rest { result.now ≡ spec.past_lines k source.now }
    ensures within { length result.now ≤ length source.now }
{
    let mut rest = source;
    let mut k = k;
    'bytes: while k > 0 {
        let Some((first, after)) = rest.split_first() else {
            return rest;
        };
        if *first == b'\n' {
            k -= 1;
        }
        rest = after;
    }
    rest
}
