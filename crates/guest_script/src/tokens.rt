// Words with their places.
ghost use Rattle.std.specs.Prelude.{◌≡◌, ◌≤◌, length, MatchOption, None, Some, slice_range, drop};
ghost use Rattle.std.specs.List.{prefix_len};
ghost use Rattle.guest_script.specs.Tokens.{is_space, is_of_word, next_span};

/// A word of a text, with its place.
#[derive(Clone, Copy, Debug, PartialEq, Eq)]
pub struct Token<'a> {
    /// Its bytes.
    pub text: &'a [u8],
    /// Where it begins, counted in bytes from 0.
    pub start: usize,
    /// Where the next byte stands.
    pub end: usize,
}

fn spaces(bytes: &[u8]) -> usize
    ensures value { result ≡ prefix_len is_space bytes.now }
    ensures within { result ≤ length bytes.now }
{
    for (at, byte) in bytes.iter().enumerate() {
        if *byte != b' ' {
            return at;
        }
    }
    bytes.len()
}

fn word_bytes(bytes: &[u8]) -> usize
    ensures value { result ≡ prefix_len is_of_word bytes.now }
    ensures within { result ≤ length bytes.now }
{
    for (at, byte) in bytes.iter().enumerate() {
        if *byte == b' ' || *byte == b'\n' {
            return at;
        }
    }
    bytes.len()
}

/// The first word of a text from a place on: the longest run of bytes that are neither space nor line feed, behind
/// nothing but spaces. None comes exactly where the line, or the text, ends before there is one. What a word is, is
/// this project's own.
#[tactic(auto, unfolding(crate::specs::Tokens::next_span))]
pub fn next_token(bytes: &[u8], from: usize) -> Option<Token<'_>>
    requires { from ≤ length bytes.now }
    ensures { MatchOption result (next_span bytes.now from ≡ None) (λ token. (next_span bytes.now from ≡ Some (token.start, token.end)) × (token.text.now ≡ slice_range bytes.now token.start token.end)) }
{
    let start = from + spaces(&bytes[from..]);
    let end = start + word_bytes(&bytes[start..]);
    if start == end {
        return None;
    }
    Some(Token {
        text: &bytes[start..end],
        start,
        end,
    })
}
