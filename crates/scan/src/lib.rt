// Lines, fields and numbers of a text: where they end, and what digits are worth.
#![tactic(auto)]

ghost use Rattle.std.specs.Prelude.{◌≡◌, ◌&&◌, ◌+◌, ◌-◌, ◌≤◌, eqb, ltb, length, get_or, drop};
ghost use Rattle.rules.specs.Text.{newline_byte, return_byte, up_to, line_of, field_of, after_field, number_in};

// The index of the first b of s from `from` on, or s's length where there is none. Two bytes a turn: such searches are most of what the
// reader does.
pub fn seek(s: &[u8], from: usize, b: u8) -> usize
    requires { from ≤ length s.now }
    ensures { result ≡ from + length (up_to b (drop from s.now)) }
{
    let mut i = from;
    while i + 1 < s.len() {
        if s[i] == b {
            return i;
        }
        if s[i + 1] == b {
            return i + 1;
        }
        i += 2;
    }
    if i < s.len() && s[i] != b {
        return i + 1;
    }
    i
}

// Where the line that starts at `from` ends: at its newline, or at the end of s where it has none. The next line starts behind the newline.
pub fn line_end(s: &[u8], from: usize) -> usize
    requires { from ≤ length s.now }
    ensures { result ≡ from + length (up_to newline_byte (drop from s.now)) }
{
    seek(s, from, b'\n')
}

// Whether a return of the line from `from` to `end` stands right before its newline: where the text stops there is none.
fn is_returned(s: &[u8], from: usize, end: usize) -> bool
    ensures { result ≡ (ltb end (length s.now) && ltb from end && eqb (get_or s.now (end - 1) 0) return_byte) }
{
    end < s.len() && from < end && s[end - 1] == b'\r'
}

// The line that starts at the first unread byte and ends at `end`, a part of the caller's text, up to one return right before its newline.
pub fn line(s: &[u8], from: usize, end: usize) -> &[u8]
    requires from_in_bounds { from ≤ length s.now }
    requires end_value { end ≡ from + length (up_to newline_byte (drop from s.now)) }
    ensures { result.now ≡ line_of (drop from s.now) }
{
    if is_returned(s, from, end) {
        return &s[from..end - 1];
    }
    &s[from..end]
}

// The first field of s: its bytes up to the first tab.
pub fn field(s: &[u8]) -> &[u8]
    ensures { result.now ≡ field_of s.now }
{
    let e = seek(s, 0, b'\t');
    &s[0..e]
}

// What follows the tab behind the first field of s, which has e bytes; nothing where there is no tab.
pub fn after_field(s: &[u8], e: usize) -> &[u8]
    requires { e ≡ length (field_of s.now) }
    ensures { result.now ≡ after_field s.now }
{
    if e < s.len() { &s[e + 1..] } else { &s[e..] }
}

// The number that the whole of s is: 1 to 9 digits with no leading zero, or 0 itself.
pub fn number(s: &[u8]) -> Option<u32>
    ensures { result ≡ number_in s.now }
{
    let n = s.len();
    if n == 0 || 9 < n {
        return None;
    }
    if 1 < n && s[0] == b'0' {
        return None;
    }
    let mut v: u32 = 0;
    for &b in s {
        if b < b'0' || b'9' < b {
            return None;
        }
        v = v * 10 + u32::from(b - b'0');
    }
    Some(v)
}
