// The policies: their numbers, their words read and written, and what each does. No other crate tells one policy from another.
#![tactic(auto)]

ghost use Rattle.std.specs.Prelude.{◌≡◌, ◌∷◌, ◌+◌, ◌≤◌, leb, length};
ghost use Rattle.rules.specs.Policies.{max_policy, policy_name, policy_of, demoting};
ghost use Rattle.puts.specs.Laid.{Laid};

use puts::put_bytes;
use words::same_bytes;

// Their numbers.
pub const EDF: u32 = 0;

pub const EDF_CF: u32 = 1;

// The last of them.
const MAX_POLICY: u32 = EDF_CF;

// Whether p is the number of a policy.
pub fn is_policy(p: u32) -> bool
    ensures { result ≡ leb p max_policy }
{
    p <= MAX_POLICY
}

// Whether jobs are demoted under a policy, and their free counts lowered.
pub fn is_demoting(policy: u32) -> bool
    ensures { result ≡ demoting policy }
{
    matches!(policy, EDF_CF)
}

// The policy that a word names, where it names one.
pub fn policy_of(s: &[u8]) -> Option<u32>
    ensures { result ≡ policy_of s.now }
{
    if same_bytes(s, b"edf") {
        return Some(EDF);
    }
    if same_bytes(s, b"edf-cf") {
        return Some(EDF_CF);
    }
    None
}

// Writes the byte `between` and the word of a policy, chosen by its number; a number that is no policy has none.
pub fn put_policy(out: &mut [u8], at: usize, between: u8, policy: u32) -> usize
    requires { at + 1 + length (policy_name policy) ≤ length out.old }
    ensures { Laid at (between ∷ policy_name policy) out.old out.new result }
{
    out[at] = between;
    match policy {
        EDF => put_bytes(out, at + 1, b"edf"),
        EDF_CF => put_bytes(out, at + 1, b"edf-cf"),
        _ => at + 1,
    }
}

// How long the word of a policy is.
pub fn policy_width(policy: u32) -> usize
    ensures { result ≡ length (policy_name policy) }
{
    match policy {
        EDF => 3,
        EDF_CF => 6,
        _ => 0,
    }
}
