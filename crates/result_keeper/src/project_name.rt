// Names of projects.
ghost use Rattle.std.specs.Prelude.{◌≡◌, ◌≤◌, ◌-◌, ◌++◌, true, length, replicate, is_some, IfSome};
ghost use Rattle.std.specs.List.{list_all};
ghost use Rattle.result_keeper.specs.ProjectName.{is_project_start, is_project_byte, is_project_name};

use std::cmp::Ordering;
use std::marker::Model;

const ROOM: usize = 32;

/// The name of a project: 1 to 32 small letters, digits, `-` or `_`, the first a small letter or a
/// digit. Contracts see its text, and names are in the order of their bytes.
#[derive(Clone, Copy, Debug)]
pub struct ProjectName {
    buf: [u8; ROOM],
    len: usize,
}

impl Model for ProjectName {
    ghost use Rattle.std.specs.Prelude.{◌≡◌, ◌≤◌, ◌-◌, ℕ, List, ◌++◌, take, drop, length, replicate, true};
    ghost use Rattle.std.proofs.Common.{refl};
    ghost use Rattle.result_keeper.specs.ProjectName.{is_project_name, padded};

    ghost Value = { List ℕ };

    ghost view = { λ n. take n.len n.buf };

    ghost invariant = { λ n. (n.len ≤ 32) × (length (take n.len n.buf) ≡ n.len) × (is_project_name (take n.len n.buf) ≡ true) × (drop n.len n.buf ≡ replicate (32 - n.len) 0) };

    ghost inverse = { λ text. record { buf = text ++ replicate (32 - length text) 0; len = length text } };

    ghost inverse_ok = { λ n h. rw (padded n.buf n.len h.1 h.3, h.1) refl };
}

impl PartialEq for ProjectName {
    ghost use Rattle.std.specs.Cmp.{partial_equiv_from_equiv, eq_by_cmp_equiv};
    ghost use Rattle.std.specs.Cmp.Lexicographic.{nat_list_cmp_total};
    ghost use Rattle.std.specs.Ordering.{eq_by_cmp};
    ghost use Rattle.result_keeper.specs.Kept.{bytes_cmp};

    ghost eq = { eq_by_cmp bytes_cmp };

    ghost laws = { partial_equiv_from_equiv (eq_by_cmp_equiv nat_list_cmp_total) };

    fn eq(&self, other: &ProjectName) -> bool {
        self.cmp(other) == Ordering::Equal
    }
}

impl Eq for ProjectName {
    ghost use Rattle.std.specs.Cmp.{eq_by_cmp_equiv};
    ghost use Rattle.std.specs.Cmp.Lexicographic.{nat_list_cmp_total};

    ghost laws = { eq_by_cmp_equiv nat_list_cmp_total };
}

impl PartialOrd for ProjectName {
    ghost use Rattle.std.specs.Cmp.{partial_order_from_total};
    ghost use Rattle.std.specs.Cmp.Lexicographic.{nat_list_cmp_total};
    ghost use Rattle.std.specs.Ordering.{as_partial_cmp};
    ghost use Rattle.result_keeper.specs.Kept.{bytes_cmp};

    ghost partial_cmp = { as_partial_cmp bytes_cmp };

    ghost laws = { partial_order_from_total nat_list_cmp_total };

    fn partial_cmp(&self, other: &ProjectName) -> Option<Ordering> {
        Some(self.cmp(other))
    }
}

impl Ord for ProjectName {
    ghost use Rattle.std.proofs.Common.{refl};
    ghost use Rattle.std.specs.Cmp.Lexicographic.{nat_list_cmp_total};
    ghost use Rattle.result_keeper.specs.Kept.{bytes_cmp};

    ghost cmp = { bytes_cmp };

    ghost total = { nat_list_cmp_total };

    ghost matches_partial_cmp = { λ _ _. refl };

    ghost matches_eq = { λ _ _. refl };

    fn cmp(&self, other: &ProjectName) -> Ordering {
        self.bytes().cmp(other.bytes())
    }
}

impl ProjectName {
    /// The name with this text: `None` exactly where the text is no name of a project.
    pub fn new(text: &[u8]) -> Option<ProjectName>
        ensures some { IfSome result (λ n. n ≡ text.now) }
        ensures variant { is_some result ≡ is_project_name text.now }
    {
        if !is_project_name(text) {
            return None;
        }
        Some(ProjectName {
            buf: padded(text),
            len: text.len(),
        })
    }

    /// The text: that of a project's name.
    pub fn bytes(&self) -> &[u8]
        ensures text { result.now ≡ self.now }
        ensures name { is_project_name result.now ≡ true }
    {
        &self.buf[..self.len]
    }
}

fn is_project_start(byte: u8) -> bool
    ensures { result ≡ is_project_start byte }
{
    byte.is_ascii_lowercase() || byte.is_ascii_digit()
}

fn is_project_byte(byte: u8) -> bool
    ensures { result ≡ is_project_byte byte }
{
    is_project_start(byte) || byte == b'-' || byte == b'_'
}

fn are_project_bytes(bytes: &[u8]) -> bool
    ensures { result ≡ list_all is_project_byte bytes.now }
{
    bytes.iter().all(|byte| is_project_byte(*byte))
}

fn is_project_name(text: &[u8]) -> bool
    ensures { result ≡ is_project_name text.now }
{
    match text {
        [] => false,
        [first, rest @ ..] => {
            is_project_start(*first) && are_project_bytes(rest) && rest.len() < ROOM
        }
    }
}

// The text with zeros behind it.
fn padded(text: &[u8]) -> [u8; ROOM]
    requires { length text.now ≤ 32 }
    ensures { result ≡ text.now ++ replicate (32 - length text.now) 0 }
{
    let mut buf = [0; ROOM];
    buf[..text.len()].copy_from_slice(text);
    buf
}
