ghost use Rattle.std.specs.Prelude.{◌≡◌, ◌<◌, ◌≤◌, ◌↔◌, IsSome, IsTrue, IfSome, true, length, slice_get};
ghost use Rattle.tl_types.specs.Parts.{lists_of};
ghost use Rattle.tl_types.specs.Path.{IsPath, is_component, is_component_byte, is_path, spelled};
ghost use Rattle.std.specs.List.{list_all};

use std::alloc::AllocError;
use std::cmp::Ordering;
use std::hash::{Hash, Hasher};
use std::marker::Model;

/// The greatest number of components of a path.
pub const PARTS_LIMIT: usize = 16;

/// The greatest number of bytes of a component.
pub const COMPONENT_LIMIT: usize = 255;

/// The greatest number of bytes of a path as it is spelled.
pub const SPELLING_LIMIT: usize = 1_024;

/// A path: at most 16 components, each of 1 to 255 bytes from 0x21 to 0x7E other than `/` and `"`,
/// and none `.` or `..`. As it is spelled, `/` and a component for each, or `/` alone for none, it
/// has at most 1,024 bytes. Contracts see it as the list of its components.
#[derive(Debug, Drop)]
pub struct Path {
    parts: Vec<Vec<u8>>,
}

impl Model for Path {
    ghost use Rattle.std.specs.Prelude.{ℕ, List};
    ghost use Rattle.tl_types.specs.Parts.{lists_of};
    ghost use Rattle.tl_types.specs.Path.{IsPath};

    ghost Value = { List (List ℕ) };

    ghost view = { λ p. lists_of p.parts.items };

    ghost invariant = { λ p. IsPath (lists_of p.parts.items) };
}

impl Path {
    /// The path of these components; `None` where they make none.
    pub fn new(parts: Vec<Vec<u8>>) -> Option<Path>
        ensures valid { IsSome result ↔ IsPath (lists_of parts.items) }
        ensures value { IfSome result (λ p. p ≡ lists_of parts.items) }
    {
        if is_path(&parts) {
            Some(Path { parts })
        } else {
            None
        }
    }

    /// The number of components.
    pub fn len(&self) -> usize
        ensures value { result ≡ length self.now }
        ensures path { IsPath self.now }
    {
        self.parts.len()
    }

    /// Whether this is the empty path, `/`.
    pub fn is_empty(&self) -> bool
        ensures { IsTrue result ↔ (length self.now ≡ 0) }
    {
        self.parts.is_empty()
    }

    /// The component at `i`, counted from 0.
    pub fn part(&self, i: usize) -> &[u8]
        requires { i < length self.now }
        ensures { slice_get self.now i ≡ Some result.now }
    {
        self.parts[i].as_slice()
    }
}

impl PartialEq for Path {
    ghost use Rattle.std.specs.Cmp.{partial_equiv_from_equiv};
    ghost use Rattle.tl_types.specs.Same.{path_same, path_same-equiv};

    ghost eq = { path_same };

    ghost laws = { partial_equiv_from_equiv path_same-equiv };

    fn eq(&self, other: &Path) -> bool {
        self.parts == other.parts
    }
}

impl Eq for Path {
    ghost use Rattle.tl_types.specs.Same.{path_same-equiv};

    ghost laws = { path_same-equiv };
}

impl PartialOrd for Path {
    ghost use Rattle.std.specs.Prelude.{refl};
    ghost use Rattle.std.specs.Ordering.{as_partial_cmp};
    ghost use Rattle.std.specs.Cmp.{partial_order_from_agreeing_total};
    ghost use Rattle.tl_types.specs.Same.{path_cmp, path_cmp-total, path_ties};

    ghost partial_cmp = { as_partial_cmp path_cmp };

    ghost laws = { partial_order_from_agreeing_total path_cmp path_cmp-total (λ _ _. refl) path_ties };

    fn partial_cmp(&self, other: &Path) -> Option<Ordering> {
        Some(self.cmp(other))
    }
}

impl Ord for Path {
    ghost use Rattle.std.specs.Prelude.{refl};
    ghost use Rattle.tl_types.specs.Same.{path_cmp, path_cmp-total, path_ties};

    ghost cmp = { path_cmp };

    ghost total = { path_cmp-total };

    ghost matches_partial_cmp = { λ _ _. refl };

    ghost matches_eq = { path_ties };

    fn cmp(&self, other: &Path) -> Ordering {
        self.parts.cmp(&other.parts)
    }
}

impl Hash for Path {
    ghost use Rattle.std.specs.Hash as fed;
    ghost use Rattle.std.proofs.Common.{ap};
    ghost use Rattle.tl_types.specs.Same.{path_same-Decides};

    ghost hash_input = { fed.slice (fed.slice fed.u8) };

    ghost respects_eq = { λ x y same. ap (fed.slice (fed.slice fed.u8)) ((path_same-Decides x y).0 same) };

    fn hash<H: Hasher>(&self, state: &mut H) {
        self.parts.hash(state);
    }
}

impl Clone for Path {
    ghost use Rattle.std.specs.Prelude.{◌≡◌};

    ghost is_clone = { λ path copy. copy ≡ path };

    fn clone(&self) -> Result<Path, AllocError> {
        Ok(Path {
            parts: self.parts.clone()?,
        })
    }
}

/// Whether `part` may stand in a path.
#[tactic(auto, using(std::proofs::lemmas::Bool::Decides::nat_tests))]
pub fn is_component(part: &[u8]) -> bool
    ensures { result ≡ is_component part.now }
{
    if part.is_empty() || part.len() > COMPONENT_LIMIT {
        return false;
    }
    if !has_component_bytes(part) {
        return false;
    }
    part != b".".as_slice() && part != b"..".as_slice()
}

// Whether each byte may stand in a component.
fn has_component_bytes(part: &[u8]) -> bool
    ensures { result ≡ list_all is_component_byte part.now }
{
    part.iter().all(|byte| is_component_byte(*byte))
}

// Whether `byte` may stand in a component.
fn is_component_byte(byte: u8) -> bool
    ensures { result ≡ is_component_byte byte }
{
    0x21 <= byte && byte <= 0x7e && byte != b'/' && byte != b'"'
}

// Whether these components make a path.
#[tactic(auto, using(std::proofs::lemmas::Bool::Decides::nat_tests))]
fn is_path(parts: &[Vec<u8>]) -> bool
    ensures { result ≡ is_path (lists_of parts.now) }
{
    if parts.len() > PARTS_LIMIT {
        return false;
    }
    if !has_components(parts) {
        return false;
    }
    spelling_len(parts) <= SPELLING_LIMIT
}

// Whether each part may stand in a path.
fn has_components(parts: &[Vec<u8>]) -> bool
    ensures { result ≡ list_all (λ part. is_component part.items) parts.now }
{
    parts.iter().all(|part| is_component(part.as_slice()))
}

// The number of bytes of the spelling.
fn spelling_len(parts: &[Vec<u8>]) -> usize
    requires few { length parts.now ≤ 16 }
    requires components { list_all (λ part. is_component part.items) parts.now ≡ true }
    ensures { result ≡ length (spelled (lists_of parts.now)) }
{
    let mut len = 0;
    for part in parts {
        len += 1 + part.len();
    }
    len.max(1)
}
