//! The header of a journal, read.

ghost use Rattle.std.specs.Prelude.{◌≡◌, ◌≢◌, ◌++◌, ℕ, List, codes, IfSome, IfNone};
ghost use Rattle.tl_model.specs.declared.header.Header.{Header};
ghost use Rattle.tl_model.specs.declared.header.Version.{Version};
ghost use Rattle.tl_script.specs.Script.{IsHeader};
ghost use Rattle.tl_spelling.specs.Journals.{header_text, version_word};

use tl_model::{Header, Version};
use tl_script::{CAPACITY_LIMIT, HOT_LIMIT, WORKER_LIMIT, after, number_after, order_said};

// The version whose words the text begins with, and what stands behind them.
fn version_said(text: &[u8]) -> Option<(Version, &[u8])>
    ensures found { IfSome result (λ r.
        text.now ≡ codes "journal " ++ (version_word r.0 ++ r.1.now)) }
    ensures none { IfNone result ((version : Version) (rest : List ℕ)
        → text.now ≢ codes "journal " ++ (version_word version ++ rest)) }
{
    if let Some(rest) = after(text, b"journal 1") {
        return Some((Version::One, rest));
    }
    let rest = after(text, b"journal 2")?;
    Some((Version::Two, rest))
}

/// The header that the line says, as the first of a journal.
pub fn header_said(line: &[u8]) -> Option<Header>
    ensures found { IfSome result (λ h. IsHeader h × (line.now ≡ header_text h)) }
    ensures none { IfNone result ((h : Header) → IsHeader h → line.now ≢ header_text h) }
{
    let (version, rest) = version_said(line)?;
    let (workers, rest) = number_after(rest, b" workers ", WORKER_LIMIT)?;
    let (capacity, rest) = number_after(rest, b" capacity ", CAPACITY_LIMIT)?;
    let (hot, rest) = number_after(rest, b" hot ", HOT_LIMIT)?;
    let order = order_said(rest, version)?;
    Some(Header {
        workers: workers as u8,
        capacity,
        hot: hot as u32,
        order,
        version,
    })
}
