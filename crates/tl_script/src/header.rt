//! The header of a script.

ghost use Rattle.std.specs.Prelude.{◌≡◌, ◌≢◌, ◌++◌, ◌≤◌, ℕ, List, decimal, IfSome, IfNone};
ghost use Rattle.tl_text.specs.Number.{BeginsWithNoDigit};
ghost use Rattle.tl_model.specs.declared.header.Header.{Header};
ghost use Rattle.tl_model.specs.declared.header.OrderRule.{OrderRule};
ghost use Rattle.tl_model.specs.declared.header.Version.{Version};
ghost use Rattle.tl_script.specs.Script.{IsHeader, header_text, version_text, order_text};

use tl_model::{Header, OrderRule, Version};
use tl_text::read_number;

/// The greatest number of workers.
pub const WORKER_LIMIT: u64 = 8;

/// The greatest capacity of a worker, in bytes.
pub const CAPACITY_LIMIT: u64 = 268_435_456;

/// The greatest number of reads that a header may ask of a hot file.
pub const HOT_LIMIT: u64 = 4_294_967_295;

/// What follows `prefix`, where the text begins with it.
pub fn after<'a>(text: &'a [u8], prefix: &[u8]) -> Option<&'a [u8]>
    ensures found { IfSome result (λ rest. text.now ≡ prefix.now ++ rest.now) }
    ensures none { IfNone result ((rest : List ℕ) → text.now ≢ prefix.now ++ rest) }
{
    text.strip_prefix(prefix)
}

/// What stands behind the words and a number from 1 to the limit, and the number.
pub fn number_after<'a>(text: &'a [u8], words: &[u8], limit: u64) -> Option<(u64, &'a [u8])>
    ensures found { IfSome result (λ r. text.now ≡ words.now ++ (decimal r.0 ++ r.1.now)) }
    ensures within { IfSome result (λ r. (1 ≤ r.0) × (r.0 ≤ limit)) }
    ensures ended { IfSome result (λ r. BeginsWithNoDigit r.1.now) }
    ensures none { IfNone result ((n : ℕ) (rest : List ℕ) → 1 ≤ n → n ≤ limit → BeginsWithNoDigit rest → text.now ≢ words.now ++ (decimal n ++ rest)) }
{
    let numeral = after(text, words)?;
    let Ok((number, end)) = read_number(numeral, 0) else {
        return None;
    };
    if number < 1 {
        return None;
    }
    if limit < number {
        return None;
    }
    let (_, rest) = numeral.split_at(end);
    Some((number, rest))
}

// The words before the numbers.
fn version_text(version: Version) -> &'static [u8]
    ensures { result.now ≡ version_text version }
{
    match version {
        Version::One => b"tachyon 1",
        Version::Two => b"tachyon 2",
    }
}

// The version whose words the text begins with, and what stands behind them.
fn version_said(text: &[u8]) -> Option<(Version, &[u8])>
    ensures found { IfSome result (λ r. text.now ≡ version_text r.0 ++ r.1.now) }
    ensures none { IfNone result ((version : Version) (rest : List ℕ)
        → text.now ≢ version_text version ++ rest) }
{
    if let Some(rest) = after(text, version_text(Version::One)) {
        return Some((Version::One, rest));
    }
    let rest = after(text, version_text(Version::Two))?;
    Some((Version::Two, rest))
}

/// The words behind the numbers of a header.
pub fn order_text(version: Version, order: OrderRule) -> &'static [u8]
    ensures { result.now ≡ order_text version order }
{
    match (version, order) {
        (Version::One, OrderRule::Strict) => b"",
        (Version::One, OrderRule::Shares) => b" shares",
        (Version::Two, OrderRule::Strict) => b" order strict",
        (Version::Two, OrderRule::Shares) => b" order shares",
    }
}

/// The order whose words the text is, in this version.
pub fn order_said(text: &[u8], version: Version) -> Option<OrderRule>
    ensures found { IfSome result (λ order. text.now ≡ order_text version order) }
    ensures none { IfNone result ((order : OrderRule) → text.now ≢ order_text version order) }
{
    if text == order_text(version, OrderRule::Strict) {
        return Some(OrderRule::Strict);
    }
    if text == order_text(version, OrderRule::Shares) {
        return Some(OrderRule::Shares);
    }
    None
}

/// The header that the line says.
pub(crate) fn header_said(line: &[u8]) -> Option<Header>
    ensures found { IfSome result (λ h. IsHeader h × (line.now ≡ header_text h)) }
    ensures none { IfNone result ((h : Header) → IsHeader h → line.now ≢ header_text h) }
{
    let (version, rest) = version_said(line)?;
    let (workers, rest) = number_after(rest, b" workers ", WORKER_LIMIT)?;
    let (capacity, rest) = number_after(rest, b" capacity ", CAPACITY_LIMIT)?;
    let (hot, rest) = number_after(rest, b" hot ", HOT_LIMIT)?;
    let order = order_said(rest, version)?;
    Some(Header {
        workers: workers as u8,
        capacity,
        hot: hot as u32,
        order,
        version,
    })
}
