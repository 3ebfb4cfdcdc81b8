//! The reply of a call, read up to the space behind it.

ghost use Rattle.std.specs.Prelude.{◌≡◌, ◌≢◌, ◌<◌, ◌^◌, ◌∷◌, ◌++◌, ℕ, Bool, List, codes, decimal, if◌then◌else◌, length, IfSome, IfNone, IfOk, IfErr};
ghost use Rattle.std.specs.List.{AllByRecursion};
ghost use Rattle.tl_types.specs.Path.{IsComponent};
ghost use Rattle.tl_model.specs.declared.reply.Entry.{Entry};
ghost use Rattle.tl_model.specs.declared.reply.Reply.{Reply};
ghost use Rattle.tl_model.specs.declared.reply.Reply.TheVariants.{Stated};
ghost use Rattle.tl_model.specs.declared.reply.Status.{Status};
ghost use Rattle.tl_report.specs.Words.{entry_word, reply_words};
ghost use Rattle.tl_spelling.specs.Shown.{IsEntry, IsReply};
ghost use Rattle.tl_reading.specs.Replies.{behind, listed, pin_text, saying_of, status_and};
ghost use Rattle.tl_reading.specs.Stops.{StopsFor};

use crate::saying::{Saying, saying_of};
use crate::stop::Stop;
use crate::token::{count_before, file_before, record_before};
use std::alloc::Global;
use tl_model::{Entry, Reply, Status};
use tl_script::{after, front_of, token_of};
use tl_types::{Items, is_component};

// What the word is before a slash at its end.
fn before_slash(word: &[u8]) -> Option<&[u8]>
    ensures found { IfSome result (λ front. word.now ≡ front.now ++ codes "/") }
    ensures none { IfNone result ((front : List ℕ) → word.now ≢ front ++ codes "/") }
{
    let (last, front) = word.split_last()?;
    if *last != b'/' {
        return None;
    }
    Some(front)
}

// The name in a directory that the word is, and whether a directory has it.
fn name_of(word: &[u8]) -> Option<(&[u8], bool)>
    ensures within { IfSome result (λ r. IsComponent r.0.now) }
    ensures found { IfSome result (λ r. word.now
        ≡ r.0.now ++ (if r.1 then codes "/" else codes "")) }
    ensures none { IfNone result ((entry : Entry) → IsEntry entry → word.now ≢ entry_word entry) }
{
    if let Some(name) = before_slash(word) {
        if !is_component(name) {
            return None;
        }
        return Some((name, true));
    }
    if !is_component(word) {
        return None;
    }
    Some((word, false))
}

// The name in a directory that stands before a space, and what stands behind that.
fn entry_before(alloc: Global, text: &[u8]) -> Result<(Entry, &[u8]), Stop>
    ensures within { IfOk result (λ r. IsEntry r.0) }
    ensures found { IfOk result (λ r. text.now ≡ entry_word r.0 ++ 0x20 ∷ r.1.now) }
    ensures none { IfErr result (StopsFor ((entry : Entry) (rest : List ℕ) → IsEntry entry
        → text.now ≢ entry_word entry ++ 0x20 ∷ rest)) }
{
    let (word, rest) = token_of(text);
    let Some(rest) = front_of(rest) else {
        return Err(Stop::Unread);
    };
    let Some((name, dir)) = name_of(word) else {
        return Err(Stop::Unread);
    };
    let name = Items::from_vec(Vec::from_slice(alloc, name)?);
    Ok((Entry { name, dir }, rest))
}

// So many names, a space behind each, and what stands behind them.
fn listed(alloc: Global, count: u64, text: &[u8]) -> Result<(Vec<Entry>, &[u8]), Stop>
    ensures many { IfOk result (λ r. length r.0.items ≡ count) }
    ensures within { IfOk result (λ r. AllByRecursion IsEntry r.0.items) }
    ensures found { IfOk result (λ r. text.now ≡ listed r.0.items r.1.now) }
    ensures none { IfErr result (StopsFor ((entries : List Entry) (rest : List ℕ)
        → length entries ≡ count → AllByRecursion IsEntry entries
        → text.now ≢ listed entries rest)) }
{
    let mut entries = Vec::new(alloc);
    let mut rest = text;
    'entries: while (entries.len() as u64) < count {
        let (entry, later) = entry_before(alloc, rest)?;
        entries.push(entry)?;
        rest = later;
    }
    Ok((entries, rest))
}

// How many names there are, the names, and what stands behind the space after them.
fn entries_before(alloc: Global, text: &[u8]) -> Result<(Vec<Entry>, &[u8]), Stop>
    ensures within { IfOk result (λ r. AllByRecursion IsEntry r.0.items) }
    ensures few { IfOk result (λ r. length r.0.items < 2 ^ 64) }
    ensures found { IfOk result (λ r. text.now
        ≡ decimal (length r.0.items) ++ 0x20 ∷ listed r.0.items r.1.now) }
    ensures none { IfErr result (StopsFor ((entries : List Entry) (rest : List ℕ)
        → AllByRecursion IsEntry entries → length entries < 2 ^ 64
        → text.now ≢ decimal (length entries) ++ 0x20 ∷ listed entries rest)) }
{
    let Some((count, rest)) = count_before(text) else {
        return Err(Stop::Unread);
    };
    listed(alloc, count, rest)
}

// Whether a file is pinned, and what stands behind the space after the word for it.
fn pin_before(text: &[u8]) -> Option<(bool, &[u8])>
    ensures found { IfSome result (λ r. text.now ≡ pin_text r.0 ++ 0x20 ∷ r.1.now) }
    ensures none { IfNone result ((pinned : Bool) (rest : List ℕ)
        → text.now ≢ pin_text pinned ++ 0x20 ∷ rest) }
{
    if let Some(rest) = after(text, b"pinned ") {
        return Some((true, rest));
    }
    let rest = after(text, b"loose ")?;
    Some((false, rest))
}

// A file and whether it is pinned, and what stands behind the space after that.
fn pinned_before(text: &[u8]) -> Option<(Status, &[u8])>
    ensures within { IfSome result (λ r. IsReply (Stated r.0)) }
    ensures found { IfSome result (λ r. codes "file " ++ text.now ≡ status_and r.0 r.1.now) }
    ensures none { IfNone result ((status : Status) (rest : List ℕ) → IsReply (Stated status)
        → codes "file " ++ text.now ≢ status_and status rest) }
{
    let (file, rest) = file_before(text)?;
    let (pinned, rest) = pin_before(rest)?;
    Some((Status::File { file, pinned }, rest))
}

// What a path names, and what stands behind the space after that.
fn status_before(text: &[u8]) -> Option<(Status, &[u8])>
    ensures within { IfSome result (λ r. IsReply (Stated r.0)) }
    ensures found { IfSome result (λ r. text.now ≡ status_and r.0 r.1.now) }
    ensures none { IfNone result ((status : Status) (rest : List ℕ) → IsReply (Stated status)
        → text.now ≢ status_and status rest) }
{
    if let Some(rest) = after(text, b"file ") {
        return pinned_before(rest);
    }
    let rest = after(text, b"dir ")?;
    let (children, rest) = count_before(rest)?;
    Some((Status::Dir { children }, rest))
}

// The reply of this word that stands behind the word, and what stands behind the space after it.
fn reply_said(alloc: Global, word: Saying, text: &[u8]) -> Result<(Reply, &[u8]), Stop>
    ensures word { IfOk result (λ r. saying_of r.0 ≡ word) }
    ensures within { IfOk result (λ r. IsReply r.0) }
    ensures found { IfOk result (λ r. text.now ≡ behind r.0 r.1.now) }
    ensures none { IfErr result (StopsFor ((reply : Reply) (rest : List ℕ) → saying_of reply ≡ word
        → IsReply reply → text.now ≢ behind reply rest)) }
{
    match word {
        Saying::Made => match record_before(text) {
            Some((made, rest)) => Ok((Reply::Made(made), rest)),
            None => Err(Stop::Unread),
        },
        Saying::Fine => Ok((Reply::Fine, text)),
        Saying::Opened => match file_before(text) {
            Some((file, rest)) => Ok((Reply::Opened(file), rest)),
            None => Err(Stop::Unread),
        },
        Saying::Listed => {
            let (entries, rest) = entries_before(alloc, text)?;
            Ok((Reply::Listed(Items::from_vec(entries)), rest))
        }
        Saying::Stated => match status_before(text) {
            Some((status, rest)) => Ok((Reply::Stated(status), rest)),
            None => Err(Stop::Unread),
        },
        Saying::Exists => Ok((Reply::Exists, text)),
        Saying::NoSuch => Ok((Reply::NoSuch, text)),
        Saying::NotFile => Ok((Reply::NotFile, text)),
        Saying::NotDir => Ok((Reply::NotDir, text)),
        Saying::NotEmpty => Ok((Reply::NotEmpty, text)),
        Saying::TooDeep => Ok((Reply::TooDeep, text)),
        Saying::IntoItself => Ok((Reply::IntoItself, text)),
        Saying::TooMany => Ok((Reply::TooMany, text)),
    }
}

/// The reply whose words stand before a space, and what stands behind that.
pub fn reply_before(alloc: Global, text: &[u8]) -> Result<(Reply, &[u8]), Stop>
    ensures within { IfOk result (λ r. IsReply r.0) }
    ensures found { IfOk result (λ r. text.now ≡ reply_words r.0 ++ 0x20 ∷ r.1.now) }
    ensures none { IfErr result (StopsFor ((reply : Reply) (rest : List ℕ) → IsReply reply
        → text.now ≢ reply_words reply ++ 0x20 ∷ rest)) }
{
    let (word, rest) = token_of(text);
    let Some(rest) = front_of(rest) else {
        return Err(Stop::Unread);
    };
    let Some(word) = saying_of(word) else {
        return Err(Stop::Unread);
    };
    reply_said(alloc, word, rest)
}
