//! The words of an answer, appended to what is printed. An error leaves what stood there, and maybe
//! some front of the words behind it.

ghost use Rattle.std.specs.Prelude.{◌≡◌, ◌≢◌, ◌∷◌, ◌++◌, length, take, decimal, OnOk, OnErr};
ghost use Rattle.std.specs.List.{flat_map};
ghost use Rattle.hex.specs.Hex.{encode_lower};
ghost use Rattle.tl_text.specs.File.{file_text};
ghost use Rattle.tl_types.specs.Outcome.{digest_of};
ghost use Rattle.tl_types.specs.declared.outcome.Outcome.TheVariants.{Value};
ghost use Rattle.tl_model.specs.declared.reply.Reply.TheVariants.{Listed};
ghost use Rattle.tl_report.specs.Words.{entry_word, status_words, reply_words, value_word, outcome_words, counted_word, answer_words, damage_words, error_words, number_word};

use tl_model::{Answer, ClientError, Counted, Damage, Entry, Form, Reply, Status};
use tl_text::{print_digest, print_file, print_number, print_quoted};
use tl_types::{Block, Digest, FileId, NoMemory, Outcome};

/// Appends the bytes.
pub fn word(out: &mut Vec<u8>, bytes: &[u8]) -> Result<(), NoMemory>
    ensures ok { OnOk result (out.new.items ≡ out.old.items ++ bytes.now) }
    ensures err { OnErr result (take (length out.old.items) out.new.items ≡ out.old.items) }
{
    out.extend_from_slice(bytes)?;
    Ok(())
}

/// Appends a space and the number in decimal.
pub fn then_number(out: &mut Vec<u8>, n: u64) -> Result<(), NoMemory>
    ensures ok { OnOk result (out.new.items ≡ out.old.items ++ 0x20 ∷ decimal n) }
    ensures err { OnErr result (take (length out.old.items) out.new.items ≡ out.old.items) }
{
    word(out, b" ")?;
    print_number(out, n)
}

/// Appends a word, a space and the number in decimal.
pub fn word_number(out: &mut Vec<u8>, bytes: &[u8], n: u64) -> Result<(), NoMemory>
    ensures ok { OnOk result (out.new.items ≡ out.old.items ++ (bytes.now ++ 0x20 ∷ decimal n)) }
    ensures err { OnErr result (take (length out.old.items) out.new.items ≡ out.old.items) }
{
    word(out, bytes)?;
    then_number(out, n)
}

/// Appends a word, a space and the file.
pub fn word_file(out: &mut Vec<u8>, bytes: &[u8], file: FileId) -> Result<(), NoMemory>
    ensures ok { OnOk result (out.new.items ≡ out.old.items ++ (bytes.now ++ 0x20 ∷ file_text file)) }
    ensures err { OnErr result (take (length out.old.items) out.new.items ≡ out.old.items) }
{
    word(out, bytes)?;
    word(out, b" ")?;
    print_file(out, file)
}

// Appends what the path names.
fn status(out: &mut Vec<u8>, named: &Status) -> Result<(), NoMemory>
    ensures ok { OnOk result (out.new.items ≡ out.old.items ++ status_words named.now) }
    ensures err { OnErr result (take (length out.old.items) out.new.items ≡ out.old.items) }
{
    match named {
        Status::File { file, pinned } => {
            word_file(out, b"stat file", *file)?;
            word(out, if *pinned { b" pinned" } else { b" loose" })
        }
        Status::Dir { children } => word_number(out, b"stat dir", *children),
    }
}

// Appends a space and a child's name.
fn then_entry(out: &mut Vec<u8>, entry: &Entry) -> Result<(), NoMemory>
    ensures ok { OnOk result (out.new.items ≡ out.old.items ++ 0x20 ∷ entry_word entry.now) }
    ensures err { OnErr result (take (length out.old.items) out.new.items ≡ out.old.items) }
{
    word(out, b" ")?;
    word(out, entry.name.as_slice())?;
    if entry.dir {
        word(out, b"/")?;
    }
    Ok(())
}

// Appends the bytes as the reader asked for them.
fn value(out: &mut Vec<u8>, form: Form, bytes: &[u8], digest: &Digest) -> Result<(), NoMemory>
    requires { digest.now.0 ≡ digest_of (Value bytes.now) }
    ensures ok { OnOk result (out.new.items ≡ out.old.items ++ value_word form bytes.now) }
    ensures err { OnErr result (take (length out.old.items) out.new.items ≡ out.old.items) }
{
    match form {
        Form::Cat | Form::Try => print_quoted(out, bytes),
        Form::Sum => print_digest(out, digest),
    }
}

// Appends what the block holds.
fn block(out: &mut Vec<u8>, form: Form, read: &Block) -> Result<(), NoMemory>
    ensures ok { OnOk result (out.new.items ≡ out.old.items ++ outcome_words form read.now.file read.now.outcome) }
    ensures err { OnErr result (take (length out.old.items) out.new.items ≡ out.old.items) }
{
    match read.outcome() {
        Outcome::Value(bytes) => {
            word_file(out, b"file", read.file())?;
            then_number(out, bytes.len() as u64)?;
            word(out, b" ")?;
            value(out, form, bytes.as_slice(), &read.digest())
        }
        Outcome::Fault(code) => {
            word_file(out, b"failed", read.file())?;
            then_number(out, u64::from(*code))
        }
    }
}

// Appends the children, each after a space.
fn then_entries(out: &mut Vec<u8>, entries: &[Entry]) -> Result<(), NoMemory>
    ensures ok { OnOk result (out.new.items ≡ out.old.items ++ flat_map (λ entry. 0x20 ∷ entry_word entry) entries.now) }
    ensures err { OnErr result (take (length out.old.items) out.new.items ≡ out.old.items) }
{
    for entry in entries {
        then_entry(out, entry)?;
    }
    Ok(())
}

// Appends how many children there are, and their names.
fn list(out: &mut Vec<u8>, entries: &[Entry]) -> Result<(), NoMemory>
    ensures ok { OnOk result (out.new.items ≡ out.old.items ++ reply_words (Listed entries.now)) }
    ensures err { OnErr result (take (length out.old.items) out.new.items ≡ out.old.items) }
{
    word_number(out, b"list", entries.len() as u64)?;
    then_entries(out, entries)
}

/// Appends the words of the reply.
pub fn reply(out: &mut Vec<u8>, said: &Reply) -> Result<(), NoMemory>
    ensures ok { OnOk result (out.new.items ≡ out.old.items ++ reply_words said.now) }
    ensures err { OnErr result (take (length out.old.items) out.new.items ≡ out.old.items) }
{
    match said {
        Reply::Made(made) => word_number(out, b"made", u64::from(made.0)),
        Reply::Fine => word(out, b"ok"),
        Reply::Opened(file) => word_file(out, b"open", *file),
        Reply::Listed(entries) => list(out, entries.as_slice()),
        Reply::Stated(named) => status(out, named),
        Reply::Exists => word(out, b"exists"),
        Reply::NoSuch => word(out, b"nosuch"),
        Reply::NotFile => word(out, b"notfile"),
        Reply::NotDir => word(out, b"notdir"),
        Reply::NotEmpty => word(out, b"notempty"),
        Reply::TooDeep => word(out, b"toodeep"),
        Reply::IntoItself => word(out, b"intoitself"),
        Reply::TooMany => word(out, b"toomany"),
    }
}

// The word of the command whose count it is.
fn counted_word(counted: Counted) -> &'static [u8]
    ensures { result.now ≡ counted_word counted }
{
    match counted {
        Counted::Work => b"work",
        Counted::Save => b"save",
        Counted::Collect => b"collect",
    }
}

// Appends what a client is answered.
pub(crate) fn answer(out: &mut Vec<u8>, form: Form, said: &Answer) -> Result<(), NoMemory>
    ensures ok { OnOk result (out.new.items ≡ out.old.items ++ answer_words form said.now) }
    ensures err { OnErr result (take (length out.old.items) out.new.items ≡ out.old.items) }
{
    match said {
        Answer::Said { reply: words, .. } => reply(out, words),
        Answer::Read { block: read, .. } => block(out, form, read.get()),
        Answer::NotYet { file, .. } => word_file(out, b"notyet", *file),
        Answer::Count(counted, n) => word_number(out, counted_word(*counted), u64::from(*n)),
        Answer::Lost(worker) => word_number(out, b"lose", u64::from(worker.0)),
        Answer::Peeked {
            publishes,
            reply: words,
        } => {
            word_number(out, b"peek", *publishes)?;
            word(out, b" ")?;
            reply(out, words)
        }
    }
}

// Appends a length, a space and a digest.
fn pair(out: &mut Vec<u8>, len: u64, digest: &Digest) -> Result<(), NoMemory>
    ensures ok { OnOk result (out.new.items ≡ out.old.items ++ (decimal len ++ 0x20 ∷ encode_lower digest.now.0)) }
    ensures err { OnErr result (take (length out.old.items) out.new.items ≡ out.old.items) }
{
    print_number(out, len)?;
    word(out, b" ")?;
    print_digest(out, digest)
}

// Appends the kept length and digest, and those that came.
fn damage(out: &mut Vec<u8>, found: &Damage) -> Result<(), NoMemory>
    ensures ok { OnOk result (out.new.items ≡ out.old.items ++ damage_words found.now) }
    ensures err { OnErr result (take (length out.old.items) out.new.items ≡ out.old.items) }
{
    pair(out, found.kept_len, &found.kept)?;
    word(out, b" ")?;
    pair(out, found.got_len, &found.got)
}

// Appends why a client was not answered.
pub(crate) fn error(out: &mut Vec<u8>, why: &ClientError) -> Result<(), NoMemory>
    requires { why.now ≢ ClientError.NoMemory }
    ensures ok { OnOk result (out.new.items ≡ out.old.items ++ error_words why.now) }
    ensures err { OnErr result (take (length out.old.items) out.new.items ≡ out.old.items) }
{
    match why {
        ClientError::StoreFault { .. } => word(out, b"fault store"),
        ClientError::Damaged { damage: found, .. } => {
            word(out, b"fault damage ")?;
            damage(out, found)
        }
        ClientError::NoMemory => unreachable!(),
    }
}

// Appends the number, or `-` where there is none.
pub(crate) fn number(out: &mut Vec<u8>, n: Option<u64>) -> Result<(), NoMemory>
    ensures ok { OnOk result (out.new.items ≡ out.old.items ++ number_word n) }
    ensures err { OnErr result (take (length out.old.items) out.new.items ≡ out.old.items) }
{
    match n {
        Some(n) => print_number(out, n),
        None => word(out, b"-"),
    }
}
