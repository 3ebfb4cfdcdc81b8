//! A command, appended to what is printed. An error leaves what stood there, and maybe some front
//! of the command behind it.

ghost use Rattle.std.specs.Prelude.{◌≡◌, ◌∷◌, ◌++◌, [], codes, decimal, length, take, OnOk, OnErr};
ghost use Rattle.tl_types.specs.Path.{spelled};
ghost use Rattle.tl_text.specs.Quoted.{quoted};
ghost use Rattle.tl_lang.specs.Conf.{pairs_of};
ghost use Rattle.tl_model.specs.Past.{command_with};
ghost use Rattle.tl_model.specs.declared.command.Command.TheVariants.{Job};
ghost use Rattle.tl_script.specs.Tokens.{a_number, spaced};
ghost use Rattle.tl_script.specs.Commands.{verb_of_form, with_conf, with_paths};
ghost use Rattle.tl_script.specs.Reading.{file_tokens};
ghost use Rattle.tl_script.specs.Words.{verb_text};
ghost use Rattle.tl_spelling.specs.Commands.{command_text, Puts};

use tl_kind::print;
use tl_lang::{Checked, JobSpecCore};
use tl_model::{Command, Form};
use tl_report::print::{then_number, word};
use tl_text::{print_path, print_quoted};
use tl_types::{NoMemory, Path, Prio};

// Appends a space and the path.
fn then_path(out: &mut Vec<u8>, path: &Path) -> Result<(), NoMemory>
    ensures ok { OnOk result (out.new.items ≡ out.old.items ++ 0x20 ∷ spelled path.now) }
    ensures err { OnErr result (take (length out.old.items) out.new.items ≡ out.old.items) }
{
    word(out, b" ")?;
    print_path(out, path)
}

// Appends a space and the quoted bytes.
fn then_quoted(out: &mut Vec<u8>, bytes: &[u8]) -> Result<(), NoMemory>
    ensures ok { OnOk result (out.new.items ≡ out.old.items ++ 0x20 ∷ quoted bytes.now) }
    ensures err { OnErr result (take (length out.old.items) out.new.items ≡ out.old.items) }
{
    word(out, b" ")?;
    print_quoted(out, bytes)
}

// Appends a word, a space and the path.
fn word_path(out: &mut Vec<u8>, bytes: &[u8], path: &Path) -> Result<(), NoMemory>
    ensures ok { OnOk result (out.new.items ≡ out.old.items
        ++ (bytes.now ++ 0x20 ∷ spelled path.now)) }
    ensures err { OnErr result (take (length out.old.items) out.new.items ≡ out.old.items) }
{
    word(out, bytes)?;
    then_path(out, path)
}

// The word of a read.
fn form_word(form: Form) -> &'static [u8]
    ensures { result.now ≡ verb_text (verb_of_form form) }
{
    match form {
        Form::Cat => b"cat",
        Form::Sum => b"sum",
        Form::Try => b"try",
    }
}

// Appends the pair of a configuration, each behind a space, and `conf` before them.
fn then_pair(out: &mut Vec<u8>, pair: &(Vec<u8>, Vec<u8>)) -> Result<(), NoMemory>
    ensures ok { OnOk result
        (Puts out.old.items out.new.items (with_conf ((pair.now.0.items, pair.now.1.items) ∷ []))) }
    ensures err { OnErr result (take (length out.old.items) out.new.items ≡ out.old.items) }
{
    word(out, b" conf")?;
    then_quoted(out, pair.0.as_slice())?;
    then_quoted(out, pair.1.as_slice())
}

// Appends the configuration.
fn then_conf(out: &mut Vec<u8>, pairs: &[(Vec<u8>, Vec<u8>)]) -> Result<(), NoMemory>
    ensures ok { OnOk result (Puts out.old.items out.new.items (with_conf (pairs_of pairs.now))) }
    ensures err { OnErr result (take (length out.old.items) out.new.items ≡ out.old.items) }
{
    for pair in pairs {
        then_pair(out, pair)?;
    }
    Ok(())
}

// Appends the paths.
fn then_paths(out: &mut Vec<u8>, paths: &[Path]) -> Result<(), NoMemory>
    ensures ok { OnOk result (Puts out.old.items out.new.items (with_paths paths.now)) }
    ensures err { OnErr result (take (length out.old.items) out.new.items ≡ out.old.items) }
{
    for path in paths {
        then_path(out, path)?;
    }
    Ok(())
}

// Appends the paths of a job, and its program.
fn then_files(
    out: &mut Vec<u8>,
    inputs: &[Path],
    outputs: &[Path],
    program: &Checked,
) -> Result<(), NoMemory>
    ensures ok { OnOk result (out.new.items ≡ out.old.items
        ++ spaced (file_tokens inputs.now outputs.now program.now)) }
    ensures err { OnErr result (take (length out.old.items) out.new.items ≡ out.old.items) }
{
    then_paths(out, inputs)?;
    word(out, b" out")?;
    then_paths(out, outputs)?;
    word(out, b" run ")?;
    print(out, program.program())
}

// Appends a job's priority, fuel and configuration.
fn then_terms(out: &mut Vec<u8>, prio: Prio, core: &JobSpecCore) -> Result<(), NoMemory>
    ensures ok { OnOk result (Puts out.old.items out.new.items
        (λ more. a_number prio ∷ a_number core.now.fuel ∷ with_conf core.now.conf more)) }
    ensures err { OnErr result (take (length out.old.items) out.new.items ≡ out.old.items) }
{
    then_number(out, u64::from(prio.get()))?;
    then_number(out, u64::from(core.fuel))?;
    then_conf(out, core.conf.pairs())
}

// Appends a job.
fn job(
    out: &mut Vec<u8>,
    core: &JobSpecCore,
    prio: Prio,
    inputs: &[Path],
    outputs: &[Path],
) -> Result<(), NoMemory>
    ensures ok { OnOk result (out.new.items ≡ out.old.items
        ++ command_text (Job core.now prio inputs.now outputs.now)) }
    ensures err { OnErr result (take (length out.old.items) out.new.items ≡ out.old.items) }
{
    word(out, b"job")?;
    then_terms(out, prio, core)?;
    word(out, b" in")?;
    then_files(out, inputs, outputs, &core.program)
}

// Appends a put of the bytes.
fn put(out: &mut Vec<u8>, path: &Path, bytes: &[u8]) -> Result<(), NoMemory>
    ensures ok { OnOk result (out.new.items ≡ out.old.items
        ++ (codes "put" ++ 0x20 ∷ (spelled path.now ++ 0x20 ∷ quoted bytes.now))) }
    ensures err { OnErr result (take (length out.old.items) out.new.items ≡ out.old.items) }
{
    word_path(out, b"put", path)?;
    then_quoted(out, bytes)
}

// Appends a read.
fn read(out: &mut Vec<u8>, form: Form, prio: Prio, path: &Path) -> Result<(), NoMemory>
    ensures ok { OnOk result (out.new.items ≡ out.old.items
        ++ (verb_text (verb_of_form form) ++ 0x20 ∷ (decimal prio ++ 0x20 ∷ spelled path.now))) }
    ensures err { OnErr result (take (length out.old.items) out.new.items ≡ out.old.items) }
{
    word(out, form_word(form))?;
    then_number(out, u64::from(prio.get()))?;
    then_path(out, path)
}

// Appends a rename.
fn rename(out: &mut Vec<u8>, from: &Path, to: &Path) -> Result<(), NoMemory>
    ensures ok { OnOk result (out.new.items ≡ out.old.items
        ++ (codes "rename" ++ 0x20 ∷ (spelled from.now ++ 0x20 ∷ spelled to.now))) }
    ensures err { OnErr result (take (length out.old.items) out.new.items ≡ out.old.items) }
{
    word_path(out, b"rename", from)?;
    then_path(out, to)
}

// Appends the command; if it is a put, by these bytes.
pub(crate) fn command<T>(out: &mut Vec<u8>, said: &Command<T>, bytes: &[u8]) -> Result<(), NoMemory>
    ensures ok { OnOk result (out.new.items ≡ out.old.items
        ++ command_text (command_with (λ _. bytes.now) said.now)) }
    ensures err { OnErr result (take (length out.old.items) out.new.items ≡ out.old.items) }
{
    match said {
        Command::Put { path, .. } => put(out, path, bytes),
        Command::Job {
            core,
            prio,
            inputs,
            outputs,
        } => job(
            out,
            core.get(),
            *prio,
            inputs.as_slice(),
            outputs.as_slice(),
        ),
        Command::Read { path, prio, form } => read(out, *form, *prio, path),
        Command::Delete { path } => word_path(out, b"delete", path),
        Command::Mkdir { path } => word_path(out, b"mkdir", path),
        Command::Rename { from, to } => rename(out, from, to),
        Command::Pin { path } => word_path(out, b"pin", path),
        Command::Unpin { path } => word_path(out, b"unpin", path),
        Command::List { path } => word_path(out, b"list", path),
        Command::Stat { path } => word_path(out, b"stat", path),
        Command::Free { path } => word_path(out, b"free", path),
    }
}
