//! Calls that are read from words.

ghost use Rattle.std.specs.Prelude.{◌≡◌, ◌∷◌, [], map, option_map};
ghost use Rattle.fs_calls.specs.declared.call.Call.TheVariants.{ListAfter, Read, Write, Truncate};
ghost use Rattle.fs_text.specs.Calls.{one_path, two_paths, paths_and_count, a_number, two_numbers, number_and_bytes, a_number_at, count_at, arguments_at, call_of, form_of, list_form, argument_count, has_call_form};
ghost use Rattle.fs_words.specs.Reading.{hex_at};
ghost use Rattle.fs_words.specs.code.Answers.{Gives};
ghost use Rattle.fs_text.specs.code.Forms.{call_on, call_on_both, form_meant};

use fs_calls::{Call, PairCall};
use fs_names::{Data, Limits, Path};
use fs_words::FaultKind;
use fs_words::recent::Recent;
use fs_words::words::{hex_at, number_at, path_with};
use std::alloc::Global;

/// The calls on one path.
#[derive(Clone, Copy)]
enum OnPath {
    Mkdir,
    Mknod,
    Unlink,
    Rmdir,
    Stat,
    Readdir,
}

/// What the first word of a call says: which call it is, and so what comes after the word.
#[derive(Clone, Copy)]
enum Form {
    OnPath(OnPath),
    OnBoth(PairCall),
    List,
    Truncate,
    Read,
    Write,
}

fn list_form(limits: Limits) -> Option<Form>
    ensures { list_form limits ≡ option_map form_meant result }
{
    if limits.has_list() {
        Some(Form::List)
    } else {
        None
    }
}

fn form_of(limits: Limits, word: &[u8]) -> Option<Form>
    ensures { form_of limits word.now ≡ option_map form_meant result }
{
    match word {
        b"mkdir" => Some(Form::OnPath(OnPath::Mkdir)),
        b"mknod" => Some(Form::OnPath(OnPath::Mknod)),
        b"unlink" => Some(Form::OnPath(OnPath::Unlink)),
        b"rmdir" => Some(Form::OnPath(OnPath::Rmdir)),
        b"stat" => Some(Form::OnPath(OnPath::Stat)),
        b"readdir" => Some(Form::OnPath(OnPath::Readdir)),
        b"rename" => Some(Form::OnBoth(PairCall::Rename)),
        b"exchange" => Some(Form::OnBoth(PairCall::Exchange)),
        b"read" => Some(Form::Read),
        b"write" => Some(Form::Write),
        b"truncate" => Some(Form::Truncate),
        b"list" => list_form(limits),
        _ => None,
    }
}

fn call_on(call: OnPath, path: Path) -> Call
    ensures { result ≡ call_on call path }
{
    match call {
        OnPath::Mkdir => Call::Mkdir(path),
        OnPath::Mknod => Call::Mknod(path),
        OnPath::Unlink => Call::Unlink(path),
        OnPath::Rmdir => Call::Rmdir(path),
        OnPath::Stat => Call::Stat(path),
        OnPath::Readdir => Call::Readdir(path),
    }
}

fn call_on_both(call: PairCall, path: Path, other: Path) -> Call
    ensures { result ≡ call_on_both call path other }
{
    match call {
        PairCall::Rename => Call::Rename(path, other),
        PairCall::Exchange => Call::Exchange(path, other),
    }
}

fn call_on_at<'a>(
    alloc: Global,
    recent: &mut Recent<'a>,
    limits: Limits,
    call: OnPath,
    path: &'a [u8],
) -> Result<Call, FaultKind>
    ensures { Gives (λ call. call) result (arguments_at limits (one_path (call_on call)) (path.now ∷ [])) }
{
    match path_with(alloc, recent, limits, path) {
        Ok(path) => Ok(call_on(call, path)),
        Err(kind) => Err(kind),
    }
}

#[tactic(auto, using(fs_words::proofs::ReadLemmas::fails_bind))]
fn call_on_both_at<'a>(
    alloc: Global,
    recent: &mut Recent<'a>,
    limits: Limits,
    call: PairCall,
    path: &'a [u8],
    other: &'a [u8],
) -> Result<Call, FaultKind>
    ensures { Gives (λ call. call) result (arguments_at limits (two_paths (call_on_both call)) (path.now ∷ other.now ∷ [])) }
{
    let path = match path_with(alloc, recent, limits, path) {
        Ok(path) => path,
        Err(kind) => return Err(kind),
    };
    match path_with(alloc, recent, limits, other) {
        Ok(other) => Ok(call_on_both(call, path, other)),
        Err(kind) => Err(kind),
    }
}

fn a_number_at<'a>(
    alloc: Global,
    recent: &mut Recent<'a>,
    limits: Limits,
    path: &'a [u8],
    size: &[u8],
) -> Result<(Path, u64), FaultKind>
    ensures { Gives (λ p. (p.0, p.1)) result (a_number_at limits path.now size.now) }
{
    let path = match path_with(alloc, recent, limits, path) {
        Ok(path) => path,
        Err(kind) => return Err(kind),
    };
    match number_at(size) {
        Ok(size) => Ok((path, size)),
        Err(kind) => Err(kind),
    }
}

/// The number of 32 bits that a word is; else `BadNumber`.
fn count_at(word: &[u8]) -> Result<u32, FaultKind>
    ensures { result ≡ count_at word.now }
{
    u32::try_from(number_at(word)?).map_err(|_| FaultKind::BadNumber)
}

#[tactic(auto, using(fs_words::proofs::ReadLemmas::fails_bind))]
fn list_at<'a>(
    alloc: Global,
    recent: &mut Recent<'a>,
    limits: Limits,
    path: &'a [u8],
    after: &'a [u8],
    count: &[u8],
) -> Result<Call, FaultKind>
    ensures { Gives (λ call. call) result (arguments_at limits (paths_and_count ListAfter) (path.now ∷ after.now ∷ count.now ∷ [])) }
{
    let path = match path_with(alloc, recent, limits, path) {
        Ok(path) => path,
        Err(kind) => return Err(kind),
    };
    let after = match path_with(alloc, recent, limits, after) {
        Ok(after) => after,
        Err(kind) => return Err(kind),
    };
    match count_at(count) {
        Ok(count) => Ok(Call::ListAfter(count, path, after)),
        Err(kind) => Err(kind),
    }
}

fn truncate_at<'a>(
    alloc: Global,
    recent: &mut Recent<'a>,
    limits: Limits,
    path: &'a [u8],
    size: &[u8],
) -> Result<Call, FaultKind>
    ensures { Gives (λ call. call) result (arguments_at limits (a_number Truncate) (path.now ∷ size.now ∷ [])) }
{
    match a_number_at(alloc, recent, limits, path, size) {
        Ok((path, size)) => Ok(Call::Truncate(path, size)),
        Err(kind) => Err(kind),
    }
}

fn read_at<'a>(
    alloc: Global,
    recent: &mut Recent<'a>,
    limits: Limits,
    path: &'a [u8],
    off: &[u8],
    count: &[u8],
) -> Result<Call, FaultKind>
    ensures { Gives (λ call. call) result (arguments_at limits (two_numbers Read) (path.now ∷ off.now ∷ count.now ∷ [])) }
{
    let (path, off) = match a_number_at(alloc, recent, limits, path, off) {
        Ok(both) => both,
        Err(kind) => return Err(kind),
    };
    match number_at(count) {
        Ok(count) => Ok(Call::Read(path, off, count)),
        Err(kind) => Err(kind),
    }
}

/// The bytes that a call writes, by the word for them.
fn data_at(alloc: Global, word: &[u8]) -> Result<Data, FaultKind>
    ensures { Gives (λ bytes. bytes) result (hex_at word.now) }
{
    match hex_at(alloc, word) {
        Ok(bytes) => match Data::new(bytes.into_vec()) {
            Ok(data) => Ok(data),
            Err(_) => Err(FaultKind::OutOfMemory),
        },
        Err(kind) => Err(kind),
    }
}

fn write_at<'a>(
    alloc: Global,
    recent: &mut Recent<'a>,
    limits: Limits,
    path: &'a [u8],
    off: &[u8],
    bytes: &[u8],
) -> Result<Call, FaultKind>
    ensures { Gives (λ call. call) result (arguments_at limits (number_and_bytes Write) (path.now ∷ off.now ∷ bytes.now ∷ [])) }
{
    let (path, off) = match a_number_at(alloc, recent, limits, path, off) {
        Ok(both) => both,
        Err(kind) => return Err(kind),
    };
    match data_at(alloc, bytes) {
        Ok(bytes) => Ok(Call::Write(path, off, bytes)),
        Err(kind) => Err(kind),
    }
}

fn arguments_at<'a>(
    alloc: Global,
    recent: &mut Recent<'a>,
    limits: Limits,
    form: Form,
    words: &[&'a [u8]],
) -> Result<Call, FaultKind>
    ensures { Gives (λ call. call) result (arguments_at limits (form_meant form) (map (λ w. w.now) words.now)) }
{
    match (form, words) {
        (Form::OnPath(call), [path]) => call_on_at(alloc, recent, limits, call, path),
        (Form::OnBoth(call), [path, other]) => call_on_both_at(
            alloc, recent, limits, call, path, other,
        ),
        (Form::List, [path, after, count]) => list_at(alloc, recent, limits, path, after, count),
        (Form::Truncate, [path, size]) => truncate_at(alloc, recent, limits, path, size),
        (Form::Read, [path, off, count]) => read_at(alloc, recent, limits, path, off, count),
        (Form::Write, [path, off, bytes]) => write_at(alloc, recent, limits, path, off, bytes),
        _ => Err(FaultKind::BadLine),
    }
}

/// The call that words spell by these limits.
pub fn call_at(alloc: Global, limits: Limits, words: &[&[u8]]) -> Result<Call, FaultKind>
    ensures { Gives (λ call. call) result (call_of limits (map (λ w. w.now) words.now)) }
{
    call_with(alloc, &mut Recent::none(alloc), limits, words)
}

/// The same, where paths that were read before are at hand.
#[tactic(auto, unfolding(crate::specs::Calls::call_of))]
pub fn call_with<'a>(
    alloc: Global,
    recent: &mut Recent<'a>,
    limits: Limits,
    words: &[&'a [u8]],
) -> Result<Call, FaultKind>
    ensures { Gives (λ call. call) result (call_of limits (map (λ w. w.now) words.now)) }
{
    let [first, more @ ..] = words else {
        return Err(FaultKind::BadLine);
    };
    match form_of(limits, first) {
        Some(form) => arguments_at(alloc, recent, limits, form, more),
        None => Err(FaultKind::BadLine),
    }
}

/// How many words come after the first word of a call.
fn argument_count(form: Form) -> usize
    ensures { result ≡ argument_count (form_meant form) }
{
    match form {
        Form::OnPath(_) => 1,
        Form::OnBoth(_) | Form::Truncate => 2,
        Form::List | Form::Read | Form::Write => 3,
    }
}

/// Whether the first word is a call's under these limits, with the right number of words after it.
pub(crate) fn has_call_form(limits: Limits, words: &[&[u8]]) -> bool
    ensures { result ≡ has_call_form limits (map (λ w. w.now) words.now) }
{
    match words {
        [] => false,
        [first, more @ ..] => match form_of(limits, first) {
            Some(form) => more.len() == argument_count(form),
            None => false,
        },
    }
}
