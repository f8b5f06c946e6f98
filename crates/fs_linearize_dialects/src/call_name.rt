//! The calls by their names.

ghost use Rattle.std.specs.Prelude.{◌≡◌};
ghost use Rattle.fs_linearize_dialects.specs.Names.{name_of, name_word, name_among, name_at, same_name};

use fs_calls::Call;
use fs_words::words::is_word;

/// Which call it is, whatever its arguments.
#[derive(Clone, Copy, Debug, PartialEq, Eq)]
pub enum CallName {
    Mkdir = 1,
    Mknod = 2,
    Unlink = 3,
    Rmdir = 4,
    Rename = 5,
    Exchange = 6,
    Stat = 7,
    Readdir = 8,
    List = 9,
    Read = 10,
    Write = 11,
    Truncate = 12,
}

/// Each name.
pub const NAMES: [CallName; 12] = [
    CallName::Mkdir,
    CallName::Mknod,
    CallName::Unlink,
    CallName::Rmdir,
    CallName::Rename,
    CallName::Exchange,
    CallName::Stat,
    CallName::Readdir,
    CallName::List,
    CallName::Read,
    CallName::Write,
    CallName::Truncate,
];

/// The first of these names that a word is, if it is one.
fn name_among(word: &[u8], names: &[CallName]) -> Option<CallName>
    ensures { result ≡ name_among word.now names.now }
{
    for name in names {
        if is_word(word, name.text()) {
            return Some(*name);
        }
    }
    None
}

impl CallName {
    /// The name of a call.
    pub fn of(call: &Call) -> CallName
        ensures { result ≡ name_of call.now }
    {
        match call {
            Call::Mkdir(_) => CallName::Mkdir,
            Call::Mknod(_) => CallName::Mknod,
            Call::Unlink(_) => CallName::Unlink,
            Call::Rmdir(_) => CallName::Rmdir,
            Call::Rename(_, _) => CallName::Rename,
            Call::Exchange(_, _) => CallName::Exchange,
            Call::Stat(_) => CallName::Stat,
            Call::Readdir(_) => CallName::Readdir,
            Call::ListAfter(_, _, _) => CallName::List,
            Call::Read(_, _, _) => CallName::Read,
            Call::Write(_, _, _) => CallName::Write,
            Call::Truncate(_, _) => CallName::Truncate,
        }
    }

    /// Its word in texts.
    pub fn text(self) -> &'static [u8]
        ensures { result.now ≡ name_word self }
    {
        match self {
            CallName::Mkdir => b"mkdir",
            CallName::Mknod => b"mknod",
            CallName::Unlink => b"unlink",
            CallName::Rmdir => b"rmdir",
            CallName::Rename => b"rename",
            CallName::Exchange => b"exchange",
            CallName::Stat => b"stat",
            CallName::Readdir => b"readdir",
            CallName::List => b"list",
            CallName::Read => b"read",
            CallName::Write => b"write",
            CallName::Truncate => b"truncate",
        }
    }

    /// Whether it is the same as another.
    pub(crate) fn same(self, other: CallName) -> bool
        ensures { result ≡ same_name self other }
    {
        self as u8 == other as u8
    }

    /// The name that a word is, if it is one.
    pub fn at(word: &[u8]) -> Option<CallName>
        ensures { result ≡ name_at word.now }
    {
        name_among(word, &NAMES)
    }
}
