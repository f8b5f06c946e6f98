//! Which texts are read as journals.

ghost use Rattle.std.specs.Prelude.{◌≡◌};
ghost use Rattle.fs_verdict.specs.Checks.{is_journal};

/// Whether a text that may be a journal or a script is to be read as a journal: by its first bytes.
pub fn is_journal(text: &[u8]) -> bool
    ensures { result ≡ is_journal text.now }
{
    text.starts_with(b"atomfs-journal")
}
