//! The tables of known trees. `docs/COMMANDS.md` says which were seen, and how.

/// What POSIX.1-2017 allows: EEXIST for ENOTEMPTY, and two errors at once in any order (2.3).
const POSIX: &str = "\
atomfs-dialect 1
unlink EPERM EBUSY
rmdir ENOTEMPTY EEXIST
rmdir EBUSY ENOTEMPTY|EEXIST
rename ENOTEMPTY EEXIST
rename EISDIR ENOTEMPTY|EEXIST
rename EBUSY EINVAL|ENOENT|ENOTDIR
rename EINVAL ENOENT|ENOTDIR
";

/// What Linux replies on tmpfs.
const LINUX: &str = "\
atomfs-dialect 1
unlink EPERM EISDIR
rename EISDIR ENOTEMPTY
rename EBUSY ENOENT|ENOTDIR
rename EINVAL ENOENT|ENOTDIR
exchange EBUSY ENOENT|ENOTDIR
exchange EINVAL ENOENT|ENOTDIR
";

/// What afero's MemMapFs replies, which makes the parents that are missing.
const AFERO: &str = "\
atomfs-dialect 1
unlink ENOTDIR ENOENT
rmdir ENOTDIR ENOENT
rename EBUSY ENOENT
rename EINVAL ENOENT
rename ENOTDIR ENOENT
stat ENOTDIR ENOENT
readdir ENOTDIR ENOENT
read ENOTDIR ENOENT
write ENOTDIR ENOENT
truncate ENOTDIR ENOENT
";

/// What Jimfs replies.
const JIMFS: &str = "\
atomfs-dialect 1
mkdir ENOTDIR ENOENT
mknod ENOTDIR ENOENT
unlink ENOTDIR ENOENT
rmdir ENOTDIR ENOENT
rename EISDIR ENOTEMPTY
rename EBUSY ENOENT
rename EINVAL ENOENT
rename ENOTDIR ENOENT
stat ENOTDIR ENOENT
readdir ENOTDIR ENOENT
read ENOTDIR ENOENT
write ENOTDIR ENOENT
";

/// What MemoryFS of PyFilesystem2 replies.
const PYFILESYSTEM: &str = "\
atomfs-dialect 1
mkdir ENOTDIR ENOENT
mknod EEXIST EISDIR
mknod ENOTDIR ENOENT
unlink ENOTDIR ENOENT
unlink EPERM EISDIR|ENOENT
rmdir ENOTDIR ENOENT
stat ENOTDIR ENOENT
readdir ENOTDIR ENOENT
read ENOTDIR ENOENT
write ENOTDIR ENOENT
truncate ENOTDIR ENOENT
";

/// What the file system in memory of fsspec replies, which makes the parents that are missing.
const FSSPEC: &str = "\
atomfs-dialect 1
mknod ENOTDIR EEXIST
unlink ENOTDIR ENOENT
unlink EPERM ENOENT
rmdir ENOTDIR ENOENT
rename EBUSY ENOENT
rename EINVAL ENOENT
rename ENOTDIR ENOENT
stat ENOTDIR ENOENT
readdir ENOTDIR ENOENT
read ENOTDIR EEXIST
write ENOTDIR EEXIST
truncate ENOTDIR EEXIST
";

/// The text of the table of a known tree, if it is one.
pub fn known_table(name: &str) -> Option<&'static str> {
    match name {
        "posix" => Some(POSIX),
        "linux" => Some(LINUX),
        "afero" => Some(AFERO),
        "jimfs" => Some(JIMFS),
        "pyfilesystem" => Some(PYFILESYSTEM),
        "fsspec" => Some(FSSPEC),
        _ => None,
    }
}
