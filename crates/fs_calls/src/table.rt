//! The table of the calls, by which the code decides and does: a call is one line here.
//!
//! `calls!` and `phases!` hand their rows to the macro that a caller names, a reader, which takes the columns that it needs and
//! writes the arms of one match. So the errors that are looked for, and their order, are written from `calls!` (`rows` and
//! `path_errors` here), and so is what `Op::next` makes of a call (`fs_ops/src/next.rt`, `fs_ops_effects/src/entries.rt`) and
//! `Op::carry_out` does (`fs_ops_effects/src/carrying.rt`); from `phases!` how `Op::next` goes on along its walk, and how
//! `Core::step` makes a move (`fs_core/src/engine.rt`). The definitions say the same to the prover (`specs/Rows.antt`,
//! `specs/Forms.antt`), so a row that says another thing is refused where it is read. A word of a row means what its reader says.

/// The calls on an entry, on two entries and on a node, in the order of the specification's table.
///
/// A reader is called with what its caller gave, in parentheses, and then with the rows.
#[macro_export]
macro_rules! calls {
    ($read:ident $given:tt) => {
        $read! { $given
            entries {
                // call             at the root   what it does          errors in order, behind those of its directory
                Mkdir             { [Eexist]      [adds Dir]            [is_there => Eexist, is_full => Enospc] }
                Mknod             { [Eexist]      [adds File]           [is_there => Eexist, is_full => Enospc] }
                Unlink            { [Eperm]       [removes File]        [is_missing => Enoent, is_dir => Eperm] }
                Rmdir             { [Ebusy]       [removes Dir]         [is_missing => Enoent, is_file => Enotdir, has_entries => Enotempty] }
            }
            pairs {
                // call             by its paths alone, in order          what it does   errors in order, behind those of both directories, and those where its paths are not one
                Rename            { [is_root => Ebusy, is_below => Einval] [moves]       [first_is_missing => Enoent] [dir_onto_file => Enotdir, file_onto_dir => Eisdir, onto_entries => Enotempty, has_no_room => Enospc] }
                Exchange          { [is_root => Ebusy, is_below_or_above => Einval] [swaps] [first_is_missing => Enoent, second_is_missing => Enoent] [] }
            }
            nodes {
                // call             what it does          errors in order, behind those of its path
                Stat              { [stat()]              [is_missing => Enoent] }
                Readdir           { [readdir()]           [is_missing => Enoent, is_file => Enotdir, is_crowded => Eoverflow] }
                ListAfter(after, count) { [list(after, count)] [is_missing => Enoent, is_file => Enotdir] }
                Read(off, count)  { [read(off, count)]    [is_missing => Enoent, is_dir => Eisdir] }
                Write(off, bytes) { [write(off, bytes)]   [is_missing => Enoent, is_dir => Eisdir, is_too_long(off, bytes) => Efbig] }
                Truncate(size)    { [truncate(size)]      [is_missing => Enoent, is_dir => Eisdir, is_too_large(size) => Efbig] }
            }
        }
    };
}

/// What a call does next, by its phase: how it goes on where its walk wants something, and how its move is made.
///
/// A reader is called as one of `calls!` is.
#[macro_export]
macro_rules! phases {
    ($read:ident $given:tt) => {
        $read! { $given
            walking {
                // what its walk wants      the call's next move
                Take(node)                { [Take(node)] }
                LetGo(node)               { [LetGo(node)] }
                Fails(errno)              { [fails(errno)] }
                Arrived                   { [arrives()] }
            }
            always {
                // the next move            how it is made in every phase
                Take(node)                { [take(node)] }
                LetGo(node)               { [let_go(node)] }
                Return                    { [ends()] }
            }
            by_phase {
                // the next move            how it is made while the call walks    and once it has its place
                Finish(plan)              { [help_or_commit(plan)]                 (place) [carry_out(plan, place)] }
            }
        }
    };
}
