//! What holds of rows. Each function's contract is a law, and its body is empty.

ghost use Rattle.fs_seq.specs.RowLaws.{FittingRowsAreTrees, EarlierRepliesArePlain};

/// If each row of a list fits after those before it, the rows are the entries of a tree within the limits of entries
/// and bytes, in which no directory has bytes. There are no other such lists of rows. So the first row that does not
/// fit is the first that no such tree has there.
pub fn fitting_rows_are_trees()
    ensures { FittingRowsAreTrees }
{}

/// By the first and by the second limits no directory has more names than a reply, and no file more bytes than a read answers.
pub fn earlier_replies_are_plain()
    ensures { EarlierRepliesArePlain }
{}
