//! What the help of each command says of its lines and exit statuses.

pub(crate) const RUN_STATUSES: &str = "\
If standard error is a terminal, a command that takes longer than a quarter of a second shows there how far it is.

Exit status:
  0  every call of the script returned
  1  the script ended with calls left: begun and not returned, or not begun; or a checkpoint found pending calls
  2  usage error
  3  the input is no script, or the file no tree: `atomfs explain` says what to write instead
  4  out of memory, or no node number left
  5  a read or a write failed

Example:
  atomfs run --seed 7 examples/moved_ancestor.script";

pub(crate) const SEEDS_STATUSES: &str = "\
If the script's schedule ends in `!drawn`, each run begins with the events of the words before it, and only what comes after them is drawn.
If standard error is a terminal, a command that takes longer than a quarter of a second shows there how far it is.

Exit status:
  0  every run is lawful
  1  a run has a fault
  2  usage error
  3  the input is no script, or the file no tree: `atomfs explain` says what to write instead
  4  out of memory, or no node number left
  5  a read or a write failed

Example:
  atomfs seeds --seed 1 --runs 100 examples/moved_ancestor.script";

pub(crate) const OUTCOMES_STATUSES: &str = "\
A line is `TIMES seed SEED tree DIGEST`, and the calls whose replies differ: ` | THREAD#N REPLY`, the N-th call of THREAD. The most frequent end comes first; SEED is the least seed that has it, for `atomfs run --seed SEED`.
With --never, --always or --sometimes the lines are the same, and standard error names each WHAT that the runs break, with the first seed that breaks it. `atomfs help find` says what WHAT may be.
If the script's schedule ends in `!drawn`, each run begins with the events of the words before it, and only what comes after them is drawn.
If standard error is a terminal, a command that takes longer than a quarter of a second shows there how far it is.

Exit status:
  0  success; what is asserted of the runs holds
  1  what is asserted of them does not hold
  2  usage error, or the script does not have a call that is named
  3  the input is no script, or the file no tree, or with --add no lines of `outcomes --all`: `atomfs explain` says what to write instead
  4  out of memory, or no node number left
  5  a read or a write failed

Examples:
  atomfs outcomes --seed 1 --runs 1000 examples/moved_ancestor.script
  atomfs outcomes --seed 1 --runs 1000 --sometimes 'reply writer#2 failed' examples/moved_ancestor.script";

pub(crate) const FIND_STATUSES: &str = "\
WHAT is one or several conditions with `and` or `or` between them, and `not` before any of them; `and` binds more tightly:
  reply CALL REPLY   the call returned this, as a journal has it, or `failed` for any error
  tree LINE          at the end this is a line of the tree text, for example `dir /b/d/x`
  helped CALL        the step of another call committed this one
  waits CALL         the call waited for a node that another call held
  before CALL CALL   the first committed before the second
  overlap CALL CALL  each began before the other returned
CALL is `THREAD#N`, the N-th call of the thread's block. A name `and` is written `%61nd`, and a name `or` `%6fr`.

Exit status:
  0  success: a run of what is written has it, and the seed is on standard error
  1  no run has it
  2  usage error, or the script has no such call
  3  the input is no script, or the file no tree: `atomfs explain` says what to write instead
  4  out of memory, no node number left, or more events than a script gives
  5  a read or a write failed

Example:
  atomfs find --where 'reply writer#2 failed' --seed 1 --runs 100 examples/moved_ancestor.script";

pub(crate) const SHRINK_STATUSES: &str = "\
`atomfs help find` says what WHAT may be. Calls that WHAT names are kept, and standard error has their new numbers. All other calls and words that the run does not need are removed. The search stops after 100000 runs, and says so on standard error.

Exit status:
  0  success: the run of what is written has WHAT
  1  the script's run does not have it; or a checkpoint found pending calls
  2  usage error, or the script has no such call
  3  the input is no script, or the file no tree: `atomfs explain` says what to write instead
  4  out of memory, or no node number left
  5  a read or a write failed

Example:
  atomfs shrink --where 'tree file /done/first/notes 6e6f746573' examples/moved_ancestor.script";

pub(crate) const TREE_STATUSES: &str = "\
If the run of a script has checkpoints, the command looks at the part after the last. If a journal is not lawful, it looks at the entries before the fault.
CALL is THREAD#NUMBER: m#3 is the third call of the thread m (after the last checkpoint, if there is one). With a journal, 0#3 is the third call on seat 0.

Exit status:
  0  success
  1  `nobody`: no commit changed what is at PATH; or the journal has a fault; or a checkpoint found pending calls
  2  usage error, or what is asked for is not there
  3  the input is no script and no journal: `atomfs explain` says what to write instead
  4  out of memory, or no node number left
  5  a read or a write failed

Example:
  atomfs tree --at 3 examples/moved_ancestor.script";

pub(crate) const THREADS_STATUSES: &str = "\
If standard error is a terminal, a command that takes longer than a quarter of a second shows there how far it is.

Exit status:
  0  the timeline of the calls is lawful
  1  it has a fault
  2  usage error
  3  the input is no script: `atomfs explain` says what to write instead
  4  out of memory, no node number left, or no worker
  5  a read or a write failed

Example:
  atomfs threads examples/moved_ancestor.script";

pub(crate) const CHECK_STATUSES: &str = "\
Exit status:
  0  the journal is lawful
  1  the journal has a fault
  2  usage error
  3  the input is no journal: `atomfs explain` says what to write instead
  4  out of memory
  5  a read or a write failed

Example:
  atomfs run examples/moved_ancestor.script | atomfs check";

pub(crate) const LINEARIZE_STATUSES: &str = "\
A history is a journal without its `commit` lines, up to the end or a line `tree`. If a reply is not known, `return N ?` fits any reply, `return N failed ?` any error, `return N failed ENOENT|ENOTDIR` one of these, and `return N stat dir ?` any size.
With --as each error that is returned may also be what this tree replies there, by rows `CALL OURS THEIRS`. TREE is posix, linux, afero, jimfs, pyfilesystem or fsspec, or a file with a line `atomfs-dialect 1` and rows.
With --draw or --html what --front writes is drawn, or the lawful journal. Of `fault` and `unknown` nothing is drawn, and standard error has that line.
With --core the command writes a history without an order. Standard error says how many calls it has, of how many, after how many trials.
With --learn each return is compared with what this tree replies. Two different errors make a row. If one of the two calls succeeds, or both do with different replies, no row explains it, and the rest of that history is left out.

Exit status:
  0  the journal that is written explains the history: `atomfs check` says that it is lawful; with --many each history is lawful; with --core the calls that show it are written; with --learn rows explain each history
  1  `none PLACE CALL`: no journal explains the entries up to the return at PLACE, or with --front a journal up to there; or `fault PLACE KIND`: they are no history; or with --learn no row explains a return
  2  usage error, or with --core a journal explains the history, or with --learn two calls overlap
  3  the input is no history: `atomfs explain` says what to write instead; or the file TREE is no table
  4  `unknown PLACE`: the limit was reached; or out of memory
  5  a read or a write failed

Example:
  printf 'atomfs-journal 1\\nbegin 1 0 mkdir /a\\nreturn 1 ok\\n' | atomfs linearize";

pub(crate) const TRACE_STATUSES: &str = "\
Exit status:
  0  every call of the script returned, or the journal is lawful
  1  the script ended with calls left, which the lines `left` name; or the journal has a fault; or a checkpoint found pending calls
  2  usage error
  3  the input is no script and no journal: `atomfs explain` says what to write instead
  4  out of memory, or no node number left
  5  a read or a write failed

Example:
  atomfs trace --seed 7 examples/moved_ancestor.script";

pub(crate) const DRAW_STATUSES: &str = "\
Exit status:
  0  every call of the script returned, or the journal is lawful
  1  the script ended with calls left, or the journal has a fault; the picture or the page shows it; or a checkpoint found pending calls
  2  usage error, or no call has the number
  3  the input is no script and no journal: `atomfs explain` says what to write instead
  4  out of memory, or no node number left
  5  a read or a write failed

Examples:
  atomfs draw --seed 7 examples/moved_ancestor.script > run.svg
  atomfs draw --html examples/moved_ancestor.script > run.html";

pub(crate) const SCHEDULE_STATUSES: &str = "\
Exit status:
  0  success: a run of what is written has the text of this run
  1  a checkpoint found pending calls
  2  usage error
  3  the input is no script: `atomfs explain` says what to write instead
  4  out of memory, no node number left, or more events than a script gives
  5  a read or a write failed

Example:
  atomfs schedule --seed 7 examples/moved_ancestor.script";

pub(crate) const EXPLAIN_STATUSES: &str = "\
Exit status:
  0  success
  2  usage error
  4  out of memory
  5  a write failed

Example:
  atomfs explain BadPath TrailingSlash";

pub(crate) const STATUSES: &str = "\
Exit status:
  0  success
  1  a journal is not lawful, or a script ended with calls left
  2  usage error
  3  malformed input: `atomfs explain` says what to write instead
  4  out of memory, no node number left, or no worker
  5  a read or a write failed

Example:
  printf 'atomfs 1\\nthread t\\nmkdir /a\\nschedule\\nfinish\\n' | atomfs run";

/// What is said where there is no subcommand.
pub(crate) const FIRST: &str = "\
no command is given

Try first a script of one call:
  printf 'atomfs 1\\nthread t\\nmkdir /a\\nschedule\\nfinish\\n' | atomfs run";
