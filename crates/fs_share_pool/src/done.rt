//! Jobs that were done.

ghost use Rattle.std.specs.Prelude.{◌≡◌, ℕ, ◌+◌, ◌≤◌, vec_capacity, IsPermutation};
ghost use Rattle.std.specs.List.Sorted.{IsNonDecreasingBy};
ghost use Rattle.fs_share_pool.specs.Dones.{numbers, ok_count, number_total, ok_total};
ghost use Rattle.fs_share_pool.specs.Jobs.{one, total};

use crate::job::JobNo;
use fs_core::Refusal;
use fs_share::Answer;

/// The number of a job, and what its call answered.
#[derive(Drop)]
pub struct Done {
    pub no: JobNo,
    pub answer: Result<Answer, Refusal>,
}

/// The same in the order of their numbers.
pub(crate) fn in_order(done: Vec<Done>) -> Vec<Done>
    ensures permutation { IsPermutation done.items result.items }
    ensures order { IsNonDecreasingBy (λ done. done.no) result.items }
{
    let mut done = done;
    done.sort_unstable_by_key(|done| done.no.get());
    done
}

/// Adds what each worker did. There are places for it.
pub(crate) fn add_all(done: &mut Vec<Done>, lists: Vec<Vec<Done>>)
    requires places { total one (numbers done.old.items) + number_total one lists.items ≤ vec_capacity done.old }
    ensures numbers { (h : ℕ → ℕ) → total h (numbers done.new.items) ≡ total h (numbers done.old.items) + number_total h lists.items }
    ensures ok { ok_count done.new.items ≡ ok_count done.old.items + ok_total lists.items }
    ensures places { vec_capacity done.old ≤ vec_capacity done.new }
{
    let mut lists = lists;
    while let Some(mut list) = lists.pop() {
        // It cannot fail, since there are places.
        let _ = done.append(&mut list);
    }
}
