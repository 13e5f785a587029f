//! Depth and work together, each told as `MOST_COUNT` where it is more.
ghost use Rattle.std.specs.Prelude.{◌≡◌, ◌+◌, ◌*◌, ◌^◌, min};
ghost use Rattle.asm_counts.specs.CountLevels as spec;

/// The most that a count is told as.
pub const MOST_COUNT: u64 = 1 << 32;

/// The depth and the work of a term or a rule, in nodes: the longest path of nodes, and how many
/// nodes are looked at. `MOST_COUNT` means that and more. Both are this project's own.
#[derive(Clone, Copy)]
pub struct Counts {
    pub depth: u64,
    pub work: u64,
}

/// The counts of what has no nodes.
pub const NO_COUNTS: Counts = Counts { depth: 0, work: 0 };

fn capped(count: u64) -> u64
    ensures { result ≡ min count (2 ^ 32) }
{
    if count < MOST_COUNT {
        count
    } else {
        MOST_COUNT
    }
}

fn one_more(count: u64) -> u64
    ensures { result ≡ min (1 + count) (2 ^ 32) }
{
    capped(count.saturating_add(1))
}

fn sum(first: u64, second: u64) -> u64
    ensures { result ≡ min (first + second) (2 ^ 32) }
{
    capped(first.saturating_add(second))
}

/// The product, `MOST_COUNT` where it is more.
pub(crate) fn product(first: u64, second: u64) -> u64
    ensures { result ≡ min (first * second) (2 ^ 32) }
{
    capped(first.saturating_mul(second))
}

/// The counts of what has no nodes.
#[tactic(auto, unfolding(crate::specs::CountLevels::nothing))]
pub(crate) fn nothing() -> Counts
    ensures { result ≡ spec.nothing }
{
    Counts { depth: 0, work: 0 }
}

impl Counts {
    /// Those of a node of which these are what its parts have.
    #[tactic(auto, unfolding(crate::specs::CountLevels::node))]
    pub fn node(self) -> Counts
        ensures { result ≡ spec.node self }
    {
        Counts {
            depth: one_more(self.depth),
            work: one_more(self.work),
        }
    }

    /// Those of two parts together.
    #[tactic(auto, unfolding(crate::specs::CountLevels::both))]
    pub fn both(self, other: Counts) -> Counts
        ensures { result ≡ spec.both self other }
    {
        Counts {
            depth: self.depth.max(other.depth),
            work: sum(self.work, other.work),
        }
    }

    /// Those of a part that is looked at this many times.
    #[tactic(auto, unfolding(crate::specs::CountLevels::times))]
    pub fn times(self, count: u64) -> Counts
        ensures { result ≡ spec.times count self }
    {
        Counts {
            depth: self.depth,
            work: product(count, self.work),
        }
    }
}

/// The counts that are known of a function or a macro rule, by its number.
#[tactic(auto, unfolding(crate::specs::CountLevels::known))]
pub(crate) fn known(counts: &[Counts], number: u16) -> Counts
    ensures { result ≡ spec.known counts.now number }
{
    match counts.get(usize::from(number)) {
        Some(counts) => *counts,
        None => nothing(),
    }
}
