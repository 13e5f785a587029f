//! The words of the command line.
ghost use Rattle.std.specs.Prelude.{◌<◌, ◌≤◌, IfSome};

use asm_seats::MOST_STEPS;

/// The most seats of a book.
const MOST_SEATS: u32 = 64;

/// How many seats take part, and how many steps each makes that makes steps.
#[derive(Clone, Copy, Debug)]
pub struct Work {
    pub seats: u32,
    pub steps: u32,
    pub ghost few: { (0 < seats) × (seats ≤ 64) },
}

/// What the words ask for.
pub enum Asked {
    /// Each seat commits.
    Commits(Work),
    /// Seat 0 commits, and the others peek.
    Peeks(Work),
    /// One commit, for which an allocation may fail.
    Wanting,
    /// Memory was wanting for the words.
    Unread,
    /// Nothing that there is.
    Other,
}

/// The number that a word writes, if it is in this range. Takes no memory.
fn number_in(word: &str, least: u32, most: u32) -> Option<u32>
    ensures { IfSome result (λ n. (least ≤ n) × (n ≤ most)) }
{
    let number = word.parse::<u32>().ok()?;
    if least <= number && number <= most {
        Some(number)
    } else {
        None
    }
}

/// So many seats whose steps have room in one journal, all together.
fn commits_in(seats: &str, steps: &str) -> Option<Work> {
    let seats = number_in(seats, 1, MOST_SEATS)?;
    let steps = number_in(steps, 1, MOST_STEPS / seats)?;
    Some(Work { seats, steps })
}

/// One seat whose steps have room in the journal, beside others.
fn peeks_in(seats: &str, steps: &str) -> Option<Work> {
    let seats = number_in(seats, 2, MOST_SEATS)?;
    let steps = number_in(steps, 1, MOST_STEPS)?;
    Some(Work { seats, steps })
}

/// What three words ask for.
fn asked_of(word: &str, seats: &str, steps: &str) -> Asked {
    if word == "commits" {
        return match commits_in(seats, steps) {
            Some(work) => Asked::Commits(work),
            None => Asked::Other,
        };
    }
    if word == "peeks" {
        return match peeks_in(seats, steps) {
            Some(work) => Asked::Peeks(work),
            None => Asked::Other,
        };
    }
    Asked::Other
}

/// What the words ask for. Takes no memory.
pub fn asked_by(words: &[String]) -> Asked {
    match words {
        [word] => {
            if word.as_str() == "wanting" {
                Asked::Wanting
            } else {
                Asked::Other
            }
        }
        [word, seats, steps] => asked_of(word.as_str(), seats.as_str(), steps.as_str()),
        _ => Asked::Other,
    }
}
