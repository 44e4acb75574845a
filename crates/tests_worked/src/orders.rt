//! Lives as text, an order in each line, and what becomes of one.

/// The name of the order in a line.
fn name_in(line: &str) -> &str {
    match line.split_once(' ') {
        Some((name, _)) => name,
        None => line,
    }
}

/// Whether a life has the orders of `head` and one of that name behind them.
fn has_after(life: &str, head: &str, name: &str) -> bool {
    match life.rsplit_once('\n') {
        Some((first, last)) => first == head && name_in(last) == name,
        None => false,
    }
}

/// Whether the order of this line is the last one now, either one more than there were or the last of
/// them, and all others are as they were.
fn ends_in(before: &str, after: &str, line: &str) -> bool {
    match after.rsplit_once('\n') {
        Some((head, last)) => {
            last == line && (head == before || has_after(before, head, name_in(line)))
        }
        None => false,
    }
}

/// Whether a life is the one before, or ends in the order that is written.
pub(crate) fn is_life_behind(before: &str, behind: &str, order: &Option<String>) -> bool {
    match order {
        Some(line) => ends_in(before, behind, line.trim_start()),
        None => behind == before,
    }
}
