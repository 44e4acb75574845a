ghost use Rattle.std.specs.Prelude.{◌≡◌, length, filter, is_some};

use osb_standing::InstanceRow;
use osb_text::Text;

/// How many instances and bindings there are that aren't absent, and how many orders run.
#[derive(Clone, Copy, Debug, PartialEq, Eq)]
pub struct Counts {
    pub instances: usize,
    pub bindings: usize,
    pub running: usize,
}

/// How many of the instances aren't absent.
pub fn count_there(instances: &[(Text, InstanceRow)]) -> usize
    ensures { result ≡ length (filter (λ entry. is_some entry.1.standing) instances.now) }
{
    let mut count = 0;
    for (_, row) in instances {
        if row.standing.is_some() {
            count += 1;
        }
    }
    count
}

/// How many of the instances have a last order that runs.
pub fn count_busy(instances: &[(Text, InstanceRow)]) -> usize
    ensures { result ≡ length (filter (λ entry. entry.1.busy) instances.now) }
{
    let mut count = 0;
    for (_, row) in instances {
        if row.busy {
            count += 1;
        }
    }
    count
}
