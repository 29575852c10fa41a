// The choice of the heaviest mouths of a run, by keys of which the heavier mouth has the larger.
ghost use Rattle.std.specs.Prelude.{◌+◌, ◌*◌, ◌-◌, ◌≤◌, ◌<◌, max, min, ◌≡◌, false, length, get_or};
ghost use Rattle.rivers.specs.Layout.{Layout};
ghost use Rattle.rivers.specs.UnitAt.{UnitAt};
ghost use Rattle.rivers.specs.Cut.{CutOf};

use crate::keys::key_at;

// Whether no mouth that counts was met, and the four largest keys of those that were, the largest first; where there
// are fewer, the least key that counts.
#[derive(Clone, Copy)]
struct Top {
    finished: bool,
    keys: [u64; 4],
}

impl Top {
    // One more mouth that counts.
    fn with(self, key: u64) -> Top
        ensures met { result.finished ≡ false }
        ensures first { get_or result.keys 0 0 ≡ max (get_or self.keys 0 0) key }
        ensures second { get_or result.keys 1 0 ≡ max (get_or self.keys 1 0) (min (get_or self.keys 0 0) key) }
        ensures third { get_or result.keys 2 0 ≡ max (get_or self.keys 2 0) (min (get_or self.keys 1 0) key) }
        ensures fourth { get_or result.keys 3 0 ≡ max (get_or self.keys 3 0) (min (get_or self.keys 2 0) key) }
    {
        let [a, b, c, d] = self.keys;
        Top {
            finished: false,
            keys: [
                a.max(key),
                b.max(a.min(key)),
                c.max(b.min(key)),
                d.max(c.min(key)),
            ],
        }
    }

    // The key of the lightest of `split` mouths.
    fn nth(self, split: usize) -> u64
        requires { (1 ≤ split) × (split ≤ 4) }
        ensures { result ≡ get_or self.keys (split - 1) 0 }
    {
        self.keys[split - 1]
    }
}

// The rule by which mouths of a unit are taken: at most `split`, which is 1 to 4, of those with an area of `least` or
// more.
#[derive(Clone, Copy)]
pub struct Rule {
    pub split: usize,
    pub least: u32,
}

// Whether a unit is finished, and the least key that is taken.
#[derive(Clone, Copy)]
pub struct Cut {
    pub finished: bool,
    pub key: u64,
}

// Where a unit stands: at positions `lo` to `hi`, without `hi`, of a river whose subtree ends at `end`.
#[derive(Clone, Copy)]
pub struct UnitSpan {
    pub lo: usize,
    pub hi: usize,
    pub end: usize,
}

// The mouths that are taken of the unit at `span`.
pub fn heaviest(span: UnitSpan, rule: Rule, cell: &[u32], size: &[u32], area: &[u32]) -> Cut
    requires hi_in_bounds { span.hi ≤ length cell.now }
    requires layout { Layout cell.now size.now (length area.now) }
    requires le_split { (1 ≤ rule.split) × (rule.split ≤ 4) }
    ensures { (u : UnitAt cell.now size.now area.now rule.split
        rule.least span.end span.lo span.hi) → CutOf u.of.network u.run result.finished result.key }
{
    let hi = span.hi;
    let end = span.end;
    let floor = (rule.least as u64) * 65536;
    let mut top = Top {
        finished: true,
        keys: [floor; 4],
    };
    // A `while`, since a turn leaps over the subtree of a mouth.
    let mut j = span.lo;
    while j < hi {
        let s = size[j] as usize;
        if j + s == end {
            j += 1;
        } else {
            let key = key_at(j, cell, area);
            if key < top.keys[3] {
                j += s;
            } else {
                top = top.with(key);
                j += s;
            }
        }
    }
    Cut {
        finished: top.finished,
        key: top.nth(rule.split),
    }
}
