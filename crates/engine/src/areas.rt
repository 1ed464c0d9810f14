// The regions of scratch, and pairs of numbers in a lent area.
ghost use Rattle.std.specs.Prelude.{◌≡◌, ◌+◌, ◌*◌, ◌≤◌, length};
ghost use Rattle.engine.specs.Pairs.{pair, put};

// Where each region of scratch starts: 128 entries, 1,024 popped entries, 256 and 256 attempts, 1,024 checkpoints.
pub const ENTRIES_AT: usize = 0;

pub const POPPED_AT: usize = 256;

pub const POSITIVES_AT: usize = 2304;

pub const NEGATIVES_AT: usize = 2560;

pub const LENGTHS_AT: usize = 2816;

// How many entries, popped entries, and attempts in a list there is room for.
pub const MOST_ENTRIES: usize = 128;

pub const MOST_DEBT: usize = 1024;

pub const MOST_ATTEMPTS: usize = 256;

// The pair at an index of the region.
pub(crate) fn pair_at(area: &[u32], region: usize, index: usize) -> (u32, u32)
    requires { region + index * 2 + 2 ≤ length area.now }
    ensures { result ≡ pair area.now (region + index * 2) }
{
    let at = region + index * 2;
    (area[at], area[at + 1])
}

pub(crate) fn put_pair(area: &mut [u32], region: usize, index: usize, x: (u32, u32))
    requires { region + index * 2 + 2 ≤ length area.old }
    ensures { area.new ≡ put area.old (region + index * 2) x.0 x.1 }
{
    let at = region + index * 2;
    area[at] = x.0;
    area[at + 1] = x.1;
}
