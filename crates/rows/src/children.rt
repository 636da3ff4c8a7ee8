// The children of each cabinet as lists, from the last to the first.
ghost use Rattle.std.specs.Prelude.{◌≡◌, false, ◌≤◌, MatchOption};
ghost use Rattle.sheet.specs.Limits.{max_cabinets};
ghost use Rattle.rows.specs.Cabinets.{falling};
ghost use Rattle.rows.specs.Reads.{ListsOf};

use sheet::Sheet;

// Each cabinet's last child, and the sibling before each cabinet; 0 where there is none, since the root is no child: an Option would take twice the
// memory.
#[derive(Drop)]
pub(crate) struct Children {
    pub(crate) last: [u16; Sheet::MAX_CABINETS],
    pub(crate) prior: [u16; Sheet::MAX_CABINETS],
}

// The lists of n cabinets, if every parent has a smaller number than its child.
pub(crate) fn children_of(parent: &[u16; Sheet::MAX_CABINETS], n: usize) -> Option<Children>
    requires { n ≤ max_cabinets }
    ensures { MatchOption result (falling n parent.now ≡ false) (λ lists. ListsOf n parent.now lists) }
{
    let mut lists = Children {
        last: [0; Sheet::MAX_CABINETS],
        prior: [0; Sheet::MAX_CABINETS],
    };
    for c in 1..n {
        let p = usize::from(parent[c]);
        if c <= p {
            return None;
        }
        lists.prior[c] = lists.last[p];
        lists.last[p] = c as u16;
    }
    Some(lists)
}
