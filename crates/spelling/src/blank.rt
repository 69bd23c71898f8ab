// What stands behind a blank.
ghost use Rattle.std.specs.Prelude.{◌≡◌, ◌≤◌, length, IfOk};
ghost use Rattle.std.specs.Fn.{FnOnceReturnsAt};
ghost use Rattle.spelling.specs.Blank.{Behind};

use telegram::item::Item;
use telegram::refusal::Fault;

// What is found behind the blank that stands first, and how many bytes it takes with that. That the bytes end comes before a missing blank.
pub fn behind_blank<'b, F>(bytes: &'b [u8], find: F) -> Result<(Item<'b>, usize), Fault>
where
    F: FnOnce(&'b [u8]) -> Result<(Item<'b>, usize), Fault>,
    requires callable { F.IsAlwaysCallable find }
    requires within { (behind : _) (found : _) → F.post find behind found → IfOk found (λ p. p.1 ≤ length behind.now) }
    ensures { Behind (λ bs found. FnOnceReturnsAt F.FnOnce find bs found) bytes.now result }
{
    let (blank, behind) = bytes.split_first().ok_or(Fault::Cut)?;
    let (item, taken) = find(behind)?;
    if *blank == b' ' {
        Ok((item, 1 + taken))
    } else {
        Err(Fault::Misspelt)
    }
}
