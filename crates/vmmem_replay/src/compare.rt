//! Where two lists of lines part.
ghost use Rattle.std.specs.Prelude.{◌≡◌, ◌↔◌, IsTrue, map, IfSome, IfNone};
ghost use Rattle.vmmem_replay.specs.Compare.{PartAt};

// Whether two lines are the same.
fn is_same(wanted: &[u8], came: &[u8]) -> bool
    ensures { IsTrue result ↔ (wanted.now ≡ came.now) }
{
    wanted == came
}

/// The place of the first line in which the lists are not the same. A line that one list lacks counts as such.
pub fn first_difference(wanted: &[&[u8]], came: &[&[u8]]) -> Option<usize>
    ensures same { IfNone result (map (λ line. line.now) wanted.now ≡ map (λ line. line.now) came.now) }
    ensures parts { IfSome result (PartAt (map (λ line. line.now) wanted.now) (map (λ line. line.now) came.now)) }
{
    let both = wanted.len().min(came.len());
    for place in 0..both {
        let (one, other) = (wanted[place], came[place]);
        if !is_same(one, other) {
            return Some(place);
        }
    }
    if wanted.len() == came.len() {
        return None;
    }
    Some(both)
}
